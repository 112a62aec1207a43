//! Records that rules are asked about.

use super::rules::{Change, NoDown, NoUp, Nothing, change_of};
use super::spelled::{items_of, put_items};
use ei_filter::Filter;
use ei_request::{Device, EisRequest};
use std::alloc::Global;
use test_table::{Answer, Reader, Stop};

/// What a time becomes: the quotient by the number, and 0 for the number 0.
fn shifted(by: u64, time: u64) -> u64 {
    match by {
        0 => 0,
        _ => time / by,
    }
}

/// `sift BY RULE .. : ITEM ; ITEM ..`: what passes, which is the record then. Where memory ran out, what had been handed out
/// by then.
pub(crate) fn sift(
    alloc: Global,
    devices: &[Device],
    words: &mut Reader<'_>,
    record: &mut Vec<EisRequest>,
    answer: &mut Answer,
) {
    let by = words.id();
    let (rules, line) = words.rest().split_once(':').unwrap_or((words.rest(), ""));
    let items = items_of(alloc, devices, line, answer);
    let mut told = Answer::new(alloc);
    record.clear();
    if !filtered(alloc, rules, by, &items, record, &mut told) {
        answer.put("out of memory : ");
    }
    drop(items);
    drop(answer.take(told.text()));
    put_items(devices, record, answer);
}

/// `rules RULE ..`: what is told of these rules.
pub(crate) fn put_rules(alloc: Global, words: &mut Reader<'_>, answer: &mut Answer) {
    let mut record = Vec::new(alloc);
    if !filtered(alloc, words.rest(), 1, &[], &mut record, answer) {
        answer.stop(Stop::NoMemory);
    }
    drop(record);
}

/// Hands out what passes of the items by these rules, at times divided by that number; and tells how many rules there
/// are, with what `take_out` tells of each. Whether there was memory for it.
fn filtered(
    alloc: Global,
    rules: &str,
    by: u64,
    items: &[EisRequest],
    out: &mut Vec<EisRequest>,
    told: &mut Answer,
) -> bool {
    let mut filter = Filter::new(alloc, move |time| shifted(by, time));
    for word in rules.split(' ') {
        match told.take(change_of(word)) {
            Some(Change::NoDown(touch)) => {
                if let Some(rule) = told.take(Box::new(alloc, NoDown { touch, on: true })) {
                    told.take(filter.add_rule(rule));
                }
            }
            Some(Change::NoUp) => {
                if let Some(rule) = told.take(Box::new(alloc, NoUp { on: true })) {
                    told.take(filter.add_rule(rule));
                }
            }
            Some(Change::Nothing) => {
                if let Some(rule) = told.take(Box::new(alloc, Nothing { on: true })) {
                    told.take(filter.add_rule(rule));
                }
            }
            Some(Change::Enable(place, on)) => enable(&mut filter, place, on, told),
            Some(Change::Same) | None => {}
        }
    }
    let sifted = filter.sift(alloc, items, out).is_ok();
    told.display(&filter.rule_count());
    take_out(filter, told);
    sifted
}

/// The rule of that place is asked from now on, or isn't, if there is one.
fn enable<F: Fn(u64) -> u64>(filter: &mut Filter<F>, place: usize, on: bool, told: &mut Answer) {
    if place < filter.rule_count() {
        filter.enable(place, on);
    } else {
        told.stop(Stop::Line);
    }
}

/// Takes the rules out, and tells of each, the last one first, whether it is asked.
fn take_out<F: Fn(u64) -> u64>(mut filter: Filter<F>, told: &mut Answer) {
    for _ in 0..=filter.rule_count() {
        match filter.pop_rule() {
            Some(rule) => {
                told.put(if rule.enabled() { " on" } else { " off" });
                drop(rule);
            }
            None => told.put(" none"),
        }
    }
}
