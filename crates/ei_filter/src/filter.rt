//! Rules over a record, with a closure for its times.

ghost use Rattle.std.specs.Prelude.{◌≡◌, ◌<◌, ◌++◌, ◌∷◌, ◌↔◌, ℕ, [], length, map, OnErr, OnOk, IfOk, IfSome, IsSome, Some, None, true, slice_get, slice_set};
ghost use Rattle.ei_replay.specs.Asked.{asked_of};
ghost use Rattle.ei_filter.specs.Sifted.{is_let};
ghost use Rattle.ei_filter.specs.Kinds.{kind_of};
ghost use Rattle.ei_filter.specs.Steps.{group_for, time_for, if_timed, handed, IsTimeOf, PassesInput, InputGoes, Goes};

use crate::kind::{Kind, Touch, kind_of};
use crate::past::{Group, Past, group_for, time_for};
use crate::retimed::at_time;
use crate::rule::{Rule, lets, set_enabled};
use ei_request::EisRequest;
use ei_wire::NoMemory;
use std::alloc::Global;

/// Rules, in the order in which they were added, and a closure that gives each frame its new time, in microseconds.
#[derive(Drop)]
pub struct Filter<F: Fn(u64) -> u64> {
    shift: F,
    rules: Vec<Box<dyn Rule>>,
}

impl<F: Fn(u64) -> u64> Filter<F> {
    ghost use Rattle.ei_filter.specs.Filters.{shift_of, rules_of};
    ghost use Rattle.ei_filter.specs.Sifts.{enabled, Sifts, SiftsInPart};

    /// No rules, with this closure. It may be called with every time.
    pub fn new(alloc: Global, shift: F) -> Filter<F>
        requires { F.IsAlwaysCallable shift }
        ensures shift { shift_of result ≡ shift }
        ensures none { rules_of result ≡ [] }
    {
        Filter {
            shift,
            rules: Vec::new(alloc),
        }
    }

    /// Adds a rule behind the others.
    ///
    /// `NoMemory`: nothing changes, and the rule is gone.
    pub fn add_rule(&mut self, rule: Box<dyn Rule>) -> Result<(), NoMemory>
        ensures ok { OnOk result (rules_of self.new ≡ rules_of self.old ++ rule ∷ []) }
        ensures err { OnErr result (rules_of self.new ≡ rules_of self.old) }
        ensures shift { shift_of self.new ≡ shift_of self.old }
    {
        self.rules.push(rule)?;
        Ok(())
    }

    /// How many rules there are.
    pub fn rule_count(&self) -> usize
        ensures { result ≡ length (rules_of self.now) }
    {
        self.rules.len()
    }

    /// The rule of that place is asked from now on, or isn't. There is one.
    pub fn enable(&mut self, index: usize, on: bool)
        requires { index < length (rules_of self.old) }
        ensures asked { map (λ r. asked r) (rules_of self.new) ≡
            slice_set (map (λ r. asked r) (rules_of self.old)) index on }
        ensures tests { map (λ r. test r) (rules_of self.new) ≡ map (λ r. test r) (rules_of self.old) }
        ensures others { (k : ℕ) → (k ≡ index → ⊥) →
            slice_get (rules_of self.new) k ≡ slice_get (rules_of self.old) k }
        ensures shift { shift_of self.new ≡ shift_of self.old }
    {
        set_enabled(&mut self.rules[index], on);
    }

    /// Takes the last rule out; `None` exactly where there is none.
    pub fn pop_rule(&mut self) -> Option<Box<dyn Rule>>
        ensures last { IfSome result (λ r. rules_of self.old ≡ rules_of self.new ++ r ∷ []) }
        ensures none { result ≡ None ↔ rules_of self.old ≡ [] }
        ensures kept { rules_of self.old ≡ [] → rules_of self.new ≡ [] }
        ensures shift { shift_of self.new ≡ shift_of self.old }
    {
        self.rules.pop()
    }

    /// Hands out what passes of a record, behind what `out` has.
    ///
    /// A frame passes where an input of its group does, which are the inputs of its device right before it. Such an input
    /// passes where the rules that are asked let it through; the end of a touch where its begin passed, whatever the rules
    /// say, and its motion only where its begin passed. What is no input and no frame passes. The closure is asked once for
    /// each frame that passes, with the time of that frame; the frame and its group bear the answer.
    ///
    /// `NoMemory`: a front of that was handed out.
    pub fn sift(
        &self,
        alloc: Global,
        items: &[EisRequest],
        out: &mut Vec<EisRequest>,
    ) -> Result<(), NoMemory>
        requires { F.IsAlwaysCallable (shift_of self.now) }
        ensures ok { OnOk result (Sifts asked_of (F.post (shift_of self.now))
            (enabled (λ r. test r) (λ r. asked r) (rules_of self.now)) (map asked_of items.now)
            out.old.items out.new.items) }
        ensures part { OnErr result (SiftsInPart asked_of (F.post (shift_of self.now))
            (enabled (λ r. test r) (λ r. asked r) (rules_of self.now)) (map asked_of items.now)
            out.old.items out.new.items) }
    {
        let mut past = Past::new(alloc);
        let mut later = items;
        while let Some((item, rest)) = later.split_first() {
            let kept = self.kept(alloc, item, rest, &mut past)?;
            hand_out(kept, out)?;
            later = rest;
        }
        Ok(())
    }

    /// The item as it is handed out, with these behind it, if it passes.
    fn kept(
        &self,
        alloc: Global,
        item: &EisRequest,
        later: &[EisRequest],
        past: &mut Past,
    ) -> Result<Option<EisRequest>, NoMemory>
        requires { F.IsAlwaysCallable self.now.shift }
        ensures { IfOk result (λ r. Goes (F.post self.now.shift)
            (is_let (enabled (λ r. test r) (λ r. asked r) self.now.rules.items) (asked_of item.now))
            (map asked_of later.now) (asked_of item.now) (kind_of (asked_of item.now))
            past.old past.new (map asked_of (handed r))) }
    {
        match kind_of(item) {
            Kind::Input { device, touch } => {
                self.kept_input(alloc, item, device, touch, later, past)
            }
            Kind::Frame { device, .. } => kept_frame(alloc, item, device, past),
            Kind::Other => {
                past.group = None;
                Ok(Some(item.copy(alloc)?))
            }
        }
    }

    /// The same, of an input of the device.
    fn kept_input(
        &self,
        alloc: Global,
        item: &EisRequest,
        device: u64,
        touch: Touch,
        later: &[EisRequest],
        past: &mut Past,
    ) -> Result<Option<EisRequest>, NoMemory>
        requires { F.IsAlwaysCallable self.now.shift }
        ensures { IfOk result (λ r. InputGoes (F.post self.now.shift)
            (group_for device (map asked_of later.now) past.old.group) device touch
            (is_let (enabled (λ r. test r) (λ r. asked r) self.now.rules.items) (asked_of item.now))
            (asked_of item.now) past.old past.new (map asked_of (handed r))) }
    {
        let mut group = group_for(past.group, device, later);
        let is_let = lets(&self.rules, item);
        let passes = group.frame.is_some() && past.begun.passes(device, touch, is_let);
        past.begun.note(device, touch, passes)?;
        let kept = self.kept_in(alloc, item, passes, &mut group)?;
        past.group = Some(group);
        Ok(kept)
    }

    /// The input of the group as it is handed out, if it passes.
    fn kept_in(
        &self,
        alloc: Global,
        item: &EisRequest,
        passes: bool,
        group: &mut Group,
    ) -> Result<Option<EisRequest>, NoMemory>
        requires call { F.IsAlwaysCallable self.now.shift }
        requires framed { passes ≡ true → IsSome group.old.frame }
        ensures { IfOk result (λ r. PassesInput (F.post self.now.shift) passes group.old (asked_of item.now)
            (Some group.new) (map asked_of (handed r))) }
    {
        if !passes {
            return Ok(None);
        }
        let time = self.time_of(group);
        Ok(Some(at_time(alloc, item, time)?))
    }

    /// The new time of the group, which has a frame: the closure is asked for the first input that passes.
    fn time_of(&self, group: &mut Group) -> u64
        requires call { F.IsAlwaysCallable self.now.shift }
        requires framed { IsSome group.old.frame }
        ensures time { IsTimeOf (F.post self.now.shift) group.old.frame group.old.time result }
        ensures group { group.new ≡ record group.old { time = Some result } }
    {
        if let Some(time) = group.time {
            return time;
        }
        let time = (self.shift)(group.frame.unwrap());
        group.time = Some(time);
        time
    }
}

/// The frame of the device as it is handed out, if it passes.
fn kept_frame(
    alloc: Global,
    item: &EisRequest,
    device: u64,
    past: &mut Past,
) -> Result<Option<EisRequest>, NoMemory>
    ensures kept { IfOk result (λ r.
        map asked_of (handed r) ≡ if_timed (time_for device past.old.group) (asked_of item.now)) }
    ensures group { past.new.group ≡ None }
    ensures begun { past.new.begun ≡ past.old.begun }
{
    let time = time_for(past.group, device);
    past.group = None;
    match time {
        Some(time) => Ok(Some(at_time(alloc, item, time)?)),
        None => Ok(None),
    }
}

/// Puts the item behind all, if there is one.
///
/// `NoMemory`: nothing changes.
fn hand_out(item: Option<EisRequest>, out: &mut Vec<EisRequest>) -> Result<(), NoMemory>
    ensures ok { OnOk result (out.new.items ≡ out.old.items ++ handed item) }
    ensures err { OnErr result (out.new.items ≡ out.old.items) }
{
    if let Some(item) = item {
        out.push(item)?;
    }
    Ok(())
}
