//! A record without the text that was put in.

ghost use Rattle.reis_uses.specs.Rules.{no_text};

use crate::stop::Stop;
use ei_filter::{Filter, Rule};
use ei_request::EisRequest;
use ei_types::Error;
use ei_wire::NoMemory;
use std::alloc::Global;
use std::io::Print;

/// A rule that lets all through but text.
#[derive(Drop)]
struct NoText {
    is_asked: bool,
}

impl Rule for NoText {
    ghost test = { λ r. no_text };

    ghost asked = { λ r. r.is_asked };

    fn keeps(&self, request: &EisRequest) -> bool {
        !matches!(request, EisRequest::TextUtf8(_) | EisRequest::TextKeysym(_))
    }

    fn enabled(&self) -> bool {
        self.is_asked
    }

    fn set_enabled(&mut self, on: bool) {
        self.is_asked = on;
    }
}

/// Adds what passes of a record by that rule, at half its times.
fn push_without_text(
    alloc: Global,
    record: &[EisRequest],
    passed: &mut Vec<EisRequest>,
) -> Result<(), NoMemory> {
    let mut filter = Filter::new(alloc, |time| time / 2);
    filter.add_rule(Box::new(alloc, NoText { is_asked: true })?)?;
    filter.sift(alloc, record, passed)
}

/// Shows how much of these requests passes.
pub(crate) fn show_sifted<R: Print + AllocGlobal>(
    rt: &R,
    record: &[EisRequest],
) -> Result<(), Stop> {
    let mut passed = Vec::new(rt.alloc());
    let sifted = push_without_text(rt.alloc(), record, &mut passed);
    let things = passed.len();
    // Let go by a call: at the end of a scope the drop of each field is proved anew.
    drop(passed);
    match sifted {
        Ok(()) => println!(rt; "without text it asked for {things} things")?,
        Err(NoMemory) => return Err(Stop::Session(Error::NoMemory)),
    }
    Ok(())
}
