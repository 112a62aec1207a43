//! The lines of a table.

use crate::names::Names;
use crate::stop::Stop;
use std::alloc::Global;
use std::io::{Input, Print};

/// What answers the calls of a table.
pub trait Answers {
    /// What the call answers.
    fn answer(&mut self, alloc: Global, call: &str) -> Result<String, Stop>;

    /// Whether what was found is what is wanted: blanks at the ends don't count.
    fn is_wanted(&self, _alloc: Global, found: &str, wanted: &str) -> Result<bool, Stop> {
        Ok(found.trim_end() == wanted.trim_end())
    }
}

/// How many lines of the table on the standard input are as they should be. Shows each one that isn't, above what was
/// found.
pub fn count_right<R, A>(rt: &R, calls: &mut A) -> Result<usize, Stop>
where
    R: Input + Print + AllocGlobal,
    A: Answers,
{
    let mut names = Names::new(rt.alloc());
    let mut right = 0usize;
    for line in rt.lines(rt.alloc()) {
        if is_right(rt, &mut names, calls, line?.as_str())? {
            right = right.saturating_add(1);
        }
    }
    Ok(right)
}

/// Whether the line is a call that answers as it should.
fn is_right<R, A>(rt: &R, names: &mut Names, calls: &mut A, line: &str) -> Result<bool, Stop>
where
    R: Print + AllocGlobal,
    A: Answers,
{
    if let Some(definition) = line.strip_prefix("let ") {
        names.define(definition)?;
        return Ok(false);
    }
    let Some((call, wanted)) = line.split_once(" | ") else {
        return Ok(false);
    };
    let call = names.expanded(call)?;
    let found = calls.answer(rt.alloc(), call.as_str())?;
    let wanted = names.expanded(wanted)?;
    let right = calls.is_wanted(rt.alloc(), found.as_str(), wanted.as_str())?;
    if !right {
        println!(rt; "wanted of {line}")?;
        println!(rt; "found  {found}")?;
    }
    Ok(right)
}
