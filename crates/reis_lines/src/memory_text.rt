//! A text in memory.

ghost use Rattle.std.specs.Prelude.{◌≡◌, ◌<◌, ◌≤◌, min, [], Some, drop, length, OnOk, OnErr, IfOk, IsErr};
ghost use Rattle.ei_backend.specs.Memory.{CountsCall, KeepsFailing, added, never_failing, keeps_failing, keeps_failing_twice};
ghost use Rattle.reis_lines.specs.Input.{IsFetch, input_of};

use crate::given::Given;
use crate::input::Input;
use ei_backend::{Failing, Fault, LastAnswer};
use ei_wire::NoMemory;
use std::alloc::Global;
use std::marker::Model;

/// An input in memory: it gives the text that it was made of, as much at a time as there is room for.
#[derive(Drop)]
pub struct MemoryText {
    text: Vec<u8>,
    next: usize,
    given: Given,
    failing: Failing,
    last: LastAnswer,
}

impl Model for MemoryText {
    ghost use Rattle.std.specs.Prelude.{◌≤◌, drop, vec_len};
    ghost use Rattle.reis_lines.specs.Input.{TextView};

    ghost Value = { TextView };

    ghost view = { λ s. record {
      left = drop s.next s.text.items;
      given = s.given.bytes;
      fetches = s.given.fetches;
      failing = s.failing;
      last = s.last;
    } };

    ghost invariant = { λ s. s.next ≤ vec_len s.text };
}

impl MemoryText {
    /// An input that gives this text, and never fails.
    pub fn new(alloc: Global, text: &[u8]) -> Result<MemoryText, NoMemory>
        ensures { IfOk result (λ t. t ≡
            record { left = text.now; given = []; fetches = []; failing = never_failing; last = LastAnswer.Nothing }) }
    {
        Ok(MemoryText {
            text: text.to_vec(alloc)?,
            next: 0,
            given: Given::new(),
            failing: Failing::never(alloc),
            last: LastAnswer::Nothing,
        })
    }

    /// The `fetch` of that number, from 1, fails and moves nothing.
    pub fn fail_at(&mut self, call: u32) -> Result<(), NoMemory>
        ensures ok { OnOk result (self.new ≡ record self.old { failing = added call self.old.failing }) }
        ensures err { OnErr result (self.new ≡ self.old) }
    {
        self.failing.add(call)
    }
}

impl Input for MemoryText {
    ghost view = { input_of };

    ghost later = { λ s t. KeepsFailing s.failing t.failing };

    ghost later_refl = { λ s. keeps_failing s.failing };

    ghost later_trans = { λ s t u first second. keeps_failing_twice s.failing t.failing u.failing first second };

    fn fetch(&mut self, bytes: &mut [u8]) -> Result<usize, Fault>
        requires { 0 < length bytes.old }
        ensures size { IfOk result (λ n. n ≤ length bytes.new) }
        ensures fetches { IsFetch (input_of self.old) (input_of self.new) result bytes.new }
        // beyond the trait's: which calls fail, and all that there is room for
        ensures counts { CountsCall (IsErr result) self.old.failing self.new.failing }
        ensures whole { IfOk result (λ n. n ≡ min (length self.old.left) (length bytes.old)) }
        // what the slice holds besides
        ensures behind { IfOk result (λ n. drop n bytes.new ≡ drop n bytes.old) }
        ensures err { OnErr result (bytes.new ≡ bytes.old) }
    {
        if self.failing.fails_next() {
            self.given.note_fault();
            self.last = LastAnswer::Fault;
            return Err(Fault);
        }
        let left = &self.text[self.next..];
        let count = left.len().min(bytes.len());
        bytes[..count].copy_from_slice(&left[..count]);
        self.given.note(&bytes[..count]);
        self.next += count;
        self.last = LastAnswer::at(count);
        Ok(count)
    }
}
