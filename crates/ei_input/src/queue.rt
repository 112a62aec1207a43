//! What waits to be handed out.

ghost use Rattle.std.specs.Prelude.{◌≡◌, ◌↔◌, ◌≤◌, ◌<◌, ◌+◌, ◌++◌, ◌∷◌, [], IsTrue, OnOk, OnErr, length};
ghost use Rattle.ei_input.specs.Queue.{first_of, rest_of};

use std::alloc::{AllocError, Global};
use std::collections::VecDeque;
use std::marker::Model;
use std::mem;

/// What waits to be handed out, the oldest first.
///
/// All is handed out at once, which moves nothing where the caller's vector is empty: it takes the place of the one that
/// held them. Where it is taken one by one, all that waits becomes the first ones, and what is queued meanwhile comes
/// behind them.
#[derive(Drop)]
pub struct Queue<T> {
    first: VecDeque<T>,
    rest: Vec<T>,
}

impl<T> Model for Queue<T> {
    ghost use Rattle.std.specs.Prelude.{◌++◌, ◌-◌};
    ghost use Rattle.std.specs.Vec.{vec_len, vec_capacity};
    ghost use Rattle.ei_input.specs.Queue.{QueueView};

    ghost Value = { QueueView T };

    ghost view = { λ q. record {
      items = q.first.items ++ q.rest.items;
      newest = vec_len q.rest;
      room = vec_capacity q.rest - vec_len q.rest;
    } };
}

impl<T: Drop> Queue<T> {
    /// Nothing waits.
    pub fn new(alloc: Global) -> Queue<T>
        ensures { result.items ≡ [] }
    {
        Queue {
            first: VecDeque::new(alloc),
            rest: Vec::new(alloc),
        }
    }

    /// How many wait.
    pub fn len(&self) -> usize
        ensures { result ≡ length self.now.items }
    {
        self.first.len() + self.rest.len()
    }

    /// Makes room for what so many inputs become, for their frame, and for one more.
    pub fn reserve_group(&mut self, inputs: usize) -> Result<(), AllocError>
        ensures items { self.new.items ≡ self.old.items }
        ensures ok { OnOk result (inputs + 2 ≤ self.new.room) }
    {
        self.rest.reserve(inputs.saturating_add(2))
    }

    /// Whether there is room for what so many inputs become, for their frame, and for one more.
    #[inline(always)]
    pub fn fits_group(&self, inputs: usize) -> bool
        ensures { IsTrue result ↔ (inputs + 2 ≤ self.now.room) }
    {
        let room = self.rest.capacity() - self.rest.len();
        inputs < room.saturating_sub(1)
    }

    /// Makes room for so many more.
    pub fn reserve(&mut self, additional: usize) -> Result<(), AllocError>
        ensures items { self.new.items ≡ self.old.items }
        ensures ok { OnOk result (additional ≤ self.new.room) }
    {
        self.rest.reserve(additional)
    }

    /// Adds one. There is room for it.
    #[inline]
    pub fn push_reserved(&mut self, item: T)
        requires { 0 < self.old.room }
        ensures items { self.new.items ≡ self.old.items ++ item ∷ [] }
        ensures room { self.new.room + 1 ≡ self.old.room }
    {
        self.rest.push_reserved(item);
    }

    /// Takes the oldest.
    pub fn take_first(&mut self) -> Option<T>
        ensures first { result ≡ first_of self.old.items }
        ensures rest { self.new.items ≡ rest_of self.old.items }
    {
        if self.first.is_empty() {
            let alloc = *self.rest.allocator();
            let spare = mem::replace(&mut self.first, VecDeque::new(alloc)).into_vec();
            self.first = VecDeque::from_vec(mem::replace(&mut self.rest, spare));
        }
        self.first.pop_front()
    }

    /// Takes the newest out, so that a call can put more behind them. They come back by `put_newest`.
    pub fn take_newest(&mut self) -> Vec<T>
        ensures items { self.old.items ≡ self.new.items ++ result.items }
        ensures none { self.new.newest ≡ 0 }
    {
        let alloc = *self.rest.allocator();
        mem::replace(&mut self.rest, Vec::new(alloc))
    }

    /// Puts these behind all that wait, where the newest are taken out.
    pub fn put_newest(&mut self, newest: Vec<T>)
        requires none { self.old.newest ≡ 0 }
        ensures { self.new.items ≡ self.old.items ++ newest.items }
    {
        self.rest = newest;
    }

    /// Moves all behind `out`, or none. A refusal is want of memory.
    #[inline]
    pub fn drain_into(&mut self, out: &mut Vec<T>) -> Result<(), AllocError>
        ensures out { OnOk result (out.new.items ≡ out.old.items ++ self.old.items) }
        ensures emptied { OnOk result (self.new.items ≡ []) }
        ensures kept { OnErr result (out.new.items ≡ out.old.items) }
        ensures stay { OnErr result (self.new.items ≡ self.old.items) }
    {
        if !self.first.is_empty() {
            return self.drain_behind(out);
        }
        if out.is_empty() {
            mem::swap(out, &mut self.rest);
            return Ok(());
        }
        out.append(&mut self.rest)
    }

    /// The same, where some are the first ones, or something is in `out`.
    #[inline(never)]
    fn drain_behind(&mut self, out: &mut Vec<T>) -> Result<(), AllocError>
        ensures out { OnOk result (out.new.items ≡ out.old.items ++ self.old.items) }
        ensures emptied { OnOk result (self.new.items ≡ []) }
        ensures kept { OnErr result (out.new.items ≡ out.old.items) }
        ensures stay { OnErr result (self.new.items ≡ self.old.items) }
    {
        let alloc = *self.rest.allocator();
        let mut all = mem::replace(&mut self.first, VecDeque::new(alloc)).into_vec();
        let joined = all.append(&mut self.rest);
        if joined.is_err() {
            self.first = VecDeque::from_vec(all);
            return joined;
        }
        let moved = out.append(&mut all);
        self.rest = all;
        moved
    }
}
