//! Messages, counted as they are read.

ghost use Rattle.std.specs.Prelude.{◌≡◌, ◌+◌, ◌-◌, ◌^◌, min};
ghost use Rattle.reis_bench.specs.Tally.{refused_by};

use ei_backend::PendingRequestResult;

/// How many messages were read.
#[derive(Clone, Copy)]
pub(crate) struct Tally {
    /// All of them.
    pub(crate) messages: u64,
    /// Those that were refused, or went to no object.
    pub(crate) refused: u64,
}

impl Tally {
    /// None yet.
    pub(crate) fn new() -> Tally
        ensures messages { result.messages ≡ 0 }
        ensures refused { result.refused ≡ 0 }
    {
        Tally {
            messages: 0,
            refused: 0,
        }
    }

    /// Counts so many messages.
    pub(crate) fn count_messages(&mut self, messages: u64)
        ensures messages { self.new.messages ≡ min (self.old.messages + messages) (2 ^ 64 - 1) }
        ensures refused { self.new.refused ≡ self.old.refused }
    {
        self.messages = self.messages.saturating_add(messages);
    }

    /// Counts one of them as refused.
    pub(crate) fn count_refusal(&mut self)
        ensures messages { self.new.messages ≡ self.old.messages }
        ensures refused { self.new.refused ≡ min (self.old.refused + 1) (2 ^ 64 - 1) }
    {
        self.refused = self.refused.saturating_add(1);
    }

    /// Counts a message by what was read of it.
    pub(crate) fn count<T>(&mut self, read: &PendingRequestResult<T>)
        ensures messages { self.new.messages ≡ min (self.old.messages + 1) (2 ^ 64 - 1) }
        ensures refused { self.new.refused ≡ min (self.old.refused + refused_by read.now) (2 ^ 64 - 1) }
    {
        self.messages = self.messages.saturating_add(1);
        let refused = match read {
            PendingRequestResult::Request(_) => 0,
            PendingRequestResult::ParseError(_) | PendingRequestResult::InvalidObject(_) => 1,
        };
        self.refused = self.refused.saturating_add(refused);
    }
}
