//! Why a client is ended.

ghost use Rattle.std.specs.Prelude.{◌≡◌};
ghost use Rattle.reis_strict.specs.Faults.{fault_text};

/// Why a client is ended: what it did that no race explains.
#[derive(Clone, Copy, Debug, PartialEq, Eq)]
pub enum Fault {
    /// A receiver sent an input, a frame, or the start or stop of emulating.
    OfReceiver,
    /// It starts emulating on a device on which it does.
    StartedTwice,
    /// It stops emulating on a device on which it doesn't.
    NotStarted,
    /// An input or a frame of a device on which it doesn't emulate.
    NotEmulating,
}

impl Fault {
    /// What it is in words for people, as an explanation of `disconnected`.
    pub fn text(&self) -> &'static str
        ensures { result.now ≡ fault_text self.now }
    {
        match self {
            Fault::OfReceiver => "events of a receiver",
            Fault::StartedTwice => "start_emulating while emulating",
            Fault::NotStarted => "stop_emulating without start_emulating",
            Fault::NotEmulating => "input without start_emulating",
        }
    }
}
