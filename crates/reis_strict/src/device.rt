//! What is kept of a device.

ghost use Rattle.std.specs.Prelude.{◌≡◌, OnOk, OnErr, IfOk, IsTrue};
ghost use Rattle.reis_strict.specs.Policy.{by_state, by_change};
ghost use Rattle.reis_strict.specs.declared.verdict.Verdict.TheVariants.{Pass};
ghost use Rattle.reis_strict.specs.Devices.{at_rest, is_down_on, after_deed, behind, goes_down, turned};

use crate::act::{Deed, Kind, Switch};
use crate::codes::Codes;
use crate::fault::Fault;
use crate::verdict::Verdict;
use ei_wire::NoMemory;
use std::alloc::Global;

/// What a client may do with a device.
#[derive(Clone, Copy, Debug, PartialEq, Eq)]
pub(crate) enum State {
    /// The device is paused, wasn't resumed yet, or is gone: nothing of it counts.
    Paused,
    /// It was resumed, and the client doesn't emulate: it may start.
    Resumed,
    /// The client emulates: it may send inputs and frames, and stop.
    Emulating,
}

/// What is kept of a device: its id, its state, and the codes of the keys and of the buttons that are down on it.
#[derive(Drop)]
pub(crate) struct KnownDevice {
    pub(crate) id: u64,
    pub(crate) state: State,
    pub(crate) keys: Codes,
    pub(crate) buttons: Codes,
}

impl KnownDevice {
    /// A device of that id and in that state, on which nothing is down.
    pub(crate) fn new(alloc: Global, id: u64, state: State) -> KnownDevice
        ensures { result ≡ at_rest id state }
    {
        KnownDevice {
            id,
            state,
            keys: Codes::new(alloc),
            buttons: Codes::new(alloc),
        }
    }

    /// It goes to that state, and nothing is down on it any more.
    pub(crate) fn rest(&mut self, state: State)
        ensures { self.new ≡ at_rest self.old.id state }
    {
        self.state = state;
        self.keys.clear();
        self.buttons.clear();
    }

    /// What becomes of a deed, which is done where it passes.
    ///
    /// `NoMemory`: nothing changes. It comes only where a key or a button goes down.
    pub(crate) fn judge(&mut self, deed: Deed) -> Result<Verdict, NoMemory>
        ensures verdict { IfOk result (λ v. v ≡ by_state deed self.old.state (is_down_on self.old)) }
        ensures done { IfOk result (λ v. self.new ≡ behind v deed self.old) }
        ensures err { OnErr result (self.new ≡ self.old) }
        ensures passing { OnErr result (by_state deed self.old.state (is_down_on self.old) ≡ Pass) }
        ensures pressing { OnErr result (IsTrue (goes_down deed)) }
    {
        let verdict = self.verdict(deed);
        if let Verdict::Pass = verdict {
            self.take(deed)?;
        }
        Ok(verdict)
    }

    /// What becomes of a deed.
    fn verdict(&self, deed: Deed) -> Verdict
        ensures { result ≡ by_state deed self.now.state (is_down_on self.now) }
    {
        match (self.state, deed) {
            (State::Paused, _) => Verdict::Drop,
            (State::Resumed, Deed::Start) => Verdict::Pass,
            (State::Resumed, Deed::Stop) => Verdict::End(Fault::NotStarted),
            (State::Resumed, _) => Verdict::End(Fault::NotEmulating),
            (State::Emulating, Deed::Start) => Verdict::End(Fault::StartedTwice),
            (State::Emulating, Deed::Stop) => Verdict::Pass,
            (State::Emulating, Deed::Input) => Verdict::Pass,
            (State::Emulating, Deed::Turn(switch)) => self.turned(switch),
        }
    }

    /// What becomes of a press or a release, where the client emulates.
    fn turned(&self, switch: Switch) -> Verdict
        ensures { result ≡ by_change switch.down (is_down_on self.now switch.kind switch.code) }
    {
        if self.is_down(switch) == switch.down {
            Verdict::Drop
        } else {
            Verdict::Pass
        }
    }

    /// Whether the key or the button is down.
    fn is_down(&self, switch: Switch) -> bool
        ensures { result ≡ is_down_on self.now switch.kind switch.code }
    {
        match switch.kind {
            Kind::Key => self.keys.contains(switch.code),
            Kind::Button => self.buttons.contains(switch.code),
        }
    }

    /// A deed is done.
    ///
    /// `NoMemory`: nothing changes. It comes only where a key or a button goes down.
    fn take(&mut self, deed: Deed) -> Result<(), NoMemory>
        ensures ok { OnOk result (self.new ≡ after_deed deed self.old) }
        ensures err { OnErr result (self.new ≡ self.old) }
        ensures memory { OnErr result (IsTrue (goes_down deed)) }
    {
        match deed {
            Deed::Start => self.state = State::Emulating,
            Deed::Stop => self.rest(State::Resumed),
            Deed::Input => {}
            Deed::Turn(switch) => self.turn(switch)?,
        }
        Ok(())
    }

    /// A key or a button goes down or up.
    ///
    /// `NoMemory`: nothing changes. It comes only where it goes down.
    fn turn(&mut self, switch: Switch) -> Result<(), NoMemory>
        ensures ok { OnOk result (self.new ≡ turned switch.kind switch.code switch.down self.old) }
        ensures err { OnErr result (self.new ≡ self.old) }
        ensures memory { OnErr result (IsTrue switch.down) }
    {
        match switch.kind {
            Kind::Key => self.keys.turn(switch.code, switch.down),
            Kind::Button => self.buttons.turn(switch.code, switch.down),
        }
    }
}
