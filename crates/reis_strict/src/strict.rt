//! The policy.

ghost use Rattle.std.specs.Prelude.{◌≡◌, OnOk, OnErr, IfOk, IsTrue, None};
ghost use Rattle.std.specs.FinMap as finite;
ghost use Rattle.reis_strict.specs.Acts.{act_of};
ghost use Rattle.reis_strict.specs.Policy.{judged};
ghost use Rattle.reis_strict.specs.Devices.{state_in, is_down_in, verdict_in, with_judged, presses, with_resumed, with_paused, with_reserved};
ghost use Rattle.reis_strict.specs.Held.{is_held, held_of};
ghost use Rattle.reis_strict.specs.View.{with_devices};
ghost use Rattle.reis_strict.specs.declared.verdict.Verdict.TheVariants.{Pass};

use crate::act::{Act, act_of};
use crate::device::{KnownDevice, State};
use crate::fault::Fault;
use crate::verdict::Verdict;
use ei_by_id::ById;
use ei_request::EisRequest;
use ei_types::{ContextType, DeviceCapability};
use ei_wire::NoMemory;
use reis_eis::Connection;
use std::alloc::Global;
use std::marker::Model;

/// What is known of the devices of one client: which were resumed, on which it emulates, and what is down on each.
///
/// It stands beside the connection: take the client's requests by `next`, or show each one that is handed out to `judge`
/// before it is acted on; and tell it each `resumed`, `paused` and `removed` behind the call of the connection that
/// succeeded. Of devices it knows what it was told alone. Contracts see a finite map, by the ids of the devices, and the
/// request that is held back, where one is.
#[derive(Drop)]
pub struct Strict {
    pub(crate) alloc: Global,
    pub(crate) devices: ById<KnownDevice>,
    /// What `next` took off the connection and couldn't judge or answer for want of memory.
    pub(crate) held_back: Option<EisRequest>,
}

impl Model for Strict {
    ghost use Rattle.reis_strict.specs.View.{StrictView, strict_code};

    ghost Value = { StrictView };

    ghost coded = { strict_code };

    ghost use Rattle.reis_strict.specs.Devices.{AreNamed};

    ghost view = { λ s. record { devices = s.devices; held = s.held_back } };

    ghost invariant = { λ s. AreNamed s.devices };
}

impl Strict {
    /// No device was resumed yet.
    pub fn new(alloc: Global) -> Strict
        ensures { result ≡ record { devices = finite.empty; held = None } }
    {
        Strict {
            alloc,
            devices: ById::new(alloc),
            held_back: None,
        }
    }

    /// What becomes of a request that a client of this role makes. What it does counts for those behind it exactly where it
    /// passes.
    ///
    /// `NoMemory`: nothing changes. It comes only where a key or a button would go down.
    pub fn judge(&mut self, role: ContextType, request: &EisRequest) -> Result<Verdict, NoMemory>
        ensures verdict { IfOk result (λ v. v ≡ verdict_in role request.now self.old.devices) }
        ensures done { IfOk result (λ v. self.new ≡ with_devices self.old
            (with_judged v (act_of request.now) self.old.devices)) }
        ensures err { OnErr result (self.new ≡ self.old) }
        ensures passing { OnErr result (verdict_in role request.now self.old.devices ≡ Pass) }
        ensures pressing { OnErr result (IsTrue (presses (act_of request.now))) }
    {
        match act_of(request) {
            Some(act) => self.judge_act(role, act),
            None => Ok(Verdict::Pass),
        }
    }

    /// What becomes of what a request does.
    fn judge_act(&mut self, role: ContextType, act: Act) -> Result<Verdict, NoMemory>
        ensures verdict { IfOk result (λ v.
            v ≡ judged role (Some act) (state_in self.old.devices) (is_down_in self.old.devices)) }
        ensures done { IfOk result (λ v. self.new ≡ with_devices self.old
            (with_judged v (Some act) self.old.devices)) }
        ensures err { OnErr result (self.new ≡ self.old) }
        ensures passing { OnErr result (
            judged role (Some act) (state_in self.old.devices) (is_down_in self.old.devices) ≡ Pass) }
        ensures pressing { OnErr result (IsTrue (presses (Some act))) }
    {
        if let ContextType::Receiver = role {
            return Ok(Verdict::End(Fault::OfReceiver));
        }
        if let Some(device) = self.devices.get_mut(act.device) {
            return device.judge(act.deed);
        }
        Ok(Verdict::Drop)
    }

    /// Makes room for a device, so that `resumed` behind it takes no memory: call it before the connection resumes the
    /// device. One that isn't kept yet is kept as a paused one, which it counts as already.
    ///
    /// `NoMemory`: nothing changes.
    pub fn reserve(&mut self, device: u64) -> Result<(), NoMemory>
        ensures ok { OnOk result (self.new ≡ with_devices self.old (with_reserved device self.old.devices)) }
        ensures err { OnErr result (self.new ≡ self.old) }
        ensures memory { OnErr result (finite.get self.old.devices device ≡ None) }
    {
        if self.devices.get(device).is_some() {
            return Ok(());
        }
        let known = KnownDevice::new(self.alloc, device, State::Paused);
        self.devices.put(device, known)?;
        Ok(())
    }

    /// The device was resumed: the client may start to emulate on it. If it did, it does no more, and nothing is down.
    ///
    /// `NoMemory`: nothing changes. It comes only where the device wasn't resumed before.
    pub fn resumed(&mut self, device: u64) -> Result<(), NoMemory>
        ensures ok { OnOk result (self.new ≡ with_devices self.old (with_resumed device self.old.devices)) }
        ensures err { OnErr result (self.new ≡ self.old) }
        ensures memory { OnErr result (finite.get self.old.devices device ≡ None) }
    {
        if let Some(known) = self.devices.get_mut(device) {
            known.rest(State::Resumed);
            return Ok(());
        }
        let known = KnownDevice::new(self.alloc, device, State::Resumed);
        self.devices.put(device, known)?;
        Ok(())
    }

    /// The device was paused: what the client sends of it is dropped until it is resumed, and nothing is down on it.
    pub fn paused(&mut self, device: u64)
        ensures { self.new ≡ with_devices self.old (with_paused device self.old.devices) }
    {
        if let Some(known) = self.devices.get_mut(device) {
            known.rest(State::Paused);
        }
    }

    /// Forgets each device that the connection doesn't hold: those of a seat that it took away, and all of a client that
    /// was told of the end. Call it behind `remove_seat`, so that nothing is kept of what is gone.
    pub fn forget_gone(&mut self, connection: &Connection)
        ensures { self.new ≡ with_devices self.old (held_of connection.now.phase self.old.devices) }
    {
        self.devices.retain(|device| holds(connection, device.id));
    }

    /// The device is gone: what still comes for it is dropped, and its memory is let go.
    pub fn removed(&mut self, device: u64)
        ensures { self.new ≡ with_devices self.old (finite.remove self.old.devices device) }
    {
        self.devices.take(device);
    }
}

/// Whether the connection holds the device of that id.
fn holds(connection: &Connection, device: u64) -> bool
    ensures { result ≡ is_held connection.now.phase device }
{
    connection
        .device_has(device, DeviceCapability::Pointer)
        .is_some()
}
