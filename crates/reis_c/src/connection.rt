//! What stands behind the word of a connection.

ghost use Rattle.std.specs.Prelude.{◌≡◌, ◌≢◌, IfSome, None};

use crate::device::{ReisDevice, ReisRegion, describe, is_wrong, type_of};
use crate::flat::{ReisRequest, flat, of_connected, of_notice};
use crate::held::{forget, keep};
use crate::input::input_in;
use crate::meaning::{capability_of, reason_of, text_of};
use crate::numbers::{
    CAPABILITIES, GONE, INVALID, NO_MEMORY, NOTHING, OK, outcome_number, refusal_number,
};
use crate::policy;
use crate::writing::{HANDLE_ROOM, copy_handles};
use ei_request::EisRequest;
use ei_spec::Handle;
use ei_types::DeviceCapabilities;
use ei_wire::NoMemory;
use reis_eis::Connection;
use reis_strict::Strict;
use std::alloc::Global;

/// What was handed out: the request that was the last, where that was one, and whether it was told that the handshake is done.
#[derive(Drop)]
pub(crate) struct Handed {
    pub(crate) last: Option<EisRequest>,
    pub(crate) connected: bool,
}

/// The connection, what it handed out, and the policy beside it, where it was started with the flag.
#[derive(Drop)]
pub(crate) struct HeldConnection {
    pub(crate) connection: Connection,
    pub(crate) handed: Handed,
    pub(crate) policy: Option<Strict>,
}

// What comes and goes.
impl HeldConnection {
    ghost use Rattle.reis_c.specs.Connecting.{begun, FeedsConnection, EndsConnection, SendsBytes, HandsNext, HandsBy, HandsNotice, is_untold, Disconnects};

    /// A connection that was just started with these flags; `None` where memory ran out.
    pub(crate) fn start(
        alloc: Global,
        initial_serial: u32,
        flags: u32,
    ) -> Option<Box<HeldConnection>>
        ensures { IfSome result (λ held. held.value ≡ begun initial_serial flags) }
    {
        let connection = Connection::start(alloc, initial_serial).ok()?;
        Box::new(
            alloc,
            HeldConnection {
                connection,
                handed: Handed {
                    last: None,
                    connected: false,
                },
                policy: policy::policy_for(alloc, flags),
            },
        )
        .ok()
    }

    /// Feeds a piece.
    pub(crate) fn feed(&mut self, bytes: &[u8], handles: &[u32], time: u64) -> u32
        ensures { FeedsConnection bytes.now handles.now time result self.old self.new }
    {
        let mut room = [Handle(0); HANDLE_ROOM];
        let count = copy_handles(handles, &mut room);
        outcome_number(self.connection.feed(bytes, &room[..count], time))
    }

    /// Says that no more comes.
    pub(crate) fn end_of_input(&mut self) -> u32
        ensures { EndsConnection result self.old self.new }
    {
        outcome_number(self.connection.end_of_input())
    }

    /// Counts so many of the bytes that wait as sent.
    pub(crate) fn sent(&mut self, bytes: usize) -> u32
        ensures { SendsBytes bytes result self.old self.new }
    {
        outcome_number(self.connection.sent(bytes))
    }

    /// Hands out what comes next: once, that the handshake is done; and then a request, or, where none is, a notice.
    pub(crate) fn next_request(&mut self, request: &mut ReisRequest) -> u32
        ensures hands { HandsNext request.old result request.new self.old self.new }
        ensures none { result ≢ OK → request.new ≡ request.old }
    {
        if self.is_untold() {
            *request = of_connected();
            forget(&mut self.handed.last);
            self.handed.connected = true;
            return OK;
        }
        self.next_by_policy(request)
    }

    /// Hands out a request, or, where none is, a notice. Where there is no policy nothing of one stands on the way.
    fn next_by_policy(&mut self, request: &mut ReisRequest) -> u32
        ensures hands { HandsBy self.old.policy request.old result request.new self.old self.new }
        ensures none { result ≢ OK → request.new ≡ request.old }
    {
        if self.policy.is_none() {
            return self.next_waiting(request);
        }
        match policy::next(&mut self.policy, &mut self.connection) {
            Ok(Some(next)) => {
                *request = flat(&next);
                keep(&mut self.handed.last, next);
                OK
            }
            Ok(None) => self.next_notice(request),
            Err(NoMemory) => NO_MEMORY,
        }
    }

    /// Hands out the first request that waits, or, where none does, a notice.
    fn next_waiting(&mut self, request: &mut ReisRequest) -> u32
        requires { self.old.policy ≡ None }
        ensures hands { HandsBy None request.old result request.new self.old self.new }
        ensures none { result ≢ OK → request.new ≡ request.old }
    {
        match self.connection.next_request() {
            Some(next) => {
                *request = flat(&next);
                keep(&mut self.handed.last, next);
                OK
            }
            None => self.next_notice(request),
        }
    }

    /// Whether the handshake is done, and that isn't told yet.
    fn is_untold(&self) -> bool
        ensures { result ≡ is_untold self.now }
    {
        !self.handed.connected && self.connection.client().is_some()
    }

    /// Hands out the next notice.
    fn next_notice(&mut self, request: &mut ReisRequest) -> u32
        ensures hands { HandsNotice self.old.connection.notices request.old result request.new self.old self.new }
        ensures none { result ≢ OK → request.new ≡ request.old }
    {
        match self.connection.next_notice() {
            Some(notice) => {
                *request = of_notice(notice);
                forget(&mut self.handed.last);
                OK
            }
            None => NOTHING,
        }
    }

    /// Tells the client that the connection ends.
    pub(crate) fn disconnect(&mut self, reason: u32, text: &[u8]) -> u32
        ensures { Disconnects reason text.now result self.old self.new }
    {
        let Some(text) = text_of(text) else {
            return INVALID;
        };
        match self.connection.disconnect(reason_of(reason), text) {
            Ok(()) => {
                policy::forget_gone(&mut self.policy, &self.connection);
                OK
            }
            Err(refusal) => refusal_number(refusal),
        }
    }
}

// Pings, seats and devices.
impl HeldConnection {
    ghost use Rattle.ei_spec.specs.declared.interface.KnownInterface.TheVariants as known;
    ghost use Rattle.reis_eis.specs.Refusals.{pinging, on_seat, on_device, on_interface};
    ghost use Rattle.reis_eis.specs.Acting.{PingsAs, RemovesSeatAt, RemovesDeviceAt, Pauses, TellsModifiers};
    ghost use Rattle.reis_c.specs.Connecting.{AddsSeatTo, AddsDeviceTo, Does, DoesAndTells, ResumesAndTells, TellsDevice};
    ghost use Rattle.reis_c.specs.Policy.{forgetting, pausing, removing};

    /// Announces a ping.
    pub(crate) fn ping(&mut self, ping: &mut u64) -> u32
        ensures pings { Does pinging (PingsAs ping.new) result self.old self.new }
        ensures none { result ≢ OK → ping.new ≡ 0 }
    {
        *ping = 0;
        match self.connection.ping() {
            Ok(id) => {
                *ping = id;
                OK
            }
            Err(refusal) => refusal_number(refusal),
        }
    }

    /// Announces a seat.
    pub(crate) fn add_seat(&mut self, name: &[u8], capabilities: u64, seat: &mut u64) -> u32
        ensures adds { AddsSeatTo name.now capabilities result seat.new self.old self.new }
        ensures none { result ≢ OK → seat.new ≡ 0 }
    {
        *seat = 0;
        let Some(capabilities) = DeviceCapabilities::from_bits(capabilities) else {
            return CAPABILITIES;
        };
        let Some(name) = text_of(name) else {
            return INVALID;
        };
        match self.connection.add_seat(name, capabilities) {
            Ok(id) => {
                *seat = id;
                OK
            }
            Err(refusal) => refusal_number(refusal),
        }
    }

    /// Takes a seat away.
    pub(crate) fn remove_seat(&mut self, seat: u64) -> u32
        ensures { DoesAndTells (on_seat seat) (RemovesSeatAt seat) forgetting result self.old self.new }
    {
        match self.connection.remove_seat(seat) {
            Ok(()) => {
                policy::forget_gone(&mut self.policy, &self.connection);
                OK
            }
            Err(refusal) => refusal_number(refusal),
        }
    }

    /// Announces a device.
    pub(crate) fn add_device(
        &mut self,
        alloc: Global,
        seat: u64,
        described: &ReisDevice,
        regions: &[ReisRegion],
        ids: &[u8],
        name: &[u8],
        device: &mut u64,
    ) -> u32
        ensures adds { AddsDeviceTo seat described.now regions.now ids.now name.now result device.new self.old
            self.new }
        ensures none { result ≢ OK → device.new ≡ 0 }
    {
        *device = 0;
        let Some(capabilities) = DeviceCapabilities::from_bits(described.capabilities) else {
            return CAPABILITIES;
        };
        if is_wrong(described, regions, ids) {
            return INVALID;
        }
        let Some(name) = text_of(name) else {
            return INVALID;
        };
        let Ok(setup) = describe(alloc, described, regions, ids) else {
            return NO_MEMORY;
        };
        let kind = type_of(described);
        match self
            .connection
            .add_device(seat, name, kind, capabilities, &setup)
        {
            Ok(id) => {
                *device = id;
                OK
            }
            Err(refusal) => refusal_number(refusal),
        }
    }

    /// Takes a device away.
    pub(crate) fn remove_device(&mut self, device: u64) -> u32
        ensures { DoesAndTells (on_device device) (RemovesDeviceAt device) (removing device) result self.old
            self.new }
    {
        match self.connection.remove_device(device) {
            Ok(()) => {
                policy::removed(&mut self.policy, device);
                OK
            }
            Err(refusal) => refusal_number(refusal),
        }
    }

    /// Tells the client that the device takes input.
    pub(crate) fn resume(&mut self, device: u64) -> u32
        ensures { ResumesAndTells device result self.old self.new }
    {
        let Ok(()) = policy::reserve(&mut self.policy, &self.connection, device) else {
            return NO_MEMORY;
        };
        match self.connection.resume(device) {
            Ok(()) => {
                policy::resumed(&mut self.policy, device);
                OK
            }
            Err(refusal) => refusal_number(refusal),
        }
    }

    /// Tells the client that it takes none.
    pub(crate) fn pause(&mut self, device: u64) -> u32
        ensures { DoesAndTells (on_device device) (Pauses device) (pausing device) result self.old self.new }
    {
        match self.connection.pause(device) {
            Ok(()) => {
                policy::paused(&mut self.policy, device);
                OK
            }
            Err(refusal) => refusal_number(refusal),
        }
    }

    /// Tells whether the device has the capability of that bit.
    pub(crate) fn device_has(&self, device: u64, capability: u64, has: &mut u32) -> u32
        ensures { TellsDevice device capability result has.new self.now }
    {
        *has = 0;
        let Some(one) = capability_of(capability) else {
            return CAPABILITIES;
        };
        let Some(is) = self.connection.device_has(device, one) else {
            return GONE;
        };
        *has = u32::from(is);
        OK
    }

    /// Tells the client which modifiers hold.
    pub(crate) fn modifiers(
        &mut self,
        device: u64,
        depressed: u32,
        locked: u32,
        latched: u32,
        group: u32,
    ) -> u32
        ensures { Does (on_interface known.Keyboard device) (TellsModifiers device depressed locked latched group)
            result self.old self.new }
    {
        outcome_number(
            self.connection
                .modifiers(device, depressed, locked, latched, group),
        )
    }
}

// What a receiver is told.
impl HeldConnection {
    ghost use Rattle.reis_eis.specs.Refusals.{on_receiver};
    ghost use Rattle.reis_eis.specs.Acting.{StartsEmulating, StopsEmulating, Frames};
    ghost use Rattle.reis_c.specs.Connecting.{Does, SendsTo};
    ghost use Rattle.reis_c.specs.Inputs.{input_in};

    /// Tells the client that the device begins to send input.
    pub(crate) fn start_emulating(&mut self, device: u64, sequence: u32) -> u32
        ensures { Does (on_receiver device) (StartsEmulating device sequence) result self.old self.new }
    {
        outcome_number(self.connection.start_emulating(device, sequence))
    }

    /// Tells the client that it sends no more.
    pub(crate) fn stop_emulating(&mut self, device: u64) -> u32
        ensures { Does (on_receiver device) (StopsEmulating device) result self.old self.new }
    {
        outcome_number(self.connection.stop_emulating(device))
    }

    /// Tells the client that the input of the device since its last frame belongs together.
    pub(crate) fn frame(&mut self, device: u64, time: u64) -> u32
        ensures { Does (on_receiver device) (Frames device time) result self.old self.new }
    {
        outcome_number(self.connection.frame(device, time))
    }

    /// Tells the client of an input.
    pub(crate) fn send(&mut self, alloc: Global, input: &ReisRequest, text: &[u8]) -> u32
        ensures { SendsTo (input_in input.now text.now) input.now.device result self.old self.new }
    {
        match input_in(alloc, input, text) {
            Ok(Some(said)) => outcome_number(self.connection.send(input.device, &said)),
            Ok(None) => INVALID,
            Err(_) => NO_MEMORY,
        }
    }
}
