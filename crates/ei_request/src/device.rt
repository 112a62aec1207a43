//! Devices.

ghost use Rattle.std.specs.Prelude.{◌≡◌, ⊤, IfErr, IsErrOf, IsTrue, OnOk, OnErr, Some, find, is_some, true};
ghost use Rattle.std.specs.Option.{option_copied, option_map};
ghost use Rattle.std.specs.Hash as fed;
ghost use Rattle.std.specs.Cmp.{partial_equiv_from_equiv};
ghost use Rattle.std.specs.Cmp.Rules.{hashing};
ghost use Rattle.std.proofs.Common.{rules};
ghost use Rattle.std.specs.Prelude.{◌++◌};
ghost use Rattle.ei_wire.specs.declared.error.SendError.TheVariants as send_error;
ghost use Rattle.ei_types.specs.Capability.{interface_of};
ghost use Rattle.ei_session.specs.Events.{resumed_event};
ghost use Rattle.ei_request.specs.Held.{is_of_key, untouched, changed_first};
ghost use Rattle.ei_request.specs.Connection.{holds_device, next_serial, Unchanged};
ghost use Rattle.ei_request.specs.Sending.{AllOrNothing, HasRoomOf, tells, paused_event, start_emulating_event, stop_emulating_event, frame_event};
ghost use Rattle.ei_request.specs.Removing.{RemovesDevice};
ghost use Rattle.ei_request.specs.Reading.{name_in, interface_in};
ghost use Rattle.ei_request.specs.Keys.{same_device, same_device_equiv, device_text};

use crate::connection::Connection;
use crate::seat::Seat;
use ei_backend::Interface;
use ei_server::{
    Button, Device as Proxy, Gesture, Keyboard, Pointer, PointerAbsolute, Scroll, Text, Touchscreen,
};
use ei_types::DeviceCapability;
use ei_wire::SendError;
use std::alloc::AllocError;
use std::fmt;
use std::hash::{Hash, Hasher};
use std::marker::Model;

// Sends an event that bears the next serial, and answers whether it was sent. If so that serial is the last.
macro_rules! tell {
    ($conn:ident, $serial:ident => $sent:expr) => {{
        let $serial = $conn.last_serial().wrapping_add(1);
        let sent = $sent;
        if sent.is_ok() {
            $conn.next_serial();
        }
        sent
    }};
}

/// The key of a device: a plain value, told apart from others by its id and that of its seat. Contracts see both
/// objects.
#[derive(Drop)]
pub struct Device {
    seat: Seat,
    proxy: Proxy,
}

impl Model for Device {
    ghost use Rattle.ei_request.specs.Keys.{DeviceKey, device_key_code};

    ghost Value = { DeviceKey };

    ghost coded = { device_key_code };

    ghost view = { λ d. record { seat = d.seat; proxy = d.proxy } };
}

impl Device {
    pub(crate) fn over(seat: Seat, proxy: Proxy) -> Device
        ensures { result ≡ record { seat = seat; proxy = proxy } }
    {
        Device { seat, proxy }
    }

    /// The same key again.
    pub(crate) fn copy(&self) -> Device
        ensures { result ≡ self.now }
    {
        Device {
            seat: self.seat.copy(),
            proxy: self.proxy.copy(),
        }
    }

    /// The seat that it belongs to.
    pub fn seat(&self) -> &Seat
        ensures { result.now ≡ self.now.seat }
    {
        &self.seat
    }

    /// The proxy of the device.
    pub fn device(&self) -> &Proxy
        ensures { result.now ≡ self.now.proxy }
    {
        &self.proxy
    }

    /// The id.
    pub(crate) fn id(&self) -> u64
        ensures { result ≡ self.now.proxy.id }
    {
        self.proxy.as_object().id()
    }
}

/// The proxies of the interfaces that a device may have. It promises nothing more than the trait of all proxies.
pub trait DeviceInterface: ei_server::Interface {}

impl DeviceInterface for Pointer {}

impl DeviceInterface for PointerAbsolute {}

impl DeviceInterface for Scroll {}

impl DeviceInterface for Button {}

impl DeviceInterface for Keyboard {}

impl DeviceInterface for Touchscreen {}

impl DeviceInterface for Text {}

impl DeviceInterface for Gesture {}

// What the connection tells of it.
impl Device {
    /// The name that it was given. `None` where it has none, or the connection doesn't hold it.
    pub fn name<'a>(&self, conn: &'a Connection) -> Option<&'a str>
        ensures { option_copied result ≡ name_in (find (is_of_key self.now) conn.now.devices) }
    {
        conn.name_of(self)
    }

    /// The interface, as it was announced; `None` exactly where the device doesn't have it, or has it no more, or the
    /// connection doesn't hold the device.
    pub fn interface<T: DeviceInterface>(&self, conn: &Connection) -> Option<T>
        ensures { option_map T.behind result ≡ interface_in T.KNOWN (find (is_of_key self.now) conn.now.devices) }
    {
        let object = conn.interface_of(self, T::KNOWN)?;
        Some(T::new_unchecked(object.copy()))
    }

    /// Whether the device still has the interface of the capability; false where the connection doesn't hold it.
    pub fn has_capability(&self, conn: &Connection, capability: DeviceCapability) -> bool
        ensures { result ≡ is_some (interface_in (interface_of capability)
            (find (is_of_key self.now) conn.now.devices)) }
    {
        conn.interface_of(self, capability.interface()).is_some()
    }
}

// What is done on the connection.
impl Device {
    /// Takes the device away: `destroyed` of each interface that it has left, by rising ids, and then of the device.
    /// What waits on it is dropped. Where the connection doesn't hold it nothing is sent. All is sent, or nothing.
    ///
    /// `NoMemory`: the device stays.
    pub fn remove(&self, conn: &mut Connection) -> Result<(), SendError>
        ensures ok { OnOk result (RemovesDevice conn.old self.now conn.new) }
        ensures err { OnErr result (Unchanged conn.old conn.new) }
        ensures only { IfErr result (λ e. e ≡ send_error.NoMemory) }
        ensures ring { conn.new.ctx.capacity ≡ conn.old.ctx.capacity }
    {
        conn.remove_device(self)
    }

    /// Tells the client that the device takes input. The event has the next serial. The connection holds the device.
    ///
    /// `NoMemory`, and never where there is room for the event: nothing is sent.
    pub fn resumed(&self, conn: &mut Connection) -> Result<(), SendError>
        requires held { holds_device conn.old self.now ≡ true }
        ensures sends { AllOrNothing result conn.old (tells conn.old (resumed_event self.now.proxy.id)) conn.new }
        ensures room { HasRoomOf (resumed_event self.now.proxy.id (next_serial conn.old.last_serial)) conn.old.ctx
            → IsErrOf result send_error.NoMemory → ⊥ }
    {
        tell!(conn, serial => self.proxy.resumed(conn.context_mut(), serial))
    }

    /// Tells the client that the device takes no input. No touch of it is down any more; what waits stays. The event
    /// has the next serial. The connection holds the device.
    ///
    /// `NoMemory`, and never where there is room for the event: nothing is sent.
    pub fn paused(&self, conn: &mut Connection) -> Result<(), SendError>
        requires held { holds_device conn.old self.now ≡ true }
        ensures sends { AllOrNothing result conn.old (record (tells conn.old (paused_event self.now.proxy.id)) {
          devices = changed_first (is_of_key self.now)
              untouched conn.old.devices;
        }) conn.new }
        ensures room { HasRoomOf (paused_event self.now.proxy.id (next_serial conn.old.last_serial)) conn.old.ctx
            → IsErrOf result send_error.NoMemory → ⊥ }
    {
        tell!(conn, serial => self.proxy.paused(conn.context_mut(), serial))?;
        conn.clear_touches(self);
        Ok(())
    }

    /// Tells a receiver that the server begins to send input. The sequence counts such beginnings. The event has the
    /// next serial. The connection holds the device.
    ///
    /// `NoMemory`, and never where there is room for the event: nothing is sent.
    pub fn start_emulating(&self, conn: &mut Connection, sequence: u32) -> Result<(), SendError>
        requires held { holds_device conn.old self.now ≡ true }
        ensures sends { AllOrNothing result conn.old
            (tells conn.old (λ serial. start_emulating_event self.now.proxy.id serial sequence)) conn.new }
        ensures room { HasRoomOf (start_emulating_event self.now.proxy.id
            (next_serial conn.old.last_serial) sequence) conn.old.ctx
            → IsErrOf result send_error.NoMemory → ⊥ }
    {
        tell!(conn, serial => self.proxy.start_emulating(conn.context_mut(), serial, sequence))
    }

    /// Tells a receiver that the server sends no more input. The event has the next serial. The connection holds the device.
    ///
    /// `NoMemory`, and never where there is room for the event: nothing is sent.
    pub fn stop_emulating(&self, conn: &mut Connection) -> Result<(), SendError>
        requires held { holds_device conn.old self.now ≡ true }
        ensures sends { AllOrNothing result conn.old
            (tells conn.old (stop_emulating_event self.now.proxy.id)) conn.new }
        ensures room { HasRoomOf (stop_emulating_event self.now.proxy.id
            (next_serial conn.old.last_serial)) conn.old.ctx
            → IsErrOf result send_error.NoMemory → ⊥ }
    {
        tell!(conn, serial => self.proxy.stop_emulating(conn.context_mut(), serial))
    }

    /// Tells a receiver that the input since the last frame belongs together. The time is in microseconds. The event
    /// has the next serial. The connection holds the device.
    ///
    /// `NoMemory`, and never where there is room for the event: nothing is sent.
    pub fn frame(&self, conn: &mut Connection, time: u64) -> Result<(), SendError>
        requires held { holds_device conn.old self.now ≡ true }
        ensures sends { AllOrNothing result conn.old
            (tells conn.old (λ serial. frame_event self.now.proxy.id serial time)) conn.new }
        ensures room { HasRoomOf (frame_event self.now.proxy.id (next_serial conn.old.last_serial) time) conn.old.ctx
            → IsErrOf result send_error.NoMemory → ⊥ }
    {
        tell!(conn, serial => self.proxy.frame(conn.context_mut(), serial, time))
    }
}

// A clone takes no memory.
impl Clone for Device {
    ghost is_clone = { λ d copy. copy ≡ d };

    ghost is_infallible = { λ _. ⊤ };

    fn clone(&self) -> Result<Device, AllocError> {
        Ok(self.copy())
    }
}

impl PartialEq for Device {
    ghost eq = { same_device };

    ghost laws = { partial_equiv_from_equiv same_device_equiv };

    fn eq(&self, other: &Device) -> bool {
        self.seat.id() == other.seat.id() && self.id() == other.id()
    }
}

impl Eq for Device {
    ghost laws = { same_device_equiv };
}

impl Hash for Device {
    ghost hash_input = { λ d. fed.u64 d.seat.id ++ fed.u64 d.proxy.id };

    ghost respects_eq = { Prim.search (hashing, rules) };

    fn hash<H: Hasher>(&self, state: &mut H) {
        self.seat.id().hash(state);
        self.id().hash(state);
    }
}

impl fmt::Debug for Device {
    ghost debug_output = { λ d. Some (device_text d) };

    fn fmt<W: fmt::Write>(&self, f: &mut fmt::Formatter<W>) -> fmt::Result {
        let id = self.id();
        write!(f, "Device({id})")
    }
}
