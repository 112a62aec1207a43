//! The connection of a server.

ghost use Rattle.std.specs.Prelude.{◌≡◌, ◌≤◌, ◌<◌, ◌+◌, ◌↔◌, ◌++◌, ℕ, Some, None, IfSome, IfOk, IfErr, IsOk, IsErrOf, OnOk, OnErr, is_some};
ghost use Rattle.std.specs.Prelude.{true, [], find, length};
ghost use Rattle.std.specs.Option.{option_copied, option_map};
ghost use Rattle.std.specs.FinMap as finite;
ghost use Rattle.std.specs.Borrow.{sem};
ghost use Rattle.ei_spec.specs.declared.limits.TheConstants.{MOST_MESSAGE_BYTES};
ghost use Rattle.ei_spec.specs.Interface.{Known};
ghost use Rattle.ei_spec.specs.Message.{size};
ghost use Rattle.ei_wire.specs.declared.error.SendError.TheVariants as send_error;
ghost use Rattle.ei_types.specs.Enums.{disconnect_reason_number};
ghost use Rattle.ei_backend.specs.Backend.{unsent_of, with_unsent};
ghost use Rattle.ei_backend.specs.Outgoing.{Flushes};
ghost use Rattle.ei_backend.specs.Table.{own_end};
ghost use Rattle.ei_backend.specs.Endpoint.{endpoint_of};
ghost use Rattle.ei_request.specs.Held.{is_seat, is_device, is_of_key, has_interface, untouched, changed_first, group_of, waiting_of};
ghost use Rattle.ei_request.specs.Connection.{new_connection, next_serial, holds_device, Unchanged};
ghost use Rattle.ei_request.specs.Sending.{AllOrNothing, HasRoomOf, disconnected_event, no_object_event, says};
ghost use Rattle.ei_request.specs.Removing.{RemovesDevice, RemovesSeat, Disconnects};
ghost use Rattle.ei_request.specs.Making.{new_seat, AddsSeat, AddsDevice, HasLongName, LacksIds, HasLongText};
ghost use Rattle.ei_request.specs.Making.{granted_to, has_keyboard, new_device, NeedsKeyboard};
ghost use Rattle.std.specs.List.{Any};
ghost use Rattle.ei_request.specs.Reading.{name_in, interface_in};
ghost use Rattle.ei_request.specs.Refusing.{asked_refusal, TellsOfInput};
ghost use Rattle.ei_request.specs.Handling.{calls_back, releases_seat, obeys, emptied_at};
ghost use Rattle.ei_request.specs.Lending.{LendsContext};

use crate::costs::END_BYTES;
use crate::device::Device;
use crate::device_table::{DeviceTable, Sought};
use crate::event::Queue;
use crate::held::{HeldDevice, HeldSeat};
use crate::input_error::InputError;
use crate::making::{self, Allowed, DeviceSetup};
use crate::seat::Seat;
use crate::{holding, seats, sending};
use ei_backend::{HasBackend, Interface, Object, Sink};
use ei_handshake::{EisHandshakeResp, Versions};
use ei_input::input_event::InputEvent;
use ei_server::{Callback, Connection as Proxy, Context};
use ei_spec::KnownInterface;
use ei_spec::limits::MOST_MESSAGE_BYTES;
use ei_types::{ContextType, DeviceCapabilities, DeviceCapability, DeviceType, DisconnectReason};
use ei_wire::{EiText, FlushError, SendError};
use std::alloc::{AllocError, Global};
use std::marker::Model;

/// The connection of a server after the handshake. It owns the context, and holds the seats and the devices.
#[derive(Drop)]
pub struct Connection {
    alloc: Global,
    context: Context,
    proxy: Proxy,
    context_type: ContextType,
    name: Option<EiText>,
    negotiated: Versions,
    last_serial: u32,
    seats: Vec<HeldSeat>,
    devices: DeviceTable,
    disconnected: bool,
    // The ids that go, while they do; it keeps its memory.
    going: Vec<u64>,
}

impl Model for Connection {
    ghost use Rattle.ei_request.specs.Connection.{ConnectionView, connection_code};

    ghost Value = { ConnectionView };

    ghost coded = { connection_code };

    ghost view = { λ c. record {
      ctx = c.context;
      proxy = c.proxy;
      context_type = c.context_type;
      name = c.name;
      negotiated = c.negotiated;
      last_serial = c.last_serial;
      seats = c.seats.items;
      devices = c.devices.items;
      disconnected = c.disconnected;
    } };
}

// What it is.
impl Connection {
    pub(crate) fn new(
        alloc: Global,
        context: Context,
        resp: EisHandshakeResp,
        initial_serial: u32,
    ) -> Connection
        ensures { result ≡ new_connection context resp initial_serial }
    {
        let EisHandshakeResp {
            connection,
            name,
            context_type,
            negotiated_interfaces,
        } = resp;
        Connection {
            alloc,
            context,
            proxy: connection,
            context_type,
            name,
            negotiated: negotiated_interfaces,
            last_serial: initial_serial,
            seats: Vec::new(alloc),
            devices: DeviceTable::new(alloc),
            disconnected: false,
            going: Vec::new(alloc),
        }
    }

    /// The proxy of the connection.
    pub fn connection(&self) -> &Proxy
        ensures { result.now ≡ self.now.proxy }
    {
        &self.proxy
    }

    /// The context.
    pub fn context(&self) -> &Context
        ensures { result.now ≡ self.now.ctx }
    {
        &self.context
    }

    /// The context, to read and to send on it.
    pub fn context_mut(&mut self) -> &mut Context
        ensures* lends { sem 𝓛 (LendsContext self.entry result) }
        ensures value { result.now ≡ self.old.ctx }
    {
        &mut self.context
    }

    /// What the client is for: to send input, or to receive it.
    pub fn context_type(&self) -> ContextType
        ensures { result ≡ self.now.context_type }
    {
        self.context_type
    }

    /// The name that the client told, if it told one.
    pub fn name(&self) -> Option<&str>
        ensures { option_copied result ≡ self.now.name }
    {
        match &self.name {
            Some(name) => Some(name.as_str()),
            None => None,
        }
    }

    /// Whether both ends have the interface.
    pub fn has_interface(&self, interface: &str) -> bool
        ensures { result ≡ is_some (finite.get self.now.negotiated interface.now) }
    {
        self.negotiated.contains(interface)
    }

    /// The version of the interface that both ends have; `None` exactly where one hasn't it.
    pub fn interface_version(&self, interface: &str) -> Option<u32>
        ensures { result ≡ finite.get self.now.negotiated interface.now }
    {
        self.negotiated.get(interface)
    }

    /// The interfaces that both ends have, each with its version.
    pub fn negotiated(&self) -> &Versions
        ensures { result.now ≡ self.now.negotiated }
    {
        &self.negotiated
    }

    /// Whether a `disconnected` was sent.
    pub fn has_sent_disconnected(&self) -> bool
        ensures { result ≡ self.now.disconnected }
    {
        self.disconnected
    }

    /// Puts all that waits to be sent into the sink, all handles with the first bytes. After a refusal the
    /// rest waits, at least one byte: where all went out the answer is no fault.
    ///
    /// `WriteFault` where the sink failed, `NoMemory` where it wants memory. Where nothing waits the sink
    /// isn't asked.
    pub fn flush<K: Sink>(&mut self, sink: &mut K) -> Result<(), FlushError>
        ensures flushes { Flushes K.view K.later result (unsent_of self.old.ctx) (unsent_of self.new.ctx)
            sink.old sink.new }
        ensures kept { self.new ≡ record self.old { ctx = with_unsent (unsent_of self.new.ctx) self.old.ctx } }
    {
        self.context.flush(sink)
    }
}

// What the client is told of ids.
impl Connection {
    /// Tells the client that no object has the id. The event bears the last serial. (The protocol: it answers a message
    /// to an object that isn't there.)
    ///
    /// `NoMemory`, and never where there is room for the event: nothing is sent.
    pub fn invalid_object(&mut self, invalid_id: u64) -> Result<(), SendError>
        ensures sends { AllOrNothing result self.old
            (record self.old {
              ctx = says self.old.ctx
                  (no_object_event self.old.proxy.id self.old.last_serial invalid_id);
            }) self.new }
        ensures room { HasRoomOf (no_object_event self.old.proxy.id self.old.last_serial invalid_id) self.old.ctx
            → IsErrOf result send_error.NoMemory → ⊥ }
    {
        self.proxy
            .invalid_object(&mut self.context, self.last_serial, invalid_id)
    }
}

// Serials.
impl Connection {
    /// The last serial that an event bore.
    pub fn last_serial(&self) -> u32
        ensures { result ≡ self.now.last_serial }
    {
        self.last_serial
    }

    /// Counts one serial, wrapping, and answers it.
    pub fn next_serial(&mut self) -> u32
        ensures serial { result ≡ next_serial self.old.last_serial }
        ensures counted { self.new ≡ record self.old { last_serial = next_serial self.old.last_serial } }
    {
        self.last_serial = self.last_serial.wrapping_add(1);
        self.last_serial
    }

    /// Calls the closure once, with the serial that comes next, and gives its answer. Then that serial is the last.
    pub fn with_next_serial<T, F: FnOnce(u32) -> T>(&mut self, cb: F) -> T
        requires callable { F.pre cb (next_serial self.old.last_serial) }
        ensures answer { F.post cb (next_serial self.old.last_serial) result }
        ensures counted { self.new ≡ record self.old { last_serial = next_serial self.old.last_serial } }
    {
        let serial = self.last_serial.wrapping_add(1);
        let answer = cb(serial);
        self.last_serial = serial;
        answer
    }
}

// Seats.
impl Connection {
    /// Whether the seat is held.
    pub fn has_seat(&self, seat: &Seat) -> bool
        ensures { result ≡ is_some (find (is_seat seat.now.id) self.now.seats) }
    {
        holding::find_seat(&self.seats, seat.id()).is_some()
    }

    /// The capabilities that the seat was given; `None` exactly where it isn't held.
    pub fn seat_capabilities(&self, seat: &Seat) -> Option<DeviceCapabilities>
        ensures { result ≡ option_map (λ s. s.capabilities) (find (is_seat seat.now.id) self.now.seats) }
    {
        self.capabilities_of(seat.id())
    }

    /// The capabilities that the seat of that id was given.
    pub(crate) fn capabilities_of(&self, id: u64) -> Option<DeviceCapabilities>
        ensures { result ≡ option_map (λ s. s.capabilities) (find (is_seat id) self.now.seats) }
    {
        match holding::find_seat(&self.seats, id) {
            Some(seat) => Some(seat.capabilities()),
            None => None,
        }
    }

    /// What is held of the seat of that id.
    pub(crate) fn find_seat(&self, id: u64) -> Option<&HeldSeat>
        ensures { option_copied result ≡ find (is_seat id) self.now.seats }
    {
        holding::find_seat(&self.seats, id)
    }

    /// Announces a seat with these capabilities: `seat`, `name` where there is one, `capability` for each of them
    /// whose interface both ends have, by rising bit, and `done`. All is sent, or nothing.
    ///
    /// `IdsExhausted` exactly where no own id is left; else `MessageTooLong` exactly where the event of the name would
    /// have more than 1048576 bytes; `NoMemory`.
    pub fn add_seat(
        &mut self,
        name: Option<&str>,
        capabilities: DeviceCapabilities,
    ) -> Result<Seat, SendError>
        ensures seat { IfOk result (λ s. s ≡ new_seat self.old) }
        ensures ok { OnOk result (AddsSeat self.old (option_copied name.entry) capabilities self.new) }
        ensures err { OnErr result (Unchanged self.old self.new) }
        ensures ring { self.new.ctx.capacity ≡ self.old.ctx.capacity }
        // when it is refused
        ensures exhausted { IsErrOf result send_error.IdsExhausted ↔
            (own_end self.old.ctx.table ≤ self.old.ctx.table.next_own) }
        ensures long { IsErrOf result send_error.MessageTooLong ↔
            HasLongName self.old.ctx.table (option_copied name.entry) }
    {
        seats::make_room(&mut self.context, name)?;
        self.seats.reserve(1)?;
        let seat = seats::announce(
            &mut self.context,
            &self.proxy,
            &self.negotiated,
            name,
            capabilities,
        );
        self.seats
            .push_reserved(HeldSeat::new(seat.copy(), capabilities));
        Ok(Seat::over(seat))
    }

    /// Takes the seat of that id away, behind its devices.
    pub(crate) fn remove_seat(&mut self, id: u64) -> Result<(), SendError>
        ensures ok { OnOk result (RemovesSeat self.old id self.new) }
        ensures err { OnErr result (Unchanged self.old self.new) }
        ensures only { IfErr result (λ e. e ≡ send_error.NoMemory) }
        ensures ring { self.new.ctx.capacity ≡ self.old.ctx.capacity }
    {
        self.going.clear();
        holding::push_seat_ids(&self.devices, &self.seats, id, &mut self.going)?;
        sending::make_room(&mut self.context, self.going.len(), 0)?;
        self.last_serial = sending::destroy_each(&mut self.context, &self.going, self.last_serial);
        if holding::find_seat(&self.seats, id).is_some() {
            self.devices.take_out_of_seat(id);
        }
        holding::take_out_seat(&mut self.seats, id);
        Ok(())
    }

    /// The client releases the seat of that id: `destroyed`, with the next serial. A seat that is held stays, as
    /// released.
    pub(crate) fn release_seat(&mut self, id: u64) -> Result<(), SendError>
        ensures { AllOrNothing result self.old (releases_seat self.old id) self.new }
    {
        let serial = self.last_serial.wrapping_add(1);
        sending::destroy(&mut self.context, id, serial)?;
        self.last_serial = serial;
        holding::release_seat(&mut self.seats, id);
        Ok(())
    }

    /// Ends the connection: takes all seats away by rising ids, each behind its devices, and sends `disconnected` with
    /// the last serial, this reason, and a text for people, if there is one. The context is closed then, so that
    /// it reads no more. All is sent, or nothing. A second call sends `disconnected` again.
    ///
    /// `MessageTooLong` exactly where that event would have more than 1048576 bytes, `NoMemory`.
    pub fn disconnected(
        &mut self,
        reason: DisconnectReason,
        explanation: Option<&str>,
    ) -> Result<(), SendError>
        ensures ok { OnOk result (Disconnects self.old (disconnect_reason_number reason)
            (option_copied explanation.entry) self.new) }
        ensures err { OnErr result (Unchanged self.old self.new) }
        ensures ring { self.new.ctx.capacity ≡ self.old.ctx.capacity }
        // when it is refused
        ensures not_exhausted { IsErrOf result send_error.IdsExhausted → ⊥ }
        ensures long { IsErrOf result send_error.MessageTooLong ↔
            (MOST_MESSAGE_BYTES < size (disconnected_event self.old.proxy.id 0 (disconnect_reason_number reason)
            (option_copied explanation.entry))) }
    {
        let bytes = sending::text_bytes(explanation).saturating_add(END_BYTES);
        if bytes > MOST_MESSAGE_BYTES as usize {
            return Err(SendError::MessageTooLong);
        }
        self.going.clear();
        holding::push_all_ids(&self.devices, &self.seats, &mut self.going)?;
        sending::make_room(&mut self.context, self.going.len(), bytes)?;
        let last = sending::destroy_each(&mut self.context, &self.going, self.last_serial);
        // There is room for it, and it isn't too long.
        self.proxy
            .disconnected(&mut self.context, last, reason, explanation)
            .unwrap();
        self.context.backend_mut().close();
        self.last_serial = last;
        self.seats.clear();
        self.devices.clear();
        self.disconnected = true;
        Ok(())
    }
}

// Devices.
impl Connection {
    /// Whether the device is held.
    pub fn has_device(&self, device: &Device) -> bool
        ensures { result ≡ holds_device self.now device.now }
    {
        self.devices.get(Sought::Key(device)).is_some()
    }

    /// Whether a device that is held has the interface of this object: it was announced, and neither it was released nor its
    /// device taken away.
    pub fn has_interface_object(&self, object: &Object) -> bool
        ensures { result ≡ is_some (find (has_interface object.now.id) self.now.devices) }
    {
        self.devices.get(Sought::Interface(object.id())).is_some()
    }

    /// What is held of the device of that id.
    pub(crate) fn find_device(&self, id: u64) -> Option<&HeldDevice>
        ensures { option_copied result ≡ find (is_device id) self.now.devices }
    {
        self.devices.get(Sought::Device(id))
    }

    /// The name of the device, if it is held and has one.
    pub(crate) fn name_of(&self, device: &Device) -> Option<&str>
        ensures { option_copied result ≡ name_in (find (is_of_key device.now) self.now.devices) }
    {
        match self.devices.get(Sought::Key(device)) {
            Some(held) => held.name(),
            None => None,
        }
    }

    /// The device's object of the interface, if it is held and has it left.
    pub(crate) fn interface_of(&self, device: &Device, interface: KnownInterface) -> Option<&Object>
        ensures object { option_copied result ≡ interface_in interface (find (is_of_key device.now) self.now.devices) }
        ensures interface { IfSome result (λ o. o.now.interface ≡ Known interface) }
    {
        match self.devices.get(Sought::Key(device)) {
            Some(held) => held.interface(interface),
            None => None,
        }
    }

    /// Announces a device of the seat that has these capabilities.
    pub(crate) fn add_allowed(
        &mut self,
        seat: &Seat,
        name: Option<&str>,
        device_type: DeviceType,
        allowed: Allowed,
        setup: &[DeviceSetup<'_>],
    ) -> Result<Device, SendError>
        requires keyboard { Any NeedsKeyboard setup.now → has_keyboard (granted_to allowed) ≡ true }
        ensures device { IfOk result (λ d. d ≡ (new_device (endpoint_of self.old.ctx) self.old.negotiated seat.now
            (option_copied name.entry) (granted_to allowed)).device) }
        ensures ok { OnOk result (AddsDevice self.old seat.now (option_copied name.entry) device_type
            (granted_to allowed) setup.now self.new) }
        ensures err { OnErr result (Unchanged self.old self.new) }
        ensures ring { self.new.ctx.capacity ≡ self.old.ctx.capacity }
        // when it is refused
        ensures exhausted { IsErrOf result send_error.IdsExhausted ↔ LacksIds self.old.ctx.table (granted_to allowed) }
        ensures long { IsErrOf result send_error.MessageTooLong ↔
            HasLongText self.old.ctx.table (granted_to allowed) (option_copied name.entry) setup.now }
    {
        making::make_room(&mut self.context, name, allowed, setup)?;
        let kept = kept_name(self.alloc, name)?;
        self.devices.reserve()?;
        let mut objects = Vec::with_capacity(self.alloc, DeviceCapability::ALL.len())?;
        let version = self.negotiated.version(KnownInterface::Device).unwrap_or(1);
        let proxy = making::begin(
            &mut self.context,
            seat.eis_seat(),
            version,
            name,
            device_type,
        );
        making::describe(
            &mut self.context,
            &proxy,
            &self.negotiated,
            allowed,
            setup,
            &mut objects,
        );
        let device = Device::over(seat.copy(), proxy);
        self.devices
            .push_reserved(HeldDevice::new(self.alloc, device.copy(), kept, objects));
        Ok(device)
    }

    /// Takes the device away: `destroyed` of each interface that it has left, by rising id, then of the device.
    pub(crate) fn remove_device(&mut self, device: &Device) -> Result<(), SendError>
        ensures ok { OnOk result (RemovesDevice self.old device.now self.new) }
        ensures err { OnErr result (Unchanged self.old self.new) }
        ensures only { IfErr result (λ e. e ≡ send_error.NoMemory) }
        ensures ring { self.new.ctx.capacity ≡ self.old.ctx.capacity }
    {
        self.going.clear();
        self.devices.push_ids(device, &mut self.going)?;
        sending::make_room(&mut self.context, self.going.len(), 0)?;
        self.last_serial = sending::destroy_each(&mut self.context, &self.going, self.last_serial);
        self.devices.take_out(device);
        Ok(())
    }

    /// No touch of the device is down any more.
    pub(crate) fn clear_touches(&mut self, device: &Device)
        ensures { self.new ≡ record self.old {
          devices = changed_first
              (is_of_key device.now) untouched self.old.devices;
        } }
    {
        self.devices.clear_touches(device);
    }
}

// What requests do.
impl Connection {
    /// Calls a callback of version 1.
    pub(crate) fn call_back(&mut self, callback: &Callback) -> Result<(), SendError>
        ensures { AllOrNothing result self.old (calls_back self.old callback.now.id) self.new }
    {
        callback.done(&mut self.context, 0)
    }

    /// Does what a request to the interface of that id and version asks: an input, or else the release.
    #[inline(always)]
    pub(crate) fn obey(
        &mut self,
        id: u64,
        version: u32,
        asked: Option<InputEvent>,
    ) -> Result<(), InputError>
        ensures accepted { OnOk result (asked_refusal version asked (find (has_interface id) self.old.devices) ≡ None) }
        ensures ok { OnOk result (self.new ≡ obeys self.old id asked) }
        ensures why { IfErr result (TellsOfInput version
            (asked_refusal version asked (find (has_interface id) self.old.devices))) }
        ensures err { OnErr result (self.new ≡ self.old) }
    {
        match asked {
            Some(input) => self.devices.hear(id, version, input),
            None => match self.give_up(id) {
                Ok(()) => Ok(()),
                Err(_) => Err(InputError::NoMemory),
            },
        }
    }

    /// The interface of that id leaves its device, if one has it: `destroyed`, with the next serial.
    #[inline(never)]
    fn give_up(&mut self, id: u64) -> Result<(), SendError>
        ensures { AllOrNothing result self.old (obeys self.old id None) self.new }
    {
        if self.devices.get(Sought::Interface(id)).is_none() {
            return Ok(());
        }
        let serial = self.last_serial.wrapping_add(1);
        sending::destroy(&mut self.context, id, serial)?;
        self.last_serial = serial;
        self.devices.give_up(id);
        Ok(())
    }

    /// How many inputs wait on the device of that id.
    pub(crate) fn waiting(&self, id: u64) -> usize
        ensures { result ≡ length (waiting_of (find (is_device id) self.now.devices)) }
    {
        self.devices.waiting(id)
    }

    /// Makes room for what waits on the device of that id, with a frame, and hands it out.
    ///
    /// `AllocError`: nothing is handed out.
    #[inline(never)]
    pub(crate) fn frame(
        &mut self,
        queue: &mut Queue,
        id: u64,
        serial: u32,
        time: u64,
    ) -> Result<(), AllocError>
        ensures queue { OnOk result (queue.new.items ≡ queue.old.items ++
            group_of (find (is_device id) self.old.devices) serial time) }
        ensures ok { OnOk result (self.new ≡ emptied_at self.old id) }
        ensures same { OnErr result (queue.new.items ≡ queue.old.items) }
        ensures err { OnErr result (self.new ≡ self.old) }
    {
        self.devices.frame(queue, id, serial, time)
    }

    /// Hands out what waits on the device of that id, with a frame. There is room for it.
    pub(crate) fn hand_out(&mut self, queue: &mut Queue, id: u64, serial: u32, time: u64)
        requires room { length (waiting_of (find (is_device id) self.old.devices)) + 2 ≤ queue.old.room }
        ensures queue { queue.new.items ≡ queue.old.items ++
            group_of (find (is_device id) self.old.devices) serial time }
        ensures ok { self.new ≡ emptied_at self.old id }
        ensures left { 0 < queue.new.room }
    {
        self.devices.hand_out(queue, id, serial, time);
    }
}

/// A name to keep, where there is one.
fn kept_name(alloc: Global, name: Option<&str>) -> Result<Option<EiText>, SendError>
    ensures ok { IfOk result (λ kept. kept ≡ option_copied name.entry) }
    ensures only { IfErr result (λ e. e ≡ send_error.NoMemory) }
{
    match name {
        Some(name) => Ok(Some(EiText::new(alloc, name)?)),
        None => Ok(None),
    }
}
