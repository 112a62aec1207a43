//! A converter with the keys of the seats and devices that it holds.

ghost use Rattle.std.specs.Prelude.{◌≡◌, ◌<◌, [], length, nat_lt, None, Some, OnOk, OnErr, IfOk, IfErr, find};
ghost use Rattle.std.specs.Option.{option_copied, option_map};
ghost use Rattle.ei_backend.specs.Backend.{Reads, unsent_of, with_unsent};
ghost use Rattle.ei_backend.specs.Outgoing.{Flushes};
ghost use Rattle.ei_types.specs.Enums.{disconnect_reason_number};
ghost use Rattle.ei_input.specs.Queue.{first_of, rest_of};
ghost use Rattle.ei_request.specs.Held.{is_seat, is_device};
ghost use Rattle.ei_request.specs.Connection.{new_connection};
ghost use Rattle.reis_eis.specs.Words.{with_ctx};
ghost use Rattle.ei_request.specs.Making.{setup_handle, setup_handles};
ghost use Rattle.ei_request.specs.Sending.{AllOrNothing, tells};
ghost use Rattle.ei_request.specs.Typed.{meaning_of};
ghost use Rattle.ei_spec.specs.declared.interface.KnownInterface.TheVariants as known;
ghost use Rattle.ei_server.specs.Request.{target_of};
ghost use Rattle.ei_request.specs.Handling.{handled};
ghost use Rattle.ei_request.specs.Refusing.{refusal};
ghost use Rattle.reis_eis.specs.Handling.{Converses, Obeys, RefusesAsked, TellsNoObject, IsHandled, HasRoomFor, notice_of, ends};
ghost use Rattle.reis_eis.specs.Refusals.{Tells, TellsOrWants, adding_seat, on_seat, adding_device, on_device, on_interface, receives, on_receiver, sending, pinging, disconnecting, describing_at};
ghost use Rattle.reis_eis.specs.Acting.{Acts, IsLeft, AddsSeatAs, RemovesSeatAt, AddsDeviceAs, RemovesDeviceAt, Resumes, Pauses, StartsEmulating, StopsEmulating, Frames, TellsModifiers, modifiers_event, SendsInput, PingsAs, Ends, device_has};

use crate::call_error::CallError;
use crate::ending::Ending;
use crate::moment::Moment;
use crate::notice::{Notice, notice_of};
use crate::step::Step;
use crate::{inputs, keys, ping};
use ei_backend::{HasBackend, PendingRequestResult, Sink, Source};
use ei_handshake::EisHandshakeResp;
use ei_input::Queue;
use ei_input::input_event::InputEvent;
use ei_request::{Connection, Device, DeviceSetup, EisRequest, EisRequestConverter, Seat};
use ei_server::{Context, Keyboard, Request, connection};
use ei_spec::limits::MOST_PIECE_HANDLES;
use ei_types::{
    ContextType, DeviceCapabilities, DeviceCapability, DeviceType, DisconnectReason, Error,
};
use ei_wire::{FlushError, NoMemory, ReadError, SendError};
use std::alloc::Global;
use std::marker::Model;

/// A server's converter, with a key for each seat and each device that its connection holds, in their order.
#[derive(Drop)]
pub(crate) struct KeyedConverter {
    converter: EisRequestConverter,
    seats: Vec<Seat>,
    devices: Vec<Device>,
}

impl Model for KeyedConverter {
    ghost use Rattle.ei_request.specs.Converter.{ConverterView, converter_code};

    ghost Value = { ConverterView };

    ghost coded = { converter_code };

    ghost use Rattle.reis_eis.specs.Keys.{HasKeys};

    ghost view = { λ k. k.converter };

    ghost invariant = { λ k. HasKeys k.converter.handle k.seats.items k.devices.items };
}

impl KeyedConverter {
    /// The converter of a connection, right after its handshake.
    pub(crate) fn new(
        alloc: Global,
        context: Context,
        resp: EisHandshakeResp,
        initial_serial: u32,
    ) -> KeyedConverter
        ensures { result ≡ record { handle = new_connection context resp initial_serial; queue = [] } }
    {
        KeyedConverter {
            converter: EisRequestConverter::new(alloc, context, resp, initial_serial),
            seats: Vec::new(alloc),
            devices: Vec::new(alloc),
        }
    }

    /// The connection.
    pub(crate) fn handle(&self) -> &Connection
        ensures { result.now ≡ self.now.handle }
    {
        self.converter.handle()
    }

    /// Takes a piece.
    pub(crate) fn read<S: Source>(&mut self, source: &mut S) -> Result<usize, ReadError>
        ensures reads { Reads S.view S.later result self.old.handle.ctx self.new.handle.ctx source.old source.new }
        ensures kept { self.new ≡ with_ctx self.old self.new.handle.ctx }
    {
        self.converter.handle_mut().context_mut().read(source)
    }

    /// Puts all that waits to be sent into the sink.
    pub(crate) fn flush<K: Sink>(&mut self, sink: &mut K) -> Result<(), FlushError>
        ensures flushes { Flushes K.view K.later result (unsent_of self.old.handle.ctx)
            (unsent_of self.new.handle.ctx) sink.old sink.new }
        ensures kept { self.new ≡ with_ctx self.old
            (with_unsent (unsent_of self.new.handle.ctx) self.old.handle.ctx) }
    {
        self.converter.handle_mut().flush(sink)
    }

    /// Takes the oldest request that is queued.
    pub(crate) fn next_request(&mut self) -> Option<EisRequest>
        ensures first { result ≡ first_of self.old.queue }
        ensures rest { self.new ≡ record self.old { queue = rest_of self.old.queue } }
    {
        self.converter.next_request()
    }

    /// Handles the message at the front, if one is whole. Each frame that this makes bears the time. There is room for the
    /// notice that it tells.
    pub(crate) fn step(&mut self, time: u64, notices: &mut Queue<Notice>) -> Step
        ensures steps { Converses time self.old result self.new }
        ensures shorter { IsHandled result →
            length self.new.handle.ctx.unread < length self.old.handle.ctx.unread }
        ensures waiting { notices.new.items ≡ notices.old.items }
        ensures room { HasRoomFor result notices.new.room }
    {
        match self.converter.handle_mut().context_mut().pending_request() {
            Ok(None) => Step::Waiting,
            Ok(Some(PendingRequestResult::Request(request))) => self.obey(time, request, notices),
            Ok(Some(PendingRequestResult::ParseError(error))) => {
                Step::Ended(Ending::Refused(Error::Parse(error)))
            }
            Ok(Some(PendingRequestResult::InvalidObject(id))) => self.tell_no_object(id),
            Err(NoMemory) => Step::Ended(Ending::Refused(Error::NoMemory)),
        }
    }

    /// Does what a request of the client asks. There is room for the notice that it tells.
    fn obey(&mut self, time: u64, request: Request, notices: &mut Queue<Notice>) -> Step
        ensures obeys { Obeys time self.old request result self.new }
        ensures kept { self.new.handle.ctx.unread ≡ self.old.handle.ctx.unread }
        ensures waiting { notices.new.items ≡ notices.old.items }
        ensures room { HasRoomFor result notices.new.room }
    {
        if let Some(notice) = notice_of(&request) {
            return self.note(time, request, notice, notices);
        }
        let ends = is_disconnect(&request);
        match self.hear(time, request) {
            Ok(()) if ends => Step::Ended(Ending::Disconnected),
            Ok(()) => Step::Handled,
            Err(error) => Step::Ended(Ending::Refused(error)),
        }
    }

    /// The same of a request that tells this. The room for the notice is made first, so that nothing is half done.
    #[inline(never)]
    fn note(
        &mut self,
        time: u64,
        request: Request,
        notice: Notice,
        notices: &mut Queue<Notice>,
    ) -> Step
        requires tells { notice_of (target_of request).id (meaning_of request) ≡ Some notice }
        ensures obeys { Obeys time self.old request result self.new }
        ensures kept { self.new.handle.ctx.unread ≡ self.old.handle.ctx.unread }
        ensures waiting { notices.new.items ≡ notices.old.items }
        ensures room { HasRoomFor result notices.new.room }
    {
        if notices.reserve(1).is_err() {
            return Step::Ended(Ending::Refused(Error::NoMemory));
        }
        if let Err(error) = self.hear(time, request) {
            return Step::Ended(Ending::Refused(error));
        }
        if let Notice::Pong { ping, .. } = notice {
            ping::forget(self.converter.handle_mut(), ping);
        }
        Step::Noted(notice)
    }

    /// Has the converter do what a request asks. A frame that it makes bears the time.
    #[inline(always)]
    fn hear(&mut self, time: u64, request: Request) -> Result<(), Error>
        ensures accepted { OnOk result (refusal self.old.handle (target_of request).id (target_of request).version
            (meaning_of request) ≡ None) }
        ensures does { OnOk result (self.new ≡ handled self.old (target_of request).id (meaning_of request) time) }
        ensures err { IfErr result (λ e. RefusesAsked e self.old request self.new) }
        ensures kept { self.new.handle.ctx.unread ≡ self.old.handle.ctx.unread }
    {
        let mut clock = Moment::at(time);
        self.converter.handle_request(&mut clock, request)
    }

    /// Tells the client that no object has the id.
    fn tell_no_object(&mut self, id: u64) -> Step
        ensures tells { TellsNoObject self.old id result self.new }
        ensures kept { self.new.handle.ctx.unread ≡ self.old.handle.ctx.unread }
    {
        match self.converter.handle_mut().invalid_object(id) {
            Ok(()) => Step::Handled,
            Err(_) => Step::Ended(Ending::Refused(Error::NoMemory)),
        }
    }
}

/// Whether the client disconnects by the request.
fn is_disconnect(request: &Request) -> bool
    ensures { result ≡ ends (meaning_of request.now) }
{
    matches!(
        request,
        Request::Connection(_, connection::Request::Disconnect)
    )
}

// Seats.
impl KeyedConverter {
    /// Announces a seat. It answers its id.
    pub(crate) fn add_seat(
        &mut self,
        name: Option<&str>,
        capabilities: DeviceCapabilities,
    ) -> Result<u64, CallError>
        ensures ok { IfOk result (λ id. Acts (AddsSeatAs id (option_copied name.entry) capabilities)
            self.old self.new) }
        ensures accepted { OnOk result (adding_seat (option_copied name.entry) self.old.handle ≡ None) }
        ensures why { IfErr result (TellsOrWants (adding_seat (option_copied name.entry) self.old.handle)) }
        ensures err { OnErr result (IsLeft self.old self.new) }
    {
        self.seats.reserve(1)?;
        let seat = self.converter.handle_mut().add_seat(name, capabilities)?;
        let id = keys::seat_id(&seat);
        self.seats.push_reserved(seat);
        Ok(id)
    }

    /// Takes the seat of that id away, behind its devices.
    pub(crate) fn remove_seat(&mut self, id: u64) -> Result<(), CallError>
        ensures ok { OnOk result (Acts (RemovesSeatAt id) self.old self.new) }
        ensures accepted { OnOk result (on_seat id self.old.handle ≡ None) }
        ensures why { IfErr result (Tells (on_seat id self.old.handle)) }
        ensures err { OnErr result (IsLeft self.old self.new) }
    {
        let Some(seat) = keys::find_seat(&self.seats, id) else {
            return Err(CallError::Gone);
        };
        seat.remove(self.converter.handle_mut())?;
        keys::take_out_devices_of(&mut self.devices, id);
        keys::take_out_seat(&mut self.seats, id);
        Ok(())
    }
}

// Devices.
impl KeyedConverter {
    /// Announces a device of the seat of that id. It answers its id.
    pub(crate) fn add_device(
        &mut self,
        seat: u64,
        name: Option<&str>,
        device_type: DeviceType,
        capabilities: DeviceCapabilities,
        setup: &[DeviceSetup<'_>],
    ) -> Result<u64, CallError>
        ensures ok { IfOk result (λ id. Acts (AddsDeviceAs id seat (option_copied name.entry) device_type
            capabilities setup.now) self.old self.new) }
        ensures accepted { OnOk result (adding_device seat (option_copied name.entry) capabilities setup.now
            self.old.handle ≡ None) }
        ensures why { IfErr result (TellsOrWants (adding_device seat (option_copied name.entry) capabilities setup.now
            self.old.handle)) }
        ensures err { OnErr result (IsLeft self.old self.new) }
    {
        let Some(key) = keys::find_seat(&self.seats, seat) else {
            return Err(CallError::Gone);
        };
        may_have(self.converter.handle(), key, capabilities, setup)?;
        self.devices.reserve(1)?;
        let handle = self.converter.handle_mut();
        let device = key.add_device(handle, name, device_type, capabilities, setup)?;
        let id = keys::device_id(&device);
        self.devices.push_reserved(device);
        Ok(id)
    }

    /// Takes the device of that id away.
    pub(crate) fn remove_device(&mut self, id: u64) -> Result<(), CallError>
        ensures ok { OnOk result (Acts (RemovesDeviceAt id) self.old self.new) }
        ensures accepted { OnOk result (on_device id self.old.handle ≡ None) }
        ensures why { IfErr result (Tells (on_device id self.old.handle)) }
        ensures err { OnErr result (IsLeft self.old self.new) }
    {
        let Some(device) = keys::find_device(&self.devices, id) else {
            return Err(CallError::Gone);
        };
        device.remove(self.converter.handle_mut())?;
        keys::take_out_device(&mut self.devices, id);
        Ok(())
    }

    /// Tells the client that the device of that id takes input.
    pub(crate) fn resume(&mut self, id: u64) -> Result<(), CallError>
        ensures ok { OnOk result (Acts (Resumes id) self.old self.new) }
        ensures accepted { OnOk result (on_device id self.old.handle ≡ None) }
        ensures why { IfErr result (Tells (on_device id self.old.handle)) }
        ensures err { OnErr result (IsLeft self.old self.new) }
    {
        let Some(device) = keys::find_device(&self.devices, id) else {
            return Err(CallError::Gone);
        };
        device.resumed(self.converter.handle_mut())?;
        Ok(())
    }

    /// Tells the client that the device of that id takes no input.
    pub(crate) fn pause(&mut self, id: u64) -> Result<(), CallError>
        ensures ok { OnOk result (Acts (Pauses id) self.old self.new) }
        ensures accepted { OnOk result (on_device id self.old.handle ≡ None) }
        ensures why { IfErr result (Tells (on_device id self.old.handle)) }
        ensures err { OnErr result (IsLeft self.old self.new) }
    {
        let Some(device) = keys::find_device(&self.devices, id) else {
            return Err(CallError::Gone);
        };
        device.paused(self.converter.handle_mut())?;
        Ok(())
    }

    /// Tells the client which modifiers hold on the keyboard of the device of that id.
    pub(crate) fn modifiers(
        &mut self,
        id: u64,
        depressed: u32,
        locked: u32,
        latched: u32,
        group: u32,
    ) -> Result<(), CallError>
        ensures ok { OnOk result (Acts (TellsModifiers id depressed locked latched group) self.old self.new) }
        ensures accepted { OnOk result (on_interface known.Keyboard id self.old.handle ≡ None) }
        ensures why { IfErr result (Tells (on_interface known.Keyboard id self.old.handle)) }
        ensures err { OnErr result (IsLeft self.old self.new) }
    {
        let Some(device) = keys::find_device(&self.devices, id) else {
            return Err(CallError::Gone);
        };
        let Some(keyboard) = device.interface::<Keyboard>(self.converter.handle()) else {
            return Err(CallError::Capabilities);
        };
        let handle = self.converter.handle_mut();
        tell_modifiers(handle, &keyboard, depressed, locked, latched, group)?;
        Ok(())
    }

    /// Whether the device of that id has the capability left.
    pub(crate) fn device_has(&self, id: u64, capability: DeviceCapability) -> Option<bool>
        ensures { result ≡ option_map (device_has capability) (find (is_device id) self.now.handle.devices) }
    {
        let Some(device) = keys::find_device(&self.devices, id) else {
            return None;
        };
        Some(device.has_capability(self.converter.handle(), capability))
    }
}

// What is told to a client that receives.
impl KeyedConverter {
    /// Tells the client that the device of that id begins to send input.
    pub(crate) fn start_emulating(&mut self, id: u64, sequence: u32) -> Result<(), CallError>
        ensures ok { OnOk result (Acts (StartsEmulating id sequence) self.old self.new) }
        ensures accepted { OnOk result (on_receiver id self.old.handle ≡ None) }
        ensures why { IfErr result (Tells (on_receiver id self.old.handle)) }
        ensures err { OnErr result (IsLeft self.old self.new) }
    {
        if !is_receiver(self.converter.handle()) {
            return Err(CallError::WrongRole);
        }
        let Some(device) = keys::find_device(&self.devices, id) else {
            return Err(CallError::Gone);
        };
        device.start_emulating(self.converter.handle_mut(), sequence)?;
        Ok(())
    }

    /// Tells the client that the device of that id sends no more input.
    pub(crate) fn stop_emulating(&mut self, id: u64) -> Result<(), CallError>
        ensures ok { OnOk result (Acts (StopsEmulating id) self.old self.new) }
        ensures accepted { OnOk result (on_receiver id self.old.handle ≡ None) }
        ensures why { IfErr result (Tells (on_receiver id self.old.handle)) }
        ensures err { OnErr result (IsLeft self.old self.new) }
    {
        if !is_receiver(self.converter.handle()) {
            return Err(CallError::WrongRole);
        }
        let Some(device) = keys::find_device(&self.devices, id) else {
            return Err(CallError::Gone);
        };
        device.stop_emulating(self.converter.handle_mut())?;
        Ok(())
    }

    /// Tells the client that the input of the device of that id since its last frame belongs together.
    pub(crate) fn frame(&mut self, id: u64, time: u64) -> Result<(), CallError>
        ensures ok { OnOk result (Acts (Frames id time) self.old self.new) }
        ensures accepted { OnOk result (on_receiver id self.old.handle ≡ None) }
        ensures why { IfErr result (Tells (on_receiver id self.old.handle)) }
        ensures err { OnErr result (IsLeft self.old self.new) }
    {
        if !is_receiver(self.converter.handle()) {
            return Err(CallError::WrongRole);
        }
        let Some(device) = keys::find_device(&self.devices, id) else {
            return Err(CallError::Gone);
        };
        device.frame(self.converter.handle_mut(), time)?;
        Ok(())
    }

    /// Tells the client of an input of the device of that id.
    pub(crate) fn send(&mut self, id: u64, input: &InputEvent) -> Result<(), CallError>
        ensures ok { OnOk result (Acts (SendsInput id input.now) self.old self.new) }
        ensures accepted { OnOk result (sending id input.now self.old.handle ≡ None) }
        ensures why { IfErr result (Tells (sending id input.now self.old.handle)) }
        ensures err { OnErr result (IsLeft self.old self.new) }
    {
        if !is_receiver(self.converter.handle()) {
            return Err(CallError::WrongRole);
        }
        let Some(device) = keys::find_device(&self.devices, id) else {
            return Err(CallError::Gone);
        };
        if !device.has_capability(self.converter.handle(), inputs::capability(input)) {
            return Err(CallError::Capabilities);
        }
        inputs::tell(self.converter.handle_mut(), device, input)?;
        Ok(())
    }
}

// The connection itself.
impl KeyedConverter {
    /// Announces a ping. It answers its id.
    pub(crate) fn ping(&mut self) -> Result<u64, CallError>
        ensures ok { IfOk result (λ id. Acts (PingsAs id) self.old self.new) }
        ensures accepted { OnOk result (pinging self.old.handle ≡ None) }
        ensures why { IfErr result (Tells (pinging self.old.handle)) }
        ensures err { OnErr result (IsLeft self.old self.new) }
    {
        Ok(ping::announce(self.converter.handle_mut())?)
    }

    /// Ends the connection: the client is told that all is gone, and why.
    pub(crate) fn disconnect(
        &mut self,
        reason: DisconnectReason,
        explanation: Option<&str>,
    ) -> Result<(), CallError>
        ensures ok { OnOk result (Acts (Ends (disconnect_reason_number reason) (option_copied explanation.entry))
            self.old self.new) }
        ensures accepted { OnOk result (disconnecting (disconnect_reason_number reason)
            (option_copied explanation.entry) self.old.handle ≡ None) }
        ensures why { IfErr result (Tells (disconnecting (disconnect_reason_number reason)
            (option_copied explanation.entry) self.old.handle)) }
        ensures err { OnErr result (IsLeft self.old self.new) }
    {
        if self.converter.handle().has_sent_disconnected() {
            return Err(CallError::Over);
        }
        self.converter
            .handle_mut()
            .disconnected(reason, explanation)?;
        self.seats.clear();
        self.devices.clear();
        Ok(())
    }
}

/// Tells the client which modifiers hold on the keyboard, by the event of the next serial.
fn tell_modifiers(
    handle: &mut Connection,
    keyboard: &Keyboard,
    depressed: u32,
    locked: u32,
    latched: u32,
    group: u32,
) -> Result<(), SendError>
    ensures { AllOrNothing result handle.old
        (tells handle.old (modifiers_event depressed locked latched group keyboard.now.id)) handle.new }
{
    let serial = handle.last_serial().wrapping_add(1);
    let context = handle.context_mut();
    keyboard.modifiers(context, serial, depressed, locked, latched, group)?;
    handle.next_serial();
    Ok(())
}

/// Whether the client is a receiver.
fn is_receiver(handle: &Connection) -> bool
    ensures { result ≡ receives handle.now.context_type }
{
    matches!(handle.context_type(), ContextType::Receiver)
}

/// Whether a device of the seat may have these capabilities and this description.
fn may_have(
    handle: &Connection,
    seat: &Seat,
    wanted: DeviceCapabilities,
    setup: &[DeviceSetup<'_>],
) -> Result<(), CallError>
    ensures accepted { OnOk result (describing_at (find (is_seat seat.now.id) handle.now.seats) wanted setup.now
        (length handle.now.ctx.unsent_handles) ≡ None) }
    ensures why { IfErr result (λ e. describing_at (find (is_seat seat.now.id) handle.now.seats) wanted setup.now
        (length handle.now.ctx.unsent_handles) ≡ Some e) }
{
    let Some(given) = handle.seat_capabilities(seat) else {
        return Err(CallError::Gone);
    };
    if !given.contains(wanted) {
        return Err(CallError::Capabilities);
    }
    let keymaps = count_keymaps(setup);
    let keyboard = DeviceCapability::Keyboard;
    if keymaps > 0 && !(given.has(keyboard) && wanted.has(keyboard)) {
        return Err(CallError::NoKeyboard);
    }
    let waiting = handle.context().backend().unsent_handles().len();
    if waiting > MOST_PIECE_HANDLES || keymaps > MOST_PIECE_HANDLES - waiting {
        return Err(CallError::TooManyHandles);
    }
    Ok(())
}

/// How many keymaps are in a description.
#[tactic(auto, using(crate::proofs::Keymaps::counted))]
fn count_keymaps(setup: &[DeviceSetup<'_>]) -> usize
    ensures { result ≡ length (setup_handles setup.now) }
{
    setup.iter().filter(|item| is_keymap(item)).count()
}

/// Whether it is a keymap.
fn is_keymap(item: &DeviceSetup<'_>) -> bool
    ensures { result ≡ nat_lt 0 (length (setup_handle item.now)) }
{
    matches!(item, DeviceSetup::Keymap { .. })
}
