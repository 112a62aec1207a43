//! A connection for a program with a policy of its own.

ghost use Rattle.std.specs.Prelude.{◌≡◌, ◌≤◌, length, None, Some, IfOk, IfErr, OnOk, OnErr, is_some};
ghost use Rattle.std.specs.Option.{option_copied, option_map};
ghost use Rattle.ei_spec.specs.declared.interface.KnownInterface.TheVariants as known;
ghost use Rattle.ei_types.specs.Enums.{disconnect_reason_number};
ghost use Rattle.ei_backend.specs.Outgoing.{unsent_after};
ghost use Rattle.ei_input.specs.Queue.{first_of, rest_of};
ghost use Rattle.reis_eis.specs.Words.{unsent_in, handle_in, queue_in, with_queue};
ghost use Rattle.reis_eis.specs.Refusals.{Tells, TellsOrWants, feed_answer, end_answer, sent_answer, adding_seat, on_seat, adding_device, on_device, on_interface, on_receiver, sending, pinging, disconnecting};
ghost use Rattle.reis_eis.specs.Feeding.{end_of};
ghost use Rattle.reis_eis.specs.Acting.{AddsSeatAs, RemovesSeatAt, AddsDeviceAs, RemovesDeviceAt, Resumes, Pauses, StartsEmulating, StopsEmulating, Frames, TellsModifiers, SendsInput, PingsAs, Ends, refusal_in, has_in};

use crate::call_error::CallError;
use crate::ending::Ending;
use crate::notice::Notice;
use crate::one_piece::OnePiece;
use crate::phase::Phase;
use crate::shaking::Shaking;
use crate::written::Written;
use ei_backend::HasBackend;
use ei_input::Queue;
use ei_input::input_event::InputEvent;
use ei_request::{Connection as Handle, DeviceSetup, EisRequest};
use ei_spec::Handle as Descriptor;
use ei_spec::limits::{MOST_PIECE_BYTES, MOST_PIECE_HANDLES};
use ei_types::{DeviceCapabilities, DeviceCapability, DeviceType, DisconnectReason, Error};
use ei_wire::NoMemory;
use std::alloc::Global;
use std::marker::Model;

/// A server's connection with one client: what waits to be written, what the client asks and tells, and the seats and devices
/// that the program announced, each named by the id of its object.
///
/// It does nothing by itself: hand in what came with `feed`, write out what `unsent` and `unsent_handles` show and say so with
/// `sent`, act on each `next_request` and each `next_notice`, and let go of the client when `ending` tells how it ended and all
/// is written.
///
/// A call that is refused changes nothing, but that more memory may be ready. `NoMemory` may come in place of any other
/// refusal of a call that announces something.
#[derive(Drop)]
pub struct Connection {
    alloc: Global,
    phase: Phase,
    ending: Option<Ending>,
    notices: Queue<Notice>,
}

impl Model for Connection {
    ghost use Rattle.reis_eis.specs.View.{EisView, eis_code};

    ghost Value = { EisView };

    ghost coded = { eis_code };

    ghost use Rattle.reis_eis.specs.Words.{IsWhole};

    ghost view = { λ c. record { phase = c.phase; ending = c.ending; notices = c.notices.items } };

    ghost invariant = { λ c. IsWhole c.phase };
}

// What comes and goes.
impl Connection {
    ghost use Rattle.reis_eis.specs.Starting.{started, with_unsent_in};
    ghost use Rattle.reis_eis.specs.Feeding.{Feeds};
    ghost use Rattle.reis_eis.specs.Acting.{TellsEnd, IsKept};

    /// Starts a connection, whose greeting waits to be written. The connection will bear the serial.
    ///
    /// `NoMemory` where memory ran out.
    pub fn start(alloc: Global, initial_serial: u32) -> Result<Connection, NoMemory>
        ensures { IfOk result (λ connection. connection ≡ started initial_serial) }
    {
        let shaking = Shaking::start(alloc, initial_serial)?;
        Ok(Connection {
            alloc,
            phase: Phase::Shaking(shaking),
            ending: None,
            notices: Queue::new(alloc),
        })
    }

    /// Hands in what came from the client: 1 to 65536 bytes, and at most 64 handles that came with them. Every message that this
    /// makes whole is handled, one after another, up to one that ends the connection. The time, in microseconds, is that of
    /// each frame that the connection makes itself. A message to no object is answered by `invalid_object`.
    ///
    /// `Over` where the connection has ended; `Empty`, `TooLong` and `TooManyHandles` where the piece has no byte, more than
    /// 65536 bytes or more than 64 handles. Where what the client sends is refused the connection ends by this call, and so
    /// where more than 4096 handles would be unread, or where memory runs out: `ending` says why.
    pub fn feed(&mut self, bytes: &[u8], handles: &[Descriptor], time: u64) -> Result<(), CallError>
        ensures answer { result ≡ feed_answer (is_some self.old.ending) (length bytes.now) (length handles.now) }
        ensures kept { OnErr result (self.new ≡ self.old) }
        ensures feeds { OnOk result (
            Feeds (record { bytes = bytes.now; handles = handles.now }) time self.old self.new) }
    {
        if self.ending.is_some() {
            return Err(CallError::Over);
        }
        if bytes.is_empty() {
            return Err(CallError::Empty);
        }
        if bytes.len() > MOST_PIECE_BYTES {
            return Err(CallError::TooLong);
        }
        if handles.len() > MOST_PIECE_HANDLES {
            return Err(CallError::TooManyHandles);
        }
        self.take(bytes, handles, time);
        Ok(())
    }

    /// Takes a piece, and handles every whole message.
    fn take(&mut self, bytes: &[u8], handles: &[Descriptor], time: u64)
        requires going { self.old.ending ≡ None }
        requires some { 1 ≤ length bytes.now }
        requires bytes { length bytes.now ≤ 65536 }
        requires handles { length handles.now ≤ 64 }
        ensures feeds { Feeds (record { bytes = bytes.now; handles = handles.now }) time self.old self.new }
    {
        let mut source = OnePiece::of(bytes, handles);
        if let Err(error) = self.phase.read(&mut source) {
            self.ending = Some(Ending::Refused(Error::from(error)));
            return;
        }
        self.ending = self
            .phase
            .handle_messages(self.alloc, time, &mut self.notices);
    }

    /// Says that no more comes from the client: the connection ends, with `End` behind the handshake, and before that with
    /// `UnexpectedEof`.
    ///
    /// `Over` where it has ended already.
    pub fn end_of_input(&mut self) -> Result<(), CallError>
        ensures answer { result ≡ end_answer (is_some self.old.ending) }
        ensures kept { OnErr result (self.new ≡ self.old) }
        ensures ends { OnOk result (self.new ≡ record self.old { ending = Some (end_of self.old.phase) }) }
    {
        if self.ending.is_some() {
            return Err(CallError::Over);
        }
        self.ending = Some(match &self.phase {
            Phase::Standing(_) => Ending::End,
            _ => Ending::Refused(Error::UnexpectedEof),
        });
        Ok(())
    }

    /// The bytes that wait to be written to the client.
    pub fn unsent(&self) -> &[u8]
        ensures { result.now ≡ (unsent_in self.now.phase).bytes }
    {
        match self.phase.context() {
            Some(context) => context.backend().unsent(),
            None => &[],
        }
    }

    /// The handles that wait to be passed, all with the first of these bytes.
    pub fn unsent_handles(&self) -> &[Descriptor]
        ensures { result.now ≡ (unsent_in self.now.phase).handles }
    {
        match self.phase.context() {
            Some(context) => context.backend().unsent_handles(),
            None => &[],
        }
    }

    /// Says that so many of the bytes that wait were written, the first ones, and with the first of them all the handles that
    /// waited. They wait no more.
    ///
    /// `NotUnsent` where so many bytes don't wait.
    pub fn sent(&mut self, bytes: usize) -> Result<(), CallError>
        ensures answer { result ≡ sent_answer bytes (length (unsent_in self.old.phase).bytes) }
        ensures kept { OnErr result (self.new ≡ self.old) }
        ensures dropped { OnOk result (self.new ≡
            with_unsent_in self.old (unsent_after bytes (unsent_in self.old.phase))) }
    {
        if bytes > self.unsent().len() {
            return Err(CallError::NotUnsent);
        }
        let mut sink = Written::of(bytes);
        // It fails where not all was written.
        let _ = self.phase.flush(&mut sink);
        Ok(())
    }

    /// The next request of the client, which waits no more. The notices of the client wait apart.
    pub fn next_request(&mut self) -> Option<EisRequest>
        ensures first { result ≡ first_of (queue_in self.old.phase) }
        ensures rest { self.new ≡ record self.old {
          phase = with_queue self.old.phase
              (rest_of (queue_in self.old.phase));
        } }
    {
        self.phase.next_request()
    }

    /// The oldest notice of the client, which waits no more: that it released a seat, or answered a ping.
    ///
    /// A notice may be older or newer than a request that waits; each list is in order for itself. A program that wants the
    /// answer to a ping behind all that the client sent before it takes requests until none waits, and then notices.
    pub fn next_notice(&mut self) -> Option<Notice>
        ensures first { result ≡ first_of self.old.notices }
        ensures rest { self.new ≡ record self.old { notices = rest_of self.old.notices } }
    {
        self.notices.take_first()
    }

    /// The connection behind the handshake, which knows the client's name, its context type and the interfaces that both ends
    /// have. `None` exactly before the handshake is done.
    pub fn client(&self) -> Option<&Handle>
        ensures { option_map (λ c. c.now) result ≡ handle_in self.now.phase }
    {
        match &self.phase {
            Phase::Standing(keyed) => Some(keyed.handle()),
            _ => None,
        }
    }

    /// How the connection ended; `None` while it goes on.
    pub fn ending(&self) -> Option<&Ending>
        ensures { option_copied result ≡ self.now.ending }
    {
        self.ending.as_ref()
    }

    /// Tells the client that the connection ends: all seats are taken away, each behind its devices, and `disconnected` is
    /// sent, with the reason and a text for people, if there is one. The connection ends by it, where it hasn't ended: so a
    /// client whose message was refused can still be told why.
    ///
    /// `NotConnected` before the handshake is done; `Over` where the client was told before; `MessageTooLong` where the event
    /// would have more than 1048576 bytes; `NoMemory`.
    pub fn disconnect(
        &mut self,
        reason: DisconnectReason,
        explanation: Option<&str>,
    ) -> Result<(), CallError>
        ensures tells { OnOk result (TellsEnd (Ends (disconnect_reason_number reason)
            (option_copied explanation.entry)) self.old self.new) }
        ensures accepted { OnOk result (refusal_in (disconnecting (disconnect_reason_number reason)
            (option_copied explanation.entry)) self.old.phase ≡ None) }
        ensures why { IfErr result (Tells (refusal_in (disconnecting (disconnect_reason_number reason)
            (option_copied explanation.entry)) self.old.phase)) }
        ensures err { OnErr result (IsKept self.old self.new) }
    {
        let Phase::Standing(keyed) = &mut self.phase else {
            return Err(CallError::NotConnected);
        };
        keyed.disconnect(reason, explanation)?;
        if self.ending.is_none() {
            self.ending = Some(Ending::Told);
        }
        Ok(())
    }
}

/// Makes a call on the converter of a connection that goes on, where its handshake is done.
macro_rules! on_standing {
    ($connection:ident, $keyed:ident => $call:expr) => {{
        if $connection.ending.is_some() {
            return Err(CallError::Over);
        }
        match &mut $connection.phase {
            Phase::Standing($keyed) => $call,
            _ => Err(CallError::NotConnected),
        }
    }};
}

// Pings and seats. Each of these calls answers `Over` where the connection has ended, and else `NotConnected` before the
// handshake is done.
impl Connection {
    ghost use Rattle.reis_eis.specs.Acting.{ActsOn, IsKept, refusal};

    /// Asks the client to answer: `ping`, which announces a ping. It answers the ping's id. The client answers it once it did
    /// all that was sent before, and the notice `Pong` tells so; each ping is answered at most once.
    ///
    /// `IdsExhausted` where no id is left; `NoMemory`.
    pub fn ping(&mut self) -> Result<u64, CallError>
        ensures pings { IfOk result (λ id. ActsOn (PingsAs id) self.old self.new) }
        ensures accepted { OnOk result (refusal pinging self.old ≡ None) }
        ensures why { IfErr result (Tells (refusal pinging self.old)) }
        ensures err { OnErr result (IsKept self.old self.new) }
    {
        on_standing!(self, keyed => keyed.ping())
    }

    /// Announces a seat: `seat`, `name` where there is one, `capability` for each of these capabilities whose interface both
    /// ends have, by rising bit, and `done`. It answers the seat's id.
    ///
    /// `IdsExhausted` where no id is left; `MessageTooLong` where the event of the name would have more than 1048576 bytes;
    /// `NoMemory`.
    pub fn add_seat(
        &mut self,
        name: Option<&str>,
        capabilities: DeviceCapabilities,
    ) -> Result<u64, CallError>
        ensures adds { IfOk result (λ id. ActsOn (AddsSeatAs id (option_copied name.entry) capabilities)
            self.old self.new) }
        ensures accepted { OnOk result (refusal (adding_seat (option_copied name.entry)) self.old ≡ None) }
        ensures why { IfErr result (TellsOrWants (refusal (adding_seat (option_copied name.entry)) self.old)) }
        ensures err { OnErr result (IsKept self.old self.new) }
    {
        on_standing!(self, keyed => keyed.add_seat(name, capabilities))
    }

    /// Takes a seat away: its devices by rising ids, and then the seat, unless the client released it, each by `destroyed`
    /// with the next serial.
    ///
    /// `Gone` where there is no seat of that id; `NoMemory`.
    pub fn remove_seat(&mut self, seat: u64) -> Result<(), CallError>
        ensures removes { OnOk result (ActsOn (RemovesSeatAt seat) self.old self.new) }
        ensures accepted { OnOk result (refusal (on_seat seat) self.old ≡ None) }
        ensures why { IfErr result (Tells (refusal (on_seat seat) self.old)) }
        ensures err { OnErr result (IsKept self.old self.new) }
    {
        on_standing!(self, keyed => keyed.remove_seat(seat))
    }
}

// Devices. Each of these calls answers `Over` where the connection has ended, and else `NotConnected` before the handshake is done.
impl Connection {
    ghost use Rattle.reis_eis.specs.Acting.{ActsOn, IsKept, refusal};

    /// Announces a device of a seat: `device`, `name` where there is one, `device_type`, `interface` for each of the
    /// capabilities by rising bit, the items of its description in their order, and `done`. It answers the device's id. A
    /// keymap's handle waits with these bytes until they are written; who owns the descriptor behind it, the program knows.
    ///
    /// `Gone` where there is no seat of that id; `Capabilities` where the seat wasn't given one of these; `NoKeyboard` for a
    /// keymap where the device gets no keyboard; `TooManyHandles` where more than 64 handles would wait to be written;
    /// `IdsExhausted` where too few ids are left; `MessageTooLong` where the event of a text would have more than 1048576
    /// bytes; `NoMemory`.
    pub fn add_device(
        &mut self,
        seat: u64,
        name: Option<&str>,
        device_type: DeviceType,
        capabilities: DeviceCapabilities,
        setup: &[DeviceSetup<'_>],
    ) -> Result<u64, CallError>
        ensures adds { IfOk result (λ id. ActsOn (AddsDeviceAs id seat (option_copied name.entry) device_type
            capabilities setup.now) self.old self.new) }
        ensures accepted { OnOk result (refusal (adding_device seat (option_copied name.entry) capabilities
            setup.now) self.old ≡ None) }
        ensures why { IfErr result (TellsOrWants (refusal (adding_device seat (option_copied name.entry) capabilities
            setup.now) self.old)) }
        ensures err { OnErr result (IsKept self.old self.new) }
    {
        on_standing!(self, keyed => keyed.add_device(seat, name, device_type, capabilities, setup))
    }

    /// Takes a device away: `destroyed` of each interface that it has left, by rising ids, and then of the device, each with
    /// the next serial. What waits on it for a frame is dropped.
    ///
    /// `Gone` where there is no device of that id; `NoMemory`.
    pub fn remove_device(&mut self, device: u64) -> Result<(), CallError>
        ensures removes { OnOk result (ActsOn (RemovesDeviceAt device) self.old self.new) }
        ensures accepted { OnOk result (refusal (on_device device) self.old ≡ None) }
        ensures why { IfErr result (Tells (refusal (on_device device) self.old)) }
        ensures err { OnErr result (IsKept self.old self.new) }
    {
        on_standing!(self, keyed => keyed.remove_device(device))
    }

    /// Tells the client that the device takes input: `resumed` with the next serial.
    ///
    /// `Gone` where there is no device of that id; `NoMemory`.
    pub fn resume(&mut self, device: u64) -> Result<(), CallError>
        ensures resumes { OnOk result (ActsOn (Resumes device) self.old self.new) }
        ensures accepted { OnOk result (refusal (on_device device) self.old ≡ None) }
        ensures why { IfErr result (Tells (refusal (on_device device) self.old)) }
        ensures err { OnErr result (IsKept self.old self.new) }
    {
        on_standing!(self, keyed => keyed.resume(device))
    }

    /// Tells the client that the device takes no input: `paused` with the next serial. No touch of it is down any more; what
    /// waits for a frame stays.
    ///
    /// `Gone` where there is no device of that id; `NoMemory`.
    pub fn pause(&mut self, device: u64) -> Result<(), CallError>
        ensures pauses { OnOk result (ActsOn (Pauses device) self.old self.new) }
        ensures accepted { OnOk result (refusal (on_device device) self.old ≡ None) }
        ensures why { IfErr result (Tells (refusal (on_device device) self.old)) }
        ensures err { OnErr result (IsKept self.old self.new) }
    {
        on_standing!(self, keyed => keyed.pause(device))
    }

    /// Tells the client which modifiers hold on the device's keyboard: `modifiers` with the next serial, masks of those
    /// that are down, locked and latched, and the number of the layout. The protocol sends it to senders and receivers.
    ///
    /// `Gone` where there is no device of that id; `Capabilities` where it has no keyboard, or has it no more;
    /// `NoMemory`.
    pub fn modifiers(
        &mut self,
        device: u64,
        depressed: u32,
        locked: u32,
        latched: u32,
        group: u32,
    ) -> Result<(), CallError>
        ensures tells { OnOk result (ActsOn (TellsModifiers device depressed locked latched group) self.old self.new) }
        ensures accepted { OnOk result (refusal (on_interface known.Keyboard device) self.old ≡ None) }
        ensures why { IfErr result (Tells (refusal (on_interface known.Keyboard device) self.old)) }
        ensures err { OnErr result (IsKept self.old self.new) }
    {
        on_standing!(self, keyed => keyed.modifiers(device, depressed, locked, latched, group))
    }

    /// Whether the device has the interface of the capability left, which the client may have released. `None` where there is no
    /// device of that id.
    pub fn device_has(&self, device: u64, capability: DeviceCapability) -> Option<bool>
        ensures { result ≡ has_in device capability self.now.phase }
    {
        match &self.phase {
            Phase::Standing(keyed) => keyed.device_has(device, capability),
            _ => None,
        }
    }
}

// What is told to a client that receives. Each of these calls answers `Over` where the connection has ended, else
// `NotConnected` before the handshake is done, and else `WrongRole` where the client isn't a receiver: libei sends these
// events to a receiver alone, and that the call is refused else is our choice.
impl Connection {
    ghost use Rattle.reis_eis.specs.Acting.{ActsOn, IsKept, refusal};

    /// Tells the client that the device begins to send input: `start_emulating` with the next serial and this sequence,
    /// which counts such beginnings.
    ///
    /// `WrongRole` where the client isn't a receiver; `Gone` where there is no device of that id; `NoMemory`.
    pub fn start_emulating(&mut self, device: u64, sequence: u32) -> Result<(), CallError>
        ensures starts { OnOk result (ActsOn (StartsEmulating device sequence) self.old self.new) }
        ensures accepted { OnOk result (refusal (on_receiver device) self.old ≡ None) }
        ensures why { IfErr result (Tells (refusal (on_receiver device) self.old)) }
        ensures err { OnErr result (IsKept self.old self.new) }
    {
        on_standing!(self, keyed => keyed.start_emulating(device, sequence))
    }

    /// Tells the client that the device sends no more input: `stop_emulating` with the next serial.
    ///
    /// `WrongRole` where the client isn't a receiver; `Gone` where there is no device of that id; `NoMemory`.
    pub fn stop_emulating(&mut self, device: u64) -> Result<(), CallError>
        ensures stops { OnOk result (ActsOn (StopsEmulating device) self.old self.new) }
        ensures accepted { OnOk result (refusal (on_receiver device) self.old ≡ None) }
        ensures why { IfErr result (Tells (refusal (on_receiver device) self.old)) }
        ensures err { OnErr result (IsKept self.old self.new) }
    {
        on_standing!(self, keyed => keyed.stop_emulating(device))
    }

    /// Tells the client that the input of the device since its last frame belongs together: `frame` with the next
    /// serial and this time, in microseconds.
    ///
    /// `WrongRole` where the client isn't a receiver; `Gone` where there is no device of that id; `NoMemory`.
    pub fn frame(&mut self, device: u64, time: u64) -> Result<(), CallError>
        ensures frames { OnOk result (ActsOn (Frames device time) self.old self.new) }
        ensures accepted { OnOk result (refusal (on_receiver device) self.old ≡ None) }
        ensures why { IfErr result (Tells (refusal (on_receiver device) self.old)) }
        ensures err { OnErr result (IsKept self.old self.new) }
    {
        on_standing!(self, keyed => keyed.frame(device, time))
    }

    /// Tells the client of an input of the device: the event of that input, by the device's interface for it. It bears no
    /// serial, and belongs to the frame that comes next. The protocol wants a text of 1 to 254 bytes; that isn't tested
    /// here.
    ///
    /// `WrongRole` where the client isn't a receiver; `Gone` where there is no device of that id; `Capabilities` where it
    /// doesn't have the interface, or has it no more; `MessageTooLong` for a text whose event would have more than
    /// 1048576 bytes; `NoMemory`.
    pub fn send(&mut self, device: u64, input: &InputEvent) -> Result<(), CallError>
        ensures sends { OnOk result (ActsOn (SendsInput device input.now) self.old self.new) }
        ensures accepted { OnOk result (refusal (sending device input.now) self.old ≡ None) }
        ensures why { IfErr result (Tells (refusal (sending device input.now) self.old)) }
        ensures err { OnErr result (IsKept self.old self.new) }
    {
        on_standing!(self, keyed => keyed.send(device, input))
    }
}
