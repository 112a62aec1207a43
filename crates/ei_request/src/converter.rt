//! The server's converter.

ghost use Rattle.std.specs.Prelude.{◌≡◌, ◌++◌, [], ℕ, length, nat_lt, true, List, Option, OnOk, OnErr, IfOk, IfErr, None, find};
ghost use Rattle.std.specs.Borrow.{sem};
ghost use Rattle.ei_types.specs.declared.error.Error.TheVariants as error;
ghost use Rattle.ei_backend.specs.Lent.{LentClock};
ghost use Rattle.std.specs.Option.{option_map};
ghost use Rattle.ei_request.specs.Connection.{new_connection};
ghost use Rattle.ei_input.specs.Queue.{first_of, rest_of};
ghost use Rattle.ei_request.specs.Typed.{meaning_of, connection_meaning, seat_meaning, device_meaning};
ghost use Rattle.ei_request.specs.Held.{is_seat, has_interface};
ghost use Rattle.ei_request.specs.Refusing.{asked_refusal, mask_refusal, Tells};
ghost use Rattle.ei_request.specs.Handling.{Handles, HandlesTo, obeys, hands_out, closes_group, queued_of, Times, device_in, set_of};
ghost use Rattle.ei_request.specs.Lending.{LendsHandle};

use crate::connection::Connection;
use crate::device::Device;
use crate::event::{self, EisRequest, Queue, input_of};
use crate::seat::Seat;
use ei_backend::{Clock, Interface, MessageEnum};
use ei_handshake::EisHandshakeResp;
use ei_input::input_event::InputEvent;
use ei_server::{Context, Request, connection, device, seat};
use ei_types::{DeviceCapabilities, Error, RequestError};
use ei_wire::NoMemory;
use std::alloc::Global;
use std::marker::Model;

/// Makes what a server is asked for out of a client's requests.
#[derive(Drop)]
pub struct EisRequestConverter {
    handle: Connection,
    queue: Queue,
}

impl Model for EisRequestConverter {
    ghost use Rattle.ei_request.specs.Converter.{ConverterView, converter_code};

    ghost Value = { ConverterView };

    ghost coded = { converter_code };

    ghost view = { λ c. record { handle = c.handle; queue = c.queue.items } };
}

impl EisRequestConverter {
    /// The converter of a connection, right after its handshake.
    pub fn new(
        alloc: Global,
        context: Context,
        resp: EisHandshakeResp,
        initial_serial: u32,
    ) -> EisRequestConverter
        ensures { result ≡ record { handle = new_connection context resp initial_serial; queue = [] } }
    {
        EisRequestConverter {
            handle: Connection::new(alloc, context, resp, initial_serial),
            queue: Queue::new(alloc),
        }
    }

    /// The connection.
    pub fn handle(&self) -> &Connection
        ensures { result.now ≡ self.now.handle }
    {
        &self.handle
    }

    /// The connection, to send on it.
    pub fn handle_mut(&mut self) -> &mut Connection
        ensures* lends { sem 𝓛 (LendsHandle self.entry result) }
        ensures value { result.now ≡ self.old.handle }
    {
        &mut self.handle
    }

    /// How many requests are queued.
    pub fn queued_len(&self) -> usize
        ensures { result ≡ length self.now.queue }
    {
        self.queue.len()
    }

    /// Takes the oldest request that is queued. `None` exactly where none is.
    pub fn next_request(&mut self) -> Option<EisRequest>
        ensures first { result ≡ first_of self.old.queue }
        ensures rest { self.new ≡ record self.old { queue = rest_of self.old.queue } }
    {
        self.queue.take_first()
    }

    /// Moves all requests that are queued behind `out`, in their order, or none.
    ///
    /// `NoMemory`: nothing moves.
    #[inline]
    pub fn drain_into(&mut self, out: &mut Vec<EisRequest>) -> Result<(), NoMemory>
        ensures out { OnOk result (out.new.items ≡ out.old.items ++ self.old.queue) }
        ensures emptied { OnOk result (self.new ≡ record self.old { queue = [] }) }
        ensures kept { OnErr result (out.new.items ≡ out.old.items) }
        ensures err { OnErr result (self.new ≡ self.old) }
    {
        self.queue.drain_into(out)?;
        Ok(())
    }

    /// Does what a request of the client asks, and queues what it means. An input waits for a frame of its device; a
    /// request that ends a group without a frame makes one, with the time of the clock and the last serial.
    ///
    /// `UnexpectedHandshakeEvent` for a request of the handshake. `InvalidInterfaceVersion` for a callback of another
    /// version than 1, and for a touch that a touchscreen of a version below 2 cancels. `InvalidCapabilities` for a
    /// mask with a bit outside those given to the seat. `TooManyTouches` for a touch that goes down where sixteen
    /// are, `DuplicatedTouchDown` for one that is down. `InvalidTextLength` for a text of no bytes or of more than 254.
    /// `NoMemory`. A refused call queues nothing, asks no clock, and leaves touches, serial and buffers.
    #[inline(always)]
    pub fn handle_request<C: Clock>(&mut self, clock: &mut C, request: Request) -> Result<(), Error>
        ensures handles { Handles self.old request (C.view clock.old).left result (C.view clock.new).left self.new }
        ensures kept { OnErr result (clock.new ≡ clock.old) }
        ensures clock { LentClock C.later clock.old clock.new }
    {
        let id = request.object().id();
        let version = request.object().version();
        self.handle_at(clock, id, version, request)
    }

    /// The same, of a request to the object of that id and version.
    #[inline(always)]
    fn handle_at<C: Clock>(
        &mut self,
        clock: &mut C,
        id: u64,
        version: u32,
        request: Request,
    ) -> Result<(), Error>
        ensures handles { HandlesTo self.old id version (meaning_of request)
            (C.view clock.old).left result (C.view clock.new).left self.new }
        ensures kept { OnErr result (clock.new ≡ clock.old) }
        ensures clock { LentClock C.later clock.old clock.new }
    {
        match request {
            Request::Handshake(_target, _request) => Err(Error::UnexpectedHandshakeEvent),
            Request::Connection(_target, request) => self.handle_connection(request),
            Request::Pingpong(_target, _request) => Ok(()),
            Request::Seat(_target, request) => self.handle_seat(id, request),
            Request::Device(_target, request) => self.handle_device(clock, id, request),
            request => self.obey(id, version, input_of(request)),
        }
    }

    /// A request to an interface of a device: an input, or else the release.
    #[inline(always)]
    fn obey(&mut self, id: u64, version: u32, asked: Option<InputEvent>) -> Result<(), Error>
        ensures accepted { OnOk result (asked_refusal version asked (find (has_interface id) self.old.handle.devices) ≡
            None) }
        ensures ok { OnOk result (self.new ≡ record self.old { handle = obeys self.old.handle id asked }) }
        ensures why { IfErr result (Tells (asked_refusal version asked
            (find (has_interface id) self.old.handle.devices))) }
        ensures err { OnErr result (self.new ≡ self.old) }
    {
        if let Err(refused) = self.handle.obey(id, version, asked) {
            return Err(refused.error(version));
        }
        Ok(())
    }

    /// A request to the connection.
    #[inline(never)]
    fn handle_connection(&mut self, request: connection::Request) -> Result<(), Error>
        ensures { (id version : ℕ) (told : Option (List ℕ)) →
            HandlesTo self.old id version (connection_meaning request) told result told self.new }
    {
        match request {
            connection::Request::Sync { callback } => {
                let version = callback.version();
                if version != 1 {
                    return Err(Error::InvalidInterfaceVersion("ei_callback", version));
                }
                self.handle.call_back(&callback)?;
            }
            connection::Request::Disconnect => {
                self.queue.reserve(1)?;
                self.queue.push_reserved(EisRequest::Disconnect);
            }
        }
        Ok(())
    }

    /// A request to the seat of that id.
    #[inline(never)]
    fn handle_seat(&mut self, id: u64, request: seat::Request) -> Result<(), Error>
        ensures { (version : ℕ) (told : Option (List ℕ)) →
            HandlesTo self.old id version (seat_meaning request) told result told self.new }
    {
        match request {
            seat::Request::Release => self.handle.release_seat(id)?,
            seat::Request::Bind { capabilities } => {
                if let Some((seat, capabilities)) = self.masked(id, capabilities)? {
                    self.queue.reserve(1)?;
                    self.queue
                        .push_reserved(EisRequest::Bind(event::Bind { seat, capabilities }));
                }
            }
            seat::Request::RequestDevice { capabilities } => {
                if let Some((seat, capabilities)) = self.masked(id, capabilities)? {
                    self.queue.reserve(1)?;
                    self.queue.push_reserved(EisRequest::RequestDevice(event::RequestDevice {
                        seat,
                        capabilities,
                    }));
                }
            }
        }
        Ok(())
    }

    /// The seat of that id with the capabilities of a mask, if it is held.
    ///
    /// `InvalidCapabilities` where a bit of the mask is no capability's, or that of one which the seat wasn't given.
    fn masked(&self, id: u64, mask: u64) -> Result<Option<(Seat, DeviceCapabilities)>, Error>
        ensures accepted { OnOk result (mask_refusal mask (find (is_seat id) self.now.handle.seats) ≡ None) }
        ensures ok { IfOk result (λ found. found ≡ option_map
            (λ s. (s.proxy, set_of mask)) (find (is_seat id) self.now.handle.seats)) }
        ensures why { IfErr result (Tells (mask_refusal mask (find (is_seat id) self.now.handle.seats))) }
    {
        let Some(held) = self.handle.find_seat(id) else {
            return Ok(None);
        };
        match DeviceCapabilities::from_bits(mask) {
            Some(wanted) if held.capabilities().contains(wanted) => {
                Ok(Some((Seat::over(held.proxy().copy()), wanted)))
            }
            _ => Err(Error::Request(RequestError::InvalidCapabilities)),
        }
    }

    /// A request to the device of that id.
    #[inline(always)]
    fn handle_device<C: Clock>(
        &mut self,
        clock: &mut C,
        id: u64,
        request: device::Request,
    ) -> Result<(), Error>
        ensures handles { (version : ℕ) → HandlesTo self.old id version (device_meaning request)
            (C.view clock.old).left result (C.view clock.new).left self.new }
        ensures kept { OnErr result (clock.new ≡ clock.old) }
        ensures clock { LentClock C.later clock.old clock.new }
    {
        match request {
            device::Request::Frame {
                last_serial,
                timestamp,
            } => self.frame(id, last_serial, timestamp),
            request => self.handle_closing(clock, id, request),
        }
    }

    /// A request to the device of that id that isn't a frame. If the device is held, what waits on it is handed out with a
    /// made frame, and the request behind it, which is made only once there is room for all.
    #[inline(never)]
    fn handle_closing<C: Clock>(
        &mut self,
        clock: &mut C,
        id: u64,
        request: device::Request,
    ) -> Result<(), Error>
        requires { closes_group (device_meaning request) ≡ true }
        ensures handles { (version : ℕ) → HandlesTo self.old id version (device_meaning request)
            (C.view clock.old).left result (C.view clock.new).left self.new }
        ensures kept { OnErr result (clock.new ≡ clock.old) }
        ensures later { C.later clock.old clock.new }
    {
        let Some(held) = self.handle.find_device(id) else {
            return Ok(());
        };
        let waiting = self.handle.waiting(id);
        self.queue.reserve_group(waiting)?;
        let device = held.device().copy();
        let time = made_time(clock, waiting);
        let serial = self.handle.last_serial();
        self.handle.hand_out(&mut self.queue, id, serial, time);
        self.queue.push_reserved(queued_of(device, request));
        Ok(())
    }

    /// Hands out what waits on the device of that id with a frame, if it is held.
    #[inline(always)]
    fn frame(&mut self, id: u64, serial: u32, time: u64) -> Result<(), Error>
        ensures ok { OnOk result (self.new ≡ hands_out self.old id serial time (device_in self.old id)) }
        ensures err { OnErr result (self.new ≡ self.old) }
        ensures only { IfErr result (λ e. e ≡ error.NoMemory) }
    {
        self.handle.frame(&mut self.queue, id, serial, time)?;
        Ok(())
    }
}

/// The time of a frame that is made for so many inputs: the clock's next reading. Where no input waits no frame is made, and the
/// clock isn't asked.
fn made_time<C: Clock>(clock: &mut C, waiting: usize) -> u64
    ensures time { Times true (nat_lt 0 waiting) result (C.view clock.old).left (C.view clock.new).left }
    ensures clock { LentClock C.later clock.old clock.new }
{
    if waiting > 0 { clock.now() } else { 0 }
}

/// What a request to the device becomes in the queue.
fn queued_of(device: Device, request: device::Request) -> EisRequest
    ensures { result ≡ queued_of request device }
{
    match request {
        device::Request::Release => EisRequest::DeviceClosed(event::DeviceClosed { device }),
        device::Request::StartEmulating {
            last_serial,
            sequence,
        } => EisRequest::DeviceStartEmulating(event::DeviceStartEmulating {
            device,
            last_serial,
            sequence,
        }),
        device::Request::StopEmulating { last_serial } => {
            EisRequest::DeviceStopEmulating(event::DeviceStopEmulating {
                device,
                last_serial,
            })
        }
        device::Request::Frame {
            last_serial,
            timestamp,
        } => EisRequest::Frame(event::Frame {
            device,
            last_serial,
            time: timestamp,
        }),
        device::Request::Ready => EisRequest::Ready(event::Ready { device }),
    }
}
