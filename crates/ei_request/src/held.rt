//! What a connection keeps of a seat and of a device.

ghost use Rattle.std.specs.Prelude.{◌≡◌, ◌<◌, ◌≤◌, ◌+◌, ◌∷◌, [], ◌++◌, OnOk, OnErr, IfErr, Some, None, length, false, true};
ghost use Rattle.std.specs.Prelude.{ℕ, IfSome, nat_eq, position, if◌then◌else◌};
ghost use Rattle.std.specs.Option.{option_copied};
ghost use Rattle.std.specs.Vec.{vec_len};
ghost use Rattle.std.specs.List.{list_any, filter};
ghost use Rattle.ei_spec.specs.Interface.{Known};
ghost use Rattle.ei_wire.specs.declared.error.SendError.TheVariants as send_error;
ghost use Rattle.ei_input.specs.declared.input_event.InputEvent.TheVariants as input;
ghost use Rattle.ei_request.specs.Held.{released, is_of_key, is_of_seat, has_interface, without_interface, untouched, without_first};
ghost use Rattle.ei_request.specs.Held.{takes_input, emptied, group_requests, device_ids, all_device_ids, with_input};
ghost use Rattle.ei_request.specs.DeviceTable.{own_ids, numbered, Forgets};
ghost use Rattle.ei_keyed.specs.Keyed.{keyed, without_key};
ghost use Rattle.ei_request.specs.Making.{is_one_of, object_of};
ghost use Rattle.ei_request.specs.Refusing.{input_refusal, press_refusal, TellsOfInput};
ghost use Rattle.ei_request.specs.declared.input_error.InputError.TheVariants as input_error;

use crate::device::Device;
use crate::event::{self, EisRequest, Queue, queue_timed};
use crate::input_error::InputError;
use ei_backend::{Interface, Object};
use ei_input::input_event::InputEvent;
use ei_keyed::Keyed;
use ei_server::Seat as SeatProxy;
use ei_spec::KnownInterface;
use ei_spec::limits::{MOST_TEXT_BYTES, MOST_TOUCHES};
use ei_types::DeviceCapabilities;
use ei_wire::{EiText, RawFloat, SendError};
use std::alloc::{AllocError, Global};
use std::collections::VecDeque;
use std::marker::Model;
use std::mem;

/// A seat, with the capabilities that it was given, and whether the client released it.
#[derive(Drop)]
pub(crate) struct HeldSeat {
    proxy: SeatProxy,
    capabilities: DeviceCapabilities,
    released: bool,
}

impl Model for HeldSeat {
    ghost use Rattle.ei_request.specs.Held.{SeatView, seat_code};

    ghost Value = { SeatView };

    ghost coded = { seat_code };

    ghost view = { λ s. record { proxy = s.proxy; capabilities = s.capabilities; released = s.released } };
}

impl HeldSeat {
    /// A new seat.
    pub(crate) fn new(proxy: SeatProxy, capabilities: DeviceCapabilities) -> HeldSeat
        ensures { result ≡ record { proxy = proxy; capabilities = capabilities; released = false } }
    {
        HeldSeat {
            proxy,
            capabilities,
            released: false,
        }
    }

    /// The id.
    pub(crate) fn id(&self) -> u64
        ensures { result ≡ self.now.proxy.id }
    {
        self.proxy.as_object().id()
    }

    /// The proxy.
    pub(crate) fn proxy(&self) -> &SeatProxy
        ensures { result.now ≡ self.now.proxy }
    {
        &self.proxy
    }

    /// The capabilities that it was given.
    pub(crate) fn capabilities(&self) -> DeviceCapabilities
        ensures { result ≡ self.now.capabilities }
    {
        self.capabilities
    }

    /// Whether the client released it.
    pub(crate) fn is_released(&self) -> bool
        ensures { result ≡ self.now.released }
    {
        self.released
    }

    /// The client releases it.
    pub(crate) fn release(&mut self)
        ensures { self.new ≡ released self.old }
    {
        self.released = true;
    }
}

/// A device, with its name, the interfaces that it has left by rising ids, the inputs that wait on it, and the
/// touches that are down.
#[derive(Drop)]
pub(crate) struct HeldDevice {
    device: Device,
    name: Option<EiText>,
    interfaces: Vec<Object>,
    waiting: Vec<InputEvent>,
    touches: Vec<u32>,
}

impl Model for HeldDevice {
    ghost use Rattle.ei_request.specs.Held.{DeviceView, device_code};

    ghost Value = { DeviceView };

    ghost coded = { device_code };

    ghost view = { λ d.
        record {
          device = d.device;
          name = d.name;
          interfaces = d.interfaces.items;
          waiting = d.waiting.items;
          touches = d.touches.items;
        } };
}

impl HeldDevice {
    /// A new device on which nothing waits.
    pub(crate) fn new(
        alloc: Global,
        device: Device,
        name: Option<EiText>,
        interfaces: Vec<Object>,
    ) -> HeldDevice
        ensures { result ≡ record {
          device = device;
          name = name;
          interfaces = interfaces.items;
          waiting = [];
          touches = [];
        } }
    {
        HeldDevice {
            device,
            name,
            interfaces,
            waiting: Vec::new(alloc),
            touches: Vec::new(alloc),
        }
    }

    /// The key.
    pub(crate) fn device(&self) -> &Device
        ensures { result.now ≡ self.now.device }
    {
        &self.device
    }

    /// The id.
    pub(crate) fn id(&self) -> u64
        ensures { result ≡ self.now.device.proxy.id }
    {
        self.device.id()
    }

    /// Whether it is the device of that key.
    pub(crate) fn is(&self, device: &Device) -> bool
        ensures { result ≡ is_of_key device.now self.now }
    {
        self.device == *device
    }

    /// Whether it is a device of the seat of that id.
    pub(crate) fn is_of_seat(&self, seat: u64) -> bool
        ensures { result ≡ is_of_seat seat self.now }
    {
        self.device.seat().id() == seat
    }

    /// The name.
    pub(crate) fn name(&self) -> Option<&str>
        ensures { option_copied result ≡ self.now.name }
    {
        match &self.name {
            Some(name) => Some(name.as_str()),
            None => None,
        }
    }

    /// Whether the interface of that id is one that it has left.
    pub(crate) fn has_interface(&self, id: u64) -> bool
        ensures { result ≡ has_interface id self.now }
    {
        self.interfaces.iter().any(|object| object.id() == id)
    }

    /// Its object of the interface, if it has it left.
    pub(crate) fn interface(&self, interface: KnownInterface) -> Option<&Object>
        ensures object { option_copied result ≡ object_of interface self.now.interfaces }
        ensures interface { IfSome result (λ o. o.now.interface ≡ Known interface) }
    {
        find_interface(&self.interfaces, interface)
    }

    /// The interface of that id leaves it. Says whether the table of the ids had it with that number, and no more has it.
    pub(crate) fn give_up(&mut self, ids: &mut Keyed<u64>, number: u64, id: u64) -> bool
        ensures gone { self.new ≡ without_interface id self.old }
        ensures forgotten { result ≡ true → (nat_eq id self.old.device.proxy.id ≡ false) ×
            Forgets number (id ∷ []) ids.old.items ids.new.items }
    {
        take_out_interface(&mut self.interfaces, id);
        id != self.id() && forget_id(ids, number, id)
    }

    /// How many inputs wait.
    pub(crate) fn waiting(&self) -> usize
        ensures { result ≡ length self.now.waiting }
    {
        self.waiting.len()
    }

    /// No touch is down any more.
    pub(crate) fn clear_touches(&mut self)
        ensures { self.new ≡ untouched self.old }
    {
        self.touches.clear();
    }

    /// Takes an input that comes through an interface of that version.
    ///
    /// `TooManyTouches` where a touch goes down and sixteen are, `DuplicatedTouchDown` where it is down;
    /// `InvalidInterfaceVersion` where a touchscreen of a version below 2 cancels one; `InvalidTextLength` for a
    /// text of no bytes or of more than 254; `NoMemory`. Then nothing changes.
    #[inline(always)]
    pub(crate) fn take(&mut self, version: u32, input: InputEvent) -> Result<(), InputError>
        ensures accepted { OnOk result (input_refusal version input (Some self.old) ≡ None) }
        ensures ok { OnOk result (self.new ≡ takes_input input self.old) }
        ensures why { IfErr result (TellsOfInput version (input_refusal version input (Some self.old))) }
        ensures err { OnErr result (self.new ≡ self.old) }
    {
        match input {
            InputEvent::TouchDown { touch_id, x, y } => {
                press(&mut self.touches, &mut self.waiting, touch_id, x, y)
            }
            InputEvent::TouchMotion { touch_id, x, y } => {
                if has_touch(&self.touches, touch_id) {
                    push_input(
                        &mut self.waiting,
                        InputEvent::TouchMotion { touch_id, x, y },
                    )?;
                }
                Ok(())
            }
            InputEvent::TouchUp { touch_id } => {
                lift(
                    &mut self.touches,
                    &mut self.waiting,
                    touch_id,
                    InputEvent::TouchUp { touch_id },
                )
            }
            InputEvent::TouchCancel { touch_id } => {
                if version < 2 {
                    return Err(InputError::OldTouchscreen);
                }
                lift(
                    &mut self.touches,
                    &mut self.waiting,
                    touch_id,
                    InputEvent::TouchCancel { touch_id },
                )
            }
            InputEvent::TextUtf8 { text } => {
                if text.len() == 0 || text.len() > MOST_TEXT_BYTES {
                    return Err(InputError::InvalidTextLength);
                }
                push_input(&mut self.waiting, InputEvent::TextUtf8 { text })
            }
            input => push_input(&mut self.waiting, input),
        }
    }

    /// Makes room for what waits, with a frame, and hands it out.
    ///
    /// `AllocError`: nothing is handed out.
    #[inline(always)]
    pub(crate) fn frame(
        &mut self,
        queue: &mut Queue,
        serial: u32,
        time: u64,
    ) -> Result<(), AllocError>
        ensures queue { OnOk result (queue.new.items ≡ queue.old.items ++
            group_requests self.old.device self.old.waiting serial time) }
        ensures ok { OnOk result (self.new ≡ emptied self.old) }
        ensures same { OnErr result (queue.new.items ≡ queue.old.items) }
        ensures err { OnErr result (self.new ≡ self.old) }
    {
        queue.reserve_group(self.waiting.len())?;
        push_group(queue, &self.device, &mut self.waiting, serial, time);
        Ok(())
    }

    /// Hands out what waits, each input with this time, and a frame of this serial behind them; nothing
    /// where nothing waits. There is room for it.
    pub(crate) fn hand_out(&mut self, queue: &mut Queue, serial: u32, time: u64)
        requires room { length self.old.waiting + 2 ≤ queue.old.room }
        ensures queue { queue.new.items ≡ queue.old.items ++
            group_requests self.old.device self.old.waiting serial time }
        ensures emptied { self.new ≡ emptied self.old }
        ensures left { 0 < queue.new.room }
    {
        push_group(queue, &self.device, &mut self.waiting, serial, time);
    }

    /// Adds the ids that go with it: those of its interfaces, and its own.
    pub(crate) fn push_ids(&self, ids: &mut Vec<u64>) -> Result<(), SendError>
        ensures ok { OnOk result (ids.new.items ≡ ids.old.items ++ device_ids self.now) }
        ensures only { IfErr result (λ e. e ≡ send_error.NoMemory) }
    {
        for object in &self.interfaces {
            ids.push(object.id())?;
        }
        ids.push(self.id())?;
        Ok(())
    }

    /// The same, where it is a device of the seat of that id.
    pub(crate) fn push_ids_if_of_seat(&self, seat: u64, ids: &mut Vec<u64>) -> Result<(), SendError>
        ensures ok { OnOk result (ids.new.items ≡ ids.old.items ++
            all_device_ids (filter (is_of_seat seat) (self.now ∷ []))) }
        ensures only { IfErr result (λ e. e ≡ send_error.NoMemory) }
    {
        if self.is_of_seat(seat) {
            self.push_ids(ids)?;
        }
        Ok(())
    }

    /// Puts its ids into the table of the ids, with its number. There is room for them.
    pub(crate) fn remember_ids(&self, ids: &mut Keyed<u64>, number: u64)
        requires { length (own_ids self.now) ≤ ids.old.room }
        ensures { ids.new.items ≡ ids.old.items ++ numbered number (own_ids self.now) }
    {
        ids.push_reserved(self.id(), number);
        for object in &self.interfaces {
            ids.push_reserved(object.id(), number);
        }
    }

    /// Takes its ids out of the table of the ids, and says whether each was found there with its number.
    pub(crate) fn forget_ids(&self, ids: &mut Keyed<u64>, number: u64) -> bool
        ensures { result ≡ true → Forgets number (own_ids self.now) ids.old.items ids.new.items }
    {
        if !forget_id(ids, number, self.id()) {
            return false;
        }
        for object in &self.interfaces {
            if !forget_id(ids, number, object.id()) {
                return false;
            }
        }
        true
    }
}

/// Takes the number of an id out of the table of the ids, and says whether it was that one.
fn forget_id(ids: &mut Keyed<u64>, number: u64, id: u64) -> bool
    ensures { result ≡ true → (keyed id ids.old.items ≡ Some number) × (ids.new.items ≡ without_key id ids.old.items) }
{
    match ids.take(id) {
        Some(first) => first == number,
        None => false,
    }
}

/// Whether it is an object of the interface.
fn is_object_of(object: &Object, interface: KnownInterface) -> bool
    ensures { result ≡ is_one_of interface object.now }
{
    object.known_interface() == Some(interface)
}

/// The object of the interface among these.
pub(crate) fn find_interface(objects: &[Object], interface: KnownInterface) -> Option<&Object>
    ensures object { option_copied result ≡ object_of interface objects.now }
    ensures interface { IfSome result (λ o. o.now.interface ≡ Known interface) }
{
    objects
        .iter()
        .find(|object| is_object_of(object, interface))
}

/// Where the object of that id stands.
fn interface_place(objects: &[Object], id: u64) -> Option<usize>
    ensures { result ≡ position (λ o. nat_eq o.id id) objects.now }
{
    objects.iter().position(|object| object.id() == id)
}

/// Takes the object of that id out.
fn take_out_interface(objects: &mut Vec<Object>, id: u64)
    ensures { objects.new.items ≡ without_first (λ o. nat_eq o.id id) objects.old.items }
{
    if let Some(at) = interface_place(objects, id) {
        objects.remove(at);
    }
}

/// Whether the touch is among these.
fn has_touch(touches: &[u32], touch: u32) -> bool
    ensures { result ≡ list_any (nat_eq touch) touches.now }
{
    touches.iter().any(|other| touch == *other)
}

/// Where the touch stands among these.
fn touch_place(touches: &[u32], touch: u32) -> Option<usize>
    ensures { result ≡ position (nat_eq touch) touches.now }
{
    touches.iter().position(|other| touch == *other)
}

/// An input waits.
#[inline(always)]
fn push_input(waiting: &mut Vec<InputEvent>, input: InputEvent) -> Result<(), InputError>
    ensures ok { OnOk result (waiting.new.items ≡ waiting.old.items ++ input ∷ []) }
    ensures err { OnErr result (waiting.new.items ≡ waiting.old.items) }
    ensures only { IfErr result (λ e. e ≡ input_error.NoMemory) }
{
    if waiting.reserve(1).is_err() {
        return Err(InputError::NoMemory);
    }
    waiting.push_reserved(input);
    Ok(())
}

/// A touch goes down, and the input waits.
#[inline(always)]
fn press(
    touches: &mut Vec<u32>,
    waiting: &mut Vec<InputEvent>,
    touch_id: u32,
    x: RawFloat,
    y: RawFloat,
) -> Result<(), InputError>
    ensures ok { OnOk result (touches.new.items ≡ touches.old.items ++ touch_id ∷ []) }
    ensures waits { OnOk result (waiting.new.items ≡ waiting.old.items ++ input.TouchDown touch_id x y ∷ []) }
    ensures accepted { OnOk result (press_refusal touch_id touches.old.items ≡ None) }
    ensures why { (version : ℕ) → IfErr result (TellsOfInput version (press_refusal touch_id touches.old.items)) }
    ensures err { OnErr result (touches.new.items ≡ touches.old.items) }
    ensures err_waiting { OnErr result (waiting.new.items ≡ waiting.old.items) }
{
    if touches.len() >= MOST_TOUCHES {
        return Err(InputError::TooManyTouches);
    }
    if has_touch(touches, touch_id) {
        return Err(InputError::DuplicatedTouchDown);
    }
    if touches.reserve(1).is_err() {
        return Err(InputError::NoMemory);
    }
    push_input(waiting, InputEvent::TouchDown { touch_id, x, y })?;
    touches.push_reserved(touch_id);
    Ok(())
}

/// A touch that is down ends, and the input waits. Nothing where it isn't down.
#[inline(always)]
fn lift(
    touches: &mut Vec<u32>,
    waiting: &mut Vec<InputEvent>,
    touch_id: u32,
    input: InputEvent,
) -> Result<(), InputError>
    ensures ok { OnOk result (touches.new.items ≡ without_first (nat_eq touch_id) touches.old.items) }
    ensures waits { OnOk result (waiting.new.items ≡
        (if list_any (nat_eq touch_id) touches.old.items then waiting.old.items ++ input ∷ [] else
        waiting.old.items)) }
    ensures err { OnErr result (touches.new.items ≡ touches.old.items) }
    ensures err_waiting { OnErr result (waiting.new.items ≡ waiting.old.items) }
    ensures only { IfErr result (λ e. e ≡ input_error.NoMemory) }
{
    let Some(at) = touch_place(touches, touch_id) else {
        return Ok(());
    };
    push_input(waiting, input)?;
    touches.remove(at);
    Ok(())
}

/// Hands out a group. There is room for it, and for one more request behind it.
fn push_group(
    queue: &mut Queue,
    device: &Device,
    waiting: &mut Vec<InputEvent>,
    serial: u32,
    time: u64,
)
    requires room { vec_len waiting.old + 2 ≤ queue.old.room }
    ensures queue { queue.new.items ≡ queue.old.items ++ group_requests device.now waiting.old.items serial time }
    ensures emptied { waiting.new.items ≡ [] }
    ensures left { 0 < queue.new.room }
{
    if waiting.is_empty() {
        return;
    }
    // The memory of what waited is kept.
    let alloc = *waiting.allocator();
    let mut inputs = VecDeque::from_vec(mem::replace(waiting, Vec::new(alloc)));
    while let Some(input) = inputs.pop_front() {
        queue_timed(input, queue, device, time);
    }
    *waiting = inputs.into_vec();
    queue.push_reserved(EisRequest::Frame(event::Frame {
        device: device.copy(),
        last_serial: serial,
        time,
    }));
}
