//! What a client's converter keeps, and what becomes of it with each kind of event.

ghost use Rattle.std.specs.Prelude.{◌≡◌, ◌++◌, ◌∷◌, [], ℕ, true, false, Some, None, List, IfOk, OnOk, OnErr, is_some};
ghost use Rattle.std.specs.Prelude.{length};
ghost use Rattle.std.specs.Option.{option_copied};
ghost use Rattle.std.specs.FinMap as finite;
ghost use Rattle.ei_spec.specs.Interface.{bytes_of};
ghost use Rattle.ei_types.specs.Capability.{capability_named};
ghost use Rattle.ei_backend.specs.Lent.{LentClock};
ghost use Rattle.ei_input.specs.declared.input_event.InputEvent.{InputEvent};
ghost use Rattle.ei_reported.specs.Said.{Told, SeatComes, SeatHasName, SeatHas, SeatDone, SeatGoes, DeviceComes};
ghost use Rattle.ei_reported.specs.Said.{DeviceHas, DeviceHasType, DeviceGets, DeviceDone};
ghost use Rattle.ei_reported.specs.Said.{DeviceTells, DeviceGoes, Frame, Maps, Inputs, Modifies, Goes};
ghost use Rattle.ei_reported.specs.Reported.{goes_freely};
ghost use Rattle.ei_following.specs.Core.{refused};
ghost use Rattle.ei_event.specs.declared.event.EiEvent.TheVariants as told;
ghost use Rattle.ei_event.specs.declared.ending.Ending.TheVariants as ends_by;
ghost use Rattle.ei_event.specs.Core.{core_of};
ghost use Rattle.ei_event.specs.Kept.{new_kept, with_seat, queues, new_seat, named_seat, pending_seat, added_seat};
ghost use Rattle.ei_event.specs.Kept.{pending_device, added_device};
ghost use Rattle.ei_event.specs.Kept.{named, typed, sized, mapped, with_region, keyed_by, owner, drops};
ghost use Rattle.ei_event.specs.Handling.{describes_seat, masks_seat, completes_seat, loses_seat, gains_device};
ghost use Rattle.ei_event.specs.Handling.{describes, describes_owner, gains_interface};
ghost use Rattle.ei_input.specs.Queue.{first_of, rest_of};
ghost use Rattle.ei_event.specs.Items.{connection_of, seat_in, device_in, IsInterfaceOf};
ghost use Rattle.ei_event.specs.Handling.{completes, frames, ends, ends_at, loses_device, hears_at};
ghost use Rattle.ei_event.specs.Handles.{Ends, Times, Does, tells, waiting_on, loses_interface, holder_at};
ghost use Rattle.ei_event.specs.Handles.{disconnected};
ghost use Rattle.ei_event.specs.Likely.{Likely};

use crate::connection::Connection;
use crate::device::Device;
use crate::ending::Ending;
use crate::event::{DeviceAdded, Disconnected, EiEvent, SeatAdded};
use crate::kept_device::{self, KeptDevice};
use crate::kept_interface::KeptInterface;
use crate::kept_interfaces::KeptInterfaces;
use crate::kept_seat::{self, KeptSeat};
use crate::keymap::Keymap;
use crate::region::Region;
use crate::seat::Seat;
use ei_backend::{Clock, Interface, Object};
use ei_by_id::ById;
use ei_input::Queue;
use ei_input::input_event::InputEvent;
use ei_spec::KnownInterface;
use ei_types::{DeviceCapability, DeviceType, DisconnectReason, Error, EventError};
use ei_wire::{EiText, NoMemory};
use std::alloc::{AllocError, Global};
use std::marker::Model;

/// What a client's converter keeps: the connection, the seats, the devices and their interfaces by their ids, and the
/// events that wait to be handed out.
#[derive(Drop)]
pub(crate) struct Kept {
    alloc: Global,
    connection: Connection,
    seats: ById<KeptSeat>,
    devices: ById<KeptDevice>,
    interfaces: KeptInterfaces,
    queue: Queue<EiEvent>,
}

impl Model for Kept {
    ghost use Rattle.ei_event.specs.Kept.{KeptView, kept_code};

    ghost Value = { KeptView };

    ghost coded = { kept_code };

    ghost view = { λ k. record {
      proxy = k.connection.proxy;
      serial = k.connection.serial;
      negotiated = k.connection.negotiated;
      seats = k.seats;
      devices = k.devices;
      interfaces = k.interfaces;
      queue = k.queue.items;
    } };
}

impl Kept {
    /// Nothing is kept yet.
    pub(crate) fn new(alloc: Global, connection: Connection) -> Kept
        ensures { result ≡ new_kept connection }
    {
        Kept {
            alloc,
            connection,
            seats: ById::new(alloc),
            devices: ById::new(alloc),
            interfaces: KeptInterfaces::new(alloc),
            queue: Queue::new(alloc),
        }
    }
}

// Seats.
impl Kept {
    /// A seat comes.
    pub(crate) fn seat_comes(&mut self, id: u64) -> Result<(), Error>
        ensures { Ends (refused (core_of self.old) (SeatComes id)) self.old
            (with_seat self.old id new_seat) result self.new }
    {
        self.seats.put(id, KeptSeat::new())?;
        Ok(())
    }

    /// A seat that is pending has a name.
    pub(crate) fn seat_has_name(&mut self, id: u64, name: EiText) -> Result<(), Error>
        ensures { Ends (refused (core_of self.old) (SeatHasName id)) self.old
            (describes_seat self.old id (named_seat name)
            (pending_seat (finite.get self.old.seats id))) result self.new }
    {
        match kept_seat::pending_mut(&mut self.seats, id) {
            Some(seat) => {
                seat.set_name(name);
                Ok(())
            }
            None => Err(Error::Event(EventError::SeatSetupEventAfterDone)),
        }
    }

    /// A seat that is pending has the capability whose interface has that name, under that mask.
    pub(crate) fn seat_has(&mut self, id: u64, mask: u64, interface: EiText) -> Result<(), Error>
        ensures { Ends (refused (core_of self.old) (SeatHas id interface)) self.old
            (masks_seat self.old id mask (capability_named interface)) result self.new }
    {
        if !kept_seat::is_pending(&self.seats, id) {
            return Err(Error::Event(EventError::SeatSetupEventAfterDone));
        }
        let Some(capability) = DeviceCapability::from_interface_name(interface.as_str()) else {
            return Err(Error::Event(EventError::UnknownCapabilityInterface));
        };
        match kept_seat::pending_mut(&mut self.seats, id) {
            Some(seat) => {
                seat.set_mask(capability, mask);
                Ok(())
            }
            None => Err(Error::Event(EventError::SeatSetupEventAfterDone)),
        }
    }

    /// A seat that is pending is described whole.
    pub(crate) fn seat_done(&mut self, seat: &ei_client::Seat) -> Result<(), Error>
        ensures { Ends (refused (core_of self.old) (SeatDone seat.now.id)) self.old
            (completes_seat self.old seat.now (pending_seat (finite.get self.old.seats seat.now.id))) result self.new }
    {
        let id = seat.as_object().id();
        if !kept_seat::is_pending(&self.seats, id) {
            return Err(Error::Event(EventError::SeatSetupEventAfterDone));
        }
        self.queue.reserve(1)?;
        match kept_seat::pending_mut(&mut self.seats, id) {
            Some(kept) => {
                kept.complete();
                let seat = Seat::over(seat.copy());
                self.queue
                    .push_reserved(EiEvent::SeatAdded(SeatAdded { seat }));
                Ok(())
            }
            None => Err(Error::Event(EventError::SeatSetupEventAfterDone)),
        }
    }
}

// Seats that go, and devices that come.
impl Kept {
    /// A seat is gone.
    pub(crate) fn seat_goes(&mut self, seat: &ei_client::Seat, serial: u32) -> Result<(), Error>
        ensures { Ends (refused (core_of self.old) (SeatGoes seat.now.id serial)) self.old
            (loses_seat self.old seat.now serial) result self.new }
    {
        kept_seat::tell_removed(&self.seats, &mut self.queue, seat)?;
        self.connection.keep(serial);
        self.seats.take(seat.as_object().id());
        Ok(())
    }

    /// A device of a seat that is added comes.
    pub(crate) fn device_comes(
        &mut self,
        seat: &ei_client::Seat,
        device: ei_client::Device,
    ) -> Result<(), Error>
        ensures { Ends (refused (core_of self.old) (DeviceComes seat.now.id device.id)) self.old
            (gains_device self.old (record { seat = seat.now; proxy = device })
            (added_seat (finite.get self.old.seats seat.now.id))) result self.new }
    {
        if !kept_seat::is_added(&self.seats, seat.as_object().id()) {
            return Err(Error::Event(EventError::SeatEventBeforeDone));
        }
        let id = device.as_object().id();
        let device = Device::over(Seat::over(seat.copy()), device);
        self.devices.put(id, KeptDevice::new(self.alloc, device))?;
        Ok(())
    }
}

// How a device that is pending is described.
impl Kept {
    /// It has a name.
    pub(crate) fn device_has_name(&mut self, id: u64, name: EiText) -> Result<(), Error>
        ensures { Ends (refused (core_of self.old) (DeviceHas id)) self.old
            (describes self.old id (named name) (pending_device (finite.get self.old.devices id))) result self.new }
    {
        match kept_device::pending_mut(&mut self.devices, id) {
            Some(device) => {
                device.set_name(name);
                Ok(())
            }
            None => Err(Error::Event(EventError::DeviceSetupEventAfterDone)),
        }
    }

    /// It has a type.
    pub(crate) fn device_has_type(&mut self, id: u64, kind: DeviceType) -> Result<(), Error>
        ensures { Ends (refused (core_of self.old) (DeviceHasType id)) self.old
            (describes self.old id (typed kind) (pending_device (finite.get self.old.devices id))) result self.new }
    {
        match kept_device::pending_mut(&mut self.devices, id) {
            Some(device) => {
                device.set_kind(kind);
                Ok(())
            }
            None => Err(Error::Event(EventError::DeviceSetupEventAfterDone)),
        }
    }

    /// It has a width and a height.
    pub(crate) fn device_has_dimensions(
        &mut self,
        id: u64,
        width: u32,
        height: u32,
    ) -> Result<(), Error>
        ensures { Ends (refused (core_of self.old) (DeviceHas id)) self.old
            (describes self.old id (sized width height)
            (pending_device (finite.get self.old.devices id))) result self.new }
    {
        match kept_device::pending_mut(&mut self.devices, id) {
            Some(device) => {
                device.set_dimensions(width, height);
                Ok(())
            }
            None => Err(Error::Event(EventError::DeviceSetupEventAfterDone)),
        }
    }

    /// Its next region has a mapping id.
    pub(crate) fn device_has_mapping_id(&mut self, id: u64, mapping_id: EiText) -> Result<(), Error>
        ensures { Ends (refused (core_of self.old) (DeviceHas id)) self.old
            (describes self.old id (mapped mapping_id)
            (pending_device (finite.get self.old.devices id))) result self.new }
    {
        match kept_device::pending_mut(&mut self.devices, id) {
            Some(device) => {
                device.set_mapping_id(mapping_id);
                Ok(())
            }
            None => Err(Error::Event(EventError::DeviceSetupEventAfterDone)),
        }
    }

    /// It has a region.
    pub(crate) fn device_has_region(&mut self, id: u64, region: Region) -> Result<(), Error>
        ensures { Ends (refused (core_of self.old) (DeviceHas id)) self.old
            (describes self.old id (with_region region)
            (pending_device (finite.get self.old.devices id))) result self.new }
    {
        match kept_device::pending_mut(&mut self.devices, id) {
            Some(device) => {
                device.push_region(region)?;
                Ok(())
            }
            None => Err(Error::Event(EventError::DeviceSetupEventAfterDone)),
        }
    }

    /// The device that has the keyboard of that id has a keymap.
    pub(crate) fn keyboard_has_keymap(&mut self, id: u64, keymap: Keymap) -> Result<(), Error>
        ensures { Ends (refused (core_of self.old) (Maps id)) self.old
            (describes_owner self.old (keyed_by keymap) (owner self.old id)) result self.new }
    {
        let Some(device) = self.interfaces.owner(id) else {
            return Err(Error::Event(EventError::DeviceSetupEventAfterDone));
        };
        match kept_device::pending_mut(&mut self.devices, device) {
            Some(device) => {
                device.set_keymap(keymap);
                Ok(())
            }
            None => Err(Error::Event(EventError::DeviceSetupEventAfterDone)),
        }
    }

    /// It has an interface, in place of the one that it had by that name.
    pub(crate) fn device_gets(&mut self, id: u64, object: Object) -> Result<(), Error>
        ensures { Ends (refused (core_of self.old)
            (DeviceGets id object.id (bytes_of object.interface) object.version)) self.old
            (gains_interface self.old id object (pending_device (finite.get self.old.devices id))) result self.new }
    {
        if !kept_device::is_pending(&self.devices, id) {
            return Err(Error::Event(EventError::DeviceSetupEventAfterDone));
        }
        let named = object.clone()?;
        let interface = KeptInterface::new(id, object);
        self.interfaces.put_retaining(
            named.id(),
            interface,
            |other| other.is_other(id, named.interface()),
        )?;
        Ok(())
    }

    /// It is described whole. Without a type it is dropped.
    pub(crate) fn device_done(&mut self, id: u64) -> Result<(), Error>
        ensures { Ends (refused (core_of self.old) (DeviceDone id)) self.old
            (completes self.old id (pending_device (finite.get self.old.devices id))) result self.new }
    {
        let Some(has_type) = kept_device::pending_has_type(&self.devices, id) else {
            return Err(Error::Event(EventError::DeviceSetupEventAfterDone));
        };
        if !has_type {
            self.drop_device(id);
            return Err(Error::Event(EventError::NoDeviceType));
        }
        self.queue.reserve(1)?;
        match kept_device::pending_mut(&mut self.devices, id) {
            Some(kept) => {
                kept.complete();
                let device = kept.device().copy();
                self.queue
                    .push_reserved(EiEvent::DeviceAdded(DeviceAdded { device }));
                Ok(())
            }
            None => Err(Error::Event(EventError::DeviceSetupEventAfterDone)),
        }
    }

    /// The device is gone, and its interfaces with it.
    fn drop_device(&mut self, id: u64)
        ensures { self.new ≡ drops self.old id }
    {
        self.devices.take(id);
        self.interfaces.retain(|other| other.is_of_other(id));
    }
}

// Groups of inputs.
impl Kept {
    /// An input of the added device that has the interface of that id waits, if there is room for it.
    #[inline(always)]
    pub(crate) fn hear_likely(&mut self, id: u64, input: InputEvent) -> bool
        ensures { Likely (refused (core_of self.old) (Inputs id input)) self.old
            (hears_at self.old input (owner self.old id)) result self.new }
    {
        let Some(device) = self.interfaces.last_owner(id) else {
            return self.hear_another(id, input);
        };
        let Some(device) = kept_device::added_mut(&mut self.devices, device) else {
            return false;
        };
        device.hear_within(input)
    }

    /// The same, where the interface isn't the last one.
    #[inline(never)]
    fn hear_another(&mut self, id: u64, input: InputEvent) -> bool
        ensures { Likely (refused (core_of self.old) (Inputs id input)) self.old
            (hears_at self.old input (owner self.old id)) result self.new }
    {
        let Some(device) = self.interfaces.noted_owner(id) else {
            return false;
        };
        let Some(device) = kept_device::added_mut(&mut self.devices, device) else {
            return false;
        };
        device.hear_within(input)
    }

    /// The inputs that wait on the added device of that id belong together, if there is room for what they become.
    #[inline(always)]
    pub(crate) fn frame_likely(&mut self, id: u64, serial: u32, time: u64) -> bool
        ensures { Likely (refused (core_of self.old) (DeviceTells id serial (Frame time))) self.old
            (frames self.old id serial time (added_device (finite.get self.old.devices id))) result self.new }
    {
        let Some(device) = kept_device::added_mut(&mut self.devices, id) else {
            return false;
        };
        if !self.queue.fits_group(device.waiting()) {
            return false;
        }
        self.connection.keep(serial);
        device.hand_out(&mut self.queue, serial, time);
        true
    }

    /// An input of the added device that has the interface of that id waits.
    pub(crate) fn hear(&mut self, id: u64, input: InputEvent) -> Result<(), Error>
        ensures { Ends (refused (core_of self.old) (Inputs id input)) self.old
            (hears_at self.old input (owner self.old id)) result self.new }
    {
        let Some(device) = self.interfaces.noted_owner(id) else {
            return Err(Error::Event(EventError::DeviceEventBeforeDone));
        };
        match kept_device::added_mut(&mut self.devices, device) {
            Some(device) => {
                device.hear(input)?;
                Ok(())
            }
            None => Err(Error::Event(EventError::DeviceEventBeforeDone)),
        }
    }

    /// The inputs that wait on the added device of that id belong together.
    pub(crate) fn frame(&mut self, id: u64, serial: u32, time: u64) -> Result<(), Error>
        ensures { Ends (refused (core_of self.old) (DeviceTells id serial (Frame time))) self.old
            (frames self.old id serial time (added_device (finite.get self.old.devices id))) result self.new }
    {
        match kept_device::added_mut(&mut self.devices, id) {
            Some(device) => {
                self.queue.reserve_group(device.waiting())?;
                self.connection.keep(serial);
                device.hand_out_apart(&mut self.queue, serial, time);
                Ok(())
            }
            None => {
                self.connection.keep(serial);
                Err(Error::Event(EventError::DeviceEventBeforeDone))
            }
        }
    }

    /// An event of the device of that id ends a group: if the device is added, what waits on it is handed out with a
    /// made frame, and the event behind it, which is done only once there is room for all. Says whether it is added.
    pub(crate) fn end<C: Clock>(
        &mut self,
        clock: &mut C,
        id: u64,
        serial: u32,
        ending: Ending,
    ) -> Result<bool, NoMemory>
        ensures ok { IfOk result (λ added. (time : ℕ) ×
            Times (waiting_on (added_device (finite.get self.old.devices id))) time
            (C.view clock.old).left (C.view clock.new).left ×
            (self.new ≡ ends self.old id serial time ending (added_device (finite.get self.old.devices id)))) }
        ensures added { IfOk result (λ added. added ≡ is_some (added_device (finite.get self.old.devices id))) }
        ensures unread { IfOk result (λ added. added ≡ false → clock.new ≡ clock.old) }
        ensures err { OnErr result (self.new ≡ self.old) }
        ensures reached { OnErr result (is_some (added_device (finite.get self.old.devices id)) ≡ true) }
        ensures kept { OnErr result (clock.new ≡ clock.old) }
        ensures clock { LentClock C.later clock.old clock.new }
    {
        match kept_device::added_mut(&mut self.devices, id) {
            Some(device) => {
                let waiting = device.waiting();
                self.queue.reserve_group(waiting)?;
                let made = made_time(clock, waiting);
                self.connection.keep(serial);
                device.hand_out_apart(&mut self.queue, serial, made);
                let event = ending.of(serial, device.device().copy());
                self.queue.push_reserved(event);
                Ok(true)
            }
            None => {
                self.connection.keep(serial);
                Ok(false)
            }
        }
    }

    /// What a device tells that ends a group.
    pub(crate) fn device_tells<C: Clock>(
        &mut self,
        clock: &mut C,
        id: u64,
        serial: u32,
        ending: Ending,
    ) -> Result<(), Error>
        ensures does { (told : Told) → tells ending ≡ Some told → Does self.old (DeviceTells id serial told)
            (λ time. ends self.old id serial time ending (added_device (finite.get self.old.devices id)))
            (C.view clock.old).left (C.view clock.new).left result self.new }
        ensures kept { OnErr result (clock.new ≡ clock.old) }
        ensures clock { LentClock C.later clock.old clock.new }
    {
        if !self.end(clock, id, serial, ending)? {
            return Err(Error::Event(EventError::DeviceEventBeforeDone));
        }
        Ok(())
    }

    /// A device is gone.
    pub(crate) fn device_goes<C: Clock>(
        &mut self,
        clock: &mut C,
        id: u64,
        serial: u32,
    ) -> Result<(), Error>
        ensures does { Does self.old (DeviceGoes id serial) (loses_device self.old id serial)
            (C.view clock.old).left (C.view clock.new).left result self.new }
        ensures kept { OnErr result (clock.new ≡ clock.old) }
        ensures clock { LentClock C.later clock.old clock.new }
    {
        self.end(clock, id, serial, Ending::Destroyed)?;
        self.drop_device(id);
        Ok(())
    }

    /// The modifiers of the keyboard of that id.
    pub(crate) fn modifiers<C: Clock>(
        &mut self,
        clock: &mut C,
        id: u64,
        serial: u32,
        ending: Ending,
    ) -> Result<(), Error>
        ensures does { (depressed locked latched group : ℕ) →
            ending ≡ ends_by.Modifiers depressed locked latched group →
            Does self.old (Modifies id serial depressed locked latched group)
            (λ time. ends_at self.old serial time ending (owner self.old id))
            (C.view clock.old).left (C.view clock.new).left result self.new }
        ensures kept { OnErr result (clock.new ≡ clock.old) }
        ensures clock { LentClock C.later clock.old clock.new }
    {
        let Some(device) = self.interfaces.owner(id) else {
            self.connection.keep(serial);
            return Err(Error::Event(EventError::DeviceEventBeforeDone));
        };
        if !self.end(clock, device, serial, ending)? {
            return Err(Error::Event(EventError::DeviceEventBeforeDone));
        }
        Ok(())
    }

    /// The interface of that id is gone. One that goes freely needs no added device.
    pub(crate) fn interface_goes(
        &mut self,
        interface: KnownInterface,
        id: u64,
        serial: u32,
    ) -> Result<(), Error>
        ensures { Ends (refused (core_of self.old) (Goes interface id serial)) self.old
            (loses_interface self.old (goes_freely interface) id serial (holder_at self.old (owner self.old id)))
            result self.new }
    {
        if self.has_holder(id) {
            self.connection.keep(serial);
            self.interfaces.take(id);
            return Ok(());
        }
        if !goes_freely(interface) {
            return Err(Error::Event(EventError::DeviceEventBeforeDone));
        }
        self.connection.keep(serial);
        Ok(())
    }

    /// Whether an added device has the interface of that id.
    fn has_holder(&self, id: u64) -> bool
        ensures { result ≡ is_some (holder_at self.now (owner self.now id)) }
    {
        match self.interfaces.owner(id) {
            Some(device) => kept_device::added(&self.devices, device).is_some(),
            None => false,
        }
    }

    /// The end of the connection is told.
    pub(crate) fn disconnected(
        &mut self,
        last_serial: u32,
        reason: DisconnectReason,
        explanation: Option<EiText>,
    ) -> Result<(), Error>
        ensures { Ends None self.old
            (queues self.old (told.Disconnected (disconnected last_serial reason explanation) ∷ [])) result self.new }
    {
        self.queue.reserve(1)?;
        self.queue.push_reserved(EiEvent::Disconnected(Disconnected {
            last_serial,
            reason,
            explanation,
        }));
        Ok(())
    }
}

/// Whether an interface goes without a word where no added device has it.
fn goes_freely(interface: KnownInterface) -> bool
    ensures { result ≡ goes_freely interface }
{
    matches!(interface, KnownInterface::Keyboard | KnownInterface::Text)
}

/// The time of a frame that is made for so many inputs: the clock's next reading. Where no input waits no frame is
/// made, and the clock isn't asked.
fn made_time<C: Clock>(clock: &mut C, waiting: usize) -> u64
    ensures time { (inputs : List InputEvent) → waiting ≡ length inputs →
        Times inputs result (C.view clock.old).left (C.view clock.new).left }
    ensures clock { LentClock C.later clock.old clock.new }
{
    if waiting > 0 { clock.now() } else { 0 }
}

// What it holds, and what is taken from it.
impl Kept {
    /// The connection.
    pub(crate) fn connection(&self) -> &Connection
        ensures { result.now ≡ connection_of self.now }
    {
        &self.connection
    }

    /// How many events are queued.
    pub(crate) fn queued_len(&self) -> usize
        ensures { result ≡ length self.now.queue }
    {
        self.queue.len()
    }

    /// Takes the oldest event that is queued.
    pub(crate) fn next_event(&mut self) -> Option<EiEvent>
        ensures first { result ≡ first_of self.old.queue }
        ensures rest { self.new ≡ record self.old { queue = rest_of self.old.queue } }
    {
        self.queue.take_first()
    }

    /// Moves all events that are queued behind `out`, or none.
    #[inline]
    pub(crate) fn drain_into(&mut self, out: &mut Vec<EiEvent>) -> Result<(), AllocError>
        ensures out { OnOk result (out.new.items ≡ out.old.items ++ self.old.queue) }
        ensures emptied { OnOk result (self.new ≡ record self.old { queue = [] }) }
        ensures kept { OnErr result (out.new.items ≡ out.old.items) }
        ensures err { OnErr result (self.new ≡ self.old) }
    {
        self.queue.drain_into(out)
    }

    /// The seat of that id, where it is added.
    pub(crate) fn seat(&self, id: u64) -> Option<&KeptSeat>
        ensures { option_copied result ≡ seat_in self.now id }
    {
        match self.seats.get(id) {
            Some(seat) => { if seat.is_added() { Some(seat) } else { None } }
            None => None,
        }
    }

    /// The device of that key, where it is added.
    pub(crate) fn device(&self, device: &Device) -> Option<&KeptDevice>
        ensures { option_copied result ≡ device_in self.now device.now }
    {
        let kept = kept_device::added(&self.devices, device.id())?;
        if kept.device().seat().id() == device.seat().id() {
            Some(kept)
        } else {
            None
        }
    }

    /// What the device of that key has the interface as, where it is added and has it.
    pub(crate) fn interface(&self, device: &Device, interface: KnownInterface) -> Option<&Object>
        ensures { IsInterfaceOf self.now device.now interface (option_copied result) }
    {
        self.device(device)?;
        let id = device.id();
        let kept = self.interfaces.find(|other| other.is_of(id, interface))?;
        Some(kept.object())
    }
}
