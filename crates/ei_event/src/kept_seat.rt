//! What the converter keeps of a seat.

ghost use Rattle.std.specs.Prelude.{◌≡◌, ◌++◌, Some, OnOk, OnErr, is_some};
ghost use Rattle.std.specs.Option.{option_copied, option_copied_mut};
ghost use Rattle.std.specs.FinMap as finite;
ghost use Rattle.std.specs.Borrow.{sem};
ghost use Rattle.ei_event.specs.Kept.{new_seat, named_seat, masked_seat, whole_seat, pending_seat, added_seat};
ghost use Rattle.ei_event.specs.Handling.{seat_goodbye};
ghost use Rattle.ei_event.specs.Items.{bound, united, mask_for};
ghost use Rattle.ei_event.specs.KeptLends.{lends_seat};

use crate::event::{EiEvent, SeatRemoved};
use crate::seat::Seat;
use ei_backend::Interface;
use ei_by_id::ById;
use ei_input::Queue;
use ei_spec::limits::CAPABILITIES;
use ei_types::{DeviceCapabilities, DeviceCapability};
use ei_wire::EiText;
use std::alloc::AllocError;
use std::marker::Model;

/// A seat: its name, a mask for each capability, 0 where it wasn't announced, and whether it is described whole.
#[derive(Drop)]
pub(crate) struct KeptSeat {
    name: Option<EiText>,
    masks: [u64; CAPABILITIES],
    added: bool,
}

impl Model for KeptSeat {
    ghost use Rattle.std.specs.Prelude.{◌≡◌, length};
    ghost use Rattle.ei_spec.specs.declared.limits.TheConstants.{CAPABILITIES};
    ghost use Rattle.ei_event.specs.Kept.{SeatView, seat_code};

    ghost Value = { SeatView };

    ghost coded = { seat_code };

    ghost view = { λ s. record { name = s.name; masks = s.masks; added = s.added } };

    ghost invariant = { λ s. length s.masks ≡ CAPABILITIES };
}

impl KeptSeat {
    /// A seat that comes.
    pub(crate) fn new() -> KeptSeat
        ensures { result ≡ new_seat }
    {
        KeptSeat {
            name: None,
            masks: [0; CAPABILITIES],
            added: false,
        }
    }

    /// Whether it is described whole, and so added.
    pub(crate) fn is_added(&self) -> bool
        ensures { result ≡ self.now.added }
    {
        self.added
    }

    /// The name.
    pub(crate) fn name(&self) -> Option<&str>
        ensures { option_copied result ≡ self.now.name }
    {
        match &self.name {
            Some(name) => Some(name.as_str()),
            None => None,
        }
    }

    pub(crate) fn set_name(&mut self, name: EiText)
        ensures { self.new ≡ named_seat name self.old }
    {
        self.name = Some(name);
    }

    pub(crate) fn set_mask(&mut self, capability: DeviceCapability, mask: u64)
        ensures { self.new ≡ masked_seat capability mask self.old }
    {
        self.masks[capability.index()] = mask;
    }

    /// The union of the masks that were announced for these capabilities.
    pub(crate) fn mask_of(&self, capabilities: DeviceCapabilities) -> u64
        ensures { result ≡ bound capabilities (Some self.now) }
    {
        self.united(capabilities, &DeviceCapability::ALL)
    }

    /// The union of the masks of these capabilities among those.
    fn united(&self, capabilities: DeviceCapabilities, among: &[DeviceCapability]) -> u64
        ensures { result ≡ united (mask_for capabilities self.now.masks) 0 among.now }
    {
        let mut mask = 0;
        for capability in among {
            mask |= self.mask_for(capabilities, *capability);
        }
        mask
    }

    /// The mask of a capability, where it is one of these; else 0.
    fn mask_for(&self, capabilities: DeviceCapabilities, capability: DeviceCapability) -> u64
        ensures { result ≡ mask_for capabilities self.now.masks capability }
    {
        if capabilities.has(capability) {
            self.masks[capability.index()]
        } else {
            0
        }
    }

    /// It is described whole.
    pub(crate) fn complete(&mut self)
        ensures { self.new ≡ whole_seat self.old }
    {
        self.added = true;
    }
}

/// Whether the seat of that id is pending.
pub(crate) fn is_pending(seats: &ById<KeptSeat>, id: u64) -> bool
    ensures { result ≡ is_some (pending_seat (finite.get seats.now id)) }
{
    match seats.get(id) {
        Some(seat) => !seat.is_added(),
        None => false,
    }
}

/// Whether the seat of that id is added.
pub(crate) fn is_added(seats: &ById<KeptSeat>, id: u64) -> bool
    ensures { result ≡ is_some (added_seat (finite.get seats.now id)) }
{
    match seats.get(id) {
        Some(seat) => seat.is_added(),
        None => false,
    }
}

/// The seat of that id, where it is pending, for writing.
pub(crate) fn pending_mut(seats: &mut ById<KeptSeat>, id: u64) -> Option<&mut KeptSeat>
    ensures* writes_back { sem 𝓛 (lends_seat seats.entry id result) }
    ensures value { option_copied_mut result ≡ pending_seat (finite.get seats.old id) }
{
    if !is_pending(seats, id) {
        return None;
    }
    seats.get_mut(id)
}

/// Queues that a seat is gone, where it is added.
///
/// `AllocError`: nothing is queued.
pub(crate) fn tell_removed(
    seats: &ById<KeptSeat>,
    queue: &mut Queue<EiEvent>,
    seat: &ei_client::Seat,
) -> Result<(), AllocError>
    ensures ok { OnOk result (queue.new.items ≡ queue.old.items ++ seat_goodbye seat.now
        (added_seat (finite.get seats.now seat.now.id))) }
    ensures err { OnErr result (queue.new.items ≡ queue.old.items) }
{
    if !is_added(seats, seat.as_object().id()) {
        return Ok(());
    }
    queue.reserve(1)?;
    let seat = Seat::over(seat.copy());
    queue.push_reserved(EiEvent::SeatRemoved(SeatRemoved { seat }));
    Ok(())
}
