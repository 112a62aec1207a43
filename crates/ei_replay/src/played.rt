//! What the items so far come to.

ghost use Rattle.std.specs.Prelude.{◌≡◌, ◌≤◌, ◌+◌, ◌==◌, if◌then◌else◌, ℕ, [], false, not, OnOk, Some, None, length, is_some};
ghost use Rattle.std.specs.Option.{option_copied};
ghost use Rattle.ei_types.specs.Capability.{bits_of};
ghost use Rattle.ei_session.specs.Devices.{interfaces_of};
ghost use Rattle.ei_replay.specs.Steps.{goes_with, input_device};
ghost use Rattle.ei_replay.specs.Made.{refuses, closed, takes};
ghost use Rattle.ei_replay.specs.Played.{open_device, is_it, wrong_input, wrong_step, wrong_at, next_behind, with_made, changed, devices_after, Follows, Stands};
ghost use Rattle.ei_player.specs.Objects.{MayHear};
ghost use Rattle.ei_replay.specs.Sending.{target_at, mask_in, HasIdsBehind, AnnouncesAt, AnnouncesMade};

use crate::made::Made;
use crate::step::{InputKind, Step};
use ei_backend::FIRST_SERVER_ID;
use ei_client::Context;
use ei_keyed::Keyed;
use ei_player::{announce_device, interface_id};
use ei_types::{DeviceCapabilities, DeviceCapability};
use ei_wire::NoMemory;
use std::alloc::{AllocError, Global};

/// The id of the one seat, behind the connection's.
pub(crate) const SEAT_ID: u64 = FIRST_SERVER_ID + 1;

/// What the items so far come to.
#[derive(Drop)]
pub(crate) struct Played {
    alloc: Global,
    capabilities: DeviceCapabilities,
    // Whether the connection has ended.
    over: bool,
    // The id of the next device. `None` where it is past all ids: no item can name that device.
    next: Option<u64>,
    devices: Keyed<Made>,
    // The device of the item before, where that was an input.
    last: Option<u64>,
}

impl Played {
    /// No items, over a seat of these capabilities.
    pub(crate) fn new(alloc: Global, capabilities: DeviceCapabilities) -> Played
        ensures stands { Stands [] result }
        ensures capabilities { result.capabilities ≡ capabilities }
    {
        Played {
            alloc,
            capabilities,
            over: false,
            next: Some(SEAT_ID + 1),
            devices: Keyed::new(alloc),
            last: None,
        }
    }

    /// Whether the item can't come next, with this item behind it.
    pub(crate) fn is_wrong(&self, step: Step, next: Option<Step>) -> bool
        ensures { result ≡ wrong_at self.now step next }
    {
        self.over || self.is_wrong_step(step, next)
    }

    fn is_wrong_step(&self, step: Step, next: Option<Step>) -> bool
        ensures { result ≡ wrong_step self.now step next }
    {
        match step {
            Step::End => false,
            Step::Ask { seat, mask } => seat != SEAT_ID || !self.capabilities.contains(mask),
            Step::Name { device } | Step::Close { device } => !self.has_device(device),
            Step::Frame { device, .. } => !self.has_device(device) || !self.is_last(device),
            Step::Input {
                device,
                time,
                capability,
                kind,
            } => self.is_wrong_input(device, time, capability, kind, next),
        }
    }

    fn is_wrong_input(
        &self,
        device: u64,
        time: u64,
        capability: DeviceCapability,
        kind: InputKind,
        next: Option<Step>,
    ) -> bool
        ensures { result ≡ wrong_input (open_device self.now device) device time capability kind next }
    {
        match self.device(device) {
            Some(made) => !goes_with(next, device, time) || made.refuses(capability, kind),
            None => true,
        }
    }

    /// The device, if it was made and not closed.
    fn device(&self, id: u64) -> Option<&Made>
        ensures { option_copied result ≡ open_device self.now id }
    {
        let made = self.devices.get(id)?;
        if made.is_closed() {
            return None;
        }
        Some(made)
    }

    fn has_device(&self, id: u64) -> bool
        ensures { result ≡ is_some (open_device self.now id) }
    {
        self.device(id).is_some()
    }

    /// Whether the item before is an input of the device.
    fn is_last(&self, device: u64) -> bool
        ensures { result ≡ is_it device self.now.last }
    {
        match self.last {
            Some(last) => last == device,
            None => false,
        }
    }

    /// The id of the object that an item is sent to.
    pub(crate) fn target(&self, step: Step) -> u64
        requires { HasIdsBehind step }
        ensures { result ≡ target_at self.now step }
    {
        match step {
            Step::End => FIRST_SERVER_ID,
            Step::Ask { seat, .. } => seat,
            Step::Name { device } | Step::Close { device } | Step::Frame { device, .. } => device,
            Step::Input {
                device,
                capability,
                ..
            } => interface_id(device, self.mask(device), capability),
        }
    }

    /// The capabilities of the device, if it was made and not closed.
    fn mask(&self, device: u64) -> DeviceCapabilities
        ensures { bits_of result ≡ mask_in (open_device self.now device) }
    {
        match self.device(device) {
            Some(made) => made.mask(),
            None => DeviceCapabilities::empty(),
        }
    }

    /// Tells a client of the device that an item makes, if it makes one.
    pub(crate) fn announce(&self, client: &mut Context, step: Step) -> Result<(), NoMemory>
        requires { (id : ℕ) → self.now.next ≡ Some id → MayHear id (id + 8) client.old }
        ensures { OnOk result (AnnouncesMade self.now.next step client.old client.new) }
    {
        match step {
            Step::Ask { mask, .. } => self.announce_made(client, mask),
            _ => Ok(()),
        }
    }

    /// Tells a client of the device of these capabilities that is made, unless there are none.
    fn announce_made(&self, client: &mut Context, mask: DeviceCapabilities) -> Result<(), NoMemory>
        requires { (id : ℕ) → self.now.next ≡ Some id → MayHear id (id + 8) client.old }
        ensures { OnOk result (AnnouncesAt (if bits_of mask == 0 then None else self.now.next) (bits_of mask)
            client.old client.new) }
    {
        let bits = mask.bits();
        if bits == 0 {
            return Ok(());
        }
        match self.next {
            Some(id) => announce_device(client, id, mask),
            None => Ok(()),
        }
    }

    /// The item comes next, which isn't wrong.
    pub(crate) fn take(&mut self, step: Step) -> Result<(), AllocError>
        ensures { OnOk result (Follows self.old step self.new) }
    {
        match step {
            Step::End => self.over = true,
            Step::Ask { mask, .. } => self.make(mask)?,
            Step::Close { device } => close(&mut self.devices, device),
            Step::Input { device, kind, .. } => take_input(&mut self.devices, device, kind)?,
            Step::Name { .. } | Step::Frame { .. } => {}
        }
        self.last = input_device(step);
        Ok(())
    }

    /// A device of these capabilities is made, unless there are none.
    fn make(&mut self, mask: DeviceCapabilities) -> Result<(), AllocError>
        ensures next { OnOk result (self.new.next ≡ next_behind (bits_of mask) self.old.next) }
        ensures devices { OnOk result (self.new.devices.items ≡
            with_made (bits_of mask) self.old.next self.old.devices.items) }
        ensures over { self.new.over ≡ self.old.over }
        ensures capabilities { self.new.capabilities ≡ self.old.capabilities }
    {
        if mask.bits() == 0 {
            return Ok(());
        }
        let Some(id) = self.next else {
            return Ok(());
        };
        self.devices.push(id, Made::new(self.alloc, mask))?;
        self.next = id.checked_add(1 + count_of(mask));
        Ok(())
    }
}

/// The device is closed.
fn close(devices: &mut Keyed<Made>, device: u64)
    ensures { devices.new.items ≡ changed device closed devices.old.items }
{
    if let Some(made) = devices.get_mut(device) {
        made.close();
    }
}

/// The device takes an input of that kind.
fn take_input(devices: &mut Keyed<Made>, device: u64, kind: InputKind) -> Result<(), AllocError>
    ensures { OnOk result (devices.new.items ≡ changed device (takes kind) devices.old.items) }
{
    match devices.get_mut(device) {
        Some(made) => made.take(kind),
        None => Ok(()),
    }
}

/// Whether the item is an input of the device or its frame, with this time.
fn goes_with(next: Option<Step>, device: u64, time: u64) -> bool
    ensures { result ≡ goes_with device time next }
{
    match next {
        Some(
            Step::Input {
                device: d,
                time: t,
                ..
            },
        ) => d == device && t == time,
        Some(Step::Frame { device: d, time: t }) => d == device && t == time,
        _ => false,
    }
}

/// The device of an input.
fn input_device(step: Step) -> Option<u64>
    ensures { result ≡ input_device step }
{
    match step {
        Step::Input { device, .. } => Some(device),
        _ => None,
    }
}

/// How many capabilities these are.
fn count_of(mask: DeviceCapabilities) -> u64
    ensures count { result ≡ length (interfaces_of (bits_of mask)) }
    ensures few { result ≤ 8 }
{
    DeviceCapability::ALL
        .iter()
        .filter(|one| mask.has(**one))
        .count() as u64
}
