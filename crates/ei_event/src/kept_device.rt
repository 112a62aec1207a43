//! What the converter keeps of a device.

ghost use Rattle.std.specs.Prelude.{◌≡◌, ◌≤◌, ◌<◌, ◌+◌, ◌++◌, ◌∷◌, [], true, false, map, OnOk, OnErr, IfSome, is_some, length, vec_len};
ghost use Rattle.std.specs.Option.{option_copied, option_copied_mut, option_map};
ghost use Rattle.std.specs.FinMap as finite;
ghost use Rattle.std.specs.Borrow.{sem};
ghost use Rattle.ei_input.specs.declared.input_event.InputEvent.TheVariants.{PointerMotion};
ghost use Rattle.ei_event.specs.Kept.{new_device, named, typed, sized, mapped, with_region, keyed_by, whole};
ghost use Rattle.ei_event.specs.Kept.{with_input, emptied};
ghost use Rattle.ei_event.specs.Kept.{pending_device, added_device};
ghost use Rattle.ei_event.specs.Event.{timed};
ghost use Rattle.ei_event.specs.Handling.{group_events};
ghost use Rattle.ei_event.specs.KeptLends.{lends_device};

use crate::device::Device;
use crate::event::{EiEvent, Frame, queue_timed};
use crate::keymap::Keymap;
use crate::region::Region;
use ei_by_id::ById;
use ei_input::Queue;
use ei_input::input_event::{self, InputEvent};
use ei_types::DeviceType;
use ei_wire::{EiText, RawFloat};
use std::alloc::{AllocError, Global};
use std::collections::VecDeque;
use std::marker::Model;
use std::mem;

/// A device: its key, how it is described, the mapping id of its next region, the inputs that wait for a frame, and
/// whether it is described whole.
#[derive(Drop)]
pub(crate) struct KeptDevice {
    device: Device,
    name: Option<EiText>,
    kind: Option<DeviceType>,
    dimensions: Option<(u32, u32)>,
    regions: Vec<Region>,
    mapping_id: Option<EiText>,
    keymap: Option<Keymap>,
    waiting: Vec<InputEvent>,
    added: bool,
}

impl Model for KeptDevice {
    ghost use Rattle.ei_event.specs.Kept.{DeviceView, device_code};

    ghost Value = { DeviceView };

    ghost coded = { device_code };

    ghost view = { λ d. record {
      device = d.device;
      name = d.name;
      kind = d.kind;
      dimensions = d.dimensions;
      regions = d.regions.items;
      mapping_id = d.mapping_id;
      keymap = d.keymap;
      waiting = d.waiting.items;
      added = d.added;
    } };
}

// How it is described.
impl KeptDevice {
    /// A device that comes.
    pub(crate) fn new(alloc: Global, device: Device) -> KeptDevice
        ensures { result ≡ new_device device }
    {
        KeptDevice {
            device,
            name: None,
            kind: None,
            dimensions: None,
            regions: Vec::new(alloc),
            mapping_id: None,
            keymap: None,
            waiting: Vec::new(alloc),
            added: false,
        }
    }

    /// The key.
    pub(crate) fn device(&self) -> &Device
        ensures { result.now ≡ self.now.device }
    {
        &self.device
    }

    /// Whether it is described whole, and so added.
    #[inline(always)]
    pub(crate) fn is_added(&self) -> bool
        ensures { result ≡ self.now.added }
    {
        self.added
    }

    /// The name.
    pub(crate) fn name(&self) -> Option<&str>
        ensures { option_copied result ≡ self.now.name }
    {
        match &self.name {
            Some(name) => Some(name.as_str()),
            None => None,
        }
    }

    /// The type.
    pub(crate) fn kind(&self) -> Option<DeviceType>
        ensures { result ≡ self.now.kind }
    {
        self.kind
    }

    /// The width and the height of a physical device, in millimetres.
    pub(crate) fn dimensions(&self) -> Option<(u32, u32)>
        ensures { result ≡ self.now.dimensions }
    {
        self.dimensions
    }

    /// The regions.
    pub(crate) fn regions(&self) -> &[Region]
        ensures { result.now ≡ self.now.regions }
    {
        &self.regions
    }

    /// The keymap of its keyboard.
    pub(crate) fn keymap(&self) -> Option<&Keymap>
        ensures { option_copied result ≡ self.now.keymap }
    {
        self.keymap.as_ref()
    }

    pub(crate) fn set_name(&mut self, name: EiText)
        ensures { self.new ≡ named name self.old }
    {
        self.name = Some(name);
    }

    pub(crate) fn set_kind(&mut self, kind: DeviceType)
        ensures { self.new ≡ typed kind self.old }
    {
        self.kind = Some(kind);
    }

    pub(crate) fn set_dimensions(&mut self, width: u32, height: u32)
        ensures { self.new ≡ sized width height self.old }
    {
        self.dimensions = Some((width, height));
    }

    pub(crate) fn set_mapping_id(&mut self, mapping_id: EiText)
        ensures { self.new ≡ mapped mapping_id self.old }
    {
        self.mapping_id = Some(mapping_id);
    }

    /// Adds a region, which takes the mapping id that waits, if one does.
    ///
    /// `AllocError`: nothing changes.
    pub(crate) fn push_region(&mut self, mut region: Region) -> Result<(), AllocError>
        ensures ok { OnOk result (self.new ≡ with_region region self.old) }
        ensures err { OnErr result (self.new ≡ self.old) }
    {
        self.regions.reserve(1)?;
        region.mapping_id = self.mapping_id.take();
        self.regions.push_reserved(region);
        Ok(())
    }

    pub(crate) fn set_keymap(&mut self, keymap: Keymap)
        ensures { self.new ≡ keyed_by keymap self.old }
    {
        self.keymap = Some(keymap);
    }

    /// It is described whole.
    pub(crate) fn complete(&mut self)
        ensures { self.new ≡ whole self.old }
    {
        self.added = true;
    }
}

// The inputs that wait.
impl KeptDevice {
    /// How many inputs wait.
    pub(crate) fn waiting(&self) -> usize
        ensures { result ≡ length self.now.waiting }
    {
        self.waiting.len()
    }

    /// An input waits.
    ///
    /// `AllocError`: nothing changes.
    #[inline(always)]
    pub(crate) fn hear(&mut self, input: InputEvent) -> Result<(), AllocError>
        ensures ok { OnOk result (self.new ≡ with_input input self.old) }
        ensures err { OnErr result (self.new ≡ self.old) }
    {
        self.waiting.reserve(1)?;
        self.waiting.push_reserved(input);
        Ok(())
    }

    /// An input waits, if there is room for it.
    #[inline(always)]
    pub(crate) fn hear_within(&mut self, input: InputEvent) -> bool
        ensures ok { result ≡ true → self.new ≡ with_input input self.old }
        ensures not { result ≡ false → self.new ≡ self.old }
    {
        if self.waiting.len() == self.waiting.capacity() {
            return false;
        }
        self.waiting.push_reserved(input);
        true
    }

    /// The same, by a call of its own.
    #[inline(never)]
    pub(crate) fn hand_out_apart(&mut self, queue: &mut Queue<EiEvent>, serial: u32, time: u64)
        requires room { length self.old.waiting + 2 ≤ queue.old.room }
        ensures queue { queue.new.items ≡ queue.old.items ++ group_events self.old.device self.old.waiting serial time }
        ensures emptied { self.new ≡ emptied self.old }
        ensures left { 0 < queue.new.room }
    {
        self.hand_out(queue, serial, time);
    }

    /// Hands out what waits, each input with this time, and a frame of this serial behind them; nothing
    /// where nothing waits. There is room for it.
    #[inline(always)]
    pub(crate) fn hand_out(&mut self, queue: &mut Queue<EiEvent>, serial: u32, time: u64)
        requires room { length self.old.waiting + 2 ≤ queue.old.room }
        ensures queue { queue.new.items ≡ queue.old.items ++ group_events self.old.device self.old.waiting serial time }
        ensures emptied { self.new ≡ emptied self.old }
        ensures left { 0 < queue.new.room }
    {
        push_group(queue, &self.device, &mut self.waiting, serial, time);
    }
}

/// Hands out a group, which is mostly a motion alone. There is room for it, and for one more event behind it.
#[inline(never)]
fn push_group(
    queue: &mut Queue<EiEvent>,
    device: &Device,
    waiting: &mut Vec<InputEvent>,
    serial: u32,
    time: u64,
)
    requires room { vec_len waiting.old + 2 ≤ queue.old.room }
    ensures queue { queue.new.items ≡ queue.old.items ++ group_events device.now waiting.old.items serial time }
    ensures emptied { waiting.new.items ≡ [] }
    ensures left { 0 < queue.new.room }
{
    match motion_alone(waiting) {
        Some((dx, dy)) => {
            drop(waiting.pop());
            push_motion(queue, device, (dx, dy), serial, time);
        }
        None => push_any(queue, device, waiting, serial, time),
    }
}

/// The motion that waits, if no other input does.
#[inline(always)]
fn motion_alone(waiting: &[InputEvent]) -> Option<(RawFloat, RawFloat)>
    ensures { IfSome result (λ m. waiting.now ≡ PointerMotion m.0 m.1 ∷ []) }
{
    match waiting {
        [InputEvent::PointerMotion { dx, dy }] => Some((*dx, *dy)),
        _ => None,
    }
}

/// Hands out a motion and its frame. There is room for both.
#[inline(always)]
fn push_motion(
    queue: &mut Queue<EiEvent>,
    device: &Device,
    motion: (RawFloat, RawFloat),
    serial: u32,
    time: u64,
)
    requires room { 1 < queue.old.room }
    ensures queue { queue.new.items ≡ queue.old.items ++
        group_events device.now (PointerMotion motion.0 motion.1 ∷ []) serial time }
    ensures left { queue.new.room + 2 ≡ queue.old.room }
{
    let key = device.copy();
    let (dx, dy) = motion;
    queue.push_reserved(EiEvent::PointerMotion(input_event::PointerMotion {
        device: key.copy(),
        time,
        dx,
        dy,
    }));
    queue.push_reserved(EiEvent::Frame(Frame {
        device: key,
        serial,
        time,
    }));
}

/// Hands out a group. There is room for it, and for one more event behind it.
#[inline(never)]
#[tactic(auto, using(crate::proofs::Groups::group_ends))]
fn push_any(
    queue: &mut Queue<EiEvent>,
    device: &Device,
    waiting: &mut Vec<InputEvent>,
    serial: u32,
    time: u64,
)
    requires room { vec_len waiting.old + 2 ≤ queue.old.room }
    ensures queue { queue.new.items ≡ queue.old.items ++ group_events device.now waiting.old.items serial time }
    ensures emptied { waiting.new.items ≡ [] }
    ensures left { 0 < queue.new.room }
{
    let Some(input) = waiting.pop() else {
        return;
    };
    if !waiting.is_empty() {
        push_first(queue, device, waiting, time);
    }
    let device = device.copy();
    queue_timed(input, queue, &device, time);
    queue.push_reserved(EiEvent::Frame(Frame {
        device,
        serial,
        time,
    }));
}

/// Hands out the inputs of a group before its last.
#[inline(never)]
fn push_first(queue: &mut Queue<EiEvent>, device: &Device, waiting: &mut Vec<InputEvent>, time: u64)
    requires room { vec_len waiting.old ≤ queue.old.room }
    ensures queue { queue.new.items ≡ queue.old.items ++ map (timed device.now time) waiting.old.items }
    ensures emptied { waiting.new.items ≡ [] }
    ensures left { queue.new.room + vec_len waiting.old ≡ queue.old.room }
{
    // The memory of what waited is kept.
    let alloc = *waiting.allocator();
    let mut inputs = VecDeque::from_vec(mem::replace(waiting, Vec::new(alloc)));
    while let Some(input) = inputs.pop_front() {
        queue_timed(input, queue, device, time);
    }
    *waiting = inputs.into_vec();
}

/// Whether the device of that id is pending.
pub(crate) fn is_pending(devices: &ById<KeptDevice>, id: u64) -> bool
    ensures { result ≡ is_some (pending_device (finite.get devices.now id)) }
{
    match devices.get(id) {
        Some(device) => !device.is_added(),
        None => false,
    }
}

/// The device of that id, where it is pending, for writing.
pub(crate) fn pending_mut(devices: &mut ById<KeptDevice>, id: u64) -> Option<&mut KeptDevice>
    ensures* writes_back { sem 𝓛 (lends_device devices.entry id result) }
    ensures value { option_copied_mut result ≡ pending_device (finite.get devices.old id) }
{
    if !is_pending(devices, id) {
        return None;
    }
    devices.get_mut(id)
}

/// The device of that id, where it is added.
#[inline(always)]
pub(crate) fn added(devices: &ById<KeptDevice>, id: u64) -> Option<&KeptDevice>
    ensures { option_copied result ≡ added_device (finite.get devices.now id) }
{
    match devices.get(id) {
        Some(device) if device.is_added() => Some(device),
        _ => None,
    }
}

/// The same, for writing.
#[inline(always)]
pub(crate) fn added_mut(devices: &mut ById<KeptDevice>, id: u64) -> Option<&mut KeptDevice>
    ensures* writes_back { sem 𝓛 (lends_device devices.entry id result) }
    ensures value { option_copied_mut result ≡ added_device (finite.get devices.old id) }
{
    match devices.get_mut(id) {
        Some(device) => {
            let added = device.is_added();
            if added { Some(device) } else { None }
        }
        None => None,
    }
}

/// Whether the device of that id has a type, where it is pending.
pub(crate) fn pending_has_type(devices: &ById<KeptDevice>, id: u64) -> Option<bool>
    ensures { result ≡ option_map (λ d. is_some d.kind) (pending_device (finite.get devices.now id)) }
{
    match devices.get(id) {
        Some(device) if !device.is_added() => Some(device.kind().is_some()),
        _ => None,
    }
}
