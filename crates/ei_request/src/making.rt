//! Devices that are announced.

ghost use Rattle.std.specs.Prelude.{◌≡◌, ◌≤◌, ◌<◌, ◌+◌, ◌++◌, ℕ, [], ◌↔◌, IfErr, IfOk, OnOk, IsErrOf, IsSome, true, false};
ghost use Rattle.std.specs.Prelude.{length, vec_len, vec_capacity, ◌&&◌};
ghost use Rattle.std.specs.Option.{option_copied};
ghost use Rattle.std.specs.List.{Any, list_any};
ghost use Rattle.ei_spec.specs.declared.interface.KnownInterface.TheVariants as known;
ghost use Rattle.ei_wire.specs.declared.error.SendError.TheVariants as send_error;
ghost use Rattle.ei_types.specs.Capability.{bits_of, bit_of, has_bit};
ghost use Rattle.ei_backend.specs.Endpoint.{endpoint_of};
ghost use Rattle.ei_session.specs.Events.{interface_event};
ghost use Rattle.ei_handshake.specs.Handshaker.{sends};
ghost use Rattle.ei_request.specs.Connection.{version_in};
ghost use Rattle.ei_request.specs.Costs.{Fits, Spends, name_cost, begin_cost, interface_cost, interfaces_cost, item_cost};
ghost use Rattle.ei_request.specs.Costs.{items_cost, end_cost, both, device_cost};
ghost use Rattle.ei_request.specs.Sending.{announces, next_object, device_name_event};
ghost use Rattle.ei_request.specs.Making.{granted_to, chosen_of, announces_all, objects_of, object_of, begins_device, ends_device, tells_item};
ghost use Rattle.ei_request.specs.Making.{named_by, tells_items, is_long_name, is_long_item, is_long_description};
ghost use Rattle.ei_request.specs.Making.{name_text, item_letters, item_room, setup_room, NeedsKeyboard, has_keyboard, LacksIds, HasLongText};
ghost use Rattle.ei_request.specs.declared.making.DeviceSetup.TheVariants as setup;

use crate::costs::{MOST_DEVICE_BYTES, MOST_ITEM_BYTES};
use crate::held::find_interface;
use crate::seats::is_long;
use crate::sending::text_bytes;
use ei_backend::{HasBackend, Interface, Object};
use ei_handshake::Versions;
use ei_server::{Context, Device, Keyboard, Seat};
use ei_spec::limits::CAPABILITIES;
use ei_spec::{Handle, KnownInterface};
use ei_types::{DeviceCapabilities, DeviceCapability, DeviceType, KeymapType};
use ei_wire::{RawFloat, SendError};

/// An item of a device's description.
#[derive(Debug, Drop)]
pub enum DeviceSetup<'a> {
    /// The size of a physical device, in millimetres.
    Dimensions {
        width: u32,
        height: u32,
    },
    /// The name of the next region.
    RegionMappingId(&'a str),
    /// A region in which a virtual device moves: its corner and its size in logical pixels, and the scale by which
    /// the client is to multiply distances. The protocol spells `hight` so.
    Region {
        offset_x: u32,
        offset_y: u32,
        width: u32,
        hight: u32,
        scale: RawFloat,
    },
    /// What the keys of its keyboard mean: the handle is of a keymap of so many bytes.
    Keymap {
        keymap_type: KeymapType,
        size: u32,
        handle: Handle,
    },
}

/// The capabilities that a device may have: those that its seat was given, and of them those that are wanted.
#[derive(Clone, Copy)]
pub(crate) struct Allowed {
    pub(crate) given: DeviceCapabilities,
    pub(crate) wanted: DeviceCapabilities,
}

impl Allowed {
    /// Whether the device has the capability.
    fn has(self, one: DeviceCapability) -> bool
        ensures { result ≡ (has_bit (bits_of self.given) (bit_of one) && has_bit (bits_of self.wanted) (bit_of one)) }
    {
        self.given.has(one) && self.wanted.has(one)
    }

    /// How many interfaces it gets for the capability: one or none.
    fn count_of(self, one: DeviceCapability) -> usize
        ensures value { result ≡ length (chosen_of self one) }
        ensures few { result ≤ 1 }
    {
        usize::from(self.has(one))
    }

    /// How many interfaces the device gets.
    fn count(self) -> usize
        ensures value { result ≡ length (granted_to self) }
        ensures few { result ≤ CAPABILITIES }
    {
        let all = DeviceCapability::ALL;
        let mut count = 0;
        for one in &all {
            count += self.count_of(*one);
        }
        count
    }
}

/// The text of an item, if it has one.
fn item_text<'a>(item: &DeviceSetup<'a>) -> Option<&'a str>
    ensures { option_copied result ≡ item_letters item.now }
{
    match item {
        DeviceSetup::RegionMappingId(id) => Some(*id),
        _ => None,
    }
}

/// Whether the text of an item is too long.
fn is_long_text(item: &DeviceSetup<'_>) -> bool
    ensures { result ≡ is_long_item 0 item.now }
{
    is_long(item_text(item))
}

/// Whether the text of one of the items is too long.
fn has_long_text(setup: &[DeviceSetup<'_>]) -> bool
    ensures { result ≡ list_any (is_long_item 0) setup.now }
{
    setup.iter().any(|item| is_long_text(item))
}

/// Whether a text of a device's description is too long.
fn is_long_description_of(name: Option<&str>, setup: &[DeviceSetup<'_>]) -> bool
    ensures { (device : ℕ) → result ≡ is_long_description device (option_copied name.entry) setup.now }
{
    is_long(name) || has_long_text(setup)
}

/// How many bytes the event of an item has at most. `NoMemory` where that is past all numbers.
fn item_bytes(item: &DeviceSetup<'_>) -> Result<usize, SendError>
    ensures ok { IfOk result (λ bytes. bytes ≡ item_room item.now) }
    ensures only { IfErr result (λ e. e ≡ send_error.NoMemory) }
{
    plus(text_bytes(item_text(item)), MOST_ITEM_BYTES)
}

/// How many bytes the items have at most. `NoMemory` where that is past all numbers.
fn items_bytes(setup: &[DeviceSetup<'_>]) -> Result<usize, SendError>
    ensures ok { IfOk result (λ bytes. bytes ≡ setup_room setup.now) }
    ensures only { IfErr result (λ e. e ≡ send_error.NoMemory) }
{
    let mut bytes: usize = 0;
    for item in setup {
        bytes = plus(bytes, item_bytes(item)?)?;
    }
    Ok(bytes)
}

/// How many bytes the events have at most that announce and describe a device. `NoMemory` where that is past all
/// numbers.
fn description_bytes(name: Option<&str>, setup: &[DeviceSetup<'_>]) -> Result<usize, SendError>
    ensures ok { IfOk result (λ bytes. bytes ≡
        MOST_DEVICE_BYTES + length (name_text (option_copied name.entry)) + setup_room setup.now) }
    ensures only { IfErr result (λ e. e ≡ send_error.NoMemory) }
{
    let texts = plus(text_bytes(name), items_bytes(setup)?)?;
    plus(texts, MOST_DEVICE_BYTES)
}

/// The sum. `NoMemory` where it is past all numbers.
fn plus(bytes: usize, more: usize) -> Result<usize, SendError>
    ensures ok { IfOk result (λ sum. sum ≡ bytes + more) }
    ensures only { IfErr result (λ e. e ≡ send_error.NoMemory) }
{
    match bytes.checked_add(more) {
        Some(sum) => Ok(sum),
        None => Err(SendError::NoMemory),
    }
}

/// Tests whether a device of that description can be announced, and makes the room for it.
///
/// `IdsExhausted` exactly where fewer own ids are left than it needs, one for itself and one for each interface; then
/// `MessageTooLong` exactly where its name or the name of a region is too long; `NoMemory`.
pub(crate) fn make_room(
    ctx: &mut Context,
    name: Option<&str>,
    allowed: Allowed,
    setup: &[DeviceSetup<'_>],
) -> Result<(), SendError>
    ensures exhausted { IsErrOf result send_error.IdsExhausted ↔ LacksIds ctx.old.table (granted_to allowed) }
    ensures long { IsErrOf result send_error.MessageTooLong ↔
        HasLongText ctx.old.table (granted_to allowed) (option_copied name.entry) setup.now }
    ensures short { OnOk result ((device : ℕ) →
        is_long_description device (option_copied name.entry) setup.now ≡ false) }
    ensures fits { OnOk result (Fits (device_cost (granted_to allowed) (option_copied name.entry) setup.now) ctx.new) }
    ensures same { endpoint_of ctx.new ≡ endpoint_of ctx.old }
    ensures ring { ctx.new.capacity ≡ ctx.old.capacity }
{
    let objects = allowed.count() + 1;
    if ctx.backend().ids_left() < objects as u64 {
        return Err(SendError::IdsExhausted);
    }
    if is_long_description_of(name, setup) {
        return Err(SendError::MessageTooLong);
    }
    let bytes = description_bytes(name, setup)?;
    ctx.backend_mut().reserve(bytes, setup.len(), objects)?;
    Ok(())
}

/// Tells the name of a device, where there is one. There is room for it, and it isn't too long.
fn tell_name(ctx: &mut Context, device: &Device, name: Option<&str>)
    requires fits { Fits (name_cost (option_copied name)) ctx.old }
    requires short { is_long_name (device_name_event device.now.id) (option_copied name) ≡ false }
    ensures ok { ctx.new ≡ sends ctx.old (named_by (device_name_event device.now.id) (option_copied name.entry)) }
    ensures spends { Spends (name_cost (option_copied name.entry)) ctx.old ctx.new }
{
    if let Some(name) = name {
        // There is room for it, and it isn't too long.
        device.name(ctx, name).unwrap();
    }
}

/// Announces a device: `device`, `name` where there is one, and `device_type`. There is room for it.
pub(crate) fn begin(
    ctx: &mut Context,
    seat: &Seat,
    version: u32,
    name: Option<&str>,
    device_type: DeviceType,
) -> Device
    requires fits { Fits (begin_cost (option_copied name)) ctx.old }
    requires short { (device : ℕ) → is_long_name (device_name_event device) (option_copied name) ≡ false }
    ensures device { result ≡ next_object (endpoint_of ctx.old) known.Device version }
    ensures ok { endpoint_of ctx.new ≡
        begins_device (endpoint_of ctx.old) seat.now.id version (option_copied name.entry) device_type }
    ensures spends { Spends (begin_cost (option_copied name.entry)) ctx.old ctx.new }
{
    // There is room for it, and an id is left.
    let device = seat.device(ctx, version).unwrap();
    tell_name(ctx, &device, name);
    device.device_type(ctx, device_type).unwrap();
    device
}

/// Announces an interface of a device. There is room for it.
fn interface(ctx: &mut Context, device: &Device, one: KnownInterface, version: u32) -> Object
    requires fits { Fits interface_cost ctx.old }
    ensures object { result ≡ next_object (endpoint_of ctx.old) one version }
    ensures ok { endpoint_of ctx.new ≡
        announces (endpoint_of ctx.old) (interface_event device.now.id ctx.old.table.next_own one version) one version }
    ensures spends { Spends interface_cost ctx.old ctx.new }
{
    // There is room for it, and it is short.
    device.known_interface(ctx, one, version).unwrap()
}

/// Announces the interface of a capability, where the device has it. There is room for it.
fn interface_if(
    ctx: &mut Context,
    device: &Device,
    versions: &Versions,
    allowed: Allowed,
    one: DeviceCapability,
    objects: &mut Vec<Object>,
)
    requires fits { Fits (interfaces_cost (chosen_of allowed one)) ctx.old }
    requires places { vec_len objects.old < vec_capacity objects.old }
    ensures ok { endpoint_of ctx.new ≡
        announces_all (endpoint_of ctx.old) (version_in versions.now) device.now.id (chosen_of allowed one) }
    ensures spends { Spends (interfaces_cost (chosen_of allowed one)) ctx.old ctx.new }
    ensures objects { objects.new.items ≡
        objects.old.items ++ objects_of (endpoint_of ctx.old) (version_in versions.now) (chosen_of allowed one) }
    ensures len { vec_len objects.new ≤ vec_len objects.old + 1 }
    ensures capacity { vec_capacity objects.new ≡ vec_capacity objects.old }
{
    if allowed.has(one) {
        let known = one.interface();
        let version = versions.version(known).unwrap_or(1);
        let object = interface(ctx, device, known, version);
        objects.push_reserved(object);
    }
}

/// Announces the interfaces of a device, by rising bit, and adds their objects. There is room for them.
fn interfaces(
    ctx: &mut Context,
    device: &Device,
    versions: &Versions,
    allowed: Allowed,
    objects: &mut Vec<Object>,
)
    requires fits { Fits (interfaces_cost (granted_to allowed)) ctx.old }
    requires places { vec_len objects.old + CAPABILITIES ≤ vec_capacity objects.old }
    ensures ok { endpoint_of ctx.new ≡
        announces_all (endpoint_of ctx.old) (version_in versions.now) device.now.id (granted_to allowed) }
    ensures spends { Spends (interfaces_cost (granted_to allowed)) ctx.old ctx.new }
    ensures objects { objects.new.items ≡
        objects.old.items ++ objects_of (endpoint_of ctx.old) (version_in versions.now) (granted_to allowed) }
{
    let all = DeviceCapability::ALL;
    for one in &all {
        interface_if(ctx, device, versions, allowed, *one, objects);
    }
}

/// Tells a keymap to the keyboard among these objects. There is room for it.
fn tell_keymap(
    ctx: &mut Context,
    objects: &[Object],
    keymap_type: KeymapType,
    size: u32,
    handle: Handle,
)
    requires fits { Fits (item_cost (setup.Keymap keymap_type size handle)) ctx.old }
    requires keyboard { IsSome (object_of known.Keyboard objects.now) }
    ensures ok { (device : ℕ) → endpoint_of ctx.new ≡
        tells_item (endpoint_of ctx.old) device (object_of known.Keyboard objects.now)
        (setup.Keymap keymap_type size handle) }
    ensures spends { Spends (item_cost (setup.Keymap keymap_type size handle)) ctx.old ctx.new }
{
    let object = find_interface(objects, KnownInterface::Keyboard).unwrap();
    let keyboard = Keyboard::new_unchecked(object.copy());
    // There is room for it, and it is short.
    keyboard.keymap(ctx, keymap_type, size, handle).unwrap();
}

/// Tells an item of a device's description. There is room for it.
fn tell_item(ctx: &mut Context, device: &Device, objects: &[Object], item: &DeviceSetup<'_>)
    requires fits { Fits (item_cost item.now) ctx.old }
    requires keyboard { NeedsKeyboard item.now → IsSome (object_of known.Keyboard objects.now) }
    requires short { (device : ℕ) → is_long_item device item.now ≡ false }
    ensures ok { endpoint_of ctx.new ≡
        tells_item (endpoint_of ctx.old) device.now.id (object_of known.Keyboard objects.now) item.now }
    ensures spends { Spends (item_cost item.now) ctx.old ctx.new }
{
    // There is room for it, and it isn't too long.
    match item {
        DeviceSetup::Dimensions { width, height } => {
            device.dimensions(ctx, *width, *height).unwrap()
        }
        DeviceSetup::RegionMappingId(id) => device.region_mapping_id(ctx, *id).unwrap(),
        DeviceSetup::Region {
            offset_x,
            offset_y,
            width,
            hight,
            scale,
        } => device
            .region(ctx, *offset_x, *offset_y, *width, *hight, *scale)
            .unwrap(),
        DeviceSetup::Keymap {
            keymap_type,
            size,
            handle,
        } => tell_keymap(ctx, objects, *keymap_type, *size, *handle),
    }
}

/// Tells the items of a device's description in their order. There is room for them.
fn tell_items(ctx: &mut Context, device: &Device, objects: &[Object], setup: &[DeviceSetup<'_>])
    requires fits { Fits (items_cost setup.now) ctx.old }
    requires keyboard { Any NeedsKeyboard setup.now → IsSome (object_of known.Keyboard objects.now) }
    requires short { (device : ℕ) → list_any (is_long_item device) setup.now ≡ false }
    ensures ok { endpoint_of ctx.new ≡
        tells_items (endpoint_of ctx.old) device.now.id (object_of known.Keyboard objects.now) setup.now }
    ensures spends { Spends (items_cost setup.now) ctx.old ctx.new }
{
    for item in setup {
        tell_item(ctx, device, objects, item);
    }
}

/// Tells the items of a device's description in their order, and `done`. There is room for it.
fn end(ctx: &mut Context, device: &Device, objects: &[Object], setup: &[DeviceSetup<'_>])
    requires fits { Fits (end_cost setup.now) ctx.old }
    requires keyboard { Any NeedsKeyboard setup.now → IsSome (object_of known.Keyboard objects.now) }
    requires short { (device : ℕ) → list_any (is_long_item device) setup.now ≡ false }
    ensures ok { endpoint_of ctx.new ≡
        ends_device (endpoint_of ctx.old) device.now.id (object_of known.Keyboard objects.now) setup.now }
    ensures spends { Spends (end_cost setup.now) ctx.old ctx.new }
{
    tell_items(ctx, device, objects, setup);
    // There is room for it.
    device.done(ctx).unwrap();
}

/// Announces the interfaces of a device, adds their objects, and describes the device: the items in their order, and
/// `done`. There is room for it.
pub(crate) fn describe(
    ctx: &mut Context,
    device: &Device,
    versions: &Versions,
    allowed: Allowed,
    setup: &[DeviceSetup<'_>],
    objects: &mut Vec<Object>,
)
    requires fits { Fits (both (interfaces_cost (granted_to allowed)) (end_cost setup.now)) ctx.old }
    requires keyboard { Any NeedsKeyboard setup.now → has_keyboard (granted_to allowed) ≡ true }
    requires short { (device : ℕ) → list_any (is_long_item device) setup.now ≡ false }
    requires none { objects.old.items ≡ [] }
    requires places { CAPABILITIES ≤ vec_capacity objects.old }
    ensures objects { objects.new.items ≡
        objects_of (endpoint_of ctx.old) (version_in versions.now) (granted_to allowed) }
    ensures ok { endpoint_of ctx.new ≡ ends_device
        (announces_all (endpoint_of ctx.old) (version_in versions.now) device.now.id (granted_to allowed))
        device.now.id (object_of known.Keyboard objects.new.items) setup.now }
    ensures spends { Spends (both (interfaces_cost (granted_to allowed)) (end_cost setup.now)) ctx.old ctx.new }
{
    interfaces(ctx, device, versions, allowed, objects);
    end(ctx, device, objects, setup);
}
