//! Seats and devices that are announced, and the events of devices.

use super::words::{letters, text};
use super::world::World;
use crate::kept::{keep_made, set};
use crate::setups::capabilities_of;
use ei_backend::{Backend, HasBackend, InterfaceName};
use ei_request::{Device, DeviceSetup};
use ei_spec::Handle;
use ei_types::{DeviceCapabilities, DeviceCapability, DeviceType, KeymapType};
use ei_wire::{RawFloat, SendError};
use std::alloc::Global;
use test_table::{Answer, Reader, number};

/// `add-seat TEXT CAPABILITIES`: the seat of that name.
pub(crate) fn add_seat(world: &mut World, words: &mut Reader<'_>, answer: &mut Answer) {
    let name = text(world.alloc, words, answer);
    let capabilities = capabilities_of(words);
    let seat = world
        .converter
        .handle_mut()
        .add_seat(letters(&name), capabilities);
    drop(name);
    keep_made(&mut world.seats, seat, answer);
}

/// What a device is said to be.
#[derive(Drop)]
struct Described<'a> {
    name: Option<String>,
    device_type: DeviceType,
    capabilities: DeviceCapabilities,
    items: Vec<DeviceSetup<'a>>,
}

/// What the words say of a device: its name, its type, its capabilities and the items of its description.
fn description<'a>(alloc: Global, words: &mut Reader<'a>, answer: &mut Answer) -> Described<'a> {
    Described {
        name: text(alloc, words, answer),
        device_type: device_type(words),
        capabilities: capabilities_of(words),
        items: items(alloc, words, answer),
    }
}

/// The type of the next word.
fn device_type(words: &mut Reader<'_>) -> DeviceType {
    match words.word() {
        "virtual" => DeviceType::Virtual,
        "physical" => DeviceType::Physical,
        _ => {
            words.miss();
            DeviceType::Virtual
        }
    }
}

/// The items that the words say.
fn items<'a>(alloc: Global, words: &mut Reader<'a>, answer: &mut Answer) -> Vec<DeviceSetup<'a>> {
    let mut items = Vec::new(alloc);
    for word in words.rest().split(' ') {
        if let Some(item) = item(word, words) {
            answer.take(items.push(item));
        }
    }
    items
}

/// The item that a word says, if it has letters.
fn item<'a>(word: &'a str, words: &mut Reader<'_>) -> Option<DeviceSetup<'a>> {
    let (kind, rest) = word.split_once(':').unwrap_or((word, ""));
    match kind {
        "" => None,
        "dimensions" => Some(dimensions(rest, words)),
        "mapping-id" => Some(DeviceSetup::RegionMappingId(rest)),
        "region" => Some(region(rest, words)),
        "keymap" => Some(keymap(rest, words)),
        _ => {
            words.miss();
            None
        }
    }
}

/// The number before the next colon, and the rest.
fn next_number<'a>(rest: &'a str, words: &mut Reader<'_>) -> (u32, &'a str) {
    let (word, rest) = rest.split_once(':').unwrap_or((rest, ""));
    (words.or(number(word), 0), rest)
}

fn dimensions<'a>(rest: &str, words: &mut Reader<'_>) -> DeviceSetup<'a> {
    let (width, rest) = next_number(rest, words);
    let (height, _) = next_number(rest, words);
    DeviceSetup::Dimensions { width, height }
}

fn region<'a>(rest: &str, words: &mut Reader<'_>) -> DeviceSetup<'a> {
    let (offset_x, rest) = next_number(rest, words);
    let (offset_y, rest) = next_number(rest, words);
    let (width, rest) = next_number(rest, words);
    let (hight, rest) = next_number(rest, words);
    let (scale, _) = next_number(rest, words);
    DeviceSetup::Region {
        offset_x,
        offset_y,
        width,
        hight,
        scale: RawFloat(scale),
    }
}

fn keymap<'a>(rest: &str, words: &mut Reader<'_>) -> DeviceSetup<'a> {
    let (size, rest) = next_number(rest, words);
    let (handle, _) = next_number(rest, words);
    DeviceSetup::Keymap {
        keymap_type: KeymapType::Xkb,
        size,
        handle: Handle(handle),
    }
}

/// `add-device SEAT TEXT TYPE CAPABILITIES ITEM ..`: the device of the seat of that place, of that name and that type,
/// with these items, where it gets a keyboard; else with none.
pub(crate) fn add_device(world: &mut World, words: &mut Reader<'_>, answer: &mut Answer) {
    let at = words.count();
    let described = description(world.alloc, words, answer);
    let device = announced(world, at, &described);
    drop(described);
    match device {
        Some(device) => keep_made(&mut world.devices, device, answer),
        None => words.miss(),
    }
}

/// Announces the device of the seat of that place, if there is one. A keymap may come only where the seat gives the
/// device a keyboard.
fn announced(
    world: &mut World,
    at: usize,
    described: &Described<'_>,
) -> Option<Result<Device, SendError>> {
    let seat = world.seats.get(at)?;
    let handle = world.converter.handle_mut();
    let given = handle.seat_capabilities(seat)?;
    let wanted = described.capabilities;
    let (name, kind) = (letters(&described.name), described.device_type);
    let has_keyboard = given.has(DeviceCapability::Keyboard)
        && wanted.has(DeviceCapability::Keyboard);
    Some(if has_keyboard {
        seat.add_device(handle, name, kind, wanted, &described.items)
    } else {
        seat.add_device(handle, name, kind, wanted, &[])
    })
}

/// `add-object NAME VERSION`: the object of that interface, which no device and no connection has.
pub(crate) fn add_object(world: &mut World, words: &mut Reader<'_>, answer: &mut Answer) {
    let name = InterfaceName::of(world.alloc, words.word());
    let version = words.number();
    if let Some(name) = answer.take(name) {
        let backend = world.converter.handle_mut().context_mut().backend_mut();
        let object = backend.new_object(name, version);
        answer.show(&object);
        drop(object);
    }
}

/// `ids-left COUNT`: nothing, and lets so many own ids be left to an endpoint that has no object and no byte.
pub(crate) fn leave_ids(world: &mut World, words: &mut Reader<'_>, answer: &mut Answer) {
    let next = u64::MAX - u64::from(words.number());
    if let Some(backend) = answer.take(Backend::with_next_id(world.alloc, false, next)) {
        set(
            world.converter.handle_mut().context_mut().backend_mut(),
            backend,
        );
        answer.put("done");
    }
}

/// `resumed PLACE`, `paused PLACE`, `start PLACE SEQUENCE`, `stop PLACE` and `frame PLACE TIME`: whether the event of the
/// device of that place is sent.
pub(crate) fn bear(world: &mut World, name: &str, words: &mut Reader<'_>, answer: &mut Answer) {
    let handle = world.converter.handle_mut();
    match world.devices.get(words.count()) {
        Some(device) if handle.has_device(device) => match name {
            "resumed" => answer.show(&device.resumed(handle)),
            "paused" => answer.show(&device.paused(handle)),
            "start" => answer.show(&device.start_emulating(handle, words.number())),
            "stop" => answer.show(&device.stop_emulating(handle)),
            "frame" => answer.show(&device.frame(handle, words.id())),
            _ => words.miss(),
        },
        _ => words.miss(),
    }
}
