//! The keys of seats and devices, by their ids.

ghost use Rattle.std.specs.Prelude.{◌≡◌, position, find, not};
ghost use Rattle.std.specs.Option.{option_copied};
ghost use Rattle.std.specs.List.{filter};
ghost use Rattle.ei_request.specs.Held.{without_first};
ghost use Rattle.reis_eis.specs.Keys.{names_seat, names_device, names_device_of};

use ei_backend::Interface;
use ei_request::{Device, Seat};

/// The id of a seat.
pub(crate) fn seat_id(seat: &Seat) -> u64
    ensures { result ≡ seat.now.id }
{
    seat.eis_seat().as_object().id()
}

/// The id of a device.
pub(crate) fn device_id(device: &Device) -> u64
    ensures { result ≡ device.now.proxy.id }
{
    device.device().as_object().id()
}

/// The key of the seat of that id.
pub(crate) fn find_seat(seats: &[Seat], id: u64) -> Option<&Seat>
    ensures { option_copied result ≡ find (names_seat id) seats.now }
{
    seats.iter().find(|seat| seat_id(seat) == id)
}

/// The key of the device of that id.
pub(crate) fn find_device(devices: &[Device], id: u64) -> Option<&Device>
    ensures { option_copied result ≡ find (names_device id) devices.now }
{
    devices.iter().find(|device| device_id(device) == id)
}

/// Where the seat of that id stands.
fn seat_place(seats: &[Seat], id: u64) -> Option<usize>
    ensures { result ≡ position (names_seat id) seats.now }
{
    seats.iter().position(|seat| seat_id(seat) == id)
}

/// Where the device of that id stands.
fn device_place(devices: &[Device], id: u64) -> Option<usize>
    ensures { result ≡ position (names_device id) devices.now }
{
    devices.iter().position(|device| device_id(device) == id)
}

/// Takes the key of the seat of that id out.
pub(crate) fn take_out_seat(seats: &mut Vec<Seat>, id: u64)
    ensures { seats.new.items ≡ without_first (names_seat id) seats.old.items }
{
    if let Some(at) = seat_place(seats, id) {
        seats.remove(at);
    }
}

/// Takes the key of the device of that id out.
pub(crate) fn take_out_device(devices: &mut Vec<Device>, id: u64)
    ensures { devices.new.items ≡ without_first (names_device id) devices.old.items }
{
    if let Some(at) = device_place(devices, id) {
        devices.remove(at);
    }
}

/// Takes the keys of all devices of the seat of that id out.
pub(crate) fn take_out_devices_of(devices: &mut Vec<Device>, seat: u64)
    ensures { devices.new.items ≡ filter (λ d. not (names_device_of seat d)) devices.old.items }
{
    devices.retain(
        |device: &Device| -> bool
            ensures { result ≡ not (names_device_of seat device.now) }
        { seat_id(device.seat()) != seat },
    );
}
