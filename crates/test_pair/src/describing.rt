//! What a device of the server is described with.

use crate::changing::Pair;
use crate::may::serve;
use ei_pair::{Made, ServerCall};
use ei_request::{DeviceSetup, Seat};
use ei_spec::Handle;
use ei_types::{DeviceCapabilities, DeviceCapability, DeviceType, KeymapType};
use ei_wire::{RawFloat, SendError};

/// What the server answers where it is to add a physical device of the seat, with a description where it is to get a keyboard;
/// `None` where it may not add it now.
pub(crate) fn describe(
    pair: &mut Pair,
    seat: Seat,
    name: Option<&str>,
    wanted: DeviceCapabilities,
) -> Option<Result<Made, SendError>> {
    if wanted.has(DeviceCapability::Keyboard) {
        describe_by(pair, seat, name, wanted, &all_items())
    } else {
        describe_by(pair, seat, name, wanted, &[])
    }
}

/// All that a device can be described with.
fn all_items<'a>() -> [DeviceSetup<'a>; 4] {
    [
        DeviceSetup::Dimensions {
            width: 9,
            height: 10,
        },
        DeviceSetup::RegionMappingId("left"),
        DeviceSetup::Region {
            offset_x: 1,
            offset_y: 2,
            width: 3,
            hight: 4,
            scale: RawFloat(5),
        },
        DeviceSetup::Keymap {
            keymap_type: KeymapType::Xkb,
            size: 6,
            handle: Handle(8),
        },
    ]
}

/// The same, with this description.
fn describe_by(
    pair: &mut Pair,
    seat: Seat,
    name: Option<&str>,
    wanted: DeviceCapabilities,
    setup: &[DeviceSetup<'_>],
) -> Option<Result<Made, SendError>> {
    let call = ServerCall::AddDevice {
        seat,
        name,
        device_type: DeviceType::Physical,
        capabilities: wanted,
        setup,
    };
    serve(pair, call)
}
