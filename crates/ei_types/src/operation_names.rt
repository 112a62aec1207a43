//! The names of messages.

ghost use Rattle.std.specs.Prelude.{◌≡◌, ℕ, List, map, slice_get, true, false};
ghost use Rattle.std.specs.Option.{option_map};
ghost use Rattle.ei_types.specs.Operations.{name_at, operation_name};
ghost use Rattle.ei_spec.specs.declared.interface.KnownInterface.TheVariants.{Device as device};

use ei_spec::KnownInterface;

/// The name of the message of this opcode to an object of the interface of this name: of an event where
/// `events` is true, else of a request. `None` where there is no such interface or no such message.
pub fn op_name(events: bool, interface: &str, opcode: u32) -> Option<&'static str>
    ensures { option_map (λ name. name.now) result ≡ operation_name events interface.now opcode }
{
    let interface = KnownInterface::from_name(interface)?;
    if events {
        event_name(interface, opcode)
    } else {
        request_name(interface, opcode)
    }
}

/// The name at the place of the opcode.
fn nth(opcode: u32, names: &[&'static str]) -> Option<&'static str>
    ensures { option_map (λ name. name.now) result ≡ slice_get (map (λ name. name.now) names.now) opcode }
{
    names.get(opcode as usize).copied()
}

#[tactic(auto, using(crate::proofs::Opcodes::name_of_place))]
fn request_name(interface: KnownInterface, opcode: u32) -> Option<&'static str>
    ensures { option_map (λ name. name.now) result ≡ name_at false interface opcode }
{
    match interface {
        KnownInterface::Handshake => nth(
            opcode,
            &[
                "handshake_version",
                "finish",
                "context_type",
                "name",
                "interface_version",
            ],
        ),
        KnownInterface::Connection => nth(opcode, &["sync", "disconnect"]),
        KnownInterface::Callback => None,
        KnownInterface::Pingpong => nth(opcode, &["done"]),
        KnownInterface::Seat => nth(opcode, &["release", "bind", "request_device"]),
        KnownInterface::Device => nth(
            opcode,
            &[
                "release",
                "start_emulating",
                "stop_emulating",
                "frame",
                "ready",
            ],
        ),
        KnownInterface::Pointer => nth(opcode, &["release", "motion_relative"]),
        KnownInterface::PointerAbsolute => nth(opcode, &["release", "motion_absolute"]),
        KnownInterface::Scroll => nth(
            opcode,
            &["release", "scroll", "scroll_discrete", "scroll_stop"],
        ),
        KnownInterface::Button => nth(opcode, &["release", "button"]),
        KnownInterface::Keyboard => nth(opcode, &["release", "key"]),
        KnownInterface::Touchscreen => nth(opcode, &["release", "down", "motion", "up", "cancel"]),
        KnownInterface::Text => nth(opcode, &["release", "keysym", "utf8"]),
        KnownInterface::Gesture => nth(opcode, &["release", "swipe", "pinch"]),
    }
}

#[tactic(auto, using(crate::proofs::Opcodes::name_of_place))]
fn event_name(interface: KnownInterface, opcode: u32) -> Option<&'static str>
    ensures { option_map (λ name. name.now) result ≡ name_at true interface opcode }
{
    match interface {
        KnownInterface::Handshake => nth(
            opcode,
            &["handshake_version", "interface_version", "connection"],
        ),
        KnownInterface::Connection => nth(
            opcode,
            &["disconnected", "seat", "invalid_object", "ping"],
        ),
        KnownInterface::Callback => nth(opcode, &["done"]),
        KnownInterface::Pingpong => None,
        KnownInterface::Seat => nth(
            opcode,
            &["destroyed", "name", "capability", "done", "device"],
        ),
        KnownInterface::Device => device_event_name(opcode),
        KnownInterface::Pointer => nth(opcode, &["destroyed", "motion_relative"]),
        KnownInterface::PointerAbsolute => nth(opcode, &["destroyed", "motion_absolute"]),
        KnownInterface::Scroll => nth(
            opcode,
            &["destroyed", "scroll", "scroll_discrete", "scroll_stop"],
        ),
        KnownInterface::Button => nth(opcode, &["destroyed", "button"]),
        KnownInterface::Keyboard => nth(opcode, &["destroyed", "keymap", "key", "modifiers"]),
        KnownInterface::Touchscreen => nth(
            opcode,
            &["destroyed", "down", "motion", "up", "cancel"],
        ),
        KnownInterface::Text => nth(opcode, &["destroyed", "keysym", "utf8"]),
        KnownInterface::Gesture => nth(opcode, &["destroyed", "swipe", "pinch"]),
    }
}

#[tactic(auto, using(crate::proofs::Opcodes::name_of_place))]
fn device_event_name(opcode: u32) -> Option<&'static str>
    ensures { option_map (λ name. name.now) result ≡ name_at true device opcode }
{
    nth(
        opcode,
        &[
            "destroyed",
            "name",
            "device_type",
            "dimensions",
            "region",
            "interface",
            "done",
            "resumed",
            "paused",
            "start_emulating",
            "stop_emulating",
            "frame",
            "region_mapping_id",
        ],
    )
}
