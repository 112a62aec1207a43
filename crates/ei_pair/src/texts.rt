//! The numbers and the texts of a call, as far as they are read.

ghost use Rattle.std.specs.Prelude.{◌≡◌, ◌<◌, ◌^◌, true};
ghost use Rattle.std.specs.Option.{option_copied};
ghost use Rattle.std.specs.Str.{is_utf8};
ghost use Rattle.ei_acts.specs.Sendable.{IsText, IsLawful, AreLawful};
ghost use Rattle.ei_pair.specs.Calls.{IsFitting};

use ei_promises::ServerCall;
use ei_request::DeviceSetup;
use ei_types::laws::reasons;

/// A number of 32 bits.
pub(crate) fn word(n: u32)
    ensures { n < 2 ^ 32 }
{
    let _read = n;
}

/// A number of 64 bits.
fn long(n: u64)
    ensures { n < 2 ^ 64 }
{
    let _read = n;
}

/// A text.
#[tactic(auto, using(ei_spec::proofs::Utf8::is_text))]
fn text(text: &str)
    ensures { is_utf8 text.now ≡ true }
{
    let _read = text;
}

/// A text, where there is one.
fn text_if(name: Option<&str>)
    ensures { IsText (option_copied name.entry) }
{
    if let Some(name) = name {
        text(name);
    }
}

/// An item of a device's description.
fn item(setup: &DeviceSetup<'_>)
    ensures { IsLawful setup.now }
{
    match setup {
        DeviceSetup::Dimensions { width, height } => {
            word(*width);
            word(*height);
        }
        DeviceSetup::RegionMappingId(id) => text(id),
        DeviceSetup::Region {
            offset_x,
            offset_y,
            width,
            hight,
            scale,
        } => {
            word(*offset_x);
            word(*offset_y);
            word(*width);
            word(*hight);
            word(scale.0);
        }
        DeviceSetup::Keymap { size, .. } => word(*size),
    }
}

/// A device's description.
fn description(setup: &[DeviceSetup<'_>])
    ensures { AreLawful setup.now }
{
    for one in setup {
        item(one);
    }
}

/// Reads a call. Of what was read it is known that each number is in its type's range and each text is one.
pub(crate) fn read(call: &ServerCall<'_>)
    ensures { IsFitting call.now }
{
    match call {
        ServerCall::AddSeat { name, .. } => text_if(*name),
        ServerCall::AddDevice { name, setup, .. } => {
            text_if(*name);
            description(setup);
        }
        ServerCall::StartEmulating(_, sequence) => word(*sequence),
        ServerCall::Frame(_, time) => long(*time),
        ServerCall::Disconnected {
            reason,
            explanation,
        } => {
            reasons(reason);
            text_if(*explanation);
        }
        _ => {}
    }
}
