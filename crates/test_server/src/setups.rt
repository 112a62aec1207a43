//! What a server is started with.

ghost use Rattle.std.specs.Prelude.{◌≤◌};
ghost use Rattle.ei_types.specs.Capability.{bits_of, all_bits};

use ei_serve::Setup;
use ei_types::DeviceCapabilities;
use test_table::Reader;

/// The capabilities of the bits that the next word says.
pub(crate) fn capabilities_of(words: &mut Reader<'_>) -> DeviceCapabilities
    ensures { bits_of result ≤ all_bits }
{
    let bits = words.id();
    match DeviceCapabilities::from_bits(bits) {
        Some(capabilities) => capabilities,
        None => {
            words.miss();
            DeviceCapabilities::all()
        }
    }
}

/// The setup of the next words: the serial, the capabilities, and how many pieces are taken.
pub(crate) fn setup_of(words: &mut Reader<'_>) -> Setup
    ensures { bits_of result.capabilities ≤ all_bits }
{
    Setup {
        initial_serial: words.number(),
        capabilities: capabilities_of(words),
        pieces: words.number(),
    }
}

/// A setup with serial 5 and the capabilities of the next word, for 200 pieces.
pub(crate) fn setup_with(words: &mut Reader<'_>) -> Setup
    ensures { bits_of result.capabilities ≤ all_bits }
{
    Setup {
        initial_serial: 5,
        capabilities: capabilities_of(words),
        pieces: 200,
    }
}
