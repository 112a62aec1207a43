//! The session over the generated stream.

ghost use Rattle.std.specs.Prelude.{◌≡◌, IfOk, OnOk, Ok};
ghost use Rattle.ei_backend.specs.Lent.{LentClock};
ghost use Rattle.ei_serve.specs.Standing.{setup_of};
ghost use Rattle.ei_serve.specs.declared.session.Ended.TheVariants as ended;
ghost use Rattle.ei_serve.specs.Serving.{AnswersAs, LeftReadings};
ghost use Rattle.ei_types.specs.Decided.{IsDecided};
ghost use Rattle.reis_demo.specs.Generated.{demo_setup};
ghost use Rattle.reis_demo.specs.Summary.{demo_session, demo_lines};

use crate::generated::Generated;
use crate::lines::{Counts, six_lines};
use crate::opening::OWN_CAPABILITIES;
use crate::replies::Replies;
use crate::tally::{Tally, serve_counted};
use ei_backend::Clock;
use ei_serve::{Ended, Setup};
use ei_types::{DeviceCapabilities, Error};
use ei_wire::NoMemory;
use std::alloc::Global;

/// What the session over a generated stream came to.
#[derive(Debug, Drop)]
pub struct Summary {
    /// Six lines: the groups, the inputs and the requests, the bytes of the stream and of the replies, and the end.
    pub text: Vec<u8>,
    /// How the session ended.
    pub answer: Result<Ended, Error>,
}

/// The setup: an initial serial of 1, the capabilities that its client knows, and any number of pieces.
fn setup() -> Setup
    ensures { setup_of result ≡ demo_setup }
{
    Setup {
        initial_serial: 1,
        capabilities: DeviceCapabilities::from_bits(OWN_CAPABILITIES).unwrap(),
        pieces: u32::MAX,
    }
}

/// Serves the stream of so many groups that the numbers after `start` make up, and tells what the session came to.
///
/// The stream is a client's that shakes hands, binds its capabilities, sends the groups and disconnects; `Generated`
/// hands it out. It prints nothing.
///
/// `NoMemory` where memory runs out; nothing else fails.
pub fn demo<C: Clock>(
    alloc: Global,
    groups: u32,
    start: u32,
    clock: &mut C,
) -> Result<Summary, NoMemory>
    ensures text { IfOk result (λ summary. summary.text.items ≡ demo_lines groups start summary.answer) }
    ensures answer { IfOk result (λ summary. AnswersAs (demo_session groups start).answer summary.answer) }
    ensures decided { IfOk result (λ summary. IsDecided summary.answer) }
    ensures disconnects { IfOk result (λ summary. summary.answer ≡ Ok ended.Disconnect) }
    ensures readings { OnOk result (LeftReadings demo_setup (demo_session groups start).handled (C.view clock.old).left
        (C.view clock.new).left) }
    ensures clock { LentClock C.later clock.old clock.new }
{
    let mut source = Generated::new(alloc, groups, start)?;
    let bytes_in = source.bytes_left();
    let mut replies = Replies::new(alloc);
    let mut tally = Tally::none();
    let answer = serve_counted(alloc, &mut source, &mut replies, clock, setup(), &mut tally);
    if let Err(Error::NoMemory) = answer {
        return Err(NoMemory);
    }
    let counts = Counts {
        groups,
        tally,
        bytes_in,
        bytes_out: replies.len(),
    };
    let text = six_lines(alloc, &counts, &answer)?;
    Ok(Summary { text, answer })
}
