//! The row `session`: a session over a client that asks for devices, releases the first of them, and sends input to the last.

ghost use Rattle.std.specs.Prelude.{◌≡◌, ◌+◌, ◌*◌};

use crate::row::Outcome;
use crate::saying::{INTERFACES, push_opening, say};
use crate::serving::serve_said;
use ei_backend::Tray;
use ei_client::Context;
use ei_types::{ContextType, Error};
use ei_wire::Arg;
use std::alloc::Global;

/// The seat that the server announces.
const SEAT: u64 = 0xff00000000000001;

/// The first device that it makes.
const DEVICE: u64 = 0xff00000000000002;

/// A device takes so many ids: its own, and one for each of its seven interfaces.
const IDS: u64 = 8;

/// All seven capabilities.
const ALL: u64 = 127;

/// The numbers of a motion: 1.5 and -0.25.
const X: u32 = 0x3fc00000;

const Y: u32 = 0xbe800000;

/// What a client does.
#[derive(Clone, Copy)]
pub(crate) struct Doing {
    /// It asks for so many devices of all capabilities.
    pub(crate) devices: u32,
    /// It releases so many of them, from the first on.
    pub(crate) released: u32,
    /// Whether it sends a descriptor at first, which no request takes.
    pub(crate) descriptor: bool,
    /// It sends so many motions to the last device, each with a frame.
    pub(crate) groups: u32,
}

/// Serves a client that does this.
pub(crate) fn row(alloc: Global, doing: Doing, said: &mut Tray) -> Result<Outcome, Error> {
    say_session(alloc, doing, said)?;
    let replies = serve_said(alloc, said.bytes(), doing.descriptor)?;
    Ok(Outcome::Served(count_of(doing), replies))
}

/// Says what such a client says.
fn say_session(alloc: Global, doing: Doing, said: &mut Tray) -> Result<(), Error> {
    let mut context = Context::new(alloc)?;
    let pushed = push_session(&mut context, doing, said);
    // Let go by a call: at the end of a scope the drop of each field is proved anew.
    drop(context);
    pushed
}

/// Sends all that such a client says.
fn push_session(context: &mut Context, doing: Doing, said: &mut Tray) -> Result<(), Error> {
    push_opening(context, ContextType::Sender, said)?;
    push_devices(context, doing, said)?;
    push_groups(context, doing, said)
}

/// How many messages such a client sends.
fn count_of(doing: Doing) -> u64 {
    let opening = u64::from(INTERFACES) + 3;
    let devices = u64::from(doing.devices) + u64::from(doing.released);
    opening + devices + 1 + 2 * u64::from(doing.groups)
}

/// The id of the device at that place, from 0.
fn device_id(place: u32) -> u64
    ensures { result ≡ DEVICE + IDS * place }
{
    DEVICE + IDS * u64::from(place)
}

/// Binds the seat, which makes the first device, asks for the others, and releases the first ones.
fn push_devices(context: &mut Context, doing: Doing, said: &mut Tray) -> Result<(), Error> {
    say(context, said, SEAT, 1, &[Arg::Uint64(ALL)])?;
    for _place in 1..doing.devices {
        say(context, said, SEAT, 2, &[Arg::Uint64(ALL)])?;
    }
    push_releases(context, doing.released, said)
}

/// Releases so many devices, from the first on.
fn push_releases(context: &mut Context, count: u32, said: &mut Tray) -> Result<(), Error> {
    for place in 0..count {
        say(context, said, device_id(place), 0, &[])?;
    }
    Ok(())
}

/// Begins to send input to the last device, and sends motions, each with a frame.
fn push_groups(context: &mut Context, doing: Doing, said: &mut Tray) -> Result<(), Error> {
    let device = device_id(doing.devices.saturating_sub(1));
    let pointer = device + 1;
    say(context, said, device, 1, &[Arg::Uint32(1), Arg::Uint32(1)])?;
    for place in 0..doing.groups {
        say(context, said, pointer, 1, &[Arg::Float(X), Arg::Float(Y)])?;
        let time = u64::from(place);
        say(
            context,
            said,
            device,
            3,
            &[Arg::Uint32(1), Arg::Uint64(time)],
        )?;
    }
    Ok(())
}
