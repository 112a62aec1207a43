//! The row `send`: a server sends motions of a pointer.

use crate::announcing::{Announced, announce};
use crate::outside::Dropped;
use crate::row::Outcome;
use ei_backend::Sink;
use ei_server::{Context, Pointer};
use ei_types::Error;
use ei_wire::RawFloat;
use std::alloc::Global;

/// So many motions go out between two flushes.
const FLUSHED: u32 = 100;

/// The numbers of a motion: 1.5 and -0.25.
const X: RawFloat = RawFloat(0x3fc00000);

const Y: RawFloat = RawFloat(0xbe800000);

/// Sends so many motions.
pub(crate) fn row(alloc: Global, messages: u32) -> Result<Outcome, Error> {
    let mut context = Context::new(alloc)?;
    let sent = send_behind_announcing(&mut context, messages);
    // Let go by a call: at the end of a scope the drop of each field is proved anew.
    drop(context);
    sent
}

/// Announces a device, and sends so many motions of its pointer. The bytes that go out behind the announcing count.
fn send_behind_announcing(context: &mut Context, count: u32) -> Result<Outcome, Error> {
    let announced = announce(context)?;
    let sent = send_by(context, &announced.pointer, count);
    drop(announced);
    sent
}

/// Sends so many motions of this pointer, behind all that waits.
fn send_by(context: &mut Context, pointer: &Pointer, count: u32) -> Result<Outcome, Error> {
    let mut opening = Dropped { bytes: 0 };
    let mut sink = Dropped { bytes: 0 };
    context.flush(&mut opening)?;
    send_motions(context, pointer, count, &mut sink)?;
    Ok(Outcome::Sent(count, sink.bytes))
}

/// Sends so many motions. This is what is counted.
#[inline(never)]
fn send_motions(
    context: &mut Context,
    pointer: &Pointer,
    count: u32,
    sink: &mut Dropped,
) -> Result<(), Error> {
    push_motions(context, pointer, count, sink)
}

/// Sends so many motions, and flushes behind each hundred of them and behind the last.
pub(crate) fn push_motions<K: Sink>(
    context: &mut Context,
    pointer: &Pointer,
    count: u32,
    sink: &mut K,
) -> Result<(), Error> {
    for place in 0..count {
        pointer.motion_relative(context, X, Y)?;
        if place % FLUSHED == FLUSHED - 1 {
            context.flush(sink)?;
        }
    }
    Ok(context.flush(sink)?)
}

/// Sends so many groups, each of a motion and a frame, and flushes behind each hundred of them and behind the last.
pub(crate) fn push_groups<K: Sink>(
    context: &mut Context,
    announced: &Announced,
    count: u32,
    sink: &mut K,
) -> Result<(), Error> {
    for place in 0..count {
        announced.pointer.motion_relative(context, X, Y)?;
        announced.device.frame(context, 1, u64::from(place))?;
        if place % FLUSHED == FLUSHED - 1 {
            context.flush(sink)?;
        }
    }
    Ok(context.flush(sink)?)
}
