//! What a client says, made beforehand: its handshake, and messages to objects that the server made.

use ei_backend::{HasBackend, Tray};
use ei_client::{Context, Handshake};
use ei_types::{ContextType, Error, interfaces};
use ei_wire::Arg;
use std::alloc::Global;

/// The interfaces that the handshake settles.
pub(crate) const INTERFACES: u32 = 12;

/// Says what a client says that tells so many versions of twelve interfaces, one after another, and ends the handshake.
pub(crate) fn say_versions(alloc: Global, count: u32, said: &mut Tray) -> Result<(), Error> {
    let mut context = Context::new(alloc)?;
    let pushed = push_versions(&mut context, count, said);
    // Let go by a call: at the end of a scope the drop of each field is proved anew.
    drop(context);
    pushed
}

/// Sends so many versions, and ends the handshake.
fn push_versions(context: &mut Context, count: u32, said: &mut Tray) -> Result<(), Error> {
    let Some(handshake) = context.handshake() else {
        return Ok(());
    };
    let told = tell_versions(context, &handshake, count, said);
    drop(handshake);
    told
}

/// The same, by this proxy.
fn tell_versions(
    context: &mut Context,
    handshake: &Handshake,
    count: u32,
    said: &mut Tray,
) -> Result<(), Error> {
    for place in 0..count {
        let (name, version) = interfaces()[place as usize % 12];
        handshake.interface_version(context, name, version)?;
        context.flush(said)?;
    }
    handshake.finish(context)?;
    Ok(context.flush(said)?)
}

/// Sends the handshake of such a client.
pub(crate) fn push_opening(
    context: &mut Context,
    client: ContextType,
    said: &mut Tray,
) -> Result<(), Error> {
    let Some(handshake) = context.handshake() else {
        return Ok(());
    };
    let told = tell_opening(context, &handshake, client, said);
    drop(handshake);
    told
}

/// The same, by this proxy.
fn tell_opening(
    context: &mut Context,
    handshake: &Handshake,
    client: ContextType,
    said: &mut Tray,
) -> Result<(), Error> {
    handshake.handshake_version(context, 1)?;
    handshake.context_type(context, client)?;
    tell_versions(context, handshake, INTERFACES, said)
}

/// Sends a message to an object that the server made.
pub(crate) fn say(
    context: &mut Context,
    said: &mut Tray,
    id: u64,
    opcode: u32,
    args: &[Arg<'_>],
) -> Result<(), Error> {
    context.backend_mut().request(id, opcode, args)?;
    Ok(context.flush(said)?)
}
