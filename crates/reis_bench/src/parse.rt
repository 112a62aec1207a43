//! The row `parse`: a server reads pieces, and parses their messages to typed requests.

ghost use Rattle.std.specs.Prelude.{◌<◌, ◌≤◌};
ghost use Rattle.ei_spec.specs.declared.limits.TheConstants.{MOST_PIECE_BYTES};

use crate::announcing::announce;
use crate::outside::Cut;
use crate::row::Outcome;
use crate::stream::say_generated;
use crate::tally::Tally;
use ei_backend::{PendingRequestResult, Tray};
use ei_server::{Context, Request, handshake};
use ei_types::Error;
use std::alloc::Global;

/// Reads the generated stream of so many groups.
pub(crate) fn row(
    alloc: Global,
    piece: usize,
    groups: u32,
    said: &mut Tray,
) -> Result<Outcome, Error>
    requires some { 0 < piece }
    requires within { piece ≤ MOST_PIECE_BYTES }
{
    say_generated(alloc, groups, said)?;
    parse_bytes(alloc, said.bytes(), piece)
}

/// Reads these bytes in such pieces.
fn parse_bytes(alloc: Global, bytes: &[u8], piece: usize) -> Result<Outcome, Error>
    requires some { 0 < piece }
    requires within { piece ≤ MOST_PIECE_BYTES }
{
    let mut context = Context::new(alloc)?;
    let mut source = Cut::new(bytes, piece);
    let parsed = parse_source(&mut context, &mut source);
    // Let go by a call: at the end of a scope the drop of each field is proved anew.
    drop(source);
    drop(context);
    parsed
}

/// Reads what a source hands out: the handshake, which is answered by announcing a device, and then the rest.
fn parse_source(context: &mut Context, source: &mut Cut<'_>) -> Result<Outcome, Error> {
    let mut tally = Tally::new();
    shake_hands(context, source, &mut tally)?;
    drop(announce(context)?);
    parse_stream(context, source, &mut tally)?;
    Ok(Outcome::Read(tally))
}

/// Reads up to the end of the handshake.
fn shake_hands(
    context: &mut Context,
    source: &mut Cut<'_>,
    tally: &mut Tally,
) -> Result<(), Error> {
    for _piece in 0..source.left() {
        let _count = context.read(source)?;
        if finish_comes(context, tally)? {
            break;
        }
    }
    Ok(())
}

/// Takes out the messages up to the finish, and answers whether it came.
fn finish_comes(context: &mut Context, tally: &mut Tally) -> Result<bool, Error> {
    for _message in 0..context.unread_len() {
        match next_is_finish(context, tally)? {
            Some(true) => return Ok(true),
            Some(false) => {}
            None => break,
        }
    }
    Ok(false)
}

/// Takes out the next message, and answers whether it is the finish; none where no message is whole.
fn next_is_finish(context: &mut Context, tally: &mut Tally) -> Result<Option<bool>, Error> {
    let Some(read) = context.pending_request()? else {
        return Ok(None);
    };
    tally.count(&read);
    let is_last = is_finish(&read);
    drop(read);
    Ok(Some(is_last))
}

/// Whether the handshake ends with this message.
fn is_finish(read: &PendingRequestResult<Request>) -> bool {
    matches!(
        read,
        PendingRequestResult::Request(Request::Handshake(_, handshake::Request::Finish))
    )
}

/// Reads all that is left, and takes out its messages. This is what is counted.
#[inline(never)]
fn parse_stream(
    context: &mut Context,
    source: &mut Cut<'_>,
    tally: &mut Tally,
) -> Result<(), Error> {
    parse_unread(context, tally)?;
    for _piece in 0..source.left() {
        if source.left() == 0 {
            break;
        }
        let _count = context.read(source)?;
        parse_unread(context, tally)?;
    }
    Ok(())
}

/// Takes out all messages that are whole.
fn parse_unread(context: &mut Context, tally: &mut Tally) -> Result<(), Error> {
    for _message in 0..context.unread_len() {
        let Some(read) = context.pending_request()? else {
            break;
        };
        tally.count(&read);
    }
    Ok(())
}
