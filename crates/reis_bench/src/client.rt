//! The row `client`: a client reads motions of a pointer.

use crate::outside::Cut;
use crate::row::Outcome;
use crate::stream::say_motions;
use crate::tally::Tally;
use ei_backend::Tray;
use ei_client::Context;
use ei_types::Error;
use std::alloc::Global;

/// The bytes of a piece.
const PIECE: usize = 4096;

/// Reads what a server says that announces a device and sends so many motions.
pub(crate) fn row(alloc: Global, messages: u32, said: &mut Tray) -> Result<Outcome, Error> {
    say_motions(alloc, messages, false, said)?;
    read_bytes(alloc, said.bytes())
}

/// Reads these bytes.
fn read_bytes(alloc: Global, bytes: &[u8]) -> Result<Outcome, Error> {
    let mut context = Context::new(alloc)?;
    let mut source = Cut::new(bytes, PIECE);
    let mut tally = Tally::new();
    let read = read_events(&mut context, &mut source, &mut tally);
    // Let go by a call: at the end of a scope the drop of each field is proved anew.
    drop(source);
    drop(context);
    read?;
    Ok(Outcome::Read(tally))
}

/// Reads all pieces, and takes out their messages. This is what is counted.
#[inline(never)]
fn read_events(
    context: &mut Context,
    source: &mut Cut<'_>,
    tally: &mut Tally,
) -> Result<(), Error> {
    for _piece in 0..source.left() {
        if source.left() == 0 {
            break;
        }
        let _count = context.read(source)?;
        read_unread(context, tally)?;
    }
    Ok(())
}

/// Takes out all messages that are whole.
fn read_unread(context: &mut Context, tally: &mut Tally) -> Result<(), Error> {
    for _message in 0..context.unread_len() {
        let Some(read) = context.pending_event()? else {
            break;
        };
        tally.count(&read);
    }
    Ok(())
}
