//! The replies of a server, as a client reads them.

ghost use Rattle.std.specs.Prelude.{◌≡◌, ◌<◌, ◌≤◌, ◌++◌, ℕ, List, [], length, true, false, IfOk, OnOk, map};
ghost use Rattle.ei_spec.specs.declared.limits.TheConstants.{MOST_PIECE_BYTES};
ghost use Rattle.ei_backend.specs.Backend.{with_piece, new_backend};
ghost use Rattle.ei_backend.specs.Table.{new_table};
ghost use Rattle.ei_client.specs.Event.{target_of, opcode_of, values_of};
ghost use Rattle.reis_trace.specs.Pieces.{bytes_alone};
ghost use Rattle.reis_trace.specs.Traced.{event_line, traced_bytes};
ghost use Rattle.reis_trace.specs.SoFar.{answer_line, IsPushed, TracesNext, IsTraced};

use crate::line::Line;
use crate::one_piece::OnePiece;
use ei_backend::{MessageEnum, PendingRequestResult};
use ei_client::{Context, Event};
use ei_spec::limits::MOST_PIECE_BYTES;
use ei_wire::{NoMemory, ReadError};
use std::alloc::Global;

/// A line for each message in the bytes, as a fresh client reads them: up to the first that is not whole, goes to no
/// object of the client, or is refused. Replies to a client that has a callback stop at the first `ei_callback.done`,
/// since a fresh client has none.
pub fn trace(alloc: Global, reply: &[u8]) -> Result<Vec<u8>, NoMemory>
    ensures { IfOk result (λ lines. lines.items ≡ traced_bytes reply.now) }
{
    let mut client = Context::new(alloc)?;
    let mut lines = Vec::new(alloc);
    let traced = push_pieces(alloc, &mut client, &mut lines, reply);
    // Let go by a call: at the end of a scope the drop of each field is proved anew.
    drop(client);
    traced?;
    Ok(lines)
}

/// A line for each message in the bytes, as a client reads them that has read nothing yet.
fn push_pieces(
    alloc: Global,
    client: &mut Context,
    lines: &mut Vec<u8>,
    reply: &[u8],
) -> Result<(), NoMemory>
    requires fresh { client.old ≡ new_backend (new_table true 1) }
    requires none { lines.old.items ≡ [] }
    ensures { OnOk result (lines.new.items ≡ traced_bytes reply.now) }
{
    let mut rest = reply;
    while !rest.is_empty() {
        let (piece, behind) = rest.split_at(rest.len().min(MOST_PIECE_BYTES));
        read_piece(client, piece)?;
        if !push_whole(alloc, client, lines)? {
            return Ok(());
        }
        rest = behind;
    }
    Ok(())
}

/// Gives the bytes to the client.
fn read_piece(client: &mut Context, piece: &[u8]) -> Result<(), NoMemory>
    requires some { 0 < length piece.now }
    requires most { length piece.now ≤ MOST_PIECE_BYTES }
    requires open { client.old.closed ≡ false }
    requires no_handles { client.old.handles ≡ [] }
    ensures { OnOk result (client.new ≡ with_piece (bytes_alone piece.now) client.old) }
{
    let mut source = OnePiece::new(piece);
    match client.read(&mut source) {
        Ok(_) => Ok(()),
        Err(ReadError::NoMemory) => Err(NoMemory),
        // the source has one piece, without handles, and doesn't fail
        Err(ReadError::UnexpectedEof) => unreachable!(),
        Err(ReadError::HandleLimit) => unreachable!(),
        Err(ReadError::ReadFault) => unreachable!(),
    }
}

/// A line for each message that the client has whole, up to the first that goes to no object or is refused. Whether
/// there was none of these, so that messages may follow.
fn push_whole(alloc: Global, client: &mut Context, lines: &mut Vec<u8>) -> Result<bool, NoMemory>
    requires { client.old.handles ≡ [] }
    ensures { IfOk result (λ goes_on. IsTraced goes_on client.old client.new lines.old.items lines.new.items) }
{
    while let Some(is_message) = push_next(alloc, client, lines)? {
        if !is_message {
            return Ok(false);
        }
    }
    Ok(true)
}

/// The line of the next answer, if there is one, and whether it is a message; else there is no line.
fn push_next(
    alloc: Global,
    client: &mut Context,
    lines: &mut Vec<u8>,
) -> Result<Option<bool>, NoMemory>
    requires { client.old.handles ≡ [] }
    ensures { IfOk result (λ is_message. TracesNext is_message client.old client.new lines.old.items lines.new.items) }
{
    match client.pending_event()? {
        None => Ok(None),
        Some(answer) => Ok(Some(push_answer(alloc, answer, lines)?)),
    }
}

/// The line of an answer. Whether it is a message; else there is no line.
fn push_answer(
    alloc: Global,
    answer: PendingRequestResult<Event>,
    lines: &mut Vec<u8>,
) -> Result<bool, NoMemory>
    ensures { IfOk result (λ is_message. IsPushed (answer_line answer) is_message lines.old.items lines.new.items) }
{
    let shown = push_shown(alloc, &answer, lines);
    drop(answer);
    shown
}

/// The same of an answer that is kept.
fn push_shown(
    alloc: Global,
    answer: &PendingRequestResult<Event>,
    lines: &mut Vec<u8>,
) -> Result<bool, NoMemory>
    ensures { IfOk result (λ is_message. IsPushed (answer_line answer.now) is_message lines.old.items lines.new.items) }
{
    match answer {
        PendingRequestResult::Request(event) => {
            push_event(alloc, event, lines)?;
            Ok(true)
        }
        PendingRequestResult::ParseError(_) | PendingRequestResult::InvalidObject(_) => Ok(false),
    }
}

/// The line of an event and its newline.
fn push_event(alloc: Global, event: &Event, lines: &mut Vec<u8>) -> Result<(), NoMemory>
    ensures { OnOk result (lines.new.items ≡ lines.old.items
        ++ event_line (target_of event.now).interface (target_of event.now).id (opcode_of event.now)
        (values_of event.now)) }
{
    let args = event.args(alloc)?;
    let object = event.object();
    let line = Line {
        client: true,
        incoming: true,
        object: Some(object),
        object_id: object.id(),
        opcode: event.opcode(),
        args: &args,
    };
    let text = format!(in alloc; "{line}\n")?;
    lines.extend_from_slice(text.as_bytes())?;
    Ok(())
}
