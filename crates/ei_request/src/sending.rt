//! Objects that go, and the room for messages.

ghost use Rattle.std.specs.Prelude.{◌≡◌, IfErr, OnOk, OnErr, IsErrOf, length};
ghost use Rattle.std.specs.Option.{option_copied};
ghost use Rattle.ei_spec.specs.Reading.{or_null};
ghost use Rattle.ei_spec.specs.Value.{written};
ghost use Rattle.ei_wire.specs.declared.error.SendError.TheVariants as send_error;
ghost use Rattle.ei_backend.specs.Endpoint.{endpoint_of};
ghost use Rattle.ei_request.specs.Costs.{Fits, Spends, both, times, plain, destroyed_cost};
ghost use Rattle.ei_request.specs.Sending.{destroyed, destroys_all, serial_after};

use crate::costs::{DESTROYED_BYTES, WORD_BYTES};
use ei_backend::HasBackend;
use ei_server::{Context, destroyed_by_id};
use ei_wire::{Arg, SendError};

/// Tells that the object of that id is gone, and takes it out of the table.
pub(crate) fn destroy(ctx: &mut Context, id: u64, serial: u32) -> Result<(), SendError>
    ensures ok { OnOk result (ctx.new ≡ destroyed ctx.old id serial) }
    ensures err { OnErr result (ctx.new ≡ ctx.old) }
    ensures only { IfErr result (λ e. e ≡ send_error.NoMemory) }
    ensures room { Fits destroyed_cost ctx.old → IsErrOf result send_error.NoMemory → ⊥ }
{
    destroyed_by_id(ctx, id, serial)
}

/// The same where there is room.
fn destroy_within(ctx: &mut Context, id: u64, serial: u32)
    requires fits { Fits destroyed_cost ctx.old }
    ensures ok { ctx.new ≡ destroyed ctx.old id serial }
    ensures spends { Spends destroyed_cost ctx.old ctx.new }
{
    // There is room for it, and it is short.
    destroy(ctx, id, serial).unwrap();
}

/// Tells that each of these is gone, with the serials that follow. It answers the last of them.
pub(crate) fn destroy_each(ctx: &mut Context, ids: &[u64], serial: u32) -> u32
    requires fits { Fits (times (length ids.now) destroyed_cost) ctx.old }
    ensures ok { endpoint_of ctx.new ≡ destroys_all (endpoint_of ctx.old) serial ids.now }
    ensures serial { result ≡ serial_after serial ids.now }
    ensures spends { Spends (times (length ids.now) destroyed_cost) ctx.old ctx.new }
{
    let mut last = serial;
    for id in ids {
        last = last.wrapping_add(1);
        destroy_within(ctx, *id, last);
    }
    last
}

/// Makes room to tell that so many objects are gone, and for a message of so many bytes behind that.
pub(crate) fn make_room(ctx: &mut Context, objects: usize, bytes: usize) -> Result<(), SendError>
    ensures fits { OnOk result (Fits (both (times objects destroyed_cost) (plain bytes)) ctx.new) }
    ensures same { endpoint_of ctx.new ≡ endpoint_of ctx.old }
    ensures ring { ctx.new.capacity ≡ ctx.old.capacity }
    ensures only { IfErr result (λ e. e ≡ send_error.NoMemory) }
{
    let Some(gone) = objects.checked_mul(DESTROYED_BYTES) else {
        return Err(SendError::NoMemory);
    };
    let Some(all) = gone.checked_add(bytes) else {
        return Err(SendError::NoMemory);
    };
    ctx.backend_mut().reserve(all, 0, 0)?;
    Ok(())
}

/// How many bytes a text has as an argument, or null.
pub(crate) fn text_bytes(text: Option<&str>) -> usize
    ensures { result ≡ length (written (or_null (option_copied text.entry))) }
{
    match text {
        None => WORD_BYTES,
        Some(text) => Arg::String(Some(text)).size() as usize,
    }
}
