//! A ping, which the client answers.

ghost use Rattle.std.specs.Prelude.{◌≡◌, ◌↔◌, ◌≤◌, IfOk, OnOk, OnErr, IsErrOf};
ghost use Rattle.ei_wire.specs.declared.error.SendError.TheVariants as send_error;
ghost use Rattle.ei_backend.specs.Backend.{removed};
ghost use Rattle.ei_backend.specs.Table.{own_end};
ghost use Rattle.reis_eis.specs.Acting.{pinged};

use ei_backend::{HasBackend, Interface};
use ei_request::Connection;
use ei_spec::KnownInterface;
use ei_wire::SendError;

/// Announces a ping of the version that both ends have. It answers its id.
///
/// `IdsExhausted` exactly where no id is left, `NoMemory`: nothing is sent.
pub(crate) fn announce(handle: &mut Connection) -> Result<u64, SendError>
    ensures id { IfOk result (λ id. id ≡ handle.old.ctx.table.next_own) }
    ensures ok { OnOk result (handle.new ≡ pinged handle.old) }
    ensures err { OnErr result (handle.new ≡ handle.old) }
    ensures exhausted { IsErrOf result send_error.IdsExhausted ↔
        (own_end handle.old.ctx.table ≤ handle.old.ctx.table.next_own) }
    ensures not_long { IsErrOf result send_error.MessageTooLong → ⊥ }
{
    let proxy = handle.connection().copy();
    let version = handle
        .negotiated()
        .version(KnownInterface::Pingpong)
        .unwrap_or(1);
    let ping = proxy.ping(handle.context_mut(), version)?;
    Ok(ping.as_object().id())
}

/// Takes the object of an answered ping out of the table.
pub(crate) fn forget(handle: &mut Connection, ping: u64)
    ensures { handle.new ≡ record handle.old { ctx = removed handle.old.ctx ping } }
{
    handle.context_mut().backend_mut().remove_id(ping);
}
