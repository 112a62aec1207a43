//! The policy beside a connection that was started with the flag: which requests are handed out, and what is known of the
//! devices. Where there is none each request is handed out, and nothing is kept.

ghost use Rattle.std.specs.Prelude.{◌≡◌, OnOk, OnErr, is_some, None};
ghost use Rattle.std.specs.FinMap as finite;
ghost use Rattle.reis_eis.specs.Acting.{refusal};
ghost use Rattle.reis_eis.specs.Refusals.{on_device};
ghost use Rattle.reis_strict.specs.Devices.{with_paused, with_resumed};
ghost use Rattle.reis_strict.specs.Held.{held_of};
ghost use Rattle.reis_c.specs.Policy.{knowing, policy_for, reserving, HasRoom, TakesNext};

use crate::numbers::STRICT;
use ei_request::EisRequest;
use ei_types::DeviceCapability;
use ei_wire::NoMemory;
use reis_eis::Connection;
use reis_strict::Strict;
use std::alloc::Global;

/// The policy that the flags of a start ask for.
pub(crate) fn policy_for(alloc: Global, flags: u32) -> Option<Strict>
    ensures { result ≡ policy_for flags }
{
    if flags == STRICT {
        Some(Strict::new(alloc))
    } else {
        None
    }
}

/// Takes the next request off the connection: the first that waits, or, by a policy, the first that passes.
///
/// `NoMemory`, by a policy alone: what isn't dropped waits still.
pub(crate) fn next(
    policy: &mut Option<Strict>,
    connection: &mut Connection,
) -> Result<Option<EisRequest>, NoMemory>
    ensures { TakesNext policy.old connection.old result policy.new connection.new }
{
    match policy {
        Some(strict) => strict.next(connection),
        None => Ok(connection.next_request()),
    }
}

/// Whether the connection refuses a resume of the device.
fn is_refused(connection: &Connection, device: u64) -> bool
    ensures { result ≡ is_some (refusal (on_device device) connection.now) }
{
    connection.ending().is_some()
        || connection
            .device_has(device, DeviceCapability::Pointer)
            .is_none()
}

/// Makes room for a device, where the connection doesn't refuse its resume.
pub(crate) fn reserve(
    policy: &mut Option<Strict>,
    connection: &Connection,
    device: u64,
) -> Result<(), NoMemory>
    ensures ok { OnOk result (policy.new ≡ reserving (refusal (on_device device) connection.now) device policy.old) }
    ensures err { OnErr result (policy.new ≡ policy.old) }
    ensures memory { OnErr result (refusal (on_device device) connection.now ≡ None) }
{
    if is_refused(connection, device) {
        return Ok(());
    }
    match policy {
        Some(strict) => strict.reserve(device),
        None => Ok(()),
    }
}

/// The device was resumed. There is room for it, so that it takes no memory.
pub(crate) fn resumed(policy: &mut Option<Strict>, device: u64)
    requires { HasRoom device policy.old }
    ensures { policy.new ≡ knowing (with_resumed device) policy.old }
{
    if let Some(strict) = policy {
        let _resumed = strict.resumed(device);
    }
}

/// The device was paused.
pub(crate) fn paused(policy: &mut Option<Strict>, device: u64)
    ensures { policy.new ≡ knowing (with_paused device) policy.old }
{
    if let Some(strict) = policy {
        strict.paused(device);
    }
}

/// The device was removed.
pub(crate) fn removed(policy: &mut Option<Strict>, device: u64)
    ensures { policy.new ≡ knowing (λ devices. finite.remove devices device) policy.old }
{
    if let Some(strict) = policy {
        strict.removed(device);
    }
}

/// Devices may be gone: of those that the connection doesn't hold nothing is kept.
pub(crate) fn forget_gone(policy: &mut Option<Strict>, connection: &Connection)
    ensures { policy.new ≡ knowing (held_of connection.now.phase) policy.old }
{
    if let Some(strict) = policy {
        strict.forget_gone(connection);
    }
}
