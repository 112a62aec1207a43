//! Whether a call leaves a server steady.

ghost use Rattle.std.specs.Prelude.{◌≡◌};
ghost use Rattle.ei_spec.specs.Interface.{Known};
ghost use Rattle.ei_session.specs.Inputs.{is_of_device};
ghost use Rattle.ei_backend.specs.Table.{found};
ghost use Rattle.ei_linked.specs.Stored.{as_known};
ghost use Rattle.ei_acts.specs.Holding.{is_a_seat};
ghost use Rattle.ei_acts.specs.Input.{is_keymap, is_input};
ghost use Rattle.ei_promises.specs.Calling.{is_steady_call};
ghost use Rattle.ei_pair.specs.Calls.{IsNamed};

use ei_backend::{HasBackend, Interface, Object};
use ei_promises::ServerCall;
use ei_request::{Connection, Seat};
use ei_spec::KnownInterface;

/// Whether the call leaves a server steady: a device is added to a seat that is alive, and an input goes to an
/// interface that a held device has, by a row other than `destroyed` and `keymap`.
pub(crate) fn is_steady(conn: &Connection, call: &ServerCall<'_>) -> bool
    requires { IsNamed call.now }
    ensures { result ≡ is_steady_call call.now conn.now }
{
    match call {
        ServerCall::AddDevice { seat, .. } => is_seat_alive(conn, seat),
        ServerCall::Input { target, opcode, .. } => is_input(conn, target, *opcode),
        _ => true,
    }
}

/// Whether the seat is in the table.
fn is_seat_alive(conn: &Connection, seat: &Seat) -> bool
    ensures { result ≡ is_a_seat (found conn.now.ctx.table seat.now.id) }
{
    let id = seat.eis_seat().as_object().id();
    match conn.context().backend().object_for_id(id) {
        Some(object) => object.known_interface() == Some(KnownInterface::Seat),
        None => false,
    }
}

/// Whether the message goes to an interface that a held device has, and is neither its end nor a keymap.
fn is_input(conn: &Connection, target: &Object, opcode: u32) -> bool
    requires { target.now.interface ≡ Known (as_known target.now.interface) }
    ensures { result ≡ is_input conn.now target.now.id (as_known target.now.interface) opcode }
{
    let Some(interface) = target.known_interface() else {
        return false;
    };
    conn.has_interface_object(target)
        && is_of_device(interface)
        && opcode >= 1
        && !is_keymap(interface, opcode)
}

/// Whether it is an interface of a device.
fn is_of_device(interface: KnownInterface) -> bool
    ensures { result ≡ is_of_device interface }
{
    !matches!(
        interface,
        KnownInterface::Handshake
            | KnownInterface::Connection
            | KnownInterface::Callback
            | KnownInterface::Pingpong
            | KnownInterface::Seat
            | KnownInterface::Device
    )
}

/// Whether an event of the interface is a keymap.
fn is_keymap(interface: KnownInterface, opcode: u32) -> bool
    ensures { result ≡ is_keymap interface opcode }
{
    match interface {
        KnownInterface::Keyboard => opcode == 1,
        _ => false,
    }
}
