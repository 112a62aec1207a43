//! The calls of a server that its connection makes.

ghost use Rattle.std.specs.Prelude.{◌≡◌, ◌↔◌, IfOk, OnOk, OnErr, IsErrOf};
ghost use Rattle.ei_wire.specs.declared.error.SendError.TheVariants as send_error;
ghost use Rattle.ei_linked.specs.Written.{unsent_in};
ghost use Rattle.ei_promises.specs.Calling.{made_by};
ghost use Rattle.ei_promises.specs.declared.calls.Made.TheVariants as made;
ghost use Rattle.ei_request.specs.Connection.{Unchanged};
ghost use Rattle.ei_pair.specs.ServerEnd.{endpoint_in};
ghost use Rattle.ei_pair.specs.Calls.{MayMake, Leaves, LacksIdsFor, IsLongFor};
ghost use Rattle.ei_pair.specs.Calls.{ends_on, MayMakeAt, AnswersAt, LacksIdsAtEnd, IsLongAtEnd};

use crate::server_end::ServerEnd;
use crate::texts::word;
use ei_linked::{Ends, Unsent};
use ei_promises::{Made, ServerCall};
use ei_request::Connection;
use ei_wire::SendError;

/// Makes the call, which isn't `Input`.
fn make(conn: &mut Connection, call: ServerCall<'_>) -> Result<Made, SendError>
    requires may { MayMake call conn.old }
    ensures made { IfOk result (λ m. m ≡ made_by call.entry conn.old) }
    ensures ok { OnOk result (Leaves call.entry conn.old conn.new) }
    ensures err { OnErr result (Unchanged conn.old conn.new) }
    // when it is refused
    ensures exhausted { IsErrOf result send_error.IdsExhausted ↔ LacksIdsFor call.entry conn.old }
    ensures long { IsErrOf result send_error.MessageTooLong ↔ IsLongFor call.entry conn.old }
{
    match call {
        ServerCall::AddSeat { name, capabilities } => {
            let seat = conn.add_seat(name, capabilities)?;
            Ok(Made::Seat(seat))
        }
        ServerCall::AddDevice {
            seat,
            name,
            device_type,
            capabilities,
            setup,
        } => {
            let device = seat.add_device(conn, name, device_type, capabilities, setup)?;
            Ok(Made::Device(device))
        }
        call => {
            change(conn, call)?;
            Ok(Made::Nothing)
        }
    }
}

/// Makes the call, which makes nothing.
fn change(conn: &mut Connection, call: ServerCall<'_>) -> Result<(), SendError>
    requires may { MayMake call conn.old }
    requires nothing { made_by call conn.old ≡ made.Nothing }
    ensures ok { OnOk result (Leaves call.entry conn.old conn.new) }
    ensures err { OnErr result (Unchanged conn.old conn.new) }
    // when it is refused
    ensures exhausted { IsErrOf result send_error.IdsExhausted ↔ LacksIdsFor call.entry conn.old }
    ensures long { IsErrOf result send_error.MessageTooLong ↔ IsLongFor call.entry conn.old }
{
    match call {
        ServerCall::RemoveSeat(seat) => seat.remove(conn),
        ServerCall::RemoveDevice(device) => device.remove(conn),
        ServerCall::Resumed(device) => device.resumed(conn),
        ServerCall::Paused(device) => device.paused(conn),
        ServerCall::StartEmulating(device, sequence) => device.start_emulating(conn, sequence),
        ServerCall::StopEmulating(device) => device.stop_emulating(conn),
        ServerCall::Frame(device, time) => device.frame(conn, time),
        ServerCall::Disconnected {
            reason,
            explanation,
        } => conn.disconnected(reason, explanation),
        _ => unreachable!(),
    }
}

/// Makes the call, which isn't `Input`, at a server's end whose handshake is done.
fn make_at(server: &mut ServerEnd, call: ServerCall<'_>) -> Result<Made, SendError>
    requires may { MayMakeAt call server.old }
    ensures answers { AnswersAt call.entry server.old result server.new }
    ensures exhausted { IsErrOf result send_error.IdsExhausted ↔ LacksIdsAtEnd call.entry server.old }
    ensures long { IsErrOf result send_error.MessageTooLong ↔ IsLongAtEnd call.entry server.old }
{
    let ServerEnd::Talking(converter) = server else {
        unreachable!();
    };
    word(converter.handle().last_serial());
    make(converter.handle_mut(), call)
}

/// The same, at the server's end of two.
pub(crate) fn make_on(ends: &mut Ends<ServerEnd>, call: ServerCall<'_>) -> Result<Made, SendError>
    requires may { MayMakeAt call ends.old.server.context }
    ensures answers { AnswersAt call.entry ends.old.server.context result ends.new.server.context }
    ensures kept { ends.new ≡ ends_on ends.new.server.context ends.old }
    ensures exhausted { IsErrOf result send_error.IdsExhausted ↔ LacksIdsAtEnd call.entry ends.old.server.context }
    ensures long { IsErrOf result send_error.MessageTooLong ↔ IsLongAtEnd call.entry ends.old.server.context }
{
    make_at(&mut ends.server.context, call)
}

/// How much waits to be sent at the server's end.
pub(crate) fn unsent_at(ends: &Ends<ServerEnd>) -> Unsent
    ensures { result ≡ unsent_in (endpoint_in ends.now.server.context) }
{
    ends.server.unsent()
}
