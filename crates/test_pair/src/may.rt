//! The calls of both sides, each made where it may be made.

ghost use Rattle.std.specs.Prelude.{◌≡◌, false, true, IsTrue, IsSome, find};
ghost use Rattle.std.specs.List.{Any};
ghost use Rattle.ei_linked.specs.declared.side.Side.TheVariants as of_side;
ghost use Rattle.ei_request.specs.Held.{is_seat};
ghost use Rattle.ei_request.specs.Converter.{ConverterView as ServerConverter};
ghost use Rattle.ei_request.specs.Making.{NeedsKeyboard, IsGiven, has_keyboard, granted};
ghost use Rattle.ei_promises.specs.Pair.{is_done, Serves};
ghost use Rattle.ei_promises.specs.Calling.{MeetsServer};
ghost use Rattle.ei_pair.specs.Asked.{MeetsClient};

use crate::changing::{ClientCall, Pair};
use ei_backend::Object;
use ei_pair::{Made, ServerCall, Side};
use ei_request::{Connection, DeviceSetup, Seat};
use ei_types::{DeviceCapabilities, DeviceCapability};
use ei_wire::SendError;
use test_table::{Answer, Stop};

/// What the server answers to the call; `None` where it may not make it now.
pub(crate) fn serve(pair: &mut Pair, call: ServerCall<'_>) -> Option<Result<Made, SendError>> {
    if may_serve(pair, &call) {
        Some(pair.server_do(call))
    } else {
        // Let go by a call: at the end of a scope the drop of each field is proved anew.
        drop(call);
        None
    }
}

/// What the client answers to the call; `None` where it may not make it now.
pub(crate) fn ask(
    pair: &mut Pair,
    call: ClientCall<'_>,
) -> Option<Result<Option<Object>, SendError>> {
    if may_ask(pair, &call) {
        Some(pair.client_do(call))
    } else {
        drop(call);
        None
    }
}

/// The call must be made, and not be refused. What it made is let go.
pub(crate) fn must_go<T: Drop>(answer: &mut Answer, made: Option<Result<T, SendError>>) {
    match made {
        Some(made) => drop(answer.take(made)),
        None => answer.stop(Stop::Call),
    }
}

/// Whether the server may make the call now.
fn may_serve(pair: &Pair, call: &ServerCall<'_>) -> bool
    ensures whole { IsTrue result → pair.now.ends.spent ≡ false }
    ensures done { IsTrue result → is_done of_side.Server pair.now ≡ true }
    ensures may { IsTrue result → (c : ServerConverter) → pair.now.server ≡ Serves c →
        MeetsServer call.now pair.now.ends c.handle }
{
    if pair.is_spent() {
        return false;
    }
    let Some(conn) = pair.handle() else {
        return false;
    };
    match call {
        ServerCall::AddDevice {
            seat,
            capabilities,
            setup,
            ..
        } => may_describe(conn, seat, *capabilities, setup),
        ServerCall::Resumed(device) => conn.has_device(device),
        ServerCall::Paused(device) => conn.has_device(device),
        ServerCall::StartEmulating(device, _) => conn.has_device(device),
        ServerCall::StopEmulating(device) => conn.has_device(device),
        ServerCall::Frame(device, _) => conn.has_device(device),
        ServerCall::Input {
            target,
            opcode,
            values,
        } => pair.may_call(Side::Server, target, *opcode, values),
        _ => true,
    }
}

/// Whether a device of the seat may be described so: the seat is held, and a description comes only with a keyboard.
fn may_describe(
    conn: &Connection,
    seat: &Seat,
    wanted: DeviceCapabilities,
    setup: &[DeviceSetup<'_>],
) -> bool
    ensures held { IsTrue result → IsSome (find (is_seat seat.now.id) conn.now.seats) }
    ensures keyboard { IsTrue result → Any NeedsKeyboard setup.now → IsGiven conn.now seat.now.id wanted }
{
    match conn.seat_capabilities(seat) {
        Some(given) => setup.is_empty() || gives_keyboard(given, wanted),
        None => false,
    }
}

/// Whether a device that wants these gets a keyboard of a seat that was given those.
#[tactic(auto, using(crate::proofs::Granted::keyboard_granted))]
fn gives_keyboard(given: DeviceCapabilities, wanted: DeviceCapabilities) -> bool
    ensures { IsTrue result → has_keyboard (granted given wanted) ≡ true }
{
    given.has(DeviceCapability::Keyboard) && wanted.has(DeviceCapability::Keyboard)
}

/// Whether the client may make the call now.
fn may_ask(pair: &Pair, call: &ClientCall<'_>) -> bool
    ensures whole { IsTrue result → pair.now.ends.spent ≡ false }
    ensures done { IsTrue result → is_done of_side.Client pair.now ≡ true }
    ensures may { IsTrue result → MeetsClient call.now pair.now.ends }
{
    if pair.is_spent() || pair.converter().is_none() {
        return false;
    }
    match call {
        ClientCall::Call {
            target,
            opcode,
            values,
        } => pair.may_call(Side::Client, target, *opcode, values),
        ClientCall::SyncWith(_) => true,
    }
}
