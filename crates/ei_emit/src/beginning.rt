//! A pair shakes hands, and its server adds a seat.

ghost use Rattle.std.specs.Prelude.{◌≡◌, ℕ, ◌^◌, ◌<◌, ◌≤◌, false, true, [], length, Ok, IfOk, OnOk};
ghost use Rattle.ei_backend.specs.Lent.{LentClock};
ghost use Rattle.ei_linked.specs.declared.side.Side.TheVariants as of_side;
ghost use Rattle.ei_promises.specs.declared.calls.Made.TheVariants as made;
ghost use Rattle.ei_promises.specs.Pair.{is_done};
ghost use Rattle.ei_promises.specs.Calling.{DoesAt};
ghost use Rattle.ei_pair.specs.Calls.{SendsAt};
ghost use Rattle.ei_emit.specs.Carried.{moment};
ghost use Rattle.ei_emit.specs.Shaken.{IsReceiving, IsShaken, ShakesHands, seat_call};
ghost use Rattle.ei_emit.specs.Stands.{Begins, emitter};

use crate::carrying::carry;
use crate::devices::Devices;
use crate::emitter::Emitter;
use ei_backend::Clock;
use ei_pair::{Made, Pair, ServerCall, Side};
use ei_request::Seat;
use ei_types::{ContextType, DeviceCapabilities};
use ei_wire::NoMemory;
use std::alloc::Global;

impl Emitter {
    /// A pair whose handshakes are done, and whose client was told of a seat without a name that has all capabilities.
    pub(crate) fn new<C: Clock>(
        alloc: Global,
        name: &str,
        initial_serial: u32,
        clock: &mut C,
    ) -> Result<Emitter, NoMemory>
        requires { length name.now ≤ 1048555 }
        ensures begins { IfOk result (λ e. Begins initial_serial (C.view clock.old).left (C.view clock.new).left
            (emitter e.pair e.seat e.devices.added.items)) }
        ensures clock { LentClock C.later clock.old clock.new }
    {
        let mut pair = Pair::new(alloc, name, ContextType::Receiver, initial_serial)?;
        match settle(&mut pair, clock) {
            Ok(seat) => Ok(Emitter {
                pair,
                seat,
                devices: Devices::new(alloc),
            }),
            Err(error) => {
                // by a call: at the end of a scope the drop of each field is proved anew
                drop(pair);
                Err(error)
            }
        }
    }
}

/// Both sides of a new pair shake hands, and the server adds the seat.
fn settle<C: Clock>(pair: &mut Pair, clock: &mut C) -> Result<Seat, NoMemory>
    requires { (start : ℕ) × IsReceiving start pair.old }
    ensures begins { IfOk result (λ seat. (start : ℕ) → IsReceiving start pair.old →
        Begins start (C.view clock.old).left (C.view clock.new).left (emitter pair.new seat [])) }
    ensures clock { LentClock C.later clock.old clock.new }
{
    shake(pair, clock)?;
    bring_seat(pair, clock)
}

/// Both sides of a new pair shake hands: what each sends is handed to the other, there, back and there.
fn shake<C: Clock>(pair: &mut Pair, clock: &mut C) -> Result<(), NoMemory>
    requires whole { pair.old.ends.spent ≡ false }
    ensures shakes { OnOk result (ShakesHands (moment pair.old (C.view clock.old).left)
        (moment pair.new (C.view clock.new).left)) }
    ensures clock { LentClock C.later clock.old clock.new }
{
    ei_shaking::laws::going_on();
    ei_shaking::laws::both_ends();
    ei_shaking::laws::client_messages();
    ei_shaking::laws::server_messages();
    ei_heeding::laws::events();
    carry(pair, Side::Client, clock)?;
    carry(pair, Side::Server, clock)?;
    carry(pair, Side::Client, clock)?;
    Ok(())
}

/// The server adds the seat, and the client is told.
fn bring_seat<C: Clock>(pair: &mut Pair, clock: &mut C) -> Result<Seat, NoMemory>
    requires whole { pair.old.ends.spent ≡ false }
    requires done { is_done of_side.Server pair.old ≡ true }
    ensures begins { IfOk result (λ seat. (start : ℕ) → start < 2 ^ 32 → IsShaken start pair.old →
        Begins start (C.view clock.old).left (C.view clock.new).left (emitter pair.new seat [])) }
    ensures clock { LentClock C.later clock.old clock.new }
{
    ei_event::heard::events();
    ei_heeding::laws::handled();
    ei_emitting::laws::beginning();
    let seat = add_seat(pair)?;
    carry(pair, Side::Client, clock)?;
    Ok(seat)
}

/// The server adds a seat without a name that has all capabilities.
fn add_seat(pair: &mut Pair) -> Result<Seat, NoMemory>
    requires whole { pair.old.ends.spent ≡ false }
    requires done { is_done of_side.Server pair.old ≡ true }
    ensures whole { OnOk result (pair.new.ends.spent ≡ false) }
    ensures does { IfOk result (λ seat. DoesAt pair.old.server seat_call pair.old (Ok (made.Seat seat)) pair.new) }
    ensures sends { OnOk result (SendsAt pair.old.server seat_call pair.old pair.new) }
{
    let call = ServerCall::AddSeat {
        name: None,
        capabilities: DeviceCapabilities::all(),
    };
    match pair.server_do(call) {
        Ok(Made::Seat(seat)) => Ok(seat),
        _ => Err(NoMemory),
    }
}
