//! What one side sent is carried to the other.

ghost use Rattle.std.specs.Prelude.{◌≡◌, ◌<◌, true, false, Ok, OnOk};
ghost use Rattle.ei_backend.specs.Lent.{LentClock};
ghost use Rattle.ei_linked.specs.TwoEnds.{other_side, Agrees, HasTakenAll};
ghost use Rattle.ei_pair.specs.Stepped.{IsKept};
ghost use Rattle.ei_emit.specs.Carried.{moment, GoesOn, IsCarried, NoneUnsent, left_for};

use ei_backend::Clock;
use ei_pair::{Pair, Side};
use ei_wire::NoMemory;

/// The most bytes that a delivery hands over.
const MOST_DELIVERY: usize = 1536;

/// Hands all that the other side sent to the side, which takes it message by message.
pub(crate) fn carry<C: Clock>(pair: &mut Pair, to: Side, clock: &mut C) -> Result<(), NoMemory>
    requires whole { pair.old.ends.spent ≡ false }
    ensures carried { OnOk result (IsCarried to (moment pair.old (C.view clock.old).left)
        (moment pair.new (C.view clock.new).left)) }
    ensures clock { LentClock C.later clock.old clock.new }
{
    pair.flush(other(to))?;
    agree(pair, to);
    while go_on(pair, to, clock)? {}
    Ok(())
}

/// Hands over what lies before the side, at most so much at once. Where nothing does, the side takes its next message.
/// `false` where there is none.
fn go_on<C: Clock>(pair: &mut Pair, to: Side, clock: &mut C) -> Result<bool, NoMemory>
    requires whole { pair.old.ends.spent ≡ false }
    requires unsent { NoneUnsent (other_side to) pair.old.ends }
    ensures goes { OnOk result (GoesOn to (moment pair.old (C.view clock.old).left)
        (moment pair.new (C.view clock.new).left)) }
    ensures whole { OnOk result (pair.new.ends.spent ≡ false) }
    ensures unsent { OnOk result (NoneUnsent (other_side to) pair.new.ends) }
    ensures less { result ≡ Ok true → left_for to pair.new.ends < left_for to pair.old.ends }
    ensures all { result ≡ Ok false → HasTakenAll to pair.new.ends × Agrees to pair.new.ends }
    ensures clock { LentClock C.later clock.old clock.new }
{
    let Ok(came) = pair.deliver(to, MOST_DELIVERY) else {
        return Err(NoMemory);
    };
    agree(pair, to);
    if came > 0 {
        return Ok(true);
    }
    let Ok(took) = pair.step(to, clock) else {
        return Err(NoMemory);
    };
    agree(pair, to);
    Ok(took)
}

/// What the side took agrees with what the other sent, and the pair keeps what it keeps at any time: reading what it
/// took shows that.
fn agree(pair: &Pair, side: Side)
    ensures agrees { Agrees side pair.now.ends }
    ensures kept { IsKept pair.now }
{
    let _taken = pair.taken(side);
}

/// The side across.
fn other(side: Side) -> Side
    ensures { result ≡ other_side side }
{
    match side {
        Side::Client => Side::Server,
        Side::Server => Side::Client,
    }
}
