//! A pair with the devices of a script.

ghost use Rattle.std.specs.Prelude.{◌≡◌, ◌++◌, IfOk, OnErr, OnOk, is_some};
ghost use Rattle.ei_emit.specs.Queued.{queue_in, emptied, with_item, GivesFront};

use crate::devices::Devices;
use ei_event::EiEvent;
use ei_pair::Pair;
use ei_request::Seat;
use ei_wire::NoMemory;

/// A pair whose server has a seat, with the devices that were added to it.
#[derive(Drop)]
pub(crate) struct Emitter {
    pub(crate) pair: Pair,
    pub(crate) seat: Seat,
    pub(crate) devices: Devices,
}

impl Emitter {
    /// The pair, without the rest.
    pub(crate) fn into_pair(self) -> Pair
        ensures { result ≡ self.pair }
    {
        self.pair
    }
}

/// Puts the events that wait at the client behind those in `out`; the first of them where memory runs out.
pub(crate) fn report(pair: &mut Pair, out: &mut Vec<EiEvent>) -> Result<(), NoMemory>
    ensures ok { OnOk result (out.new.items ≡ out.old.items ++ queue_in pair.old.client) }
    ensures left { OnOk result (pair.new ≡ record pair.old { client = emptied pair.old.client }) }
    ensures err { OnErr result (GivesFront (queue_in pair.old.client) out.old.items out.new.items) }
{
    while put(out, pair.next_event())? {}
    Ok(())
}

/// Puts the item behind the others, if there is one. Whether there was.
fn put<T: Drop>(out: &mut Vec<T>, item: Option<T>) -> Result<bool, NoMemory>
    ensures ok { IfOk result (λ more. out.new.items ≡ with_item item out.old.items) }
    ensures more { IfOk result (λ more. more ≡ is_some item) }
    ensures err { OnErr result (out.new.items ≡ out.old.items) }
{
    match item {
        Some(item) => {
            out.push(item)?;
            Ok(true)
        }
        None => Ok(false),
    }
}
