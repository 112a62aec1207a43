//! The objects that an end made or read.

ghost use Rattle.std.specs.Prelude.{map, reverse};
ghost use Rattle.ei_ends.specs.Announced.{announced, if_named};
ghost use Rattle.ei_ends.specs.Sent.{new_of};
ghost use Rattle.ei_ends.specs.Joined.{heard};
ghost use Rattle.ei_linked.specs.Stored.{sent_view, got_view};
ghost use Rattle.ei_linked.specs.Asked.{AreNew};

use crate::record::{Announced, Got, Record};

/// The object of that id that the message announces, if it announces it.
fn object_in(message: &Record, events: bool, id: u64) -> Option<Announced>
    ensures { AreNew result (if_named id (new_of events (sent_view message.now))) }
{
    let object = message.announces(events)?;
    if object.id == id { Some(object) } else { None }
}

/// The object of that id that these messages announced, of which the first stands first.
pub fn find_sent(sent: &[Record], events: bool, id: u64) -> Option<Announced>
    ensures { AreNew result (announced events (map sent_view (reverse sent.now)) id) }
{
    for message in sent {
        if let Some(object) = object_in(message, events, id) {
            return Some(object);
        }
    }
    None
}

/// The same of what was taken.
pub fn find_taken(taken: &[Got], events: bool, id: u64) -> Option<Announced>
    ensures { AreNew result (heard events (map got_view (reverse taken.now)) id) }
{
    for got in taken {
        if let Got::Message { message, .. } = got {
            if let Some(object) = object_in(message, events, id) {
                return Some(object);
            }
        }
    }
    None
}
