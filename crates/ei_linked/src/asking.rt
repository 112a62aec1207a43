//! Which messages a side may ask for.

ghost use Rattle.std.specs.Prelude.{◌≡◌, ◌↔◌, IsTrue};
ghost use Rattle.ei_linked.specs.Asked.{IsOfRow, IsTarget};
ghost use Rattle.ei_linked.specs.Ends.{world_in};
ghost use Rattle.ei_linked.specs.TwoEnds.{sends, met_at, MayCall};

use crate::ends::Ends;
use crate::record::Target;
use crate::side::Side;
use ei_backend::{HasBackend, Object};
use ei_rows::row_of;
use ei_spec::KnownInterface;
use ei_values::{Value, fits};

impl<S: HasBackend> Ends<S> {
    /// Whether the side may make the call, as `client_call` and `server_call` want it: it made or read the target at some time,
    /// or that is object 0; the row exists, and the values are of its kinds.
    pub fn may_call(&self, side: Side, target: &Object, opcode: u32, values: &[Value]) -> bool
        ensures { IsTrue result ↔ MayCall side (world_in S.seen self.now) target.now opcode values.now }
    {
        let Some(met) = self.target(side, target.id()) else {
            return false;
        };
        target.known_interface() == Some(met.interface)
            && target.version() == met.version
            && is_of_row(side, met.interface, opcode, values)
    }

    /// What names the object of that id, where the side met one of the protocol.
    pub fn target(&self, side: Side, id: u64) -> Option<Target>
        ensures { IsTarget result id (met_at side (world_in S.seen self.now) id) }
    {
        let object = self.met(side, id)?;
        if object.id != id {
            return None;
        }
        Some(Target {
            id,
            interface: object.interface?,
            version: object.version,
        })
    }
}

/// Whether there is a row of the opcode among what the side sends, and the values are those of its kinds.
pub fn is_of_row(side: Side, interface: KnownInterface, opcode: u32, values: &[Value]) -> bool
    ensures { IsTrue result ↔ IsOfRow (sends side) interface opcode values.now }
{
    let events = match side {
        Side::Client => false,
        Side::Server => true,
    };
    match row_of(events, interface, opcode) {
        Some(row) => fits(&row, values),
        None => false,
    }
}
