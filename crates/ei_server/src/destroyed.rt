//! The event by which the server takes an object away.

ghost use Rattle.std.specs.Prelude.{◌≡◌, Some, true, refl, codes, [], ◌∷◌};
ghost use Rattle.ei_spec.specs.Interface.{ObjectView};
ghost use Rattle.ei_spec.specs.Rows.{row_named};
ghost use Rattle.ei_spec.specs.Table.{table, destroyed};
ghost use Rattle.ei_server.specs.Words.{Word, Sends};

use crate::prelude::*;
use ei_backend::Kind;

/// The kinds whose objects the server takes away by `destroyed`, their event 0.
pub trait Destroyed: Kind {
    ghost row: { row_named (codes "destroyed") (table true Self.KNOWN) ≡ Some (0, destroyed) };
}

impl Destroyed for kinds::Seat {
    ghost row = { refl };
}

impl Destroyed for kinds::Device {
    ghost row = { refl };
}

impl Destroyed for kinds::Pointer {
    ghost row = { refl };
}

impl Destroyed for kinds::PointerAbsolute {
    ghost row = { refl };
}

impl Destroyed for kinds::Scroll {
    ghost row = { refl };
}

impl Destroyed for kinds::Button {
    ghost row = { refl };
}

impl Destroyed for kinds::Keyboard {
    ghost row = { refl };
}

impl Destroyed for kinds::Touchscreen {
    ghost row = { refl };
}

impl Destroyed for kinds::Text {
    ghost row = { refl };
}

impl Destroyed for kinds::Gesture {
    ghost row = { refl };
}

impl<K: Destroyed> Proxy<K> {
    /// Tells the client that the object is gone, as the event of this serial, and takes it out of the table.
    /// The devices of a seat and the interfaces of a device stay.
    ///
    /// `NoMemory`: nothing is sent, and the object stays.
    pub fn destroyed(&self, ctx: &mut Context, serial: u32) -> Sent
        ensures sends { Sends (row_named (codes "destroyed") (table true K.KNOWN)) self.now
            (Word serial ∷ []) ctx.old ctx.new result }
    {
        destroyed_by_id(ctx, self.object.id(), serial)
    }
}

/// Tells the client that the object of that id is gone, and takes it out of the table, where only the id is known: it
/// is one of the kinds above, which have the same row.
///
/// `NoMemory`: nothing is sent, and the object stays.
pub fn destroyed_by_id(ctx: &mut Context, id: u64, serial: u32) -> Sent
    ensures sends { (o : ObjectView) → o.id ≡ id →
        Sends (Some (0, destroyed)) o (Word serial ∷ []) ctx.old ctx.new result }
{
    ctx.backend_mut().request(id, 0, &[Arg::Uint32(serial)])?;
    ctx.backend_mut().remove_id(id);
    Ok(())
}
