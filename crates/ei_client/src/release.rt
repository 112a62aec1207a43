//! The request by which a client gives an object back.

ghost use Rattle.std.specs.Prelude.{◌≡◌, Some, false, refl, codes, []};
ghost use Rattle.ei_spec.specs.Rows.{row_named};
ghost use Rattle.ei_spec.specs.Table.{table, release};
ghost use Rattle.ei_client.specs.Words.{Sends};

use crate::prelude::*;
use ei_backend::Kind;

/// The kinds whose objects a client gives back by `release`, their request 0.
pub trait Release: Kind {
    ghost row: { row_named (codes "release") (table false Self.KNOWN) ≡ Some (0, release) };
}

impl Release for kinds::Seat {
    ghost row = { refl };
}

impl Release for kinds::Device {
    ghost row = { refl };
}

impl Release for kinds::Pointer {
    ghost row = { refl };
}

impl Release for kinds::PointerAbsolute {
    ghost row = { refl };
}

impl Release for kinds::Scroll {
    ghost row = { refl };
}

impl Release for kinds::Button {
    ghost row = { refl };
}

impl Release for kinds::Keyboard {
    ghost row = { refl };
}

impl Release for kinds::Touchscreen {
    ghost row = { refl };
}

impl Release for kinds::Text {
    ghost row = { refl };
}

impl Release for kinds::Gesture {
    ghost row = { refl };
}

impl<K: Release> Proxy<K> {
    /// Tells the server that the client is done with the object. It stays until the server takes it away.
    ///
    /// `NoMemory`: nothing is sent.
    pub fn release(&self, ctx: &mut Context) -> Sent
        ensures sends { Sends (row_named (codes "release") (table false K.KNOWN)) self.now [] ctx.old ctx.new result }
    {
        self.object.request(ctx, 0, &[])
    }
}
