//! Seats.

ghost use Rattle.std.specs.Prelude.{◌≡◌, ⊤, Some};
ghost use Rattle.std.specs.Hash as fed;
ghost use Rattle.std.specs.Cmp.{partial_equiv_from_equiv};
ghost use Rattle.std.specs.Cmp.Rules.{hashing};
ghost use Rattle.std.proofs.Common.{rules};
ghost use Rattle.ei_event.specs.Keys.{same_seat, same_seat_equiv, seat_text};

use ei_backend::Interface;
use ei_client::Seat as Proxy;
use ei_spec::KnownInterface;
use std::alloc::AllocError;
use std::fmt;
use std::hash::{Hash, Hasher};
use std::marker::Model;

/// The key of a seat: a plain value, told apart from others by its id. Contracts see the object.
#[derive(Drop)]
pub struct Seat {
    proxy: Proxy,
}

impl Model for Seat {
    ghost use Rattle.ei_spec.specs.Interface.{ObjectView};
    ghost use Rattle.ei_backend.specs.Codes.{object_code};

    ghost Value = { ObjectView };

    ghost coded = { object_code };

    ghost view = { λ s. s.proxy };
}

impl Seat {
    pub(crate) fn over(proxy: Proxy) -> Seat
        ensures { result ≡ proxy }
    {
        Seat { proxy }
    }

    /// The same key again.
    #[inline(always)]
    pub(crate) fn copy(&self) -> Seat
        ensures { result ≡ self.now }
    {
        let proxy = self.proxy.as_object().copy_of(KnownInterface::Seat);
        Seat {
            proxy: Proxy::new_unchecked(proxy),
        }
    }

    /// The proxy of the seat.
    pub(crate) fn proxy(&self) -> &Proxy
        ensures { result.now ≡ self.now }
    {
        &self.proxy
    }

    /// The id.
    pub(crate) fn id(&self) -> u64
        ensures { result ≡ self.now.id }
    {
        self.proxy.as_object().id()
    }
}

// A clone takes no memory.
impl Clone for Seat {
    ghost is_clone = { λ s copy. copy ≡ s };

    ghost is_infallible = { λ _. ⊤ };

    fn clone(&self) -> Result<Seat, AllocError> {
        Ok(self.copy())
    }
}

impl PartialEq for Seat {
    ghost eq = { same_seat };

    ghost laws = { partial_equiv_from_equiv same_seat_equiv };

    fn eq(&self, other: &Seat) -> bool {
        self.id() == other.id()
    }
}

impl Eq for Seat {
    ghost laws = { same_seat_equiv };
}

impl Hash for Seat {
    ghost hash_input = { λ s. fed.u64 s.id };

    ghost respects_eq = { Prim.search (hashing, rules) };

    fn hash<H: Hasher>(&self, state: &mut H) {
        self.id().hash(state);
    }
}

impl fmt::Debug for Seat {
    ghost debug_output = { λ s. Some (seat_text s) };

    fn fmt<W: fmt::Write>(&self, f: &mut fmt::Formatter<W>) -> fmt::Result {
        let id = self.id();
        write!(f, "Seat({id})")
    }
}
