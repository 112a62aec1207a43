//! What holds an endpoint.

ghost use Rattle.std.specs.Prelude.{◌≡◌};
ghost use Rattle.std.specs.Borrow.{sem, Lends};
ghost use Rattle.ei_backend.specs.Backend.{BackendView};
ghost use Rattle.ei_backend.specs.contracts.backend.Backend.{the_row};

use crate::backend::Backend;

/// A value that has an endpoint in it: an endpoint itself, or the context of one end.
///
/// What is done to the endpoint by `backend_mut` is done to the value, and nothing else of it changes. Two
/// changes, one after the other, are the second alone.
pub trait HasBackend {
    /// The endpoint in the value.
    ghost seen: { Self → BackendView };

    /// The value with that endpoint in it.
    ghost with_backend: { Self → BackendView → Self };

    /// The endpoint.
    fn backend(&self) -> &Backend
        ensures { result.now ≡ seen self.now };

    /// The endpoint, to change it.
    fn backend_mut(&mut self) -> &mut Backend
        ensures* lends { sem 𝓛 (Lends Self.row the_row self.entry result (with_backend self.old)) }
        ensures value { result.now ≡ seen self.old };

    ghost seen_with: { (x : Self) (b : BackendView) → seen (with_backend x b) ≡ b };

    ghost with_seen: { (x : Self) → with_backend x (seen x) ≡ x };

    ghost with_twice: { (x : Self) (b c : BackendView) → with_backend (with_backend x b) c ≡ with_backend x c };
}

impl HasBackend for Backend {
    ghost use Rattle.std.specs.Prelude.{refl};

    ghost seen = { λ b. b };

    ghost with_backend = { λ _ b. b };

    ghost seen_with = { λ x b. refl };

    ghost with_seen = { λ x. refl };

    ghost with_twice = { λ x b c. refl };

    fn backend(&self) -> &Backend {
        self
    }

    fn backend_mut(&mut self) -> &mut Backend {
        self
    }
}
