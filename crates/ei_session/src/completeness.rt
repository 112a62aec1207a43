//! Which pieces make a good end sure. The function does nothing: its clauses are the laws.

ghost use Rattle.std.specs.Prelude.{◌≡◌, ◌≤◌, ◌<◌, ℕ, List, length, true, false};
ghost use Rattle.ei_spec.specs.Piece.{Piece};
ghost use Rattle.ei_session.specs.Setup.{Setup};
ghost use Rattle.ei_session.specs.Served.{IsGood, read_first, session};
ghost use Rattle.ei_session.specs.Complete.{disconnects, needed, AreComplete};

/// Pieces that are valid within the limits end the session by the disconnect, or by the end of the pieces.
pub fn complete_pieces()
    ensures good { (setup : Setup) (pieces : List Piece) → AreComplete setup pieces →
        IsGood (session setup pieces).answer }
    ensures handled { (setup : Setup) (pieces : List Piece) → AreComplete setup pieces →
        (session setup pieces).handled ≡ (read_first setup pieces (needed setup pieces)).past }
    ensures disconnect { (setup : Setup) (pieces : List Piece) (k : ℕ) → 1 ≤ k → k ≤ length pieces →
        ((j : ℕ) → 1 ≤ j → j < k → disconnects setup pieces j ≡ false) → disconnects setup pieces k ≡ true →
        needed setup pieces ≡ k }
    ensures none { (setup : Setup) (pieces : List Piece) →
        ((j : ℕ) → 1 ≤ j → j ≤ length pieces → disconnects setup pieces j ≡ false) →
        needed setup pieces ≡ length pieces }
{}
