//! Values by keys as a finite map: what a call did to the entries, it did to the map. The functions do nothing: their clauses
//! are the laws.

ghost use Rattle.std.specs.Prelude.{◌≡◌, ℕ, ◌+◌, ◌++◌, ◌∷◌, [], List};
ghost use Rattle.std.specs.FinMap as finite;
ghost use Rattle.ei_keyed.specs.Keyed.{keyed, without_key, RiseWithin};
ghost use Rattle.ei_keyed.specs.MapOf.{map_of};

/// A look-up of any entries; and what is put in and taken out, where the keys rise.
pub fn maps<V>()
    ensures get { (xs : List (ℕ × V)) (key : ℕ) → finite.get (map_of xs) key ≡ keyed key xs }
    ensures put { (xs : List (ℕ × V)) (from key : ℕ) (value : V) → RiseWithin from key xs →
        map_of (xs ++ (key, value) ∷ []) ≡ finite.insert (map_of xs) key value }
    ensures taken { (xs : List (ℕ × V)) (from end key : ℕ) → RiseWithin from end xs →
        map_of (without_key key xs) ≡ finite.remove (map_of xs) key }
{}

/// Keys that rise, from one number on and below another, still do after a value is put in or taken out.
pub fn rises<V>()
    ensures put { (xs : List (ℕ × V)) (from key : ℕ) (value : V) → RiseWithin from key xs →
        RiseWithin from (key + 1) (xs ++ (key, value) ∷ []) }
    ensures taken { (xs : List (ℕ × V)) (from end key : ℕ) → RiseWithin from end xs →
        RiseWithin from end (without_key key xs) }
{}
