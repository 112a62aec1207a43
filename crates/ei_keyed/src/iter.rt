//! Going over the keys and values of a `Keyed`.

ghost use Rattle.std.specs.Prelude.{◌≡◌};
ghost use Rattle.std.specs.Iterator.{YieldsFirstBy, item_count};
ghost use Rattle.ei_keyed.specs.Places.{live};

use std::marker::Model;

/// The keys and values that are left to go over, in their order.
#[derive(Drop)]
pub struct Iter<'a, V> {
    places: &'a [(u64, Option<V>)],
}

impl<'a, V> Model for Iter<'a, V> {
    ghost use Rattle.std.specs.Prelude.{ℕ, List};
    ghost use Rattle.ei_keyed.specs.Places.{live};

    ghost Value = { List (ℕ × V) };

    ghost view = { λ it. live it.places.now };
}

impl<'a, V> Iter<'a, V> {
    /// Over these places.
    pub(crate) fn over(places: &'a [(u64, Option<V>)]) -> Iter<'a, V>
        ensures { result ≡ live places.now }
    {
        Iter { places }
    }
}

impl<'a, V> Iterator for Iter<'a, V> {
    type Item = (u64, &'a V);

    ghost next_gives = { YieldsFirstBy (λ item. (item.0, item.1.now)) (λ rest. rest) };

    ghost remaining = { item_count (λ rest. rest) };

    fn next(&mut self) -> Option<(u64, &'a V)> {
        while let Some((place, rest)) = self.places.split_first() {
            self.places = rest;
            if let Some(value) = &place.1 {
                return Some((place.0, value));
            }
        }
        None
    }
}
