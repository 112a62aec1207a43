//! Values by keys, in the order in which they were put in: a vector whose look-ups are fast where the keys rise, and
//! right where they don't.
//!
//! There is nothing of a protocol in it. Begin with `Keyed`; what its values are as a finite map says `laws`.
#![tactic(auto)]

ghost use Rattle.std.specs.Prelude.{◌≡◌, ◌≤◌, ◌<◌, ◌+◌, ◌++◌, ◌∷◌, [], ℕ, OnOk, OnErr, IsOk, IfSome, Some, Bool, length};
ghost use Rattle.std.specs.Option.{option_copied, option_copied_mut};
ghost use Rattle.std.specs.Borrow.{sem};
ghost use Rattle.std.specs.List.{filter};
ghost use Rattle.ei_keyed.specs.Keyed.{keyed, without_key, Decides};
ghost use Rattle.ei_keyed.specs.Lends.{lends_get};

mod finding;
mod iter;
pub mod laws;
mod places;

pub use iter::Iter;
use places::Places;
use std::alloc::{AllocError, Global};
use std::marker::Model;

/// Values by keys, in the order in which they were put in. A key may be put in twice: the first one is found then.
///
/// Where the keys rise a look-up tries the place where the key would stand if none were missing, and then goes by halves;
/// else it goes through all. What is taken out leaves its place behind, and the places are closed up once half of them are
/// such: so no call's cost grows with how many values there are, but for those that go through all.
#[derive(Drop)]
pub struct Keyed<V> {
    places: Places<V>,
}

impl<V> Model for Keyed<V> {
    ghost use Rattle.ei_keyed.specs.Keyed.{KeyedView, keyed_code};

    ghost Value = { KeyedView V };

    ghost coded = { keyed_code V.code };

    ghost use Rattle.ei_keyed.specs.Places.{live};

    ghost view = { λ k. record { items = live k.places.places; room = k.places.room } };
}

// Look-ups.
impl<V> Keyed<V> {
    /// No value.
    pub fn new(alloc: Global) -> Keyed<V>
        ensures { result.items ≡ [] }
    {
        Keyed {
            places: Places::new(alloc),
        }
    }

    /// How many values there are.
    pub fn len(&self) -> usize
        ensures { result ≡ length self.now.items }
    {
        self.places.len()
    }

    /// The keys and the values, in their order.
    pub fn iter(&self) -> Iter<'_, V>
        ensures { result ≡ self.now.items }
    {
        self.places.iter()
    }

    /// The value of a key.
    #[inline(always)]
    pub fn get(&self, key: u64) -> Option<&V>
        ensures { option_copied result ≡ keyed key self.now.items }
    {
        self.places.get(key)
    }

    /// The value of a key, if it stands where it does when no key between the first one and it is missing. Most do.
    #[inline(always)]
    pub fn likely(&self, key: u64) -> Option<&V>
        ensures { IfSome result (λ value. keyed key self.now.items ≡ Some value.now) }
    {
        self.places.likely(key)
    }

    /// The value of a key, for writing.
    #[inline(always)]
    pub fn get_mut(&mut self, key: u64) -> Option<&mut V>
        ensures* writes_back { sem 𝓛 (lends_get V.row self.entry key result) }
        ensures value { option_copied_mut result ≡ keyed key self.old.items }
    {
        self.places.get_mut(key)
    }
}

// What is put in and taken out.
impl<V> Keyed<V> {
    /// Makes room for so many more.
    pub fn reserve(&mut self, additional: usize) -> Result<(), AllocError>
        ensures items { self.new.items ≡ self.old.items }
        ensures ok { OnOk result (additional ≤ self.new.room) }
        ensures kept { self.old.room ≤ self.new.room }
        ensures fits { additional ≤ self.old.room → IsOk result }
        ensures err { OnErr result (self.new.room ≡ self.old.room) }
    {
        self.places.reserve(additional)
    }

    /// Puts a value in behind all. There is room for it.
    pub fn push_reserved(&mut self, key: u64, value: V)
        requires { 0 < self.old.room }
        ensures items { self.new.items ≡ self.old.items ++ (key, value) ∷ [] }
        ensures room { self.new.room + 1 ≡ self.old.room }
    {
        self.places.push_reserved(key, value);
    }

    /// Takes the first value of a key out. The others stay.
    pub fn take(&mut self, key: u64) -> Option<V>
    where
        V: Drop,
        ensures value { result ≡ keyed key self.old.items }
        ensures others { self.new.items ≡ without_key key self.old.items }
        ensures room { self.old.room ≤ self.new.room }
    {
        self.places.take(key)
    }
}

impl<V: Drop> Keyed<V> {
    /// Puts a value in behind all.
    ///
    /// `AllocError`: nothing changes, and the value is gone.
    pub fn push(&mut self, key: u64, value: V) -> Result<(), AllocError>
        ensures ok { OnOk result (self.new.items ≡ self.old.items ++ (key, value) ∷ []) }
        ensures room { OnOk result (self.old.room ≤ self.new.room + 1) }
        ensures fits { 0 < self.old.room → IsOk result }
        ensures err { OnErr result (self.new ≡ self.old) }
    {
        self.places.reserve(1)?;
        self.places.push_reserved(key, value);
        Ok(())
    }

    /// Keeps the values at which the test, which answers by the value alone, is `true`.
    pub fn retain<F: Fn(&V) -> bool>(&mut self, test: F)
        requires { (f : F) (x : _) → F.pre f x }
        ensures items { (kept : V → Bool) → Decides F.Fn kept test →
            self.new.items ≡ filter (λ x. kept x.1) self.old.items }
        ensures room { self.old.room ≤ self.new.room }
    {
        self.places.retain(test);
    }

    /// Takes all out.
    pub fn clear(&mut self)
        ensures items { self.new.items ≡ [] }
        ensures room { self.old.room ≤ self.new.room }
    {
        self.places.clear();
    }
}
