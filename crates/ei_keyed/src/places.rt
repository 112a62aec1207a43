//! The places in which a `Keyed` keeps its values, some of which were taken out.

ghost use Rattle.std.specs.Prelude.{◌≡◌, ◌≤◌, ◌<◌, ◌+◌, ◌++◌, ◌∷◌, [], ℕ, OnOk, OnErr, IsOk, IfSome, IsSome, Some, Bool, false, length, vec_len, vec_capacity};
ghost use Rattle.std.specs.Option.{option_copied, option_copied_mut};
ghost use Rattle.std.specs.Borrow.{sem};
ghost use Rattle.std.specs.Fn.{FnReturnsAt};
ghost use Rattle.std.specs.Option.{MatchOption};
ghost use Rattle.std.specs.List.{filter};
ghost use Rattle.ei_keyed.specs.Keyed.{keyed, without_key, Decides};
ghost use Rattle.ei_keyed.specs.Places.{live, IsPlace};
ghost use Rattle.ei_keyed.specs.PlaceLends.{lends_some, lends_value, lends_place};

use crate::finding;
use crate::iter::Iter;
use std::alloc::{AllocError, Global};
use std::marker::Model;

/// Places, each with a key, and with a value unless it was taken out.
#[derive(Drop)]
pub(crate) struct Places<V> {
    all: Vec<(u64, Option<V>)>,
    // How many have a value.
    count: usize,
    // If so, the keys rise.
    rising: bool,
}

impl<V> Model for Places<V> {
    ghost use Rattle.std.specs.Prelude.{◌-◌, vec_len, vec_capacity};
    ghost use Rattle.ei_keyed.specs.Places.{PlacesView, places_code, IsKept};

    ghost Value = { PlacesView V };

    ghost coded = { places_code V.code };

    ghost view = { λ p. record { places = p.all.items; room = vec_capacity p.all - vec_len p.all } };

    ghost invariant = { λ p. IsKept p.all.items p.count p.rising };
}

/// The value that there is, for writing.
fn value_mut<V>(value: &mut Option<V>) -> &mut V
    requires { IsSome value.old }
    ensures* writes_back { sem 𝓛 (lends_some V.row value.entry result) }
    ensures value { value.old ≡ Some result.now }
{
    match value {
        Some(value) => value,
        None => unreachable!(),
    }
}

impl<V> Places<V> {
    /// No place.
    pub(crate) fn new(alloc: Global) -> Places<V>
        ensures { result.places ≡ [] }
    {
        Places {
            all: Vec::new(alloc),
            count: 0,
            rising: true,
        }
    }

    /// How many have a value.
    pub(crate) fn len(&self) -> usize
        ensures { result ≡ length (live self.now.places) }
    {
        self.count
    }

    /// The keys and the values.
    pub(crate) fn iter(&self) -> Iter<'_, V>
        ensures { result ≡ live self.now.places }
    {
        Iter::over(&self.all)
    }

    /// The first value of a key.
    #[inline(always)]
    pub(crate) fn get(&self, key: u64) -> Option<&V>
        ensures { option_copied result ≡ keyed key (live self.now.places) }
    {
        match finding::find(&self.all, self.rising, key) {
            Some(at) => self.all[at].1.as_ref(),
            None => None,
        }
    }

    /// The same, if it stands where it does when no key between the first one and it is missing.
    #[inline(always)]
    pub(crate) fn likely(&self, key: u64) -> Option<&V>
        ensures { IfSome result (λ value. keyed key (live self.now.places) ≡ Some value.now) }
    {
        match finding::likely(&self.all, self.rising, key) {
            Some(at) => self.all[at].1.as_ref(),
            None => None,
        }
    }

    /// The first value of a key, for writing.
    #[inline(always)]
    pub(crate) fn get_mut(&mut self, key: u64) -> Option<&mut V>
        ensures* writes_back { sem 𝓛 (lends_place V.row self.entry key result) }
        ensures value { option_copied_mut result ≡ keyed key (live self.old.places) }
    {
        match finding::find(&self.all, self.rising, key) {
            Some(at) => Some(self.value_at(key, at)),
            None => None,
        }
    }

    /// The value at the first place of the key that has one, for writing.
    #[inline(always)]
    fn value_at(&mut self, key: u64, at: usize) -> &mut V
        requires { IsPlace key self.old.places at }
        ensures* writes_back { sem 𝓛 (lends_value V.row self.entry key result) }
        ensures value { keyed key (live self.old.places) ≡ Some result.now }
    {
        let place = &mut self.all[at];
        value_mut(&mut place.1)
    }

    /// Makes room for so many more.
    pub(crate) fn reserve(&mut self, additional: usize) -> Result<(), AllocError>
        ensures places { self.new.places ≡ self.old.places }
        ensures ok { OnOk result (additional ≤ self.new.room) }
        ensures kept { self.old.room ≤ self.new.room }
        ensures fits { additional ≤ self.old.room → IsOk result }
        ensures err { OnErr result (self.new.room ≡ self.old.room) }
    {
        self.all.reserve(additional)
    }

    /// Puts a value in behind all. There is room for it.
    pub(crate) fn push_reserved(&mut self, key: u64, value: V)
        requires { 0 < self.old.room }
        ensures items { live self.new.places ≡ live self.old.places ++ (key, value) ∷ [] }
        ensures room { self.new.room + 1 ≡ self.old.room }
    {
        self.rising = finding::rises_with(&self.all, self.rising, key);
        self.count += 1;
        self.all.push_reserved((key, Some(value)));
    }
}

impl<V: Drop> Places<V> {
    /// Takes the first value of a key out.
    pub(crate) fn take(&mut self, key: u64) -> Option<V>
        ensures value { result ≡ keyed key (live self.old.places) }
        ensures items { live self.new.places ≡ without_key key (live self.old.places) }
        ensures room { self.old.room ≤ self.new.room }
    {
        let at = finding::find(&self.all, self.rising, key)?;
        let value = self.take_at(key, at);
        self.close_up();
        value
    }

    /// Takes the value at the first place of the key that has one.
    fn take_at(&mut self, key: u64, at: usize) -> Option<V>
        requires { IsPlace key self.old.places at }
        ensures value { result ≡ keyed key (live self.old.places) }
        ensures items { live self.new.places ≡ without_key key (live self.old.places) }
        ensures room { self.new.room ≡ self.old.room }
    {
        let value = self.all[at].1.take();
        self.count -= 1;
        value
    }

    /// Closes the places up, once half of them have no value.
    fn close_up(&mut self)
        ensures items { live self.new.places ≡ live self.old.places }
        ensures room { self.old.room ≤ self.new.room }
    {
        if self.count <= self.all.len() / 2 {
            self.all.retain(|place| place.1.is_some());
        }
    }

    /// Keeps the values at which the test is `true`.
    pub(crate) fn retain<F: Fn(&V) -> bool>(&mut self, test: F)
        requires { (f : F) (x : _) → F.pre f x }
        ensures items { (kept : V → Bool) → Decides F.Fn kept test →
            live self.new.places ≡ filter (λ x. kept x.1) (live self.old.places) }
        ensures room { self.old.room ≤ self.new.room }
    {
        self.all.retain(
            |place|
                requires { (f : F) (x : _) → F.pre f x }
                ensures { MatchOption place.now.1 (result ≡ false) (λ value. FnReturnsAt F.Fn test value result) }
            {
                match &place.1 {
                    Some(value) => test(value),
                    None => false,
                }
            },
        );
        self.count = self.all.len();
    }

    /// Takes all out.
    pub(crate) fn clear(&mut self)
        ensures places { self.new.places ≡ [] }
        ensures room { self.old.room ≤ self.new.room }
    {
        self.all.clear();
        self.count = 0;
        self.rising = true;
    }
}
