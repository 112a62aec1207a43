//! Values by ids: what a client keeps of the objects that a server announces. Contracts see a finite map.
//!
//! There is nothing of a protocol in it, and nothing about the order of ids or about room. Begin with `ById`.
#![tactic(auto)]

ghost use Rattle.std.specs.Prelude.{◌≡◌, ◌<◌, OnOk, OnErr, Bool};
ghost use Rattle.std.specs.Option.{option_copied, option_copied_mut};
ghost use Rattle.std.specs.FinMap as finite;
ghost use Rattle.std.specs.Borrow.{sem};
ghost use Rattle.ei_keyed.specs.Keyed.{Decides};
ghost use Rattle.ei_keyed.specs.MapOf.{map_of};
ghost use Rattle.ei_by_id.specs.ById.{kept, Finds};
ghost use Rattle.ei_by_id.specs.Entries.{KeysDiffer, first_value};
ghost use Rattle.ei_by_id.specs.Lends.{lends_get};

use ei_keyed::Keyed;
use std::alloc::{AllocError, Global};
use std::marker::Model;

/// Values by ids, of which each has one at most.
///
/// A look-up is fast where ids rise as they come, as those of one peer do, and right where they don't.
#[derive(Drop)]
pub struct ById<V> {
    values: Keyed<V>,
}

impl<V> Model for ById<V> {
    ghost use Rattle.std.specs.Coded.{coded_ℕ};
    ghost use Rattle.std.specs.Ordering.{nat_cmp};
    ghost use Rattle.std.specs.FinMap as finite;
    ghost use Rattle.ei_keyed.specs.MapOf.{map_of};
    ghost use Rattle.ei_by_id.specs.Entries.{KeysDiffer};

    ghost Value = { finite.FinMap nat_cmp V };

    ghost coded = { finite.code coded_ℕ V.code };

    ghost view = { λ m. map_of m.values.items };

    ghost invariant = { λ m. KeysDiffer m.values.items };
}

impl<V> ById<V> {
    /// No value.
    pub fn new(alloc: Global) -> ById<V>
        ensures { result ≡ finite.empty }
    {
        ById {
            values: Keyed::new(alloc),
        }
    }

    /// The value of an id.
    #[inline(always)]
    pub fn get(&self, id: u64) -> Option<&V>
        ensures { option_copied result ≡ finite.get self.now id }
    {
        self.values.get(id)
    }

    /// The value of an id, for writing.
    #[inline(always)]
    pub fn get_mut(&mut self, id: u64) -> Option<&mut V>
        ensures* writes_back { sem 𝓛 (lends_get V.row self.entry id result) }
        ensures value { option_copied_mut result ≡ finite.get self.old id }
    {
        self.values.get_mut(id)
    }

    /// A value at which the test, which answers by the value alone, is `true`: the first that was put in. `None`
    /// exactly where there is none.
    pub fn find<F: Fn(&V) -> bool>(&self, test: F) -> Option<&V>
        requires callable { (f : F) (x : _) → F.pre f x }
        ensures { (test_of : V → Bool) → Decides F.Fn test_of test → Finds test_of self.now (option_copied result) }
    {
        first(&self.values, test)
    }
}

impl<V: Drop> ById<V> {
    /// Gives an id its value, in place of the one before.
    ///
    /// `AllocError`: nothing changes, and the value is gone.
    pub fn put(&mut self, id: u64, value: V) -> Result<(), AllocError>
        ensures ok { OnOk result (self.new ≡ finite.insert self.old id value) }
        ensures err { OnErr result (self.new ≡ self.old) }
    {
        self.values.reserve(1)?;
        write(&mut self.values, id, value);
        Ok(())
    }

    /// Keeps the values at which the test, which answers by the value alone, is `true`, and then gives an id its value.
    ///
    /// `AllocError`: nothing changes, and the value is gone.
    pub fn put_retaining<F: Fn(&V) -> bool>(
        &mut self,
        id: u64,
        value: V,
        test: F,
    ) -> Result<(), AllocError>
        requires callable { (f : F) (x : _) → F.pre f x }
        requires decided { (test_of : V → Bool) × Decides F.Fn test_of test }
        ensures ok { (test_of : V → Bool) → Decides F.Fn test_of test →
            OnOk result (self.new ≡ finite.insert (kept test_of self.old) id value) }
        ensures err { OnErr result (self.new ≡ self.old) }
    {
        self.values.reserve(1)?;
        self.values.retain(test);
        write(&mut self.values, id, value);
        Ok(())
    }

    /// Takes the value of an id out.
    pub fn take(&mut self, id: u64) -> Option<V>
        ensures value { result ≡ finite.get self.old id }
        ensures others { self.new ≡ finite.remove self.old id }
    {
        self.values.take(id)
    }

    /// Keeps the values at which the test, which answers by the value alone, is `true`.
    pub fn retain<F: Fn(&V) -> bool>(&mut self, test: F)
        requires callable { (f : F) (x : _) → F.pre f x }
        requires decided { (test_of : V → Bool) × Decides F.Fn test_of test }
        ensures { (test_of : V → Bool) → Decides F.Fn test_of test → self.new ≡ kept test_of self.old }
    {
        self.values.retain(test);
    }
}

/// The first value at which the test is `true`.
fn first<V, F: Fn(&V) -> bool>(values: &Keyed<V>, test: F) -> Option<&V>
    requires { (f : F) (x : _) → F.pre f x }
    ensures { (test_of : V → Bool) → Decides F.Fn test_of test →
        option_copied result ≡ first_value test_of values.now.items }
{
    let mut rest = values.iter();
    while let Some((_, value)) = rest.next() {
        if test(value) {
            return Some(value);
        }
    }
    None
}

/// Gives a key its value, in place of the one before. There is room for it.
fn write<V: Drop>(values: &mut Keyed<V>, key: u64, value: V)
    requires { 0 < values.old.room }
    ensures map { map_of values.new.items ≡ finite.insert (map_of values.old.items) key value }
    ensures differ { KeysDiffer values.old.items → KeysDiffer values.new.items }
{
    match values.get_mut(key) {
        Some(held) => *held = value,
        None => values.push_reserved(key, value),
    }
}
