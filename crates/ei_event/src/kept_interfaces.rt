//! What the converter keeps of all interfaces.

ghost use Rattle.std.specs.Prelude.{◌≡◌, OnOk, OnErr, IfSome, Some, Bool};
ghost use Rattle.std.specs.Option.{option_copied};
ghost use Rattle.std.specs.FinMap as finite;
ghost use Rattle.ei_keyed.specs.Keyed.{Decides};
ghost use Rattle.ei_by_id.specs.ById.{kept, Finds};
ghost use Rattle.ei_event.specs.Kept.{InterfaceView, owner_of};

use crate::kept_interface::KeptInterface;
use ei_by_id::ById;
use std::alloc::{AllocError, Global};
use std::marker::Model;

/// The interfaces that devices have, by their ids. It knows of the last one whose device was asked for which that is,
/// since inputs come mostly from one interface again and again.
#[derive(Drop)]
pub(crate) struct KeptInterfaces {
    all: ById<KeptInterface>,
    // The id of that interface, and of its device.
    last: Option<(u64, u64)>,
}

impl Model for KeptInterfaces {
    ghost use Rattle.std.specs.Coded.{coded_ℕ};
    ghost use Rattle.std.specs.Ordering.{nat_cmp};
    ghost use Rattle.std.specs.FinMap as finite;
    ghost use Rattle.ei_event.specs.Kept.{InterfaceView, interface_code, IsLast};

    ghost Value = { finite.FinMap nat_cmp InterfaceView };

    ghost coded = { finite.code coded_ℕ interface_code };

    ghost view = { λ i. i.all };

    ghost invariant = { λ i. IsLast i.all i.last };
}

// Which device has one.
impl KeptInterfaces {
    /// None yet.
    pub(crate) fn new(alloc: Global) -> KeptInterfaces
        ensures { result ≡ finite.empty }
    {
        KeptInterfaces {
            all: ById::new(alloc),
            last: None,
        }
    }

    /// The id of the device that has the interface of that id.
    pub(crate) fn owner(&self, id: u64) -> Option<u64>
        ensures { result ≡ owner_of (finite.get self.now id) }
    {
        match self.all.get(id) {
            Some(interface) => Some(interface.device()),
            None => None,
        }
    }

    /// The same, if it was noted last.
    #[inline(always)]
    pub(crate) fn last_owner(&self, id: u64) -> Option<u64>
        ensures { IfSome result (λ device. owner_of (finite.get self.now id) ≡ Some device) }
    {
        match self.last {
            Some((last, device)) if last == id => Some(device),
            _ => None,
        }
    }

    /// The same, which is noted.
    pub(crate) fn noted_owner(&mut self, id: u64) -> Option<u64>
        ensures owner { result ≡ owner_of (finite.get self.old id) }
        ensures kept { self.new ≡ self.old }
    {
        if let Some(device) = self.last_owner(id) {
            return Some(device);
        }
        let owner = self.owner(id);
        if let Some(device) = owner {
            self.last = Some((id, device));
        }
        owner
    }
}

// What is kept, as it comes and goes.
impl KeptInterfaces {
    /// The interface of that id.
    pub(crate) fn get(&self, id: u64) -> Option<&KeptInterface>
        ensures { option_copied result ≡ finite.get self.now id }
    {
        self.all.get(id)
    }

    /// The first that was put in at which the test is `true`.
    pub(crate) fn find<F: Fn(&KeptInterface) -> bool>(&self, test: F) -> Option<&KeptInterface>
        requires callable { (f : F) (x : _) → F.pre f x }
        ensures { (test_of : InterfaceView → Bool) → Decides F.Fn test_of test →
            Finds test_of self.now (option_copied result) }
    {
        self.all.find(test)
    }

    /// Keeps those at which the test is `true`, and puts one in.
    ///
    /// `AllocError`: nothing changes, and that one is gone.
    pub(crate) fn put_retaining<F: Fn(&KeptInterface) -> bool>(
        &mut self,
        id: u64,
        interface: KeptInterface,
        test: F,
    ) -> Result<(), AllocError>
        requires callable { (f : F) (x : _) → F.pre f x }
        requires decided { (test_of : InterfaceView → Bool) × Decides F.Fn test_of test }
        ensures ok { (test_of : InterfaceView → Bool) → Decides F.Fn test_of test →
            OnOk result (self.new ≡ finite.insert (kept test_of self.old) id interface) }
        ensures err { OnErr result (self.new ≡ self.old) }
    {
        self.last = None;
        self.all.put_retaining(id, interface, test)
    }

    /// Takes the interface of that id out.
    pub(crate) fn take(&mut self, id: u64)
        ensures { self.new ≡ finite.remove self.old id }
    {
        self.last = None;
        self.all.take(id);
    }

    /// Keeps those at which the test is `true`.
    pub(crate) fn retain<F: Fn(&KeptInterface) -> bool>(&mut self, test: F)
        requires callable { (f : F) (x : _) → F.pre f x }
        requires decided { (test_of : InterfaceView → Bool) × Decides F.Fn test_of test }
        ensures { (test_of : InterfaceView → Bool) → Decides F.Fn test_of test → self.new ≡ kept test_of self.old }
    {
        self.last = None;
        self.all.retain(test);
    }
}
