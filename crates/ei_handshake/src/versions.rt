//! The versions that a handshake settles, and those that a client is told.

ghost use Rattle.std.specs.Prelude.{◌≡◌, is_some, None, OnOk, OnErr};
ghost use Rattle.std.specs.FinMap as finite;
ghost use Rattle.ei_spec.specs.Interface.{name_of, known_of};

use ei_spec::KnownInterface;
use ei_spec::limits::INTERFACES;
use ei_wire::EiText;
use std::alloc::{AllocError, Global};
use std::collections::BTreeMap;
use std::marker::Model;
use std::string::String;

/// Names of interfaces, each with a version. Contracts see a map from the names' bytes.
#[derive(Drop)]
pub struct Versions {
    /// A place for each interface.
    versions: [Option<u32>; INTERFACES],
    /// The versions of names that no interface has.
    others: BTreeMap<String, u32>,
}

impl Model for Versions {
    ghost use Rattle.ei_handshake.specs.Versions.{VersionMap, version_code, by_name, with_names, IsKept};

    ghost Value = { VersionMap };

    ghost coded = { version_code };

    ghost view = { λ v. with_names v.others.entries (by_name v.versions) };

    ghost invariant = { λ v. IsKept v.versions v.others };
}

impl Versions {
    /// No names.
    pub(crate) fn new(alloc: Global) -> Versions
        ensures { result ≡ finite.empty }
    {
        Versions {
            versions: [None; INTERFACES],
            others: BTreeMap::new(alloc),
        }
    }

    /// The version of the name.
    pub fn get(&self, name: &str) -> Option<u32>
        ensures { result ≡ finite.get self.now name.now }
    {
        let versions = &self.versions;
        match KnownInterface::from_name(name) {
            Some(interface) => versions[interface.place()],
            None => self.others.get(name).copied(),
        }
    }

    /// The version of the interface's name.
    pub fn version(&self, interface: KnownInterface) -> Option<u32>
        ensures { result ≡ finite.get self.now (name_of interface) }
    {
        self.versions[interface.place()]
    }

    /// Whether the name is there.
    pub fn contains(&self, name: &str) -> bool
        ensures { result ≡ is_some (finite.get self.now name.now) }
    {
        self.get(name).is_some()
    }

    /// How many names there are.
    pub fn len(&self) -> usize
        ensures { result ≡ finite.len self.now }
    {
        let versions = &self.versions;
        let known = KnownInterface::ALL
            .iter()
            .filter(|interface| versions[interface.place()].is_some())
            .count();
        known + self.others.len()
    }

    /// Gives the interface's name this version, in place of the one before.
    pub(crate) fn insert(&mut self, interface: KnownInterface, version: u32)
        ensures { self.new ≡ finite.insert self.old (name_of interface) version }
    {
        self.versions[interface.place()] = Some(version);
    }

    /// Gives a name that no interface has this version, in place of the one before.
    ///
    /// `AllocError`: nothing changes.
    pub(crate) fn insert_other(
        &mut self,
        alloc: Global,
        name: &str,
        version: u32,
    ) -> Result<(), AllocError>
        requires { known_of name.now ≡ None }
        ensures ok { OnOk result (self.new ≡ finite.insert self.old name.now version) }
        ensures err { OnErr result (self.new ≡ self.old) }
    {
        let name = String::from_str(alloc, name)?;
        self.others.insert(name, version)?;
        Ok(())
    }

    /// Gives the name, of an interface or not, this version, in place of the one before.
    ///
    /// `AllocError` never for the name of an interface: nothing changes.
    pub(crate) fn insert_name(
        &mut self,
        alloc: Global,
        name: &EiText,
        version: u32,
    ) -> Result<(), AllocError>
        ensures ok { OnOk result (self.new ≡ finite.insert self.old name.now version) }
        ensures err { OnErr result (self.new ≡ self.old) }
        ensures other { OnErr result (known_of name.now ≡ None) }
    {
        match name.interface() {
            Some(interface) => self.insert(interface, version),
            None => self.insert_other(alloc, name.as_str(), version)?,
        }
        Ok(())
    }
}
