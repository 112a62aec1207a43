//! The devices of a script, by their numbers.

ghost use Rattle.std.specs.Prelude.{◌≡◌, ◌++◌, ◌∷◌, [], None, Some, OnOk, slice_set};
ghost use Rattle.ei_emit.specs.Held.{held_at};

use ei_request::Device;
use ei_wire::NoMemory;
use std::alloc::Global;

/// The devices that were added, the first first; none in the place of one that was removed.
#[derive(Drop)]
pub(crate) struct Devices {
    pub(crate) added: Vec<Option<Device>>,
}

impl Devices {
    /// None was added.
    pub(crate) fn new(alloc: Global) -> Devices
        ensures { result.added.items ≡ [] }
    {
        Devices {
            added: Vec::new(alloc),
        }
    }

    /// Adds the next device, or nothing.
    pub(crate) fn push(&mut self, device: Device) -> Result<(), NoMemory>
        ensures { OnOk result (self.new.added.items ≡ self.old.added.items ++ Some device ∷ []) }
    {
        self.added.push(Some(device))?;
        Ok(())
    }

    /// The device of that number, where it is held.
    pub(crate) fn held(&self, number: u32) -> Option<Device>
        ensures { result ≡ held_at self.now.added.items number }
    {
        let device = self.added.get(number as usize)?.as_ref()?;
        Some(device.clone().unwrap())
    }

    /// Takes the device of that number out, where it is held.
    pub(crate) fn take(&mut self, number: u32) -> Option<Device>
        ensures taken { result ≡ held_at self.old.added.items number }
        ensures left { self.new.added.items ≡ slice_set self.old.added.items number None }
    {
        self.added.get_mut(number as usize)?.take()
    }
}
