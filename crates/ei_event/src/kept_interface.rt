//! What the converter keeps of an interface of a device.

ghost use Rattle.std.specs.Prelude.{◌≡◌};
ghost use Rattle.ei_event.specs.Kept.{is_other, is_of_other, is_interface_of};

use ei_backend::Object;
use ei_spec::KnownInterface;
use std::marker::Model;

/// An interface: the id of its device, and its object.
#[derive(Drop)]
pub(crate) struct KeptInterface {
    device: u64,
    object: Object,
}

impl Model for KeptInterface {
    ghost use Rattle.ei_event.specs.Kept.{InterfaceView, interface_code};

    ghost Value = { InterfaceView };

    ghost coded = { interface_code };

    ghost view = { λ i. record { device = i.device; object = i.object } };
}

impl KeptInterface {
    pub(crate) fn new(device: u64, object: Object) -> KeptInterface
        ensures { result ≡ record { device = device; object = object } }
    {
        KeptInterface { device, object }
    }

    /// The id of the device.
    #[inline(always)]
    pub(crate) fn device(&self) -> u64
        ensures { result ≡ self.now.device }
    {
        self.device
    }

    /// The object.
    pub(crate) fn object(&self) -> &Object
        ensures { result.now ≡ self.now.object }
    {
        &self.object
    }

    /// Whether it is another than that of the device by the name.
    pub(crate) fn is_other(&self, device: u64, name: &str) -> bool
        ensures { result ≡ is_other device name.now self.now }
    {
        !(device == self.device && name == self.object.interface())
    }

    /// Whether it is that one of the device.
    pub(crate) fn is_of(&self, device: u64, interface: KnownInterface) -> bool
        ensures { result ≡ is_interface_of device interface self.now }
    {
        device == self.device && self.object.known_interface() == Some(interface)
    }

    /// Whether it is one of another device.
    pub(crate) fn is_of_other(&self, device: u64) -> bool
        ensures { result ≡ is_of_other device self.now }
    {
        device != self.device
    }
}
