//! Devices.

ghost use Rattle.std.specs.Prelude.{◌≡◌, ⊤, Some, ◌++◌};
ghost use Rattle.std.specs.Hash as fed;
ghost use Rattle.std.specs.Cmp.{partial_equiv_from_equiv};
ghost use Rattle.std.specs.Cmp.Rules.{hashing};
ghost use Rattle.std.proofs.Common.{rules};
ghost use Rattle.ei_event.specs.Keys.{same_device, same_device_equiv, device_text};

use crate::seat::Seat;
use ei_backend::Interface;
use ei_client::Device as Proxy;
use ei_spec::KnownInterface;
use std::alloc::AllocError;
use std::fmt;
use std::hash::{Hash, Hasher};
use std::marker::Model;

/// The key of a device: a plain value, told apart from others by its id and that of its seat. Contracts see both
/// objects.
#[derive(Drop)]
pub struct Device {
    seat: Seat,
    proxy: Proxy,
}

impl Model for Device {
    ghost use Rattle.ei_event.specs.Keys.{DeviceKey, device_key_code};

    ghost Value = { DeviceKey };

    ghost coded = { device_key_code };

    ghost view = { λ d. record { seat = d.seat; proxy = d.proxy } };
}

impl Device {
    pub(crate) fn over(seat: Seat, proxy: Proxy) -> Device
        ensures { result ≡ record { seat = seat; proxy = proxy } }
    {
        Device { seat, proxy }
    }

    /// The same key again.
    #[inline(always)]
    pub(crate) fn copy(&self) -> Device
        ensures { result ≡ self.now }
    {
        let proxy = self.proxy.as_object().copy_of(KnownInterface::Device);
        Device {
            seat: self.seat.copy(),
            proxy: Proxy::new_unchecked(proxy),
        }
    }

    /// The seat that it belongs to.
    pub fn seat(&self) -> &Seat
        ensures { result.now ≡ self.now.seat }
    {
        &self.seat
    }

    /// The proxy of the device.
    pub fn device(&self) -> &Proxy
        ensures { result.now ≡ self.now.proxy }
    {
        &self.proxy
    }

    /// The id.
    pub(crate) fn id(&self) -> u64
        ensures { result ≡ self.now.proxy.id }
    {
        self.proxy.as_object().id()
    }
}

// A clone takes no memory.
impl Clone for Device {
    ghost is_clone = { λ d copy. copy ≡ d };

    ghost is_infallible = { λ _. ⊤ };

    fn clone(&self) -> Result<Device, AllocError> {
        Ok(self.copy())
    }
}

impl PartialEq for Device {
    ghost eq = { same_device };

    ghost laws = { partial_equiv_from_equiv same_device_equiv };

    fn eq(&self, other: &Device) -> bool {
        self.seat.id() == other.seat.id() && self.id() == other.id()
    }
}

impl Eq for Device {
    ghost laws = { same_device_equiv };
}

impl Hash for Device {
    ghost hash_input = { λ d. fed.u64 d.seat.id ++ fed.u64 d.proxy.id };

    ghost respects_eq = { Prim.search (hashing, rules) };

    fn hash<H: Hasher>(&self, state: &mut H) {
        self.seat.id().hash(state);
        self.id().hash(state);
    }
}

impl fmt::Debug for Device {
    ghost debug_output = { λ d. Some (device_text d) };

    fn fmt<W: fmt::Write>(&self, f: &mut fmt::Formatter<W>) -> fmt::Result {
        let id = self.id();
        write!(f, "Device({id})")
    }
}
