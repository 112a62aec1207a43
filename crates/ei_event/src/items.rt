//! What a user asks of a seat and of a device.
//!
//! Of one that is pending, removed or unknown the answer is none, empty or false, and no capability is bound.

ghost use Rattle.std.specs.Prelude.{◌≡◌, ◌↔◌, IsTrue, codes, [], ◌∷◌, None, false};
ghost use Rattle.std.specs.Option.{option_copied, option_map};
ghost use Rattle.ei_spec.specs.Interface.{ObjectView};
ghost use Rattle.ei_types.specs.Capability.{interface_of};
ghost use Rattle.ei_client.specs.Words.{Long, Sends};
ghost use Rattle.ei_client.specs.Seat.{request};
ghost use Rattle.ei_event.specs.Items.{seat_in, seat_added_in, device_in, added_in, name_of_seat, bound, name_of};
ghost use Rattle.ei_event.specs.Items.{type_of};
ghost use Rattle.ei_event.specs.Items.{dimensions_of, regions_of, keymap_of, HasInterface, IsInterfaceOf};

use crate::converter::EiEventConverter;
use crate::device::Device;
use crate::keymap::Keymap;
use crate::region::Region;
use crate::seat::Seat;
use ei_client::{Context, Interface};
use ei_handler::Call;
use ei_types::{DeviceCapabilities, DeviceCapability, DeviceType};
use ei_wire::SendError;

impl Seat {
    /// The name, if the server told one.
    pub fn name<'a>(&self, converter: &'a EiEventConverter<impl Call>) -> Option<&'a str>
        ensures told { option_copied result ≡ name_of_seat (seat_in converter.now.kept self.now.id) }
        ensures none { seat_added_in converter.now.kept self.now.id ≡ false → result ≡ None }
    {
        converter.kept().seat(self.id())?.name()
    }

    /// Asks the server for devices of these capabilities: sends `bind` with the masks that it announced for them, 0
    /// for one that it didn't announce.
    ///
    /// `NoMemory`: nothing is sent.
    pub fn bind_capabilities(
        &self,
        converter: &EiEventConverter<impl Call>,
        ctx: &mut Context,
        capabilities: DeviceCapabilities,
    ) -> Result<(), SendError>
        ensures sends { Sends (request (codes "bind")) self.now
            (Long (bound capabilities (seat_in converter.now.kept self.now.id)) ∷ []) ctx.old ctx.new result }
        ensures none { seat_added_in converter.now.kept self.now.id ≡ false →
            Sends (request (codes "bind")) self.now (Long 0 ∷ []) ctx.old ctx.new result }
    {
        let mask = match converter.kept().seat(self.id()) {
            Some(seat) => seat.mask_of(capabilities),
            None => 0,
        };
        self.proxy().bind(ctx, mask)
    }
}

impl Device {
    /// The name, if the server told one.
    pub fn name<'a>(&self, converter: &'a EiEventConverter<impl Call>) -> Option<&'a str>
        ensures told { option_copied result ≡ name_of (device_in converter.now.kept self.now) }
        ensures none { added_in converter.now.kept self.now ≡ false → result ≡ None }
    {
        converter.kept().device(self)?.name()
    }

    /// Whether it is virtual or physical.
    pub fn device_type(&self, converter: &EiEventConverter<impl Call>) -> Option<DeviceType>
        ensures told { result ≡ type_of (device_in converter.now.kept self.now) }
        ensures none { added_in converter.now.kept self.now ≡ false → result ≡ None }
    {
        converter.kept().device(self)?.kind()
    }

    /// The width and the height of a physical device, in millimetres.
    pub fn dimensions(&self, converter: &EiEventConverter<impl Call>) -> Option<(u32, u32)>
        ensures told { result ≡ dimensions_of (device_in converter.now.kept self.now) }
        ensures none { added_in converter.now.kept self.now ≡ false → result ≡ None }
    {
        converter.kept().device(self)?.dimensions()
    }

    /// The regions of a virtual device, in the order in which the server told them.
    pub fn regions<'a>(&self, converter: &'a EiEventConverter<impl Call>) -> &'a [Region]
        ensures told { result.now ≡ regions_of (device_in converter.now.kept self.now) }
        ensures none { added_in converter.now.kept self.now ≡ false → result.now ≡ [] }
    {
        match converter.kept().device(self) {
            Some(device) => device.regions(),
            None => &[],
        }
    }

    /// The keymap of its keyboard, if the server told one.
    pub fn keymap<'a>(&self, converter: &'a EiEventConverter<impl Call>) -> Option<&'a Keymap>
        ensures told { option_copied result ≡ keymap_of (device_in converter.now.kept self.now) }
        ensures none { added_in converter.now.kept self.now ≡ false → result ≡ None }
    {
        converter.kept().device(self)?.keymap()
    }

    /// The interface, as the server announced it; `None` exactly where the device doesn't have it, or has it no more.
    pub fn interface<T: Interface>(&self, converter: &EiEventConverter<impl Call>) -> Option<T>
        ensures told { IsInterfaceOf converter.now.kept self.now T.KNOWN (option_map T.behind result) }
        ensures none { added_in converter.now.kept self.now ≡ false → result ≡ None }
    {
        let object = converter.kept().interface(self, T::KNOWN)?;
        Some(T::new_unchecked(object.copy()))
    }

    /// Whether it has the interface of the capability.
    pub fn has_capability(
        &self,
        converter: &EiEventConverter<impl Call>,
        capability: DeviceCapability,
    ) -> bool
        ensures told { IsTrue result ↔
            ((object : ObjectView) × HasInterface converter.now.kept self.now (interface_of capability) object) }
        ensures none { added_in converter.now.kept self.now ≡ false → result ≡ false }
    {
        converter
            .kept()
            .interface(self, capability.interface())
            .is_some()
    }
}
