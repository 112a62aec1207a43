//! The objects of a client, by the ids that a server gives them.

ghost use Rattle.std.specs.Prelude.{◌≡◌, ◌<◌, ◌≤◌, ◌+◌, OnOk};
ghost use Rattle.ei_spec.specs.declared.interface.KnownInterface.TheVariants as known;
ghost use Rattle.ei_types.specs.Capability.{bits_of, interface_of};
ghost use Rattle.ei_session.specs.Setup.{connection_id, seat_id};
ghost use Rattle.ei_session.specs.Devices.{interfaces_of};
ghost use Rattle.ei_backend.specs.Table.{found};
ghost use Rattle.ei_spec.specs.Interface.{server_version};
ghost use Rattle.ei_playing.specs.Playing.{interface_id, capabilities_below};
ghost use Rattle.ei_player.specs.Objects.{IsAt, MayHear, Announces, with_peer};

use ei_backend::{FIRST_SERVER_ID, HasBackend, InterfaceName};
use ei_client::{
    Button, Connection, Context, Device, Gesture, Interface, Keyboard, Pointer, PointerAbsolute,
    Scroll, Seat, Text, Touchscreen,
};
use ei_types::{DeviceCapabilities, DeviceCapability};
use ei_wire::NoMemory;

/// The proxy of the object of that id, which the client has.
pub fn proxy<T: Interface>(client: &Context, id: u64) -> T
    requires { IsAt T.KNOWN id (found client.now.table id) }
    ensures { (T.behind result).id ≡ id }
{
    let object = client.backend().object_for_id(id).unwrap();
    T::new_unchecked(object.copy_of(T::KNOWN))
}

/// The client is told of an object.
fn announce<T: Interface>(client: &mut Context, id: u64) -> Result<(), NoMemory>
    requires { MayHear id id client.old }
    ensures { OnOk result (client.new ≡ with_peer client.old id T.KNOWN T.VERSION) }
{
    let name = InterfaceName::Known(T::KNOWN);
    match client.backend_mut().new_peer_object(id, name, T::VERSION) {
        Ok(_) => Ok(()),
        Err(_) => Err(NoMemory),
    }
}

/// The client is told of the interface that bears a capability.
fn announce_interface(
    client: &mut Context,
    id: u64,
    capability: DeviceCapability,
) -> Result<(), NoMemory>
    requires { MayHear id id client.old }
    ensures { OnOk result (client.new ≡
        with_peer client.old id (interface_of capability) (server_version (interface_of capability))) }
{
    match capability {
        DeviceCapability::Pointer => announce::<Pointer>(client, id),
        DeviceCapability::PointerAbsolute => announce::<PointerAbsolute>(client, id),
        DeviceCapability::Keyboard => announce::<Keyboard>(client, id),
        DeviceCapability::Touch => announce::<Touchscreen>(client, id),
        DeviceCapability::Scroll => announce::<Scroll>(client, id),
        DeviceCapability::Button => announce::<Button>(client, id),
        DeviceCapability::Text => announce::<Text>(client, id),
        DeviceCapability::Gesture => announce::<Gesture>(client, id),
    }
}

/// The client is told of the connection and its seat.
pub fn announce_first(client: &mut Context) -> Result<(), NoMemory>
    requires { MayHear connection_id seat_id client.old }
    ensures { OnOk result (client.new ≡
        with_peer (with_peer client.old connection_id known.Connection 1) seat_id known.Seat 2) }
{
    announce::<Connection>(client, FIRST_SERVER_ID)?;
    announce::<Seat>(client, FIRST_SERVER_ID + 1)
}

/// The client is told of a device of these capabilities, and of its interfaces.
pub fn announce_device(
    client: &mut Context,
    device: u64,
    capabilities: DeviceCapabilities,
) -> Result<(), NoMemory>
    requires { MayHear device (device + 8) client.old }
    ensures { OnOk result (Announces device (interfaces_of (bits_of capabilities)) client.old client.new) }
{
    announce::<Device>(client, device)?;
    let mut next = device + 1;
    for at in 0..DeviceCapability::ALL.len() {
        let capability = DeviceCapability::ALL[at];
        if capabilities.has(capability) {
            announce_interface(client, next, capability)?;
            next += 1;
        }
    }
    Ok(())
}

/// The id of the interface that bears a capability, of a device of these.
pub fn interface_id(
    device: u64,
    capabilities: DeviceCapabilities,
    capability: DeviceCapability,
) -> u64
    requires { device < 18446744073709551607 }
    ensures { result ≡ interface_id device (bits_of capabilities) capability }
{
    device + 1 + count_below(capabilities, capability)
}

/// How many of these capabilities come before that one.
fn count_below(capabilities: DeviceCapabilities, capability: DeviceCapability) -> u64
    ensures count { result ≡ capabilities_below (bits_of capabilities) capability }
    ensures few { result ≤ 8 }
{
    DeviceCapability::ALL[..capability.index()]
        .iter()
        .filter(|one| capabilities.has(**one))
        .count() as u64
}
