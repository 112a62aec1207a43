//! What a server announces of a device of seven capabilities.

use ei_server::{Connection, Context, Device, Pointer, Seat};
use ei_spec::KnownInterface;
use ei_types::{DeviceType, Error, HandshakeError};

/// The mask that the seat announces for its one capability.
const MASK: u64 = 1;

/// The interfaces of a device behind its pointer, each with its version.
const OTHERS: [(KnownInterface, u32); 6] = [
    (KnownInterface::PointerAbsolute, 1),
    (KnownInterface::Keyboard, 1),
    (KnownInterface::Touchscreen, 2),
    (KnownInterface::Scroll, 1),
    (KnownInterface::Button, 1),
    (KnownInterface::Text, 1),
];

/// A device that was announced, with its pointer.
#[derive(Drop)]
pub(crate) struct Announced {
    pub(crate) device: Device,
    pub(crate) pointer: Pointer,
}

/// Announces the connection, a seat, a device and its seven interfaces, each whole, with the ids from 0xff00000000000000 on. Each
/// proxy is let go by a call: at the end of a scope the drop of each field is proved anew.
///
/// `MissingInterface` where the handshake is gone already.
pub(crate) fn announce(context: &mut Context) -> Result<Announced, Error> {
    let Some(handshake) = context.handshake() else {
        return Err(Error::Handshake(HandshakeError::MissingInterface));
    };
    let made = handshake.connection(context, 1, 1);
    drop(handshake);
    let connection = made?;
    let announced = announce_seat(context, &connection);
    drop(connection);
    announced
}

/// Announces a seat, and its device.
fn announce_seat(context: &mut Context, connection: &Connection) -> Result<Announced, Error> {
    let seat = connection.seat(context, 2)?;
    let announced = describe_seat(context, &seat);
    drop(seat);
    announced
}

/// Announces what a seat has, and its device.
fn describe_seat(context: &mut Context, seat: &Seat) -> Result<Announced, Error> {
    seat.capability(context, MASK, "ei_pointer")?;
    seat.done(context)?;
    announce_device(context, seat)
}

/// Announces a device, and its interfaces.
fn announce_device(context: &mut Context, seat: &Seat) -> Result<Announced, Error> {
    let device = seat.device(context, 3)?;
    match announce_pointer(context, &device) {
        Ok(pointer) => Ok(Announced { device, pointer }),
        Err(error) => {
            drop(device);
            Err(error)
        }
    }
}

/// Announces the interfaces of a device, and answers its pointer.
fn announce_pointer(context: &mut Context, device: &Device) -> Result<Pointer, Error> {
    device.device_type(context, DeviceType::Virtual)?;
    let pointer = device.interface::<Pointer>(context, 1)?;
    match announce_others(context, device) {
        Ok(()) => Ok(pointer),
        Err(error) => {
            drop(pointer);
            Err(error)
        }
    }
}

/// Announces the interfaces of a device behind its pointer, and that these are all.
fn announce_others(context: &mut Context, device: &Device) -> Result<(), Error> {
    for (interface, version) in &OTHERS {
        drop(device.known_interface(context, *interface, *version)?);
    }
    Ok(device.done(context)?)
}
