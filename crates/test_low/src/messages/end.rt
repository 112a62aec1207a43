//! An end of the protocol, as the tests see it.

use crate::messages::targets::proxy;
use ei_backend::{HasBackend, Interface, Kind, MessageEnum, Object, PendingRequestResult};
use ei_spec::KnownInterface;
use ei_wire::{NoMemory, RawFloat, SendError};
use std::alloc::Global;
use std::fmt::Debug;
use test_table::Answer;

/// The floats that are sent: -1, 0.5, 1 and 2.
pub(crate) const MINUS_ONE: RawFloat = RawFloat(0xbf80_0000);

pub(crate) const HALF: RawFloat = RawFloat(0x3f00_0000);

pub(crate) const ONE: RawFloat = RawFloat(0x3f80_0000);

pub(crate) const TWO: RawFloat = RawFloat(0x4000_0000);

/// The context of one end.
pub(crate) trait End: HasBackend + Drop {
    /// What it reads.
    type Message: MessageEnum + Debug + Drop;

    const IS_CLIENT: bool;

    fn new(alloc: Global) -> Result<Self, NoMemory>;

    /// The next message that is whole.
    fn next(&mut self) -> Result<Option<PendingRequestResult<Self::Message>>, NoMemory>;

    /// Sends the message of that opcode to the object of the interface, with the arguments that the table has.
    /// Nothing where the interface has no such message of this end.
    fn send(&mut self, interface: KnownInterface, opcode: u32) -> Result<(), SendError>;

    /// The object that a message announces.
    fn announced(message: &Self::Message) -> Option<&Object>;

    /// Tells the proxy of that kind over the object: nothing where the object has none.
    fn tell_proxy<K: Kind + Drop>(&self, answer: &mut Answer, object: &Object);
}

/// A proxy that sends each message of its interface, with the arguments that the table has.
pub(crate) trait Sends<C>: Interface + Drop {
    /// Sends the message of that opcode. Nothing where the interface has no such message of this end, or none at all.
    fn send(&self, _context: &mut C, _opcode: u32) -> Result<(), SendError> {
        Ok(())
    }
}

/// Sends the message of that opcode by the proxy of that type, if there is one.
pub(crate) fn send_by<T: Sends<C>, C: HasBackend>(
    context: &mut C,
    opcode: u32,
) -> Result<(), SendError> {
    match proxy::<T, C>(context) {
        Some(proxy) => proxy.send(context, opcode),
        None => Ok(()),
    }
}

/// What became of a message that announces an object, without the proxy of the object.
pub(crate) fn without_proxy<T: Drop>(sent: Result<T, SendError>) -> Result<(), SendError> {
    match sent {
        Ok(_proxy) => Ok(()),
        Err(error) => Err(error),
    }
}

/// Sends the message of that opcode to the object of the interface, by the end's proxy of it.
macro_rules! send_to {
    ($context:ident, $interface:ident, $opcode:ident) => {
        match $interface {
            KnownInterface::Handshake => send_by::<Handshake, Context>($context, $opcode),
            KnownInterface::Connection => send_by::<Connection, Context>($context, $opcode),
            KnownInterface::Callback => send_by::<Callback, Context>($context, $opcode),
            KnownInterface::Pingpong => send_by::<Pingpong, Context>($context, $opcode),
            KnownInterface::Seat => send_by::<Seat, Context>($context, $opcode),
            KnownInterface::Device => send_by::<Device, Context>($context, $opcode),
            KnownInterface::Pointer => send_by::<Pointer, Context>($context, $opcode),
            KnownInterface::PointerAbsolute => send_by::<PointerAbsolute, Context>($context, $opcode),
            KnownInterface::Scroll => send_by::<Scroll, Context>($context, $opcode),
            KnownInterface::Button => send_by::<Button, Context>($context, $opcode),
            KnownInterface::Keyboard => send_by::<Keyboard, Context>($context, $opcode),
            KnownInterface::Touchscreen => send_by::<Touchscreen, Context>($context, $opcode),
            KnownInterface::Text => send_by::<Text, Context>($context, $opcode),
            KnownInterface::Gesture => send_by::<Gesture, Context>($context, $opcode),
        }
    };
}

pub(crate) use send_to;
