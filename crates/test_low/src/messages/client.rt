//! The client's end: its proxies, and its requests, each with the arguments that the table has.

use crate::messages::end::{
    End, HALF, MINUS_ONE, ONE, Sends, TWO, send_by, send_to, without_proxy,
};
use crate::messages::proxies::tell_proxy_of;
use ei_backend::{Interface, Kind, Object, PendingRequestResult};
use ei_client::{
    Button, Callback, Connection, Context, Device, Event, Gesture, Handshake, Keyboard, Pingpong,
    Pointer, PointerAbsolute, Proxy, Scroll, Seat, Text, Touchscreen, connection, device,
    handshake, seat,
};
use ei_spec::KnownInterface;
use ei_types::{ButtonState, ContextType, KeyState};
use ei_wire::{NoMemory, SendError};
use std::alloc::Global;
use test_table::Answer;

impl End for Context {
    type Message = Event;

    const IS_CLIENT: bool = true;

    fn new(alloc: Global) -> Result<Context, NoMemory> {
        Context::new(alloc)
    }

    fn next(&mut self) -> Result<Option<PendingRequestResult<Event>>, NoMemory> {
        self.pending_event()
    }

    fn send(&mut self, interface: KnownInterface, opcode: u32) -> Result<(), SendError> {
        send_to!(self, interface, opcode)
    }

    fn announced(message: &Event) -> Option<&Object> {
        match message {
            Event::Handshake(_, handshake::Event::Connection { connection, .. }) => {
                Some(connection.as_object())
            }
            Event::Connection(_, connection::Event::Seat { seat }) => Some(seat.as_object()),
            Event::Connection(_, connection::Event::Ping { ping }) => Some(ping.as_object()),
            Event::Seat(_, seat::Event::Device { device }) => Some(device.as_object()),
            Event::Device(_, device::Event::Interface { object }) => Some(object),
            _ => None,
        }
    }

    fn tell_proxy<K: Kind + Drop>(&self, answer: &mut Answer, object: &Object) {
        tell_proxy_of::<Proxy<K>, Context>(answer, self, object);
    }
}

impl Sends<Context> for Handshake {
    fn send(&self, context: &mut Context, opcode: u32) -> Result<(), SendError> {
        match opcode {
            0 => self.handshake_version(context, 4),
            1 => self.finish(context),
            2 => self.context_type(context, ContextType::Receiver),
            3 => self.name(context, "abc"),
            4 => self.interface_version(context, "ab", 7),
            _ => Ok(()),
        }
    }
}

impl Sends<Context> for Connection {
    fn send(&self, context: &mut Context, opcode: u32) -> Result<(), SendError> {
        match opcode {
            0 => without_proxy(self.sync(context, 3)),
            1 => self.disconnect(context),
            _ => Ok(()),
        }
    }
}

/// A client sends nothing to a callback.
impl Sends<Context> for Callback {}

impl Sends<Context> for Pingpong {
    fn send(&self, context: &mut Context, opcode: u32) -> Result<(), SendError> {
        match opcode {
            0 => self.done(context, 0x0102_0304_0506_0708),
            _ => Ok(()),
        }
    }
}

impl Sends<Context> for Seat {
    fn send(&self, context: &mut Context, opcode: u32) -> Result<(), SendError> {
        match opcode {
            0 => self.release(context),
            1 => self.bind(context, 127),
            2 => self.request_device(context, 33),
            _ => Ok(()),
        }
    }
}

impl Sends<Context> for Device {
    fn send(&self, context: &mut Context, opcode: u32) -> Result<(), SendError> {
        match opcode {
            0 => self.release(context),
            1 => self.start_emulating(context, 5, 6),
            2 => self.stop_emulating(context, 7),
            3 => self.frame(context, 8, 1000),
            4 => self.ready(context),
            _ => Ok(()),
        }
    }
}

impl Sends<Context> for Pointer {
    fn send(&self, context: &mut Context, opcode: u32) -> Result<(), SendError> {
        match opcode {
            0 => self.release(context),
            1 => self.motion_relative(context, MINUS_ONE, ONE),
            _ => Ok(()),
        }
    }
}

impl Sends<Context> for PointerAbsolute {
    fn send(&self, context: &mut Context, opcode: u32) -> Result<(), SendError> {
        match opcode {
            0 => self.release(context),
            1 => self.motion_absolute(context, HALF, TWO),
            _ => Ok(()),
        }
    }
}

impl Sends<Context> for Scroll {
    fn send(&self, context: &mut Context, opcode: u32) -> Result<(), SendError> {
        match opcode {
            0 => self.release(context),
            1 => self.scroll(context, TWO, MINUS_ONE),
            2 => self.scroll_discrete(context, -120, 120),
            3 => self.scroll_stop(context, 0, 1, 2),
            _ => Ok(()),
        }
    }
}

impl Sends<Context> for Button {
    fn send(&self, context: &mut Context, opcode: u32) -> Result<(), SendError> {
        match opcode {
            0 => self.release(context),
            1 => self.button(context, 273, ButtonState::Released),
            _ => Ok(()),
        }
    }
}

impl Sends<Context> for Keyboard {
    fn send(&self, context: &mut Context, opcode: u32) -> Result<(), SendError> {
        match opcode {
            0 => self.release(context),
            1 => self.key(context, 31, KeyState::Press),
            _ => Ok(()),
        }
    }
}

impl Sends<Context> for Touchscreen {
    fn send(&self, context: &mut Context, opcode: u32) -> Result<(), SendError> {
        match opcode {
            0 => self.release(context),
            1 => self.down(context, 11, ONE, TWO),
            2 => self.motion(context, 12, TWO, ONE),
            3 => self.up(context, 13),
            4 => self.cancel(context, 14),
            _ => Ok(()),
        }
    }
}

impl Sends<Context> for Text {
    fn send(&self, context: &mut Context, opcode: u32) -> Result<(), SendError> {
        match opcode {
            0 => self.release(context),
            1 => self.keysym(context, 98, KeyState::Released),
            2 => self.utf8(context, "xé"),
            _ => Ok(()),
        }
    }
}

impl Sends<Context> for Gesture {
    fn send(&self, context: &mut Context, opcode: u32) -> Result<(), SendError> {
        match opcode {
            0 => self.release(context),
            1 => self.swipe(context, 4, TWO, ONE),
            2 => self.pinch(context, HALF),
            _ => Ok(()),
        }
    }
}
