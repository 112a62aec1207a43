//! The server's end: its proxies, and its events, each with the arguments that the table has.

use crate::messages::end::{
    End, HALF, MINUS_ONE, ONE, Sends, TWO, send_by, send_to, without_proxy,
};
use crate::messages::proxies::tell_proxy_of;
use ei_backend::{Interface, Kind, Object, PendingRequestResult};
use ei_server::{
    Button, Callback, Connection, Context, Device, Gesture, Handshake, Keyboard, Pingpong, Pointer,
    PointerAbsolute, Proxy, Request, Scroll, Seat, Text, Touchscreen, connection,
};
use ei_spec::{Handle, KnownInterface};
use ei_types::{ButtonState, DeviceType, DisconnectReason, KeyState, KeymapType};
use ei_wire::{NoMemory, SendError};
use std::alloc::Global;
use test_table::Answer;

impl End for Context {
    type Message = Request;

    const IS_CLIENT: bool = false;

    fn new(alloc: Global) -> Result<Context, NoMemory> {
        Context::new(alloc)
    }

    fn next(&mut self) -> Result<Option<PendingRequestResult<Request>>, NoMemory> {
        self.pending_request()
    }

    fn send(&mut self, interface: KnownInterface, opcode: u32) -> Result<(), SendError> {
        send_to!(self, interface, opcode)
    }

    fn announced(message: &Request) -> Option<&Object> {
        match message {
            Request::Connection(_, connection::Request::Sync { callback }) => {
                Some(callback.as_object())
            }
            _ => None,
        }
    }

    fn tell_proxy<K: Kind + Drop>(&self, answer: &mut Answer, object: &Object) {
        tell_proxy_of::<Proxy<K>, Context>(answer, self, object);
    }
}

impl Sends<Context> for Handshake {
    fn send(&self, context: &mut Context, opcode: u32) -> Result<(), SendError> {
        match opcode {
            0 => self.handshake_version(context, 3),
            1 => self.interface_version(context, "ab", 7),
            2 => without_proxy(self.connection(context, 9, 4)),
            _ => Ok(()),
        }
    }
}

impl Sends<Context> for Connection {
    fn send(&self, context: &mut Context, opcode: u32) -> Result<(), SendError> {
        match opcode {
            0 => self.disconnected(context, 6, DisconnectReason::Protocol, Some("abcd")),
            1 => without_proxy(self.seat(context, 2)),
            2 => self.invalid_object(context, 5, 0x0102_0304_0506_0708),
            3 => without_proxy(self.ping(context, 6)),
            _ => Ok(()),
        }
    }
}

impl Sends<Context> for Callback {
    fn send(&self, context: &mut Context, opcode: u32) -> Result<(), SendError> {
        match opcode {
            0 => self.done(context, 0x0102_0304_0506_0708),
            _ => Ok(()),
        }
    }
}

/// A server sends nothing to a ping-pong.
impl Sends<Context> for Pingpong {}

impl Sends<Context> for Seat {
    fn send(&self, context: &mut Context, opcode: u32) -> Result<(), SendError> {
        match opcode {
            0 => self.destroyed(context, 4),
            1 => self.name(context, "a"),
            2 => self.capability(context, 32, "ab"),
            3 => self.done(context),
            4 => without_proxy(self.device(context, 3)),
            _ => Ok(()),
        }
    }
}

impl Sends<Context> for Device {
    fn send(&self, context: &mut Context, opcode: u32) -> Result<(), SendError> {
        match opcode {
            0 => self.destroyed(context, 14),
            1 => self.name(context, "abc"),
            2 => self.device_type(context, DeviceType::Virtual),
            3 => self.dimensions(context, 1920, 1080),
            4 => self.region(context, 10, 20, 30, 40, ONE),
            5 => without_proxy(self.interface::<Pointer>(context, 8)),
            _ => emulate(context, self, opcode),
        }
    }
}

/// What is sent of a device that is described: that it is, whether it takes input, and of its input what the server
/// itself sends; and the name of a region.
fn emulate(context: &mut Context, device: &Device, opcode: u32) -> Result<(), SendError> {
    match opcode {
        6 => device.done(context),
        7 => device.resumed(context, 5),
        8 => device.paused(context, 6),
        9 => device.start_emulating(context, 7, 12),
        10 => device.stop_emulating(context, 11),
        11 => device.frame(context, 13, 1000),
        12 => device.region_mapping_id(context, "ab"),
        _ => Ok(()),
    }
}

impl Sends<Context> for Pointer {
    fn send(&self, context: &mut Context, opcode: u32) -> Result<(), SendError> {
        match opcode {
            0 => self.destroyed(context, 15),
            1 => self.motion_relative(context, ONE, MINUS_ONE),
            _ => Ok(()),
        }
    }
}

impl Sends<Context> for PointerAbsolute {
    fn send(&self, context: &mut Context, opcode: u32) -> Result<(), SendError> {
        match opcode {
            0 => self.destroyed(context, 16),
            1 => self.motion_absolute(context, TWO, HALF),
            _ => Ok(()),
        }
    }
}

impl Sends<Context> for Scroll {
    fn send(&self, context: &mut Context, opcode: u32) -> Result<(), SendError> {
        match opcode {
            0 => self.destroyed(context, 17),
            1 => self.scroll(context, MINUS_ONE, TWO),
            2 => self.scroll_discrete(context, 120, -120),
            3 => self.scroll_stop(context, 1, 0, 2),
            _ => Ok(()),
        }
    }
}

impl Sends<Context> for Button {
    fn send(&self, context: &mut Context, opcode: u32) -> Result<(), SendError> {
        match opcode {
            0 => self.destroyed(context, 18),
            1 => self.button(context, 272, ButtonState::Press),
            _ => Ok(()),
        }
    }
}

impl Sends<Context> for Keyboard {
    fn send(&self, context: &mut Context, opcode: u32) -> Result<(), SendError> {
        match opcode {
            0 => self.destroyed(context, 21),
            1 => self.keymap(context, KeymapType::Xkb, 19, Handle(7)),
            2 => self.key(context, 30, KeyState::Released),
            3 => self.modifiers(context, 20, 1, 2, 4, 6),
            _ => Ok(()),
        }
    }
}

impl Sends<Context> for Touchscreen {
    fn send(&self, context: &mut Context, opcode: u32) -> Result<(), SendError> {
        match opcode {
            0 => self.destroyed(context, 26),
            1 => self.down(context, 22, ONE, MINUS_ONE),
            2 => self.motion(context, 23, TWO, HALF),
            3 => self.up(context, 24),
            4 => self.cancel(context, 25),
            _ => Ok(()),
        }
    }
}

impl Sends<Context> for Text {
    fn send(&self, context: &mut Context, opcode: u32) -> Result<(), SendError> {
        match opcode {
            0 => self.destroyed(context, 27),
            1 => self.keysym(context, 97, KeyState::Press),
            2 => self.utf8(context, "é"),
            _ => Ok(()),
        }
    }
}

impl Sends<Context> for Gesture {
    fn send(&self, context: &mut Context, opcode: u32) -> Result<(), SendError> {
        match opcode {
            0 => self.destroyed(context, 30),
            1 => self.swipe(context, 3, ONE, MINUS_ONE),
            2 => self.pinch(context, TWO),
            _ => Ok(()),
        }
    }
}
