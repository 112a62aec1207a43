//! The events of a server.

ghost use Rattle.std.specs.Prelude.{◌≡◌, true, IfSome, IfOk, IfErr, OnErr};
ghost use Rattle.ei_client.specs.Event.{target_of, opcode_of, values_of, announced_of};
ghost use Rattle.ei_client.specs.Asked.{IsToKnown, IsAsked};
ghost use Rattle.ei_spec.specs.Interface.{Known};
ghost use Rattle.ei_wire.specs.Gives.{WhereFull};
ghost use Rattle.ei_backend.specs.Message.{message_wants};
ghost use Rattle.ei_backend.specs.Proxies.{Announced, ReadsRow};

use crate::button::{self, Button};
use crate::callback::{self, Callback};
use crate::connection::{self, Connection};
use crate::device::{self, Device};
use crate::gesture::{self, Gesture};
use crate::handshake::{self, Handshake};
use crate::keyboard::{self, Keyboard};
use crate::message::Message;
use crate::pointer::{self, Pointer};
use crate::pointer_absolute::{self, PointerAbsolute};
use crate::scroll::{self, Scroll};
use crate::seat::{self, Seat};
use crate::text::{self, Text};
use crate::touchscreen::{self, Touchscreen};
use ei_backend::{Interface, MessageEnum, Object, Table};
use ei_spec::KnownInterface;
use ei_wire::{Arg, ByteStream, EiText, NoMemory, ParseError};
use std::alloc::Global;

/// An event, with the proxy that it is sent to.
#[derive(Debug, Drop)]
pub enum Event {
    Handshake(Handshake, handshake::Event),
    Connection(Connection, connection::Event),
    Callback(Callback, callback::Event),
    Seat(Seat, seat::Event),
    Device(Device, device::Event),
    Pointer(Pointer, pointer::Event),
    PointerAbsolute(PointerAbsolute, pointer_absolute::Event),
    Scroll(Scroll, scroll::Event),
    Button(Button, button::Event),
    Keyboard(Keyboard, keyboard::Event),
    Touchscreen(Touchscreen, touchscreen::Event),
    Text(Text, text::Event),
    Gesture(Gesture, gesture::Event),
}

/// Hands the interfaces that bear most inputs, each with its file, to the macro that a call names, behind any others.
macro_rules! inputs {
    ($write:ident $with:tt $($others:tt)*) => {
        $write! { $with $($others)*
            Device device,
            Pointer pointer,
            PointerAbsolute pointer_absolute,
            Scroll scroll,
            Button button,
            Keyboard keyboard,
            Touchscreen touchscreen,
        }
    };
}

/// Hands the interfaces that bear none, or few, to that macro.
macro_rules! others {
    ($write:ident $with:tt) => {
        $write! { $with
            Handshake handshake,
            Connection connection,
            Callback callback,
            Seat seat,
            Text text,
            Gesture gesture,
        }
    };
}

/// Hands the interfaces that bear most inputs to that macro, behind these.
macro_rules! inputs_behind {
    (($write:ident $with:tt) $($others:tt)+) => {
        inputs! { $write $with $($others)+ }
    };
}

/// Hands all the interfaces to which an event is sent to that macro.
macro_rules! interfaces {
    ($write:ident $with:tt) => {
        others! { inputs_behind ($write $with) }
    };
}

/// Reads an event to an object of that interface: a `match` with an arm an interface.
macro_rules! read_event {
    (($known:ident, $object:ident, $opcode:ident, $bytes:ident, $table:ident) $($interface:ident $file:ident,)+) => {
        match $known {
            // no event is sent to a ping
            KnownInterface::Pingpong => Err(ParseError::InvalidOpcode("pingpong", $opcode)),
            $(KnownInterface::$interface => match $file::Event::parse($opcode, $bytes, $table) {
                Ok(event) => Ok(Event::$interface($interface::over($object), event)),
                Err(error) => Err(error),
            },)+
        }
    };
}

/// Reads an event to an object of one of these interfaces, if it is lawful: a `match` with an arm an interface.
macro_rules! lawful_event {
    (($known:ident, $object:ident, $opcode:ident, $bytes:ident, $otherwise:tt) $($interface:ident $file:ident,)+) => {
        match $known {
            $(KnownInterface::$interface => {
                let event = $file::Event::parse_lawful($opcode, $bytes)?;
                Some(Event::$interface($interface::over($object), event))
            })+
            _ => $otherwise,
        }
    };
}

/// Answers the same of the proxy or the event, whatever the interface: a `match` with an arm an interface.
macro_rules! each_event {
    (($of:ident, ($proxy:pat, $event:pat) => $answer:expr) $($interface:ident $file:ident,)+) => {
        match $of {
            $(Event::$interface($proxy, $event) => $answer,)+
        }
    };
}

impl MessageEnum for Event {
    ghost events = { true };

    ghost target = { target_of };

    ghost code = { opcode_of };

    ghost values = { values_of };

    ghost announced = { announced_of };

    fn parse(
        alloc: Global,
        object: Object,
        opcode: u32,
        bytes: &mut ByteStream<'_>,
        table: &mut Table,
    ) -> Result<Event, ParseError> {
        match object.known_interface() {
            Some(known) => parse_known(known, &object, opcode, bytes, table),
            None => {
                let name = EiText::new(alloc, object.interface())?;
                Err(ParseError::InvalidInterface(name))
            }
        }
    }

    #[inline(always)]
    fn parse_lawful(object: &Object, opcode: u32, bytes: &mut ByteStream<'_>) -> Option<Event> {
        let known = object.known_interface()?;
        inputs!(lawful_event(
            known,
            object,
            opcode,
            bytes,
            {
                let asked = Asked {
                    known,
                    object,
                    opcode,
                };
                lawful_rare(asked, bytes)
            }
        ))
    }

    fn arguments(&self, alloc: Global) -> Result<Vec<Arg<'_>>, NoMemory> {
        interfaces!(each_event(self, (_, event) => event.arguments(alloc)))
    }

    fn args(&self, alloc: Global) -> Result<Vec<Arg<'_>>, NoMemory> {
        interfaces!(each_event(self, (_, event) => event.args(alloc)))
    }

    fn object(&self) -> &Object {
        interfaces!(each_event(self, (proxy, _) => proxy.as_object()))
    }

    fn opcode(&self) -> u32 {
        interfaces!(each_event(self, (_, event) => event.opcode()))
    }
}

/// Reads an event to an object of that interface.
fn parse_known(
    known: KnownInterface,
    object: &Object,
    opcode: u32,
    bytes: &mut ByteStream<'_>,
    table: &mut Table,
) -> Result<Event, ParseError>
    requires { object.now.interface ≡ Known known }
    ensures read { ReadsRow values_of true known opcode bytes.old bytes.new table.old table.new result }
    ensures target { IfOk result (λ m. (target_of m ≡ object.now) × (opcode_of m ≡ opcode)) }
    ensures announced { IfOk result (λ m. Announced (announced_of m) table.old table.new) }
    ensures err { OnErr result (table.new ≡ table.old) }
    ensures memory { IfErr result (WhereFull (message_wants true (Known known) opcode ≡ true)) }
{
    interfaces!(read_event(known, object, opcode, bytes, table))
}

/// An event that may be read: the object that it is to, with its interface, and its opcode.
struct Asked<'a> {
    known: KnownInterface,
    object: &'a Object,
    opcode: u32,
}

/// Reads an event to an object of an interface that bears no input, or few, if it is lawful. What isn't read yet is forked, and the
/// answer is said to a place of its own first, so that those of the caller needn't be in memory.
#[inline(always)]
fn lawful_rare(asked: Asked<'_>, bytes: &mut ByteStream<'_>) -> Option<Event>
    requires { IsToKnown asked }
    ensures { IfSome result (IsAsked asked.entry bytes.old bytes.new) }
{
    let mut fork = bytes.fork();
    let message = lawful_apart(asked, &mut fork);
    bytes.join(fork);
    message
}

/// The same, by a call of its own.
#[inline(never)]
fn lawful_apart(asked: Asked<'_>, bytes: &mut ByteStream<'_>) -> Option<Event>
    requires { IsToKnown asked }
    ensures { IfSome result (IsAsked asked.entry bytes.old bytes.new) }
{
    let Asked {
        known,
        object,
        opcode,
    } = asked;
    others!(lawful_event(known, object, opcode, bytes, None))
}
