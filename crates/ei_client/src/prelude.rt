//! What the files of proxies name, in one place.

pub(crate) use crate::context::Context;
pub(crate) use crate::message::{Message, Parsed};
pub(crate) use crate::proxy::{Proxy, Sent};
pub(crate) use crate::rows::{list_row, opcode_of, read_lawful, read_row, show_row};
pub(crate) use ei_backend::{
    HasBackend, Interface, Table, kinds, read_five, read_one, read_three, read_two,
};
pub(crate) use ei_wire::{
    Arg, ByteStream, EiText, Handle, NoMemory, OwnedArg, ParseError, RawFloat, SendError,
    lawful_none, lawful_one, lawful_three, lawful_two,
};
pub(crate) use std::alloc::Global;
