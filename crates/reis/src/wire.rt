//! What messages are made of, one endpoint that reads and sends them, and the kinds of the proxies of both ends.

pub use ei_backend::{
    Accepted, Answer, Backend, Described, FIRST_SERVER_ID, HasBackend, InterfaceName, Kind,
    MessageEnum, Table, kinds,
};
pub use ei_types::{interfaces, known_interfaces, op_name};
pub use ei_wire::{
    Arg, ByteStream, EiText, FlushError, Handle, Header, KnownInterface, NoMemory, OwnedArg,
    RawFloat, ReadError, Sealed, SendError,
};
