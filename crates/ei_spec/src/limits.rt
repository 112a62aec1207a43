//! The limits of the protocol and of this library. Definitions, contracts and code cite them from here.

/// The most bytes of a message, its header included (the protocol).
pub const MOST_MESSAGE_BYTES: u32 = 1048576;

/// The most bytes of a piece: what a source hands over at a time (our choice).
pub const MOST_PIECE_BYTES: usize = 65536;

/// The most handles of a piece (our choice).
pub const MOST_PIECE_HANDLES: usize = 64;

/// The most handles that wait to be read; one more ends the connection (our choice).
pub const MOST_UNREAD_HANDLES: usize = 4096;

/// The most touches of a device that are down at a time (libei).
pub const MOST_TOUCHES: usize = 16;

/// The most bytes of a text that a client enters (libei).
pub const MOST_TEXT_BYTES: usize = 254;

/// The first id of a server; a client's ids lie below it (the protocol).
pub const FIRST_SERVER_ID: u64 = 0xff00000000000000;

/// How many interfaces a handshake settles.
pub const SETTLED_INTERFACES: usize = 13;

/// How many interfaces there are: that of the handshake, and those that it settles.
pub const INTERFACES: usize = SETTLED_INTERFACES + 1;

/// The most bytes of an interface's name.
pub const MOST_NAME_BYTES: usize = 19;

/// The most messages of one end to the objects of an interface.
pub const MOST_OPCODES: usize = 13;

/// How many interfaces stand for a capability of a device.
pub const CAPABILITIES: usize = 8;

/// The bits of all capabilities.
pub const ALL_CAPABILITIES: u64 = (1 << CAPABILITIES) - 1;
