//! How many bytes the events have by which seats and devices come and go.

use ei_spec::limits::{CAPABILITIES, MOST_NAME_BYTES};

/// How many bytes the header of a message has.
const HEADER_BYTES: usize = 16;

/// How many bytes a number of 32 bits has.
pub(crate) const WORD_BYTES: usize = 4;

/// How many bytes a number of 64 bits has, as an id.
const LONG_BYTES: usize = 8;

/// How many bytes the longest name of an interface has as an argument: its length, and its text with a zero behind it, in
/// whole words.
const MOST_INTERFACE_NAME_BYTES: usize = WORD_BYTES
    + (MOST_NAME_BYTES / WORD_BYTES + 1) * WORD_BYTES;

/// How many bytes the event has that announces a seat or a device: its id and its version.
pub(crate) const ANNOUNCED_BYTES: usize = HEADER_BYTES + LONG_BYTES + WORD_BYTES;

/// How many bytes the event of a name has beside the text.
pub(crate) const NAME_BYTES: usize = HEADER_BYTES;

/// How many bytes the event of a capability has at most: its bit and the name of its interface.
pub(crate) const MOST_CAPABILITY_BYTES: usize = HEADER_BYTES
    + LONG_BYTES
    + MOST_INTERFACE_NAME_BYTES;

/// How many bytes the event of a device's type has.
pub(crate) const TYPE_BYTES: usize = HEADER_BYTES + WORD_BYTES;

/// How many bytes the event of an interface has at most: its id, its name and its version.
pub(crate) const MOST_INTERFACE_BYTES: usize = HEADER_BYTES
    + LONG_BYTES
    + MOST_INTERFACE_NAME_BYTES
    + WORD_BYTES;

/// How many bytes the event of an item has at most beside a text: a region's, with five numbers.
pub(crate) const MOST_ITEM_BYTES: usize = HEADER_BYTES + 5 * WORD_BYTES;

/// How many bytes the event has that ends a description.
pub(crate) const DONE_BYTES: usize = HEADER_BYTES;

/// How many bytes the event has that tells that an object is gone: a serial.
pub(crate) const DESTROYED_BYTES: usize = HEADER_BYTES + WORD_BYTES;

/// How many bytes the event that ends a connection has beside its text: a serial and a reason.
pub(crate) const END_BYTES: usize = HEADER_BYTES + 2 * WORD_BYTES;

/// How many bytes the events have at most that announce a seat, its name's text left out.
pub(crate) const MOST_SEAT_BYTES: usize = ANNOUNCED_BYTES
    + NAME_BYTES
    + CAPABILITIES * MOST_CAPABILITY_BYTES
    + DONE_BYTES;

/// How many bytes the events have at most that announce a device, its items and its name's text left out.
pub(crate) const MOST_DEVICE_BYTES: usize = ANNOUNCED_BYTES
    + NAME_BYTES
    + TYPE_BYTES
    + CAPABILITIES * MOST_INTERFACE_BYTES
    + DONE_BYTES;
