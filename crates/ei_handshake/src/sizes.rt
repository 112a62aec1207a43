//! The sizes of the messages of a handshake.

use ei_spec::limits::MOST_NAME_BYTES;

/// The bytes of a header; of a number; and of an id.
pub(crate) const HEADER_BYTES: usize = 16;

pub(crate) const WORD_BYTES: usize = 4;

pub(crate) const LONG_BYTES: usize = 8;

/// The most bytes of an interface's name as an argument: its length, and the name with a closing byte, padded to whole words.
const MOST_NAME_ARGUMENT_BYTES: usize = WORD_BYTES
    + (MOST_NAME_BYTES + WORD_BYTES) / WORD_BYTES * WORD_BYTES;

/// The most bytes of the message that tells a version: the name and the version.
pub(crate) const MOST_VERSION_BYTES: usize = HEADER_BYTES + MOST_NAME_ARGUMENT_BYTES + WORD_BYTES;
