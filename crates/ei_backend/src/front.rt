//! The message at the front of some bytes.

ghost use Rattle.std.specs.Prelude.{◌≡◌, ◌≤◌, length, IfSome};
ghost use Rattle.ei_spec.specs.Message.{front};
ghost use Rattle.ei_backend.specs.Front.{front_view, front_len, IsLawful, IsSound, ends_within};

use circular_buffer::HeapCircularBuffer;
use ei_spec::limits::MOST_MESSAGE_BYTES;

/// The bytes of a header.
pub(crate) const HEADER_BYTES: usize = 16;

/// What stands at the front.
#[derive(Clone, Copy)]
pub(crate) enum FrontMessage<'a> {
    /// No whole message. So many bytes are needed before there may be one.
    Short(usize),
    /// A header whose length is unlawful.
    Unlawful(u32),
    /// The target's id, the opcode, the body and the number of bytes, the header's included.
    Whole(u64, u32, &'a [u8], usize),
}

#[inline(always)]
#[tactic(auto, unfolding(ei_spec::specs::Message::front, ei_spec::specs::Message::of_le4, ei_spec::specs::Message::of_le8))]
pub(crate) fn front_of(bytes: &[u8]) -> FrontMessage<'_>
    ensures value { front_view bytes.now result ≡ front bytes.now }
    ensures lawful { IsLawful bytes.now result }
    ensures sound { IsSound result }
    ensures within { front_len result ≤ length bytes.now }
{
    if bytes.len() < HEADER_BYTES {
        return FrontMessage::Short(HEADER_BYTES);
    }
    let id = u64::from_le_bytes([
        bytes[0], bytes[1], bytes[2], bytes[3], bytes[4], bytes[5], bytes[6], bytes[7],
    ]);
    let len = u32::from_le_bytes([bytes[8], bytes[9], bytes[10], bytes[11]]);
    let opcode = u32::from_le_bytes([bytes[12], bytes[13], bytes[14], bytes[15]]);
    if len < 16 || len > MOST_MESSAGE_BYTES {
        return FrontMessage::Unlawful(len);
    }
    let end = len as usize;
    if bytes.len() < end {
        return FrontMessage::Short(end);
    }
    FrontMessage::Whole(id, opcode, &bytes[HEADER_BYTES..end], end)
}

/// Whether a header or a message ends behind the bytes that it was looked for in: within the first `all` bytes.
#[inline(always)]
pub(crate) fn is_across(front: FrontMessage<'_>, all: usize) -> bool
    ensures { result ≡ ends_within front.entry all }
{
    match front {
        FrontMessage::Short(needed) => needed <= all,
        FrontMessage::Unlawful(_) | FrontMessage::Whole(..) => false,
    }
}

/// What stands at the front of a ring, in place: `None` where a header or a message lies across the end of the ring.
#[inline(always)]
pub(crate) fn front_in_place(bytes: &HeapCircularBuffer<u8>) -> Option<FrontMessage<'_>>
    ensures value { IfSome result (λ f. front_view bytes.now.items f ≡ front bytes.now.items) }
    ensures sound { IfSome result IsSound }
    ensures within { IfSome result (λ f. front_len f ≤ length bytes.now.items) }
{
    let (first, _second) = bytes.as_slices();
    let front = front_of(first);
    if is_across(front, bytes.len()) {
        None
    } else {
        Some(front)
    }
}
