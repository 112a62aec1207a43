//! How the ring of unread bytes grows.

ghost use Rattle.std.specs.Prelude.{◌≡◌, ◌≢◌, ℕ, ◌+◌, ◌*◌, ◌/◌, ◌^◌, ◌<◌, ◌≤◌, length, IsOk, OnOk, OnErr, MatchOption};
ghost use Rattle.circular_buffer.specs.Buffer.{buffer};
ghost use Rattle.ei_backend.specs.Ring.{first_capacity, grown};

use circular_buffer::HeapCircularBuffer;
use ei_spec::limits::{MOST_MESSAGE_BYTES, MOST_PIECE_BYTES};
use ei_wire::NoMemory;

/// The bytes that a new ring holds: two pieces.
pub(crate) const FIRST_CAPACITY: usize = 131072;

/// A ring with room for one more piece stays as it is. Any other grows to the least of 131072, 262144,
/// 524288 and so on that has room for it: at most 2097152 while less than the longest message is unread.
pub fn ring_laws()
    ensures stays { (n capacity : ℕ) → n + MOST_PIECE_BYTES ≤ capacity → grown n capacity ≡ capacity }
    ensures doubled { (n capacity : ℕ) → capacity < n + MOST_PIECE_BYTES → (k : ℕ) ×
        (grown n capacity ≡ first_capacity * 2 ^ k) }
    ensures room { (n capacity : ℕ) → n + MOST_PIECE_BYTES ≤ grown n capacity }
    ensures least { (n capacity : ℕ) → capacity < n + MOST_PIECE_BYTES → grown n capacity ≢ first_capacity →
        grown n capacity / 2 < n + MOST_PIECE_BYTES }
    ensures bounded { (n capacity : ℕ) → n < MOST_MESSAGE_BYTES → capacity ≤ 2097152 → grown n capacity ≤ 2097152 }
{}

/// The capacity with room for a piece behind so many bytes. `None` where it is past every number.
fn capacity_for(len: usize, capacity: usize) -> Option<usize>
    requires { len < 2 ^ 63 }
    ensures { MatchOption result (2 ^ 64 ≤ grown len capacity) (λ c. c ≡ grown len capacity) }
{
    let wanted = len + MOST_PIECE_BYTES;
    if wanted <= capacity {
        return Some(capacity);
    }
    let mut larger = FIRST_CAPACITY;
    while larger < wanted {
        larger = larger.checked_mul(2)?;
    }
    Some(larger)
}

/// Lets a ring hold one more piece behind what is in it.
///
/// `NoMemory`, but not where it has that room; then the ring is as it was.
pub(crate) fn make_room(bytes: &mut HeapCircularBuffer<u8>) -> Result<(), NoMemory>
    ensures ok { OnOk result (bytes.new ≡ buffer bytes.old.items (grown (length bytes.old.items) bytes.old.capacity)) }
    ensures err { OnErr result (bytes.new ≡ bytes.old) }
    ensures room { length bytes.old.items + MOST_PIECE_BYTES ≤ bytes.old.capacity → IsOk result }
{
    let Some(capacity) = capacity_for(bytes.len(), bytes.capacity()) else {
        return Err(NoMemory);
    };
    if capacity != bytes.capacity() {
        bytes.resize(capacity)?;
    }
    Ok(())
}
