//! Short messages: their arguments are numbers alone, a few words of 32 bits.

ghost use Rattle.std.specs.Prelude.{◌≡◌, ◌≤◌, ◌+◌, ◌*◌, ◌++◌, take, length, IfSome, IsSome, []};
ghost use Rattle.ei_spec.specs.Value.{written, handles_of};
ghost use Rattle.ei_spec.specs.Message.{bytes_of, header, le4, le8};
ghost use Rattle.ei_wire.specs.Gives.{value_of_arg};
ghost use Rattle.ei_backend.specs.Outgoing.{Appends, args_body, args_handles};
ghost use Rattle.ei_backend.specs.Words.{word_bytes, of_words};

use ei_wire::{Arg, Header, NoMemory};

/// The most words of a short message. Of the protocol's messages with numbers alone none has more than five.
pub(crate) const MOST_WORDS: usize = 6;

/// The most bytes of a short message.
const MOST_SHORT_BYTES: usize = 40;

/// The words of the arguments, where they are numbers and not too many: so many at the front.
// Inlined up to a caller that lists its arguments: nothing of them is left there but the words.
#[inline(always)]
pub(crate) fn words_of(args: &[Arg<'_>], words: &mut [u32; MOST_WORDS]) -> Option<usize>
    ensures count { IfSome result (λ count. count ≤ MOST_WORDS) }
    ensures bytes { IfSome result (λ count. word_bytes (take count words.new) ≡ args_body args.now) }
    ensures handles { IsSome result → args_handles args.now ≡ [] }
{
    let mut count = 0;
    for arg in args {
        count = put_arg(words, count, arg)?;
    }
    Some(count)
}

/// Puts the words of one more argument behind so many, where it is a number and has room.
#[inline(always)]
#[tactic(auto, unfolding(ei_spec::specs::Message::le4, ei_spec::specs::Message::le8))]
fn put_arg(words: &mut [u32; MOST_WORDS], count: usize, arg: &Arg<'_>) -> Option<usize>
    requires { count ≤ MOST_WORDS }
    ensures count { IfSome result (λ more. more ≤ MOST_WORDS) }
    ensures bytes { IfSome result (λ more. word_bytes (take more words.new) ≡ word_bytes (take count words.old) ++
        written (value_of_arg arg.now)) }
    ensures handles { IsSome result → handles_of (value_of_arg arg.now) ≡ [] }
{
    match arg {
        Arg::Uint32(word) | Arg::Float(word) => put_word(words, count, *word),
        Arg::Int32(word) => put_word(words, count, word.cast_unsigned()),
        Arg::Uint64(long) | Arg::NewId(long) | Arg::Id(long) => put_long(words, count, *long),
        Arg::Int64(long) => put_long(words, count, long.cast_unsigned()),
        Arg::Fd(_) | Arg::String(_) => None,
    }
}

/// Puts one more word.
#[inline(always)]
fn put_word(words: &mut [u32; MOST_WORDS], count: usize, word: u32) -> Option<usize>
    requires { count ≤ MOST_WORDS }
    ensures count { IfSome result (λ more. more ≤ MOST_WORDS) }
    ensures bytes { IfSome result (λ more. word_bytes (take more words.new) ≡ word_bytes (take count words.old) ++
        le4 word) }
{
    if count == MOST_WORDS {
        return None;
    }
    words[count] = word;
    Some(count + 1)
}

/// Puts the two words of a number of 64 bits, the lower first.
#[inline(always)]
fn put_long(words: &mut [u32; MOST_WORDS], count: usize, long: u64) -> Option<usize>
    requires { count ≤ MOST_WORDS }
    ensures count { IfSome result (λ more. more ≤ MOST_WORDS) }
    ensures bytes { IfSome result (λ more. word_bytes (take more words.new) ≡ word_bytes (take count words.old) ++
        le8 long) }
{
    let count = put_word(words, count, (long % 4294967296) as u32)?;
    put_word(words, count, (long / 4294967296) as u32)
}

/// Appends the message of so many words, or nothing.
#[inline(always)]
pub(crate) fn write_words(
    out: &mut Vec<u8>,
    object_id: u64,
    opcode: u32,
    words: &[u32; MOST_WORDS],
    count: usize,
) -> Result<(), NoMemory>
    requires { count ≤ MOST_WORDS }
    ensures { Appends (bytes_of (of_words object_id opcode (take count words.now))) out.old out.new result }
{
    match count {
        0 => append::<0>(out, object_id, opcode, words),
        1 => append::<1>(out, object_id, opcode, words),
        2 => append::<2>(out, object_id, opcode, words),
        3 => append::<3>(out, object_id, opcode, words),
        4 => append::<4>(out, object_id, opcode, words),
        5 => append::<5>(out, object_id, opcode, words),
        _ => append::<6>(out, object_id, opcode, words),
    }
}

/// The same, at a number that the compiler knows: the bytes go in at one stroke.
#[inline(never)]
fn append<const N: usize>(
    out: &mut Vec<u8>,
    object_id: u64,
    opcode: u32,
    words: &[u32; MOST_WORDS],
) -> Result<(), NoMemory>
    requires { N ≤ MOST_WORDS }
    ensures { Appends (bytes_of (of_words object_id opcode (take N words.now))) out.old out.new result }
{
    let mut message = [0; MOST_SHORT_BYTES];
    put_message::<N>(&mut message, object_id, opcode, words);
    out.extend_from_slice(&message[..16 + 4 * N])?;
    Ok(())
}

/// Puts the message of N words at the front of some bytes.
fn put_message<const N: usize>(
    bytes: &mut [u8],
    object_id: u64,
    opcode: u32,
    words: &[u32; MOST_WORDS],
)
    requires count { N ≤ MOST_WORDS }
    requires room { 16 + 4 * N ≤ length bytes.old }
    ensures { take (16 + 4 * N) bytes.new ≡ bytes_of (of_words object_id opcode (take N words.now)) }
{
    put_header(bytes, object_id, 16 + 4 * N as u32, opcode);
    for i in 0..N {
        put_at(bytes, 16 + 4 * i, words[i]);
    }
}

/// Puts a header at the front of some bytes.
fn put_header(bytes: &mut [u8], object_id: u64, len: u32, opcode: u32)
    requires { 16 ≤ length bytes.old }
    ensures { take 16 bytes.new ≡ header object_id len opcode }
{
    let header = Header {
        object_id,
        length: len,
        opcode,
    };
    bytes[..16].copy_from_slice(&header.as_bytes());
}

/// Puts a word into some bytes, behind the first ones.
#[tactic(auto, using(crate::proofs::InWords::put_behind), unfolding(ei_spec::specs::Message::le4))]
fn put_at(bytes: &mut [u8], at: usize, word: u32)
    requires { at + 4 ≤ length bytes.old }
    ensures { take (at + 4) bytes.new ≡ take at bytes.old ++ le4 word }
{
    bytes[at..at + 4].copy_from_slice(&word.to_le_bytes());
}
