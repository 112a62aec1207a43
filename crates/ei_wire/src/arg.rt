//! Arguments.

ghost use Rattle.std.specs.Prelude.{◌≡◌, ℕ, List, ◌++◌, ◌≤◌, ◌<◌, ◌^◌, replicate, length, vec_len, vec_capacity, ◌+◌, IfErr, IsOk};
ghost use Rattle.std.specs.Prelude.{OnOk, OnErr, Ok, Err, Some, None, IfSome, IfNone, IsTrue, IsSome, Option, ◌↔◌, codes, [], ◌∷◌};
ghost use Rattle.std.specs.Option.{option_map};
ghost use Rattle.ei_spec.specs.Value.{Kind, U32, I32, U64, I64, Float, Text, Nullable, Handle as HandleKind, Choice, Value};
ghost use Rattle.ei_spec.specs.Value.{Word, Long, Signed, SignedLong, Letters, Fd, written, handles_of, IsOf, HasSpelling, text_bytes};
ghost use Rattle.ei_wire.specs.Gives.{Gives, Leaves, MayStop, value_of_arg};
ghost use Rattle.ei_wire.specs.Kinds.{IsArgOf, IsEnum};
ghost use Rattle.ei_spec.specs.Reading.{read, or_null, Unread, Fault};
ghost use Rattle.ei_spec.specs.Spelling.{Begins, Follows};
ghost use Rattle.ei_spec.specs.Message.{IsBytes};
ghost use Rattle.ei_wire.specs.Spellings.{IsSpelling};

use crate::error::{NoMemory, ParseError};
use crate::stream::ByteStream;
use crate::text::EiText;
use ei_spec::Handle;

/// The word of a float.
#[derive(Clone, Copy, Debug, PartialEq, Eq, Hash)]
pub struct RawFloat(pub u32);

impl RawFloat {
    fn word(self) -> u32
        ensures word { result ≡ self.0 }
        ensures fits { result < 2 ^ 32 }
    {
        self.0
    }
}

/// An argument of a message.
#[derive(Debug, Drop)]
pub enum Arg<'a> {
    Uint32(u32),
    Int32(i32),
    Uint64(u64),
    Int64(i64),
    Float(u32),
    Fd(Handle),
    String(Option<&'a str>),
    NewId(u64),
    Id(u64),
}

impl Arg<'_> {
    /// The number of bytes.
    pub fn size(&self) -> u64
        ensures { result ≡ length (written (value_of_arg self.now)) }
    {
        match self {
            Arg::Uint32(_) | Arg::Int32(_) | Arg::Float(_) => 4,
            Arg::Uint64(_) | Arg::Int64(_) | Arg::NewId(_) | Arg::Id(_) => 8,
            Arg::Fd(_) => 0,
            Arg::String(None) => 4,
            Arg::String(Some(text)) => {
                let len = text.len() as u64 + 1;
                4 + len + (4 - len % 4) % 4
            }
        }
    }

    /// Appends the bytes and the handle, or nothing.
    pub fn write(&self, buf: &mut Vec<u8>, handles: &mut Vec<Handle>) -> Result<(), NoMemory>
        requires { HasSpelling (value_of_arg self.now) }
        ensures bytes { OnOk result (buf.new.items ≡ buf.old.items ++ written (value_of_arg self.now)) }
        ensures handles { OnOk result (handles.new.items ≡ handles.old.items ++ handles_of (value_of_arg self.now)) }
        ensures err { OnErr result (buf.new.items ≡ buf.old.items) }
        ensures err_handles { OnErr result (handles.new.items ≡ handles.old.items) }
        // a refusal comes only where room was missing, and no room is lost
        ensures succeeds { vec_len buf.old + length (written (value_of_arg self.now)) ≤ vec_capacity buf.old
            → vec_len handles.old + length (handles_of (value_of_arg self.now)) ≤ vec_capacity handles.old →
            IsOk result }
        ensures capacity { vec_capacity buf.old ≤ vec_capacity buf.new }
        ensures handle_capacity { vec_capacity handles.old ≤ vec_capacity handles.new }
    {
        match self {
            Arg::Uint32(value) | Arg::Float(value) => buf.extend_from_slice(&value.to_le_bytes())?,
            Arg::Int32(value) => buf.extend_from_slice(&value.to_le_bytes())?,
            Arg::Uint64(value) | Arg::NewId(value) | Arg::Id(value) => {
                buf.extend_from_slice(&value.to_le_bytes())?
            }
            Arg::Int64(value) => buf.extend_from_slice(&value.to_le_bytes())?,
            Arg::Fd(handle) => handles.push(*handle)?,
            Arg::String(None) => buf.extend_from_slice(&0u32.to_le_bytes())?,
            Arg::String(Some(text)) => write_text(buf, text)?,
        }
        Ok(())
    }
}

/// Appends the whole text, or nothing.
fn write_text(buf: &mut Vec<u8>, text: &str) -> Result<(), NoMemory>
    requires { length text.now ≤ 4294967294 }
    ensures ok { OnOk result (buf.new.items ≡ buf.old.items ++ text_bytes text.now) }
    ensures err { OnErr result (buf.new.items ≡ buf.old.items) }
    ensures succeeds { vec_len buf.old + length (text_bytes text.now) ≤ vec_capacity buf.old → IsOk result }
    ensures capacity { vec_capacity buf.old ≤ vec_capacity buf.new }
{
    let len = text.len() as u32 + 1;
    let zeros = 1 + (4 - len % 4) % 4;
    buf.reserve(4 + text.len() + zeros as usize)?;
    buf.extend_from_slice(&len.to_le_bytes())?;
    buf.extend_from_slice(text.as_bytes())?;
    push_zeros(buf, zeros)
}

#[tactic(auto, using(ei_spec::proofs::Utf8::take_zeros))]
fn push_zeros(buf: &mut Vec<u8>, count: u32) -> Result<(), NoMemory>
    requires { count ≤ 4 }
    ensures ok { OnOk result (buf.new.items ≡ buf.old.items ++ replicate count 0) }
    ensures full { OnErr result (vec_capacity buf.old < vec_len buf.old + count) }
    ensures capacity { vec_capacity buf.old ≤ vec_capacity buf.new }
{
    let zeros = [0u8; 4];
    buf.extend_from_slice(&zeros[..count as usize])?;
    Ok(())
}

/// What an argument is read as.
pub trait OwnedArg: Sized {
    /// The kind of argument.
    ghost kind: { Kind };

    /// The value, apart from how it is kept.
    ghost value: { Self → Value };

    /// Of an enum the name of its type and that of the value, as bytes; else none.
    ghost names: { Self → Option (List ℕ × List ℕ) };

    /// Takes the value at the front.
    fn parse(stream: &mut ByteStream<'_>) -> Result<Self, ParseError>
        ensures read { Gives (λ x. (value x, stream.new)) result (read kind stream.old) }
        ensures err { OnErr result (stream.new ≡ stream.old) }
        ensures memory { IfErr result (MayStop kind (read kind stream.old)) };

    /// Takes the same, if it is lawful, in fewer steps. `None` says no more than that nothing is taken: `parse` then tells what is
    /// wrong, or takes what this call leaves to it.
    fn parse_lawful(stream: &mut ByteStream<'_>) -> Option<Self>
        ensures read { IfSome result (λ x. read kind stream.old ≡ Ok (value x, stream.new)) }
        ensures refused { IfNone result (Leaves kind (read kind stream.old)) }
        ensures none { IfNone result (stream.new ≡ stream.old) }
    {
        match Self::parse(stream) {
            Ok(value) => Some(value),
            Err(_) => None,
        }
    }

    /// The value as an argument to be written.
    fn as_arg(&self) -> Arg<'_>
        ensures value { value_of_arg result ≡ value self.now }
        ensures kind { IsOf kind (value self.now) }
        ensures variant { IsArgOf kind result };

    /// For an enum the name of its type and that of the value, as `key_state` and `press`; else `None`.
    fn enum_name(&self) -> Option<(&'static str, &'static str)>
        ensures names { option_map (λ pair. (pair.0.now, pair.1.now)) result ≡ names self.now }
        ensures enums { IsSome result ↔ IsEnum kind };
}

impl OwnedArg for u32 {
    ghost kind = { U32 };

    ghost value = { Word };

    ghost names = { λ _. None };

    #[inline]
    fn parse(stream: &mut ByteStream<'_>) -> Result<u32, ParseError> {
        stream.word()
    }

    #[inline]
    fn parse_lawful(stream: &mut ByteStream<'_>) -> Option<u32> {
        stream.lawful_word()
    }

    fn as_arg(&self) -> Arg<'_> {
        Arg::Uint32(*self)
    }

    fn enum_name(&self) -> Option<(&'static str, &'static str)> {
        None
    }
}

impl OwnedArg for i32 {
    ghost kind = { I32 };

    ghost value = { Signed };

    ghost names = { λ _. None };

    #[inline]
    fn parse(stream: &mut ByteStream<'_>) -> Result<i32, ParseError> {
        Ok(stream.word()?.cast_signed())
    }

    #[inline]
    fn parse_lawful(stream: &mut ByteStream<'_>) -> Option<i32> {
        Some(stream.lawful_word()?.cast_signed())
    }

    fn as_arg(&self) -> Arg<'_> {
        Arg::Int32(*self)
    }

    fn enum_name(&self) -> Option<(&'static str, &'static str)> {
        None
    }
}

impl OwnedArg for u64 {
    ghost kind = { U64 };

    ghost value = { Long };

    ghost names = { λ _. None };

    #[inline]
    fn parse(stream: &mut ByteStream<'_>) -> Result<u64, ParseError> {
        stream.long()
    }

    #[inline]
    fn parse_lawful(stream: &mut ByteStream<'_>) -> Option<u64> {
        stream.lawful_long()
    }

    fn as_arg(&self) -> Arg<'_> {
        Arg::Uint64(*self)
    }

    fn enum_name(&self) -> Option<(&'static str, &'static str)> {
        None
    }
}

impl OwnedArg for i64 {
    ghost kind = { I64 };

    ghost value = { SignedLong };

    ghost names = { λ _. None };

    #[inline]
    fn parse(stream: &mut ByteStream<'_>) -> Result<i64, ParseError> {
        Ok(stream.long()?.cast_signed())
    }

    fn as_arg(&self) -> Arg<'_> {
        Arg::Int64(*self)
    }

    fn enum_name(&self) -> Option<(&'static str, &'static str)> {
        None
    }
}

impl OwnedArg for RawFloat {
    ghost kind = { Float };

    ghost value = { λ x. Word x.0 };

    ghost names = { λ _. None };

    #[inline]
    fn parse(stream: &mut ByteStream<'_>) -> Result<RawFloat, ParseError> {
        Ok(RawFloat(stream.word()?))
    }

    #[inline]
    fn parse_lawful(stream: &mut ByteStream<'_>) -> Option<RawFloat> {
        Some(RawFloat(stream.lawful_word()?))
    }

    fn as_arg(&self) -> Arg<'_> {
        Arg::Float((*self).word())
    }

    fn enum_name(&self) -> Option<(&'static str, &'static str)> {
        None
    }
}

impl OwnedArg for Handle {
    ghost kind = { HandleKind };

    ghost value = { Fd };

    ghost names = { λ _. None };

    #[inline]
    fn parse(stream: &mut ByteStream<'_>) -> Result<Handle, ParseError> {
        stream.handle()
    }

    fn as_arg(&self) -> Arg<'_> {
        Arg::Fd(*self)
    }

    fn enum_name(&self) -> Option<(&'static str, &'static str)> {
        None
    }
}

impl OwnedArg for Option<EiText> {
    ghost kind = { Nullable };

    ghost value = { or_null };

    ghost names = { λ _. None };

    #[inline]
    fn parse(stream: &mut ByteStream<'_>) -> Result<Option<EiText>, ParseError> {
        stream.text()
    }

    #[tactic(auto, using(ei_spec::proofs::Utf8::is_text))]
    fn as_arg(&self) -> Arg<'_> {
        match self {
            None => Arg::String(None),
            Some(text) => Arg::String(Some(text.as_str())),
        }
    }

    fn enum_name(&self) -> Option<(&'static str, &'static str)> {
        None
    }
}

impl OwnedArg for EiText {
    ghost kind = { Text };

    ghost value = { Letters };

    ghost names = { λ _. None };

    #[inline]
    fn parse(stream: &mut ByteStream<'_>) -> Result<EiText, ParseError> {
        stream.whole_text()
    }

    #[inline]
    fn parse_lawful(stream: &mut ByteStream<'_>) -> Option<EiText> {
        stream.lawful_name()
    }

    #[tactic(auto, using(ei_spec::proofs::Utf8::is_text))]
    fn as_arg(&self) -> Arg<'_> {
        Arg::String(Some(self.as_str()))
    }

    fn enum_name(&self) -> Option<(&'static str, &'static str)> {
        None
    }
}

/// What `as_arg` writes is read back as the value, whatever follows.
#[tactic(auto, using(ei_spec::proofs::KindLaws::written_again))]
pub fn read_back<T: OwnedArg>(x: &T)
    ensures { (s t : Unread) → Follows (T.value x.now) s t → read T.kind s ≡ Ok (T.value x.now, t) }
{
    let _arg = x.as_arg();
}

/// A refusal means that nothing at the front spells a value.
#[tactic(auto, using(ei_spec::proofs::KindLaws::refused))]
pub fn no_spelling<T: OwnedArg>()
    ensures { (s t : Unread) (v : Value) (f : Fault) → read T.kind s ≡ Err f → Begins T.kind v s t → ⊥ }
{}

/// What is read stands at the front, spelled by exactly the bytes and the handle that are taken.
pub fn spelled<T: OwnedArg>()
    ensures { (s t : Unread) (v : Value) → IsBytes s.bytes → read T.kind s ≡ Ok (v, t) → Begins T.kind v s t }
{}

/// No spelling of a value is a proper beginning of another value's, so what follows never matters.
#[tactic(auto, using(crate::proofs::NoPrefix::no_prefix))]
pub fn no_proper_prefix<T: OwnedArg>()
    ensures { (v w : Value) (a b more : List ℕ) → IsSpelling T.kind v a → IsSpelling T.kind w b → b ≡ a ++ more →
        more ≡ [] }
{}
