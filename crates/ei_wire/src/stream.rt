//! Reading the arguments of a message.

ghost use Rattle.std.specs.Prelude.{◌≡◌, ℕ, List, length, IfOk, IfErr, IfSome, IfNone, IsErr, OnErr, Ok, Err, ◌≤◌, ◌<◌, ◌+◌, ◌^◌, Some, None, true, nat_eq};
ghost use Rattle.std.specs.List.{list_any};
ghost use Rattle.std.specs.Int.{w32, w64};
ghost use Rattle.ei_wire.specs.Gives.{Gives, IsFault, IsOtherText, MayStop, WhereFull};
ghost use Rattle.ei_wire.specs.Letters.{behind_letters};
ghost use Rattle.ei_spec.specs.Reading.{Unread, number_at, text_at, letters_at, utf8, read, Read};
ghost use Rattle.ei_spec.specs.Value.{Word, Long, Letters, Fd, U32, U64, Handle as HandleKind, Nullable, Text as TextKind, Choice};
ghost use Rattle.ei_spec.specs.Interface.{name_of};
ghost use Rattle.ei_spec.specs.Reading.{or_null};

use crate::arg::OwnedArg;
use crate::error::ParseError;
use crate::text::EiText;
use ei_spec::{Handle, KnownInterface};
use std::alloc::Global;
use std::marker::Model;

/// The arguments of a message that are not read yet.
#[derive(Drop)]
pub struct ByteStream<'a> {
    alloc: Global,
    bytes: &'a [u8],
    handles: &'a [Handle],
    taken: usize,
}

impl<'a> Model for ByteStream<'a> {
    ghost use Rattle.ei_spec.specs.Reading.{Unread};

    ghost Value = { Unread };

    ghost view = { λ s. record { bytes = s.bytes.now; handles = s.handles.now; taken = s.taken } };
}

impl<'a> ByteStream<'a> {
    pub fn new(alloc: Global, bytes: &'a [u8], handles: &'a [Handle]) -> ByteStream<'a>
        ensures { result ≡ record { bytes = bytes.now; handles = handles.now; taken = 0 } }
    {
        ByteStream {
            alloc,
            bytes,
            handles,
            taken: 0,
        }
    }

    /// The memory that texts are put in.
    #[inline]
    pub fn alloc(&self) -> Global {
        self.alloc
    }

    /// Another one over what isn't read yet. What is read of it goes back by `join`.
    #[inline(always)]
    pub fn fork(&self) -> ByteStream<'a>
        ensures { result ≡ self.now }
    {
        ByteStream {
            alloc: self.alloc,
            bytes: self.bytes,
            handles: self.handles,
            taken: self.taken,
        }
    }

    /// Goes on where the other one stands.
    #[inline(always)]
    pub fn join(&mut self, fork: ByteStream<'a>)
        ensures { self.new ≡ fork.entry }
    {
        self.bytes = fork.bytes;
        self.handles = fork.handles;
        self.taken = fork.taken;
    }

    #[inline]
    pub fn rest(&self) -> usize
        ensures { result ≡ length self.now.bytes }
    {
        self.bytes.len()
    }

    #[inline]
    pub fn handles_taken(&self) -> usize
        ensures { result ≡ self.now.taken }
    {
        self.taken
    }

    /// The four bytes at the front as a number.
    #[inline]
    pub(crate) fn word(&mut self) -> Result<u32, ParseError>
        ensures read { Gives (λ n. (Word n, self.new)) result (read U32 self.old) }
        ensures err { OnErr result (self.new ≡ self.old) }
        ensures memory { IfErr result IsFault }
    {
        let (number, rest) = word_of(self.bytes)?;
        self.bytes = rest;
        Ok(number)
    }

    /// The same, if it is there.
    #[inline]
    pub(crate) fn lawful_word(&mut self) -> Option<u32>
        ensures read { IfSome result (λ n. read U32 self.old ≡ Ok (Word n, self.new)) }
        ensures refused { IfNone result (IsErr (read U32 self.old)) }
        ensures none { IfNone result (self.new ≡ self.old) }
    {
        let (front, rest) = self.bytes.split_first_chunk::<4>()?;
        self.bytes = rest;
        Some(u32::from_le_bytes(*front))
    }

    /// The eight bytes at the front as a number.
    #[inline]
    pub(crate) fn long(&mut self) -> Result<u64, ParseError>
        ensures read { Gives (λ n. (Long n, self.new)) result (read U64 self.old) }
        ensures err { OnErr result (self.new ≡ self.old) }
        ensures memory { IfErr result IsFault }
    {
        let (number, rest) = long_of(self.bytes)?;
        self.bytes = rest;
        Ok(number)
    }

    /// The same, if it is there.
    #[inline]
    pub(crate) fn lawful_long(&mut self) -> Option<u64>
        ensures read { IfSome result (λ n. read U64 self.old ≡ Ok (Long n, self.new)) }
        ensures refused { IfNone result (IsErr (read U64 self.old)) }
        ensures none { IfNone result (self.new ≡ self.old) }
    {
        let (front, rest) = self.bytes.split_first_chunk::<8>()?;
        self.bytes = rest;
        Some(u64::from_le_bytes(*front))
    }

    /// The next handle.
    #[inline]
    pub(crate) fn handle(&mut self) -> Result<Handle, ParseError>
        ensures read { Gives (λ h. (Fd h, self.new)) result (read HandleKind self.old) }
        ensures err { OnErr result (self.new ≡ self.old) }
        ensures memory { IfErr result IsFault }
    {
        match self.handles.get(self.taken) {
            None => Err(ParseError::NoFd),
            Some(handle) => {
                self.taken += 1;
                Ok(*handle)
            }
        }
    }

    /// The text or the null at the front.
    #[inline]
    pub(crate) fn text(&mut self) -> Result<Option<EiText>, ParseError>
        ensures read { Gives (λ t. (or_null t, self.new)) result (read Nullable self.old) }
        ensures err { OnErr result (self.new ≡ self.old) }
        ensures memory { IfErr result (MayStop Nullable (read Nullable self.old)) }
    {
        let (text, rest) = text_of(self.alloc, self.bytes)?;
        self.bytes = rest;
        Ok(text)
    }

    /// The text at the front.
    #[inline]
    pub(crate) fn whole_text(&mut self) -> Result<EiText, ParseError>
        ensures read { Gives (λ t. (Letters t, self.new)) result (read TextKind self.old) }
        ensures err { OnErr result (self.new ≡ self.old) }
        ensures memory { IfErr result (MayStop TextKind (read TextKind self.old)) }
    {
        let (text, rest) = text_of(self.alloc, self.bytes)?;
        match text {
            None => Err(ParseError::InvalidNull),
            Some(text) => {
                self.bytes = rest;
                Ok(text)
            }
        }
    }

    /// Takes the number of a variant at the front: one of `values`, the numbers of the enum `name`.
    ///
    /// A number that isn't among them is `InvalidVariant`, and fewer than four bytes are `EndOfMessage`.
    #[inline]
    pub fn choice(&mut self, name: &'static str, values: &[u32]) -> Result<u32, ParseError>
        ensures read { Gives (λ n. (Word n, self.new)) result (read (Choice name.now values.now) self.old) }
        ensures listed { IfOk result (λ n. list_any (nat_eq n) values.now ≡ true) }
        ensures err { OnErr result (self.new ≡ self.old) }
        ensures memory { IfErr result IsFault }
    {
        let (number, rest) = word_of(self.bytes)?;
        if !is_listed(values, number) {
            return Err(ParseError::InvalidVariant(name, number));
        }
        self.bytes = rest;
        Ok(number)
    }

    /// Takes the text at the front, if it is the name of an interface, which takes no memory.
    #[inline]
    #[tactic(auto, unfolding(ei_spec::specs::Reading::text_at))]
    pub(crate) fn lawful_name(&mut self) -> Option<EiText>
        ensures read { IfSome result (λ t. read TextKind self.old ≡ Ok (Letters t, self.new)) }
        ensures none { IfNone result (self.new ≡ self.old) }
    {
        let (front, rest) = self.bytes.split_first_chunk::<4>()?;
        let len = u32::from_le_bytes(*front);
        if len == 0 {
            return None;
        }
        let (interface, rest) = name_at(len - 1, rest)?;
        self.bytes = rest;
        Some(EiText::name(interface))
    }

    /// Takes the number of a variant at the front. `None` exactly where `choice` refuses: nothing is taken.
    #[inline]
    pub fn lawful_choice(&mut self, name: &'static str, values: &[u32]) -> Option<u32>
        ensures read { IfSome result (λ n. read (Choice name.now values.now) self.old ≡ Ok (Word n, self.new)) }
        ensures listed { IfSome result (λ n. list_any (nat_eq n) values.now ≡ true) }
        ensures refused { IfNone result (IsErr (read (Choice name.now values.now) self.old)) }
        ensures none { IfNone result (self.new ≡ self.old) }
    {
        let (front, rest) = self.bytes.split_first_chunk::<4>()?;
        let number = u32::from_le_bytes(*front);
        if is_listed(values, number) {
            self.bytes = rest;
            Some(number)
        } else {
            None
        }
    }

    /// Takes the argument at the front.
    #[inline]
    pub fn read_arg<T: OwnedArg>(&mut self) -> Result<T, ParseError>
        ensures read { Gives (λ x. (T.value x, self.new)) result (read T.kind self.old) }
        ensures err { OnErr result (self.new ≡ self.old) }
        ensures memory { IfErr result (MayStop T.kind (read T.kind self.old)) }
    {
        T::parse(self)
    }
}

/// Whether a number is one of these.
#[inline]
fn is_listed(values: &[u32], number: u32) -> bool
    ensures { result ≡ list_any (nat_eq number) values.now }
{
    values.iter().any(|value| number == *value)
}

#[inline]
fn word_of(bytes: &[u8]) -> Result<(u32, &[u8]), ParseError>
    ensures read { Gives (λ x. (x.0, x.1.now)) result (number_at w32 bytes.now) }
    ensures memory { IfErr result IsFault }
{
    if bytes.len() < 4 {
        return Err(ParseError::EndOfMessage);
    }
    let (front, rest) = bytes.split_at(4);
    let number = u32::from_le_bytes([front[0], front[1], front[2], front[3]]);
    Ok((number, rest))
}

#[inline]
fn long_of(bytes: &[u8]) -> Result<(u64, &[u8]), ParseError>
    ensures read { Gives (λ x. (x.0, x.1.now)) result (number_at w64 bytes.now) }
    ensures memory { IfErr result IsFault }
{
    if bytes.len() < 8 {
        return Err(ParseError::EndOfMessage);
    }
    let (front, rest) = bytes.split_at(8);
    let number = u64::from_le_bytes([
        front[0], front[1], front[2], front[3], front[4], front[5], front[6], front[7],
    ]);
    Ok((number, rest))
}

#[tactic(auto, using(ei_spec::proofs::Utf8::utf8_if, ei_spec::proofs::Utf8::utf8_if_not))]
fn utf8_of(bytes: &[u8]) -> Result<&str, ParseError>
    requires { length bytes.now < 2 ^ 32 }
    ensures text { Gives (λ t. t.now) result (utf8 bytes.now) }
    ensures memory { IfErr result IsFault }
{
    match simdutf8::compat::from_utf8(bytes) {
        Ok(text) => Ok(text),
        Err(error) => Err(ParseError::Utf8(error.valid_up_to() as u32)),
    }
}

/// The text of so many bytes, without the closing byte and the padding. The name of an interface is found first: it is a
/// text, and takes no memory.
#[tactic(auto, unfolding(ei_spec::specs::Reading::letters_at), using(crate::proofs::InterfaceNames::name_at_front))]
fn letters_of(alloc: Global, len: u32, bytes: &[u8]) -> Result<(EiText, &[u8]), ParseError>
    requires { len + 1 < 2 ^ 32 }
    ensures read { Gives (λ x. (x.0, x.1.now)) result (letters_at len bytes.now) }
    ensures memory { IfErr result (WhereFull (IfOk (letters_at len bytes.now) (λ x. IsOtherText x.0))) }
{
    let end = len as usize;
    if bytes.len() < end {
        return Err(ParseError::EndOfMessage);
    }
    let letters = &bytes[..end];
    match KnownInterface::from_bytes(letters) {
        Some(known) => Ok((EiText::name(known), behind(bytes, end)?)),
        None => {
            let text = utf8_of(letters)?;
            let rest = behind(bytes, end)?;
            Ok((EiText::other(alloc, text)?, rest))
        }
    }
}

/// The interface whose name so many bytes are, with what follows its closing byte and its padding.
#[inline]
#[tactic(auto, unfolding(ei_spec::specs::Reading::letters_at), using(crate::proofs::InterfaceNames::name_at_front))]
fn name_at(len: u32, bytes: &[u8]) -> Option<(KnownInterface, &[u8])>
    requires { len + 1 < 2 ^ 32 }
    ensures { IfSome result (λ x. letters_at len bytes.now ≡ Ok (name_of x.0, x.1.now)) }
{
    let end = len as usize;
    if bytes.len() < end {
        return None;
    }
    let interface = KnownInterface::from_bytes(&bytes[..end])?;
    match behind(bytes, end) {
        Ok(rest) => Some((interface, rest)),
        Err(_) => None,
    }
}

/// What follows a text of so many bytes, its closing byte and its padding.
#[inline]
fn behind(bytes: &[u8], end: usize) -> Result<&[u8], ParseError>
    requires { end + 1 < 2 ^ 32 }
    ensures rest { Gives (λ x. x.now) result (behind_letters end bytes.now) }
    ensures memory { IfErr result IsFault }
{
    let whole = end + 1 + (4 - (end + 1) % 4) % 4;
    if bytes.len() < whole {
        return Err(ParseError::EndOfMessage);
    }
    Ok(&bytes[whole..])
}

#[inline(never)]
#[tactic(auto, unfolding(ei_spec::specs::Reading::text_at))]
fn text_of(alloc: Global, bytes: &[u8]) -> Result<(Option<EiText>, &[u8]), ParseError>
    ensures read { Gives (λ x. (x.0, x.1.now)) result (text_at bytes.now) }
    ensures memory { IfErr result (WhereFull (IfOk (text_at bytes.now) (λ x. IfSome x.0 IsOtherText))) }
{
    let (len, rest) = word_of(bytes)?;
    if len == 0 {
        return Ok((None, rest));
    }
    let (text, rest) = letters_of(alloc, len - 1, rest)?;
    Ok((Some(text), rest))
}
