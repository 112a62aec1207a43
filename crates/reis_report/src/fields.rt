//! The fields of a request's line, each with a blank before it.

ghost use Rattle.std.specs.Prelude.{◌≡◌, Some};
ghost use Rattle.ei_wire.specs.ArgText.{byte_hex};
ghost use Rattle.reis_report.specs.RequestLine.{all_hex, button_name, key_name};

use ei_backend::Interface;
use ei_request::{Device, Seat};
use ei_types::{ButtonState, KeyState};
use ei_wire::{Arg, RawFloat};
use std::fmt;

/// A field.
#[derive(Clone, Copy)]
pub(crate) enum Field<'a> {
    /// A seat, by its id in hexadecimal.
    Seat(&'a Seat),
    /// A device, by its id in hexadecimal.
    Device(&'a Device),
    /// The device and the time of an input.
    Input(&'a Device, u64),
    /// A number in decimal.
    Number(&'static str, u64),
    /// A number that may be negative, in decimal.
    Signed(&'static str, i32),
    /// A raw word, as eight hexadecimal digits.
    Word(&'static str, RawFloat),
    /// Whether it is so.
    Truth(&'static str, bool),
    /// How a button or a key is.
    State(&'static str),
    /// Bytes, each as two hexadecimal digits.
    Bytes(&'static str, &'a [u8]),
}

impl fmt::Display for Field<'_> {
    ghost use Rattle.std.specs.Prelude.{Some};
    ghost use Rattle.reis_report.specs.Fields.{field_text};

    ghost output = { λ field. Some (field_text field) };

    fn fmt<W: fmt::Write>(&self, f: &mut fmt::Formatter<W>) -> fmt::Result {
        match self {
            Field::Seat(seat) => {
                let id = seat.eis_seat().as_object().id();
                write!(f, " seat={id:x}")
            }
            Field::Device(device) => {
                let id = device.device().as_object().id();
                write!(f, " device={id:x}")
            }
            Field::Input(device, time) => {
                let id = device.device().as_object().id();
                write!(f, " device={id:x} time={time}")
            }
            Field::Number(name, number) => write!(f, " {name}={number}"),
            Field::Signed(name, number) => write!(f, " {name}={number}"),
            Field::Word(name, word) => {
                let word = Arg::Float(word.0);
                write!(f, " {name}={word}")
            }
            Field::Truth(name, truth) => write!(f, " {name}={truth}"),
            Field::State(state) => write!(f, " state={state}"),
            Field::Bytes(name, bytes) => {
                let digits = AllHex(bytes);
                write!(f, " {name}={digits}")
            }
        }
    }
}

/// Bytes, one after another.
#[derive(Drop)]
struct AllHex<'a>(&'a [u8]);

impl fmt::Display for AllHex<'_> {
    ghost output = { λ bytes. Some (all_hex bytes.0.now) };

    fn fmt<W: fmt::Write>(&self, f: &mut fmt::Formatter<W>) -> fmt::Result {
        for byte in self.0 {
            let byte = HexByte(*byte);
            write!(f, "{byte}")?;
        }
        Ok(())
    }
}

/// A byte as two hexadecimal digits.
#[derive(Drop)]
struct HexByte(u8);

impl fmt::Display for HexByte {
    ghost output = { λ byte. Some (byte_hex byte.0) };

    #[tactic(auto, using(std::proofs::lemmas::Fmt::hex_byte))]
    fn fmt<W: fmt::Write>(&self, f: &mut fmt::Formatter<W>) -> fmt::Result {
        let byte = self.0;
        write!(f, "{byte:02x}")
    }
}

/// How a button is.
pub(crate) fn button_name(state: ButtonState) -> &'static str
    ensures { result.now ≡ button_name state }
{
    match state {
        ButtonState::Press => "press",
        ButtonState::Released => "released",
    }
}

/// How a key is.
pub(crate) fn key_name(state: KeyState) -> &'static str
    ensures { result.now ≡ key_name state }
{
    match state {
        KeyState::Press => "press",
        KeyState::Released => "released",
    }
}
