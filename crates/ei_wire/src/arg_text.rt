//! How an argument is shown.

ghost use Rattle.std.specs.Prelude.{Some};
ghost use Rattle.ei_wire.specs.ArgText.{arg_text, byte_hex, word_hex, escaped, escapes};

use crate::arg::Arg;
use std::fmt;

impl fmt::Display for Arg<'_> {
    ghost output = { λ arg. Some (arg_text arg) };

    fn fmt<W: fmt::Write>(&self, f: &mut fmt::Formatter<W>) -> fmt::Result {
        match self {
            Arg::Uint32(number) => write!(f, "{number}"),
            Arg::Int32(number) => write!(f, "{number}"),
            Arg::Uint64(number) => write!(f, "{number}"),
            Arg::Int64(number) => write!(f, "{number}"),
            Arg::Float(word) => {
                let word = HexWord(*word);
                write!(f, "{word}")
            }
            Arg::Fd(handle) => {
                let number = handle.0;
                write!(f, "fd {number}")
            }
            Arg::NewId(id) => write!(f, "new_id {id:x}"),
            Arg::Id(id) => write!(f, "id {id:x}"),
            Arg::String(None) => f.write_str("None"),
            Arg::String(Some(text)) => {
                let text = EscapedText(text);
                write!(f, "Some(\"{text}\")")
            }
        }
    }
}

/// A byte as two hexadecimal digits.
#[derive(Drop)]
struct HexByte(u8);

impl fmt::Display for HexByte {
    ghost output = { λ byte. Some (byte_hex byte.0) };

    #[tactic(auto, using(std::proofs::lemmas::Fmt::hex_byte))]
    fn fmt<W: fmt::Write>(&self, f: &mut fmt::Formatter<W>) -> fmt::Result {
        let byte = self.0;
        write!(f, "{byte:02x}")
    }
}

/// A word as eight hexadecimal digits.
#[derive(Drop)]
struct HexWord(u32);

impl fmt::Display for HexWord {
    ghost output = { λ word. Some (word_hex word.0) };

    fn fmt<W: fmt::Write>(&self, f: &mut fmt::Formatter<W>) -> fmt::Result {
        let [first, second, third, fourth] = self.0.to_be_bytes();
        let (first, second) = (HexByte(first), HexByte(second));
        let (third, fourth) = (HexByte(third), HexByte(fourth));
        write!(f, "{first}{second}{third}{fourth}")
    }
}

/// A byte of a text: itself, or where it can't be shown in quotation marks, its number.
#[derive(Drop)]
struct EscapedByte(u8);

impl fmt::Display for EscapedByte {
    ghost output = { λ byte. Some (escaped byte.0) };

    #[tactic(auto, using(std::proofs::lemmas::Str::encode_ascii))]
    fn fmt<W: fmt::Write>(&self, f: &mut fmt::Formatter<W>) -> fmt::Result {
        let byte = self.0;
        if (32..=126).contains(&byte) && byte != b'"' && byte != b'\\' {
            let letter = byte as char;
            write!(f, "{letter}")
        } else {
            let byte = HexByte(byte);
            write!(f, "\\x{byte}")
        }
    }
}

/// A text, byte by byte.
#[derive(Drop)]
struct EscapedText<'a>(&'a str);

impl fmt::Display for EscapedText<'_> {
    ghost output = { λ text. Some (escapes text.0.now) };

    fn fmt<W: fmt::Write>(&self, f: &mut fmt::Formatter<W>) -> fmt::Result {
        for byte in self.0.as_bytes() {
            let byte = EscapedByte(*byte);
            write!(f, "{byte}")?;
        }
        Ok(())
    }
}
