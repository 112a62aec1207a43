//! The words that the program takes.

ghost use Rattle.std.specs.Prelude.{◌≡◌, ◌≤◌, IfSome};
ghost use Rattle.std.specs.Char.{is_ascii_digit};
ghost use Rattle.std.specs.List.{list_all};
ghost use Rattle.ei_spec.specs.declared.limits.TheConstants.{ALL_CAPABILITIES};
ghost use Rattle.reis_run.specs.Words.{is_plain, number_of};

use ei_spec::limits::ALL_CAPABILITIES;
use ei_wire::EiText;

/// What is written where the words are refused.
pub const USAGE: &str =
    "usage: reis serve <serial> <capabilities> <pieces> | trace <serial> <capabilities> <pieces> | demo <groups> <start>\n";

/// The mask of all capabilities.
const CAPABILITIES: u32 = ALL_CAPABILITIES as u32;

/// The most groups of a generated stream.
const GROUPS: u32 = 100_000;

/// What the program is to do.
#[derive(Clone, Copy, Debug, PartialEq, Eq)]
pub(crate) enum Command {
    /// Serve with this first serial, these capabilities, and at most so many pieces.
    Serve(u32, u32, u32),
    /// Serve so, and trace the replies.
    Trace(u32, u32, u32),
    /// Serve the generated stream of so many groups, made of the numbers after this start.
    Demo(u32, u32),
}

fn all_digits(text: &[u8]) -> bool
    ensures { result ≡ list_all is_ascii_digit text.now }
{
    text.iter().all(|b| b.is_ascii_digit())
}

/// Whether the text is `0`, or a digit 1 to 9 and digits.
fn is_plain(text: &[u8]) -> bool
    ensures { result ≡ is_plain text.now }
{
    match text {
        [] => false,
        [digit] => digit.is_ascii_digit(),
        [first, ..] => *first != b'0' && all_digits(text),
    }
}

/// The number of a plain decimal that is at most the limit.
fn number(text: &str, limit: u32) -> Option<u32>
    ensures value { result ≡ number_of limit text.now }
    ensures within { IfSome result (λ n. n ≤ limit) }
{
    if !is_plain(text.as_bytes()) {
        return None;
    }
    match text.parse::<u32>() {
        Ok(n) => { if n <= limit { Some(n) } else { None } }
        Err(_) => None,
    }
}

impl Command {
    ghost use Rattle.reis_run.specs.Words.{command_of, capabilities_of};

    /// The command that the words are, exactly where they are one.
    pub(crate) fn from_words(words: &[EiText]) -> Option<Command>
        ensures command { result ≡ command_of words.now }
        ensures within { IfSome result (λ command. capabilities_of command ≤ ALL_CAPABILITIES) }
    {
        match words {
            [name, serial, capabilities, pieces] if name.as_str() == "serve" => {
                let serial = number(serial.as_str(), u32::MAX)?;
                let capabilities = number(capabilities.as_str(), CAPABILITIES)?;
                let pieces = number(pieces.as_str(), u32::MAX)?;
                Some(Command::Serve(serial, capabilities, pieces))
            }
            [name, serial, capabilities, pieces] if name.as_str() == "trace" => {
                let serial = number(serial.as_str(), u32::MAX)?;
                let capabilities = number(capabilities.as_str(), CAPABILITIES)?;
                let pieces = number(pieces.as_str(), u32::MAX)?;
                Some(Command::Trace(serial, capabilities, pieces))
            }
            [name, groups, start] if name.as_str() == "demo" => {
                let groups = number(groups.as_str(), GROUPS)?;
                let start = number(start.as_str(), u32::MAX)?;
                if groups == 0 {
                    return None;
                }
                Some(Command::Demo(groups, start))
            }
            _ => None,
        }
    }
}
