//! The words that the program takes.

ghost use Rattle.std.specs.Prelude.{◌<◌, ◌≤◌, IfSome};
ghost use Rattle.reis_bench.specs.Words.{IsWithin};

use crate::session::Doing;

/// What is written where the words are refused.
pub(crate) const USAGE: &str =
    "usage: reis_bench parse <piece> <groups> | send <messages> | client <messages> | events <groups> | handshake <messages> | session <devices> <released> <descriptors> <groups> | connection sends|tells <groups>";

/// The most bytes of a piece.
const PIECE: u32 = 65536;

/// The most groups of a generated stream.
const GROUPS: u32 = 100_000;

/// The most messages of a row.
const MESSAGES: u32 = 1_000_000;

/// The most devices of a session.
const DEVICES: u32 = 100_000;

/// What is measured.
#[derive(Clone, Copy)]
pub(crate) enum Row {
    /// A server reads the generated stream of so many groups, in pieces of so many bytes.
    Parse(u32, u32),
    /// A server sends so many motions.
    Send(u32),
    /// A client reads so many motions.
    Client(u32),
    /// A client converts so many groups of a motion and a frame.
    Events(u32),
    /// A session over a handshake of so many versions of interfaces.
    Handshake(u32),
    /// A session over a client that asks for devices, releases the first of them, and sends input to the last.
    Session(Doing),
    /// A connection for a policy of one's own, whose client sends so many groups of a motion, a key and a frame.
    Sends(u32),
    /// The same, whose client is told of as many.
    Tells(u32),
}

/// The number of a decimal up to the limit.
fn count(text: &str, limit: u32) -> Option<u32>
    ensures within { IfSome result (λ n. n ≤ limit) }
{
    match text.parse::<u32>() {
        Ok(n) if n <= limit => Some(n),
        _ => None,
    }
}

/// The number of a decimal from 1 to the limit.
fn number(text: &str, limit: u32) -> Option<u32>
    ensures some { IfSome result (λ n. 0 < n) }
    ensures within { IfSome result (λ n. n ≤ limit) }
{
    match count(text, limit) {
        Some(n) if n > 0 => Some(n),
        _ => None,
    }
}

/// What the client of a session does, by the words for it.
fn doing_from_words(words: &[String]) -> Option<Doing> {
    let [devices, released, descriptors, groups] = words else {
        return None;
    };
    Some(Doing {
        devices: number(devices.as_str(), DEVICES)?,
        released: count(released.as_str(), DEVICES)?,
        descriptor: count(descriptors.as_str(), 1)? == 1,
        groups: count(groups.as_str(), GROUPS)?,
    })
}

impl Row {
    /// The row that the words ask for.
    pub(crate) fn from_words(words: &[String]) -> Option<Row>
        ensures within { IfSome result IsWithin }
    {
        match words {
            [row, count] => Row::of_count(row.as_str(), count.as_str()),
            [row, what, groups] => Row::of_groups(row.as_str(), what.as_str(), groups.as_str()),
            [row, doing @ ..] if row.as_str() == "session" => {
                Some(Row::Session(doing_from_words(doing)?))
            }
            _ => None,
        }
    }

    /// The row of that name that takes a count alone.
    fn of_count(row: &str, count: &str) -> Option<Row>
        ensures within { IfSome result IsWithin }
    {
        let count = number(count, MESSAGES)?;
        match row {
            "send" => Some(Row::Send(count)),
            "client" => Some(Row::Client(count)),
            "events" => Some(Row::Events(count)),
            "handshake" => Some(Row::Handshake(count)),
            _ => None,
        }
    }

    /// The row of that name that takes a word, and so many groups.
    fn of_groups(row: &str, what: &str, groups: &str) -> Option<Row>
        ensures within { IfSome result IsWithin }
    {
        let groups = number(groups, GROUPS)?;
        match (row, what) {
            ("connection", "sends") => Some(Row::Sends(groups)),
            ("connection", "tells") => Some(Row::Tells(groups)),
            ("parse", _) => Some(Row::Parse(number(what, PIECE)?, groups)),
            _ => None,
        }
    }
}
