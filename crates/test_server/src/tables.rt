//! The tables by their names.

use std::alloc::Global;
use test_table::{Answer, Answers, Reader, Stop, joined};

/// What answers the calls of a table.
pub(crate) trait Calls {
    /// Answers the call of these words in that table.
    fn call(&mut self, alloc: Global, table: &str, words: &mut Reader<'_>, answer: &mut Answer);
}

/// What answers the calls of each table, and what the lines before made there.
#[derive(Drop)]
pub(crate) struct Tables<Converter, Sessions, Loop, Hub, Records> {
    requests: Converter,
    sessions: Sessions,
    server: Loop,
    hub: Hub,
    records: Records,
    /// Whether the last call was one of the converter's.
    is_of_converter: bool,
}

impl<Converter, Sessions, Loop, Hub, Records> Tables<Converter, Sessions, Loop, Hub, Records> {
    /// The tables of these; nothing was called.
    pub(crate) fn new(
        requests: Converter,
        sessions: Sessions,
        server: Loop,
        hub: Hub,
        records: Records,
    ) -> Tables<Converter, Sessions, Loop, Hub, Records> {
        Tables {
            requests,
            sessions,
            server,
            hub,
            records,
            is_of_converter: false,
        }
    }
}

impl<Converter, Sessions, Loop, Hub, Records> Answers
    for Tables<Converter, Sessions, Loop, Hub, Records>
where
    Converter: Calls,
    Sessions: Calls,
    Loop: Calls,
    Hub: Calls,
    Records: Calls,
{
    /// A word that is wrong is read as another; then the program stops, whatever the call answered.
    fn answer(&mut self, alloc: Global, call: &str) -> Result<String, Stop> {
        let mut words = Reader::new(call);
        let mut answer = Answer::new(alloc);
        let table = words.word();
        self.is_of_converter = table == "requests";
        match table {
            "requests" => self.requests.call(alloc, table, &mut words, &mut answer),
            "sessions" => self.sessions.call(alloc, table, &mut words, &mut answer),
            "server" => self.server.call(alloc, table, &mut words, &mut answer),
            "hub" => self.hub.call(alloc, table, &mut words, &mut answer),
            "replay" | "filter" => self.records.call(alloc, table, &mut words, &mut answer),
            _ => words.miss(),
        }
        answer.take(words.done());
        answer.text()
    }

    /// Blanks count nowhere in an answer of the converter.
    fn is_wanted(&self, alloc: Global, found: &str, wanted: &str) -> Result<bool, Stop> {
        if self.is_of_converter {
            return is_same(alloc, found, wanted);
        }
        Ok(found.trim_end() == wanted.trim_end())
    }
}

/// Whether both have the same letters: blanks don't count.
fn is_same(alloc: Global, found: &str, wanted: &str) -> Result<bool, Stop> {
    Ok(joined(alloc, found)? == joined(alloc, wanted)?)
}
