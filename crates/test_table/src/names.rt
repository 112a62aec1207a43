//! Names of long texts.

use crate::stop::Stop;
use crate::words::{count, joined};
use std::alloc::Global;

/// A text with its name.
#[derive(Drop)]
struct Named {
    name: String,
    text: String,
}

/// The texts that have a name.
#[derive(Drop)]
pub struct Names {
    alloc: Global,
    known: Vec<Named>,
}

impl Names {
    /// No text has a name.
    pub fn new(alloc: Global) -> Names {
        Names {
            alloc,
            known: Vec::new(alloc),
        }
    }

    /// Names a text, as `NAME = WORD WORD ..` says.
    pub fn define(&mut self, definition: &str) -> Result<(), Stop> {
        let (name, words) = definition.split_once(" = ").ok_or(Stop::Line)?;
        let text = self.expanded(words)?;
        self.known.push(Named {
            name: String::from_str(self.alloc, name)?,
            text: joined(self.alloc, text.as_str())?,
        })?;
        Ok(())
    }

    /// The line with the texts in place of their names.
    pub fn expanded(&self, line: &str) -> Result<String, Stop> {
        let mut text = String::new(self.alloc);
        for word in line.split(' ') {
            self.push_word(&mut text, word)?;
            text.push(' ')?;
        }
        text.pop();
        Ok(text)
    }

    /// Adds a word, with the texts that it names.
    fn push_word(&self, text: &mut String, word: &str) -> Result<(), Stop> {
        let Some((front, names)) = word.split_once('$') else {
            return Ok(text.push_str(word)?);
        };
        text.push_str(front)?;
        for name in names.split('+') {
            self.push_named(text, name)?;
        }
        Ok(())
    }

    /// Adds the text of that name, as often as is said.
    fn push_named(&self, text: &mut String, name: &str) -> Result<(), Stop> {
        let (name, times) = name.split_once('*').unwrap_or((name, "1"));
        let named = self.named(name)?;
        for _ in 0..count(times)? {
            text.push_str(named)?;
        }
        Ok(())
    }

    /// The text of that name.
    fn named(&self, name: &str) -> Result<&str, Stop> {
        for one in &self.known {
            if one.name.as_str() == name {
                return Ok(one.text.as_str());
            }
        }
        Err(Stop::Line)
    }
}
