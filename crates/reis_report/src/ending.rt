//! The last line of a report: how its session ended.

ghost use Rattle.std.specs.Prelude.{◌≡◌, IfOk};
ghost use Rattle.std.specs.String.{string_bytes};
ghost use Rattle.reis_report.specs.Ending.{answer_text};

use ei_serve::Ended;
use ei_types::Error;
use ei_wire::NoMemory;
use std::alloc::Global;

/// How a session ended, in words.
pub fn answer_text(alloc: Global, answer: &Result<Ended, Error>) -> Result<String, NoMemory>
    ensures { IfOk result (λ text. string_bytes text ≡ answer_text answer.now) }
{
    let mut text = String::new(alloc);
    match answer {
        Ok(Ended::Disconnect) => text.push_str("end disconnect")?,
        Ok(Ended::End) => text.push_str("end eof")?,
        Err(error) => {
            let said = error.to_string(alloc)?;
            text.push_str("error ")?;
            text.push_str(said.as_str())?;
        }
    }
    Ok(text)
}
