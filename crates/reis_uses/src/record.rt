//! A record of a session, tested and played back.

ghost use Rattle.std.specs.Prelude.{◌≤◌};
ghost use Rattle.ei_types.specs.Capability.{bits_of, all_bits};

use crate::stop::Stop;
use ei_replay::{ReplayError, check, replay};
use ei_request::EisRequest;
use ei_serve::Setup;
use ei_types::Error;
use std::io::Print;

/// Shows whether these requests can be played back to a server of the setup.
pub(crate) fn show_record<R: Print + AllocGlobal>(
    rt: &R,
    setup: &Setup,
    record: &[EisRequest],
) -> Result<(), Stop> {
    match check(rt.alloc(), setup, record) {
        Ok(()) => println!(rt; "its requests can be played back")?,
        Err(ReplayError::NotReplayable(place)) => {
            println!(rt; "its request {place} can't be played back")?;
        }
        Err(ReplayError::NoMemory) => return Err(Stop::Session(Error::NoMemory)),
    }
    Ok(())
}

/// Plays these requests back to a server of the setup, and shows how many came back, and by how many bytes.
pub(crate) fn show_played<R: Print + AllocGlobal>(
    rt: &R,
    setup: &Setup,
    record: &[EisRequest],
) -> Result<(), Stop>
    requires lawful { bits_of setup.now.capabilities ≤ all_bits }
{
    if record.len() > 4294967000 {
        return Ok(());
    }
    let mut stream = Vec::new(rt.alloc());
    let mut out = Vec::new(rt.alloc());
    let played = replay(rt.alloc(), setup, record, &mut stream, &mut out);
    let (bytes, things) = (stream.len(), out.len());
    // Let go by a call: at the end of a scope the drop of each field is proved anew.
    drop(out);
    drop(stream);
    if played.is_ok() {
        println!(rt; "played back: {things} things, by {bytes} bytes")?;
    }
    Ok(())
}
