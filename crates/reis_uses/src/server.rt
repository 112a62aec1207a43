//! A server with a loop of its own.

use crate::stop::Stop;
use ei_backend::{Readings, Sink, Source};
use ei_request::EisRequest;
use ei_serve::{Session, Setup};
use ei_types::DeviceCapabilities;
use reis_report::request_line;
use std::io::Print;

/// Serves a client, turn by turn, until it leaves or the source is at its end.
pub(crate) fn serve_by_turns<R, S, K>(rt: &R, source: &mut S, sink: &mut K) -> Result<(), Stop>
where
    R: Print + AllocGlobal,
    S: Source,
    K: Sink,
{
    let setup = Setup {
        initial_serial: 5,
        capabilities: DeviceCapabilities::all(),
        pieces: 200,
    };
    let mut clock = Readings::new(rt.alloc(), &[])?;
    let mut requests = Vec::new(rt.alloc());
    let mut session = Session::start(rt.alloc(), setup, sink)?;
    take_turns(rt, &mut session, source, sink, &mut clock, &mut requests)
}

/// Turns the session until it is over, and shows each of the client's requests as it comes.
fn take_turns<R, S, K>(
    rt: &R,
    session: &mut Session,
    source: &mut S,
    sink: &mut K,
    clock: &mut Readings,
    requests: &mut Vec<EisRequest>,
) -> Result<(), Stop>
where
    R: Print + AllocGlobal,
    S: Source,
    K: Sink,
{
    for _turn in 0..u64::MAX {
        if session.is_over() {
            break;
        }
        let _answer = session.turn(source, sink, clock, requests)?;
        show_requests(rt, requests)?;
        requests.clear();
    }
    Ok(())
}

/// Shows the requests.
fn show_requests<R: Print + AllocGlobal>(rt: &R, requests: &[EisRequest]) -> Result<(), Stop> {
    for request in requests {
        let line = request_line(rt.alloc(), request)?;
        println!(rt; "asked for: {}", line.as_str())?;
    }
    Ok(())
}
