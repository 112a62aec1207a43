//! Sessions over clients that said it all beforehand.

use crate::outside::{Cut, Dropped};
use ei_backend::Readings;
use ei_request::EisRequest;
use ei_serve::{Ended, Setup, serve};
use ei_types::{DeviceCapabilities, Error};
use std::alloc::Global;

/// The bytes of a piece.
const PIECE: usize = 4096;

/// Serves a client that says these bytes, and sends a descriptor with the first of them if it is to. It answers the bytes of
/// the replies.
pub(crate) fn serve_said(alloc: Global, bytes: &[u8], descriptor: bool) -> Result<u64, Error> {
    let mut sink = Dropped { bytes: 0 };
    let mut source = Cut::new(bytes, PIECE);
    if descriptor {
        source.send_descriptor();
    }
    let _ended = serve_source(alloc, &mut source, &mut sink)?;
    Ok(sink.bytes)
}

/// Serves a client.
fn serve_source(alloc: Global, source: &mut Cut<'_>, sink: &mut Dropped) -> Result<Ended, Error> {
    let mut clock = Readings::new(alloc, &[])?;
    let mut out = Vec::new(alloc);
    let ended = serve_client(alloc, source, sink, &mut clock, &mut out);
    // Let go by a call: at the end of a scope the drop of each field is proved anew.
    drop(out);
    drop(clock);
    ended
}

/// Serves a client. This is what is counted.
#[inline(never)]
fn serve_client(
    alloc: Global,
    source: &mut Cut<'_>,
    sink: &mut Dropped,
    clock: &mut Readings,
    out: &mut Vec<EisRequest>,
) -> Result<Ended, Error> {
    let setup = Setup {
        initial_serial: 1,
        capabilities: DeviceCapabilities::all(),
        pieces: u32::MAX,
    };
    serve(alloc, source, sink, clock, setup, out)
}
