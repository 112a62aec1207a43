//! Callers: a server's loop over `Session`, a client by its proxies, one by its converter, one by the iterator over its events,
//! several clients in one loop, a record that is tested, played back and sifted, and two endpoints over links.
//! Nothing stands on this program.
//!
//! The client shakes hands and leaves, the server serves it, and the client reads what the server replied. All of it
//! stands in memory. Begin with `server`, `client`, `converting`, `iterating`, `clients`, `record`, `sifted` and `world`;
//! `outside` has a source and a sink.
#![tactic(auto)]

mod client;
mod clients;
mod converting;
mod iterating;
mod outside;
mod record;
mod server;
mod sifted;
mod stop;
mod world;

use crate::client::{shake_hands, show_events};
use crate::clients::serve_clients;
use crate::converting::show_told;
use crate::iterating::show_each;
use crate::outside::{Inbox, Outbox};
use crate::server::serve_by_turns;
use crate::stop::Stop;
use crate::world::talk_over_links;
use ei_client::Context;
use std::io::Print;

/// The client's last message, `disconnect` to the connection, which has the first of the server's ids.
const DISCONNECT: [u8; 16] = [0, 0, 0, 0, 0, 0, 0, 0xff, 16, 0, 0, 0, 1, 0, 0, 0];

fn main(rt: HostRuntime) -> Result<(), Stop> {
    let mut client = Context::new(rt.alloc())?;
    let mut sent = Outbox::new(rt.alloc());
    let mut replied = Outbox::new(rt.alloc());
    let talked = talk(&rt, &mut client, &mut sent, &mut replied);
    // Let go by a call: at the end of a scope the drop of each field is proved anew.
    drop(replied);
    drop(sent);
    drop(client);
    talked
}

/// The client shakes hands and leaves, the server serves it, and the client reads what the server replied.
fn talk<R: Print + AllocGlobal>(
    rt: &R,
    client: &mut Context,
    sent: &mut Outbox,
    replied: &mut Outbox,
) -> Result<(), Stop> {
    shake_hands(client)?;
    client.flush(sent)?;
    sent.bytes.extend_from_slice(&DISCONNECT)?;
    serve_by_turns(rt, &mut Inbox::new(&sent.bytes), replied)?;
    client.read(&mut Inbox::new(&replied.bytes))?;
    show_events(rt, client)?;
    show_replies(rt, &replied.bytes)?;
    serve_clients(rt, &sent.bytes)?;
    talk_over_links(rt)
}

/// A client by its converter and one by the iterator read the same replies.
fn show_replies<R: Print + AllocGlobal>(rt: &R, replied: &[u8]) -> Result<(), Stop> {
    let mut asked = Outbox::new(rt.alloc());
    let shown = show_both(rt, replied, &mut asked);
    drop(asked);
    shown
}

/// The same. What both say goes into the sink.
fn show_both<R: Print + AllocGlobal>(
    rt: &R,
    replied: &[u8],
    asked: &mut Outbox,
) -> Result<(), Stop> {
    show_told(rt, replied, asked)?;
    show_each(rt, replied, asked)
}
