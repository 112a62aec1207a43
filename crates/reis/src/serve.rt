//! A whole session of a server: it greets a client, shakes hands, announces a seat, and hands out what it asks.

pub use ei_serve::{Ended, Session, Setup, Turn, serve};
