//! The session of the lines before.

use super::outlet::Outlet;
use super::outside::Options;
use crate::kept::{set, set_if};
use ei_backend::{Pieces, Readings};
use ei_request::EisRequest;
use ei_serve::Session;
use std::alloc::Global;
use test_table::Answer;

/// What a session is served over, and what is told of the last one; and a session that is turned by hand.
#[derive(Drop)]
pub(crate) struct World {
    pub(crate) alloc: Global,
    /// What the client sent, in hexadecimal digits with blanks between the parts.
    pub(crate) parts: String,
    /// What `told_of` tells.
    pub(crate) told: String,
    pub(crate) stage: Stage,
    pub(crate) session: Option<Session>,
}

impl World {
    /// No session yet, over that clock.
    pub(crate) fn new(alloc: Global, clock: Readings) -> World {
        World {
            alloc,
            parts: String::new(alloc),
            told: String::new(alloc),
            stage: Stage {
                alloc,
                source: Pieces::new(alloc),
                sink: Outlet::new(alloc, 0, 0),
                clock,
                out: Vec::new(alloc),
            },
            session: None,
        }
    }
}

/// What a session is served over: its source, its sink and its clock, and what it hands out.
#[derive(Drop)]
pub(crate) struct Stage {
    pub(crate) alloc: Global,
    pub(crate) source: Pieces,
    pub(crate) sink: Outlet,
    pub(crate) clock: Readings,
    pub(crate) out: Vec<EisRequest>,
}

impl Stage {
    /// The parts in this cut are to come, and nothing was handed out or sent.
    pub(crate) fn prepare(
        &mut self,
        options: &Options<'_>,
        cut: &str,
        parts: &str,
        answer: &mut Answer,
    ) {
        set(
            &mut self.source,
            options.source(self.alloc, cut, parts, answer),
        );
        set(&mut self.sink, options.sink(self.alloc, answer));
        set_if(&mut self.clock, options.clock(self.alloc, answer));
        self.out.clear();
    }
}
