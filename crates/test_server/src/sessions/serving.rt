//! Whole sessions.

ghost use Rattle.std.specs.Prelude.{◌≤◌};
ghost use Rattle.ei_types.specs.Capability.{bits_of, all_bits};

use super::outlet::Outlet;
use super::outside::{Options, options_and_parts};
use super::told::{lines_of, told_of};
use super::world::{Stage, World};
use crate::kept::{set, set_if};
use crate::setups::setup_of;
use ei_backend::{Pieces, Readings};
use ei_request::EisRequest;
use ei_serve::{Ended, Setup, serve};
use ei_server::Context;
use ei_types::Error;
use std::alloc::Global;
use test_table::{Answer, Reader};

/// `serve SERIAL CAPABILITIES PIECES OPTION .. : PART ..`: how the session ends, in each of the cuts.
pub(crate) fn serve_call(world: &mut World, words: &mut Reader<'_>, answer: &mut Answer) {
    let setup = setup_of(words);
    let (options, parts) = options_and_parts(words, answer);
    set_if(
        &mut world.parts,
        answer.take(String::from_str(world.alloc, parts)),
    );
    let (cut, others) = options.cuts.split_once(',').unwrap_or((options.cuts, ""));
    let told = served(&mut world.stage, setup, &options, cut, parts, answer);
    set(&mut world.told, told);
    for cut in others.split(',') {
        put_other(world, setup, &options, cut, parts, answer);
    }
    answer.put(lines_of(world.told.as_str()).0);
}

/// What is told of the session in this cut, where it is other than what was told; there is none without letters.
fn put_other(
    world: &mut World,
    setup: Setup,
    options: &Options<'_>,
    cut: &str,
    parts: &str,
    answer: &mut Answer,
)
    requires { bits_of setup.capabilities ≤ all_bits }
{
    if !cut.is_empty() {
        let told = served(&mut world.stage, setup, options, cut, parts, answer);
        if told != world.told {
            put_wrong(cut, told.as_str(), answer);
        }
        drop(told);
    }
}

/// What is told in a cut, which it isn't to be.
pub(crate) fn put_wrong(cut: &str, told: &str, answer: &mut Answer) {
    answer.put("in pieces of ");
    answer.put(cut);
    answer.put(": ");
    answer.put(told);
    answer.put("; else ");
}

/// What is told of the session in this cut.
pub(crate) fn served(
    stage: &mut Stage,
    setup: Setup,
    options: &Options<'_>,
    cut: &str,
    parts: &str,
    answer: &mut Answer,
) -> String
    requires { bits_of setup.capabilities ≤ all_bits }
{
    stage.prepare(options, cut, parts, answer);
    let ended = serve_over(
        stage.alloc,
        &mut stage.source,
        &mut stage.sink,
        &mut stage.clock,
        setup,
        &mut stage.out,
    );
    let told = told_of(stage, &ended, answer);
    drop(ended);
    told
}

/// How the session over these ends.
pub(crate) fn serve_over(
    alloc: Global,
    source: &mut Pieces,
    sink: &mut Outlet,
    clock: &mut Readings,
    setup: Setup,
    out: &mut Vec<EisRequest>,
) -> Result<Ended, Error>
    requires { bits_of setup.capabilities ≤ all_bits }
{
    serve(alloc, source, sink, clock, setup, out)
}

/// `left`: how many pieces the source has left, up to 200.
pub(crate) fn put_left(stage: &mut Stage, answer: &mut Answer) {
    if let Some(mut context) = answer.take(Context::new(stage.alloc)) {
        answer.display(&left_in(&mut context, &mut stage.source));
        drop(context);
    }
}

/// How many pieces the context can read, up to 200.
fn left_in(context: &mut Context, source: &mut Pieces) -> usize {
    let mut left = 0usize;
    for _ in 0..200 {
        if context.read(source).is_ok() {
            left = left.saturating_add(1);
        }
    }
    left
}
