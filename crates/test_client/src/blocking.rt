//! A handshake that blocks.

use crate::handshake::push_complete;
use crate::laying::{Lent, lay_out};
use crate::words::{kind, letters, push, push_shown};
use ei_blocking::ei_handshake_blocking;
use ei_client::Context;
use ei_handshake::HandshakeResp;
use ei_types::{ContextType, Error};
use std::alloc::{AllocError, Global};
use test_table::{Answer, Reader};

/// `PIECES KIND NAME SOURCE SINK WORD ..`: adds what the handshake over these pieces answers, how many bytes the sink then
/// has, how many are unread, and how many pieces are left. The source fails at that call, and the sink at that, 0 at none; a
/// name of `*` and a number has so many letters. What a word stands for: `lay_out`.
pub(crate) fn block(
    alloc: Global,
    context: &mut Context,
    words: &mut Reader<'_>,
    answer: &mut Answer,
) {
    let mut lent = Lent::new(alloc);
    block_over(alloc, context, &mut lent, words, answer);
    push(answer, &lent.sink.bytes().len());
    push(answer, &context.unread_len());
    lent.push_left(answer);
    drop(lent);
}

/// Adds what the handshake over what is lent answers.
fn block_over(
    alloc: Global,
    context: &mut Context,
    lent: &mut Lent,
    words: &mut Reader<'_>,
    answer: &mut Answer,
) {
    let (pieces, kind) = (words.number(), kind(words));
    if let Some(name) = answer.take(name_of(alloc, words)) {
        lent.fail_at(words, answer);
        lay_out(alloc, context, &mut lent.source, words.rest(), answer);
        shake_hands(alloc, context, lent, name.as_str(), kind, pieces, answer);
        drop(name);
    }
}

/// Adds what the handshake answers.
fn shake_hands(
    alloc: Global,
    context: &mut Context,
    lent: &mut Lent,
    name: &str,
    kind: ContextType,
    pieces: u32,
    answer: &mut Answer,
) {
    let shaken = ei_handshake_blocking(
        alloc,
        context,
        &mut lent.source,
        &mut lent.sink,
        name,
        kind,
        pieces,
    );
    push_shaken(answer, &shaken);
    drop(shaken);
}

/// Adds what a handshake that blocks answers.
fn push_shaken(answer: &mut Answer, shaken: &Result<HandshakeResp, Error>) {
    match shaken {
        Ok(resp) => push_complete(answer, resp),
        Err(error) => push_shown(answer, error),
    }
}

/// The name that the next word stands for.
fn name_of(alloc: Global, words: &mut Reader<'_>) -> Result<String, AllocError> {
    let word = words.word();
    match word.strip_prefix('*') {
        Some(length) => letters(alloc, words.or(length.parse::<usize>(), 0)),
        None => String::from_str(alloc, word),
    }
}
