//! What a call is lent, and what the words of a line lay out for it.

use crate::words::{bytes, push};
use ei_backend::{HasBackend, Pieces, Source, Tray};
use ei_client::Context;
use ei_wire::Handle;
use std::alloc::Global;
use test_table::{Answer, Reader, Stop};

/// The pieces that a call may take, and the tray that takes what it sends.
#[derive(Drop)]
pub(crate) struct Lent {
    pub(crate) source: Pieces,
    pub(crate) sink: Tray,
}

impl Lent {
    /// No pieces, and nothing sent.
    pub(crate) fn new(alloc: Global) -> Lent {
        Lent {
            source: Pieces::new(alloc),
            sink: Tray::new(alloc),
        }
    }

    /// Lets the source fail at the call that the next word says, and the sink at that of the word behind it, 0 at none.
    pub(crate) fn fail_at(&mut self, words: &mut Reader<'_>, answer: &mut Answer) {
        let (source, sink) = (words.number(), words.number());
        if source > 0 {
            answer.take(self.source.fail_at(source));
        }
        if sink > 0 {
            answer.take(self.sink.fail_at(sink));
        }
    }

    /// Adds how many pieces are left.
    pub(crate) fn push_left(&mut self, answer: &mut Answer) {
        if let Some(left) = answer.take(self.left()) {
            push(answer, &left);
        }
    }

    /// How many pieces are left.
    fn left(&mut self) -> Result<u32, Stop> {
        let mut bytes = [0; 65536];
        let mut handles = [Handle(0); 64];
        for left in 0..u32::MAX {
            let Ok(taken) = self.source.take(&mut bytes, &mut handles) else {
                return Err(Stop::Call);
            };
            if taken.bytes == 0 {
                return Ok(left);
            }
        }
        Err(Stop::Line)
    }
}

/// Makes everything ready. A word of bytes is a piece of the source; with `*` before them each byte is one, and with
/// `%` each has 64 handles too. Bytes behind `<` are unread from before, `!` is a `finish` that is unsent, and `#`
/// closes the endpoint.
pub(crate) fn lay_out(
    alloc: Global,
    context: &mut Context,
    source: &mut Pieces,
    words: &str,
    answer: &mut Answer,
) {
    for word in words.split(' ') {
        lay(alloc, context, source, word, answer);
    }
}

/// Does what a word says.
fn lay(alloc: Global, context: &mut Context, source: &mut Pieces, word: &str, answer: &mut Answer) {
    match word {
        "" => {}
        "!" => finish(context, answer),
        "#" => context.backend_mut().close(),
        _ => match word.strip_prefix('<') {
            Some(digits) => read(alloc, context, digits, &[], answer),
            None => lay_pieces(alloc, source, word, answer),
        },
    }
}

/// Adds the pieces that a word says.
fn lay_pieces(alloc: Global, source: &mut Pieces, word: &str, answer: &mut Answer) {
    if let Some(digits) = word.strip_prefix('*') {
        push_each(alloc, source, digits, &[], answer)
    } else if let Some(digits) = word.strip_prefix('%') {
        push_each(alloc, source, digits, &[Handle(7); 64], answer)
    } else if let Some(piece) = answer.take(bytes(alloc, word)) {
        push_piece(source, &piece, &[], answer);
        drop(piece);
    }
}

/// A piece more for each byte of these digits, with these handles.
fn push_each(
    alloc: Global,
    source: &mut Pieces,
    digits: &str,
    handles: &[Handle],
    answer: &mut Answer,
) {
    if let Some(bytes) = answer.take(bytes(alloc, digits)) {
        for byte in &bytes {
            push_piece(source, &[*byte], handles, answer);
        }
        drop(bytes);
    }
}

/// A piece more, with these handles.
fn push_piece(source: &mut Pieces, piece: &[u8], handles: &[Handle], answer: &mut Answer) {
    if piece.is_empty() || piece.len() > 65536 || handles.len() > 64 {
        answer.stop(Stop::Line);
    } else {
        answer.take(source.push(piece, handles));
    }
}

/// Reads one piece, the bytes of these digits with these handles.
pub(crate) fn read(
    alloc: Global,
    context: &mut Context,
    digits: &str,
    handles: &[Handle],
    answer: &mut Answer,
) {
    if let Some(piece) = answer.take(bytes(alloc, digits)) {
        read_bytes(alloc, context, &piece, handles, answer);
        drop(piece);
    }
}

/// Reads one piece, these bytes with these handles.
pub(crate) fn read_bytes(
    alloc: Global,
    context: &mut Context,
    piece: &[u8],
    handles: &[Handle],
    answer: &mut Answer,
) {
    let mut source = Pieces::new(alloc);
    push_piece(&mut source, piece, handles, answer);
    answer.take(context.read(&mut source));
    drop(source);
}

/// Leaves a request unsent.
fn finish(context: &mut Context, answer: &mut Answer) {
    match context.handshake() {
        Some(handshake) => {
            answer.take(handshake.finish(context));
            drop(handshake);
        }
        None => answer.stop(Stop::Line),
    }
}

/// Takes out what waits to be sent, and adds its bytes behind the mark, if there are any.
pub(crate) fn push_sent(alloc: Global, context: &mut Context, mark: &str, answer: &mut Answer) {
    let mut tray = Tray::new(alloc);
    answer.take(context.flush(&mut tray));
    push_bytes(alloc, tray.bytes(), mark, answer);
    drop(tray);
}

/// Adds these bytes behind the mark, if there are any.
pub(crate) fn push_bytes(alloc: Global, sent: &[u8], mark: &str, answer: &mut Answer) {
    if sent.is_empty() {
        return;
    }
    answer.put(mark);
    if let Some(digits) = answer.take(hex::encode(alloc, sent)) {
        answer.put(digits.as_str());
        drop(digits);
    }
}
