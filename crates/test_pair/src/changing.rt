//! What is called at the end of a callback.

use ei_handler::Call;

/// Changes the number that it is given by its own.
#[derive(Drop)]
pub(crate) struct Changes {
    pub(crate) by: u64,
}

impl Call for Changes {
    ghost may_answer = { λ changes value answer. Unit {0} };

    fn call(self, value: u64) -> u64 {
        value ^ self.by
    }
}

/// A pair whose client calls these.
pub(crate) type Pair = ei_pair::Pair<Changes>;

/// What such a client is asked for.
pub(crate) type ClientCall<'a> = ei_pair::ClientCall<'a, Changes>;
