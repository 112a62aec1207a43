//! What can be counted of two ends, before a call and behind it.

use crate::linked::Linked;
use ei_linked::Side;

/// What can be counted at a side.
#[derive(Clone, Copy, PartialEq, Eq)]
pub(crate) struct Counted {
    pub(crate) sent: usize,
    pub(crate) taken: usize,
    pub(crate) unsent: usize,
    pub(crate) unread: usize,
    pub(crate) is_closed: bool,
}

/// What can be counted at both.
#[derive(Clone, Copy, PartialEq, Eq)]
pub(crate) struct Counts {
    pub(crate) client: Counted,
    pub(crate) server: Counted,
}

/// What can be counted now.
pub(crate) fn counts_of<T: Linked>(ends: &T) -> Counts {
    Counts {
        client: ends.counted(Side::Client),
        server: ends.counted(Side::Server),
    }
}

/// Whether two ends that are spent have their lists as they were.
pub(crate) fn lists_as_before<T: Linked>(ends: &T, before: Counts) -> &'static str {
    let after = counts_of(ends);
    let sent = after.client.sent == before.client.sent && after.server.sent == before.server.sent;
    let taken = after.client.taken == before.client.taken
        && after.server.taken == before.server.taken;
    if sent && taken { "spent" } else { "changed" }
}
