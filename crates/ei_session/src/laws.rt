//! The laws of a session, and its worked rows. Each function does nothing: its clauses are the laws.

pub use crate::all_requests::{
    all_one_more, all_prefixes, all_sessions, all_streams, answers, bounds, devices_made, groups,
    inputs, interfaces_after, items, objects_after, objects_there, refusals, steps_after, targets,
    touches_after,
};
pub use crate::completeness::complete_pieces;
pub use crate::devices_held::{fresh_devices, touch_counts};
pub use crate::kinds_of_messages::{
    finish_message, frames_made_by_item, given_by_item, handshake_messages, ids_run_out,
    other_inputs, plain_requests, seat_released,
};
pub use crate::meanings::{
    answered_by_meaning, asked_by_meaning, asked_rows, judged_by_meaning, refused_by_meaning,
    requests_ask, words_by_meaning,
};
pub use crate::next::{own_ids, peer_ids};
pub use crate::objects_by_id::{
    interfaces_there, new_objects, objects_gone, objects_introduced, objects_placed,
};
pub use crate::told::reply_targets;
pub use crate::versions::settled_versions;
pub use crate::worked::{
    callbacks, devices, first_messages, handshakes, strangers, texts, touches, whole_session,
};
pub use crate::worked_told::{given_ids, needed_pieces, settled_names, told_objects};
