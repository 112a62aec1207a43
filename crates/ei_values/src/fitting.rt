//! Whether the values of a call are those of a row.

ghost use Rattle.std.specs.Prelude.{◌≡◌, map, drop};
ghost use Rattle.ei_rows.specs.Parts.{kind_view, seen};
ghost use Rattle.ei_values.specs.Stored.{fits_kind, all_fit, fits_row};

use crate::value::Value;
use ei_rows::{Announcing, ArgKind, Row};

/// Whether a call may give the value where the row has the kind.
fn fits_kind(kind: ArgKind, value: &Value) -> bool
    ensures { result ≡ fits_kind (kind_view kind) value.now }
{
    match value {
        Value::Uint32(number) => match kind {
            ArgKind::U32 | ArgKind::DisconnectReason => true,
            ArgKind::ContextType | ArgKind::DeviceType => matches!(*number, 1 | 2),
            ArgKind::ButtonState | ArgKind::KeyState => matches!(*number, 0 | 1),
            ArgKind::KeymapType => *number == 1,
            _ => false,
        },
        Value::Int32(_) => matches!(kind, ArgKind::I32),
        Value::Uint64(_) => matches!(kind, ArgKind::U64),
        Value::Float(_) => matches!(kind, ArgKind::Float),
        Value::Text(_) => matches!(kind, ArgKind::Text | ArgKind::Nullable),
        Value::NullText => matches!(kind, ArgKind::Nullable),
        Value::Handle(_) => matches!(kind, ArgKind::Handle),
        Value::New => matches!(kind, ArgKind::New),
        Value::NewInterface(_) => false,
    }
}

/// Whether the values are of the kinds, one by one.
#[tactic(auto, using(crate::proofs::OneByOne::fit_more, crate::proofs::OneByOne::same_length))]
fn all_fit(kinds: &[ArgKind], values: &[Value]) -> bool
    ensures { result ≡ all_fit (map kind_view kinds.now) values.now }
{
    if kinds.len() != values.len() {
        return false;
    }
    for (place, kind) in kinds.iter().enumerate() {
        if !fits_kind(*kind, &values[place]) {
            return false;
        }
    }
    true
}

/// The kinds behind those of an id and the name of its interface, with which they begin.
fn behind_name(kinds: &[ArgKind]) -> &[ArgKind]
    ensures { result.now ≡ drop 2 kinds.now }
{
    match kinds.get(2..) {
        Some(kinds) => kinds,
        None => &[],
    }
}

/// Whether a call may give the values to a message of the row: each is of its kind, with `New` for a new id. An object whose
/// interface the message names is asked for by `NewInterface`, for id and name.
pub fn fits(row: &Row, values: &[Value]) -> bool
    ensures { result ≡ fits_row (seen row.now).announces (seen row.now).kinds values.now }
{
    match row.announces {
        Announcing::Named => match values.first() {
            Some(Value::NewInterface(_)) => all_fit(behind_name(row.kinds), &values[1..]),
            _ => false,
        },
        _ => all_fit(row.kinds, values),
    }
}
