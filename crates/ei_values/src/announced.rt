//! The object that the values of a message announce.

ghost use Rattle.std.specs.Prelude.{◌≡◌, map};
ghost use Rattle.ei_spec.specs.Rows as rows;
ghost use Rattle.ei_spec.specs.Interface.{known_of};
ghost use Rattle.ei_rows.specs.Parts.{kind_view};
ghost use Rattle.ei_values.specs.Stored.{value_view, word_in, id_in};

use crate::value::Value;
use ei_rows::ArgKind;
use ei_spec::KnownInterface;

/// The number that a value is, where a new id stands.
fn id_of(kind: ArgKind, value: &Value) -> Option<u64>
    ensures { result ≡ id_in (kind_view kind) (value_view value.now) }
{
    match value {
        Value::Uint64(id) if matches!(kind, ArgKind::New) => Some(*id),
        Value::New | Value::NewInterface(_) if matches!(kind, ArgKind::New) => Some(0),
        _ => None,
    }
}

/// The new id among the values of these kinds; 0 where there is none.
pub fn new_id(kinds: &[ArgKind], values: &[Value]) -> u64
    ensures { result ≡ rows.new_id (map kind_view kinds.now) (map value_view values.now) }
{
    for (place, kind) in kinds.iter().enumerate() {
        let Some(value) = values.get(place) else {
            return 0;
        };
        if let Some(id) = id_of(*kind, value) {
            return id;
        }
    }
    0
}

/// The number that a value is, where it is one of four bytes.
fn word_of(value: &Value) -> u32
    ensures { result ≡ word_in (value_view value.now) }
{
    match value {
        Value::Uint32(number) | Value::Float(number) => *number,
        _ => 0,
    }
}

/// The version of what the values announce: the last of them.
#[tactic(auto, using(crate::proofs::Last::version_more))]
pub fn version_of(values: &[Value]) -> u32
    ensures { result ≡ rows.version_of (map value_view values.now) }
{
    let mut version = 0;
    for value in values {
        version = word_of(value);
    }
    version
}

/// The interface that the first text among the values names, if it is one of the protocol.
pub fn interface_in(values: &[Value]) -> Option<KnownInterface>
    ensures { result ≡ known_of (rows.name_in (map value_view values.now)) }
{
    for value in values {
        if let Value::Text(text) = value {
            return text.interface();
        }
    }
    None
}
