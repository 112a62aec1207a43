//! The arguments of a message that was read, as they are stored.

ghost use Rattle.std.specs.Prelude.{◌≡◌, map, IfOk};
ghost use Rattle.ei_spec.specs.Value.{IsOf};
ghost use Rattle.ei_spec.specs.Arguments.{AreOf};
ghost use Rattle.ei_rows.specs.Parts.{kind_view};
ghost use Rattle.ei_wire.specs.Gives.{value_of_arg};
ghost use Rattle.ei_values.specs.Stored.{stored_as, all_stored};

use crate::value::{Value, Values};
use ei_rows::ArgKind;
use ei_wire::{Arg, EiText, NoMemory};
use std::alloc::Global;

/// An argument of the kind, as it is stored.
fn stored_as(alloc: Global, kind: ArgKind, arg: &Arg<'_>) -> Result<Value, NoMemory>
    requires { IsOf (kind_view kind) (value_of_arg arg.now) }
    ensures { IfOk result (λ v. v ≡ stored_as (kind_view kind) (value_of_arg arg.now)) }
{
    Ok(match arg {
        Arg::Uint32(word) | Arg::Float(word) => match kind {
            ArgKind::Float => Value::Float(*word),
            _ => Value::Uint32(*word),
        },
        Arg::Int32(number) => Value::Int32(*number),
        Arg::Uint64(number) | Arg::NewId(number) | Arg::Id(number) => Value::Uint64(*number),
        Arg::String(Some(text)) => Value::Text(EiText::new(alloc, text)?),
        Arg::String(None) => Value::NullText,
        Arg::Fd(handle) => Value::Handle(*handle),
        // no kind has it
        Arg::Int64(_) => unreachable!(),
    })
}

/// The arguments of these kinds, as they are stored.
#[tactic(auto, using(crate::proofs::OneByOne::of_length, crate::proofs::OneByOne::of_at, crate::proofs::OneByOne::stored_more, crate::proofs::OneByOne::stored_end))]
pub fn stored(alloc: Global, kinds: &[ArgKind], args: &[Arg<'_>]) -> Result<Values, NoMemory>
    requires { AreOf (map kind_view kinds.now) (map value_of_arg args.now) }
    ensures { IfOk result (λ v. v ≡ all_stored (map kind_view kinds.now) (map value_of_arg args.now)) }
{
    if kinds.len() != args.len() {
        unreachable!();
    }
    let mut values = Values::new(alloc);
    for (place, kind) in kinds.iter().enumerate() {
        values.push(stored_as(alloc, *kind, &args[place])?)?;
    }
    Ok(values)
}
