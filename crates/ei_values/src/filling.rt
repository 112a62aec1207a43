//! The values of a call as they go out.

ghost use Rattle.std.specs.Prelude.{◌≡◌, ◌++◌, List, IfOk, OnOk, OnErr};
ghost use Rattle.std.specs.List.{flat_map};
ghost use Rattle.ei_values.specs.Stored.{fills, IsLawful, AreLawful};

use crate::value::{Value, Values};
use ei_wire::{EiText, NoMemory, OwnedArg};
use std::alloc::Global;

/// The value again.
fn copy_of(alloc: Global, value: &Value) -> Result<Value, NoMemory>
    ensures same { IfOk result (λ v. v ≡ value.now) }
    ensures lawful { OnOk result (IsLawful value.now) }
{
    Ok(match value {
        Value::Uint32(number) => Value::Uint32(*number),
        Value::Int32(number) => Value::Int32(*number),
        Value::Uint64(number) => Value::Uint64(*number),
        Value::Float(word) => Value::Float(*word),
        Value::Text(text) => {
            let _arg = text.as_arg();
            Value::Text(text.copy(alloc)?)
        }
        Value::NullText => Value::NullText,
        Value::Handle(handle) => Value::Handle(*handle),
        Value::New => Value::New,
        Value::NewInterface(interface) => Value::NewInterface(*interface),
    })
}

/// Adds a value as it goes out.
fn push_filled(out: &mut Values, alloc: Global, value: &Value, next: u64) -> Result<(), NoMemory>
    ensures filled { OnOk result (out.new ≡ out.old ++ fills next value.now) }
    ensures lawful { OnOk result (IsLawful value.now) }
{
    match value {
        Value::New => out.push(Value::Uint64(next)),
        Value::NewInterface(interface) => {
            out.push(Value::Uint64(next))?;
            out.push(Value::Text(EiText::name(*interface)))
        }
        _ => out.push(copy_of(alloc, value)?),
    }
}

/// The values of a call as they go out: the next own id in the place of a new one, with the name of its interface behind it
/// where the call says that interface.
pub fn filled(alloc: Global, values: &[Value], next: u64) -> Result<Values, NoMemory>
    ensures filled { IfOk result (λ v. v ≡ flat_map (fills next) values.now) }
    ensures lawful { OnOk result (AreLawful values.now) }
{
    let mut out = Values::new(alloc);
    for value in values {
        push_filled(&mut out, alloc, value, next)?;
    }
    Ok(out)
}
