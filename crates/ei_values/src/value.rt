//! A value, and a list of values.

ghost use Rattle.std.specs.Prelude.{◌≡◌, ◌++◌, ◌∷◌, [], map, OnOk, OnErr, IfOk};
ghost use Rattle.ei_wire.specs.Gives.{value_of_arg};
ghost use Rattle.ei_values.specs.Stored.{value_view};

use ei_spec::{Handle, KnownInterface};
use ei_wire::{Arg, EiText, NoMemory};
use std::alloc::Global;
use std::marker::Model;

/// A value of a message.
///
/// An enum is the `Uint32` of its number. What was sent or read has a new id as `Uint64`; a call has `New` in its place, or
/// `NewInterface` in the place of the id and the name of its interface.
#[derive(Drop)]
pub enum Value {
    Uint32(u32),
    Int32(i32),
    Uint64(u64),
    /// The word of a float.
    Float(u32),
    Text(EiText),
    NullText,
    Handle(Handle),
    /// In a call: the new id.
    New,
    /// In a call: the new id, and the name of the interface behind it.
    NewInterface(KnownInterface),
}

impl Value {
    /// The value as an argument. In the place of a new id, which only a call has, stands 0.
    pub fn as_arg(&self) -> Arg<'_>
        ensures { value_of_arg result ≡ value_view self.now }
    {
        match self {
            Value::Uint32(number) => Arg::Uint32(*number),
            Value::Int32(number) => Arg::Int32(*number),
            Value::Uint64(number) => Arg::Uint64(*number),
            Value::Float(word) => Arg::Float(*word),
            Value::Text(text) => Arg::String(Some(text.as_str())),
            Value::NullText => Arg::String(None),
            Value::Handle(handle) => Arg::Fd(*handle),
            Value::New | Value::NewInterface(_) => Arg::Uint64(0),
        }
    }
}

/// Values in their order.
#[derive(Drop)]
pub struct Values {
    items: Vec<Value>,
}

impl Model for Values {
    ghost use Rattle.ei_values.specs.Stored.{ValueList};

    ghost Value = { ValueList };

    ghost view = { λ v. v.items.items };
}

impl Values {
    pub fn new(alloc: Global) -> Values
        ensures { result ≡ [] }
    {
        Values {
            items: Vec::new(alloc),
        }
    }

    /// Adds a value at the end, or nothing.
    pub fn push(&mut self, value: Value) -> Result<(), NoMemory>
        ensures ok { OnOk result (self.new ≡ self.old ++ (value ∷ [])) }
        ensures err { OnErr result (self.new ≡ self.old) }
    {
        self.items.push(value)?;
        Ok(())
    }

    pub fn as_slice(&self) -> &[Value]
        ensures { result.now ≡ self.now }
    {
        &self.items
    }
}

/// The values as arguments.
pub fn args_of(alloc: Global, values: &[Value]) -> Result<Vec<Arg<'_>>, NoMemory>
    ensures { IfOk result (λ args. map value_of_arg args.items ≡ map value_view values.now) }
{
    let mut args = Vec::new(alloc);
    for value in values {
        args.push(value.as_arg())?;
    }
    Ok(args)
}
