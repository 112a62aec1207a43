//! Messages as they are stored, and how they go out.

ghost use Rattle.std.specs.Prelude.{◌≡◌, ◌<◌, ◌≤◌, ◌^◌, None, Some, OnOk, OnErr, IfOk, IsErrOf};
ghost use Rattle.ei_spec.specs.Interface.{Known};
ghost use Rattle.ei_spec.specs.Rows.{row_at};
ghost use Rattle.ei_spec.specs.Table.{table};
ghost use Rattle.ei_backend.specs.Table.{own, own_end};
ghost use Rattle.ei_wire.specs.declared.error.SendError.TheVariants as send_error;
ghost use Rattle.ei_ends.specs.Sent.{new_of, ends_target};
ghost use Rattle.ei_ends.specs.Steps.{called};
ghost use Rattle.ei_values.specs.Stored.{AreLawful};
ghost use Rattle.ei_linked.specs.Stored.{sent_view, as_known};
ghost use Rattle.ei_linked.specs.Asked.{asked, AreNew, IsTooLong};

use ei_backend::{Backend, InterfaceName, Object};
use ei_rows::{Announcing, row_of};
use ei_spec::KnownInterface;
use ei_values::{Value, Values, args_of, filled, interface_in, new_id, version_of};
use ei_wire::{NoMemory, SendError};
use std::alloc::Global;

/// A message: its target, with the interface and version of that, and its values. A new id is a `Uint64` among them.
#[derive(Drop)]
pub struct Record {
    pub target: u64,
    pub interface: KnownInterface,
    pub version: u32,
    pub opcode: u32,
    pub values: Values,
}

/// What an end took off its unread bytes. `after` is how many messages it had sent by then.
#[derive(Drop)]
pub enum Got {
    Message { message: Record, after: u64 },
    /// A message to no object that the end has.
    InvalidObject { id: u64, after: u64 },
}

/// An object that is named by its id, with what it was announced as.
#[derive(Clone, Copy)]
pub struct Target {
    pub id: u64,
    pub interface: KnownInterface,
    pub version: u32,
}

impl Target {
    /// What names the object.
    pub fn of(object: &Object) -> Target
        requires { object.now.interface ≡ Known (as_known object.now.interface) }
        ensures { result ≡
            record { id = object.now.id; interface = as_known object.now.interface; version = object.now.version } }
    {
        let Some(interface) = object.known_interface() else {
            unreachable!();
        };
        Target {
            id: object.id(),
            interface,
            version: object.version(),
        }
    }
}

/// The object that a message announces. The interface is none where it isn't one of the protocol.
#[derive(Clone, Copy)]
pub struct Announced {
    pub id: u64,
    pub interface: Option<KnownInterface>,
    pub version: u32,
}

/// Whether a message of the opcode destroys its target.
fn destroys(events: bool, interface: KnownInterface, opcode: u32) -> bool
    ensures { result ≡ ends_target (row_at opcode (table events interface)) }
{
    match row_of(events, interface, opcode) {
        Some(row) => row.destroys,
        None => false,
    }
}

impl Record {
    /// The message to an object, with the next own id in the place of a new one.
    pub(crate) fn asked(
        alloc: Global,
        target: Target,
        opcode: u32,
        values: &[Value],
        next: u64,
    ) -> Result<Record, NoMemory>
        ensures asked { IfOk result (λ r. r ≡ asked next target.id target.interface target.version opcode values.now) }
        ensures lawful { OnOk result (AreLawful values.now) }
        ensures fits { OnOk result ((next < 2 ^ 64) × (target.id < 2 ^ 64) × (opcode < 2 ^ 32)) }
    {
        Ok(Record {
            target: target.id,
            interface: target.interface,
            version: target.version,
            opcode,
            values: filled(alloc, values, next)?,
        })
    }

    /// The object that the message announces.
    pub(crate) fn announces(&self, events: bool) -> Option<Announced>
        ensures { AreNew result (new_of events (sent_view self.now)) }
    {
        let row = row_of(events, self.interface, self.opcode)?;
        let values = self.values.as_slice();
        let id = new_id(row.kinds, values);
        let version = version_of(values);
        match row.announces {
            Announcing::Nothing => None,
            Announcing::Fixed(interface) => Some(Announced {
                id,
                interface: Some(interface),
                version,
            }),
            Announcing::Named => Some(Announced {
                id,
                interface: interface_in(values),
                version,
            }),
        }
    }

    /// Writes the message, which announces nothing.
    #[tactic(auto, unfolding(ei_ends::specs::Sent::row_of, ei_ends::specs::Sent::bytes_in, ei_ends::specs::Steps::table_after, ei_ends::specs::Steps::table_with))]
    pub(crate) fn send(
        &self,
        alloc: Global,
        events: bool,
        backend: &mut Backend,
    ) -> Result<(), SendError>
        requires plain { new_of events (sent_view self.now) ≡ None }
        ensures ok { OnOk result (backend.new ≡ called events (sent_view self.now) backend.old) }
        ensures short { OnOk result (IsTooLong self.now → ⊥) }
        ensures long { IsErrOf result send_error.MessageTooLong → IsTooLong self.now }
        ensures not_exhausted { IsErrOf result send_error.IdsExhausted → ⊥ }
        ensures err { OnErr result (backend.new ≡ backend.old) }
    {
        let args = args_of(alloc, self.values.as_slice())?;
        backend.request(self.target, self.opcode, &args)?;
        if destroys(events, self.interface, self.opcode) {
            backend.remove_id(self.target);
        }
        Ok(())
    }

    /// Writes the message, which announces the next object.
    #[tactic(auto, unfolding(ei_ends::specs::Sent::row_of, ei_ends::specs::Sent::bytes_in, ei_ends::specs::Steps::table_after, ei_ends::specs::Steps::table_with))]
    pub(crate) fn send_new(
        &self,
        alloc: Global,
        events: bool,
        backend: &mut Backend,
        interface: KnownInterface,
        version: u32,
    ) -> Result<Object, SendError>
        requires announces { new_of events (sent_view self.now) ≡
            Some (record { id = backend.old.table.next_own; interface = Known interface; version = version }) }
        ensures ok { IfOk result (λ o. (backend.new ≡ called events (sent_view self.now) backend.old)
            × (o ≡ own backend.old.table (Known interface) version)) }
        ensures short { OnOk result (IsTooLong self.now → ⊥) }
        ensures left { OnOk result (backend.old.table.next_own < own_end backend.old.table) }
        ensures exhausted { IsErrOf result send_error.IdsExhausted →
            own_end backend.old.table ≤ backend.old.table.next_own }
        ensures long { IsErrOf result send_error.MessageTooLong →
            (backend.old.table.next_own < own_end backend.old.table) × IsTooLong self.now }
        ensures err { OnErr result (backend.new ≡ backend.old) }
    {
        let args = args_of(alloc, self.values.as_slice())?;
        let name = InterfaceName::Known(interface);
        let object = backend.request_new(self.target, self.opcode, &args, name, version)?;
        if destroys(events, self.interface, self.opcode) {
            backend.remove_id(self.target);
        }
        Ok(object)
    }
}
