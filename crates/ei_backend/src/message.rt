//! Typed messages.

ghost use Rattle.std.specs.Prelude.{◌≡◌, ℕ, Bool, true, List, Option, None, IfSome, IfOk, IfErr, OnErr, map};
ghost use Rattle.ei_spec.specs.Value.{Value};
ghost use Rattle.ei_spec.specs.Interface.{ObjectView};
ghost use Rattle.ei_backend.specs.Shown.{shown, shown_of_arg};
ghost use Rattle.ei_wire.specs.Gives.{value_of_arg, WhereFull};
ghost use Rattle.ei_wire.specs.Rows.{ReadsArguments};
ghost use Rattle.ei_backend.specs.Table.{Announced};
ghost use Rattle.ei_backend.specs.Message.{Parsed, ReadsWhole, message_read, message_wants};

use crate::object::Object;
use crate::table::Table;
use ei_wire::{Arg, ByteStream, NoMemory, ParseError};
use std::alloc::Global;

/// The messages that one end reads.
pub trait MessageEnum: Sized {
    /// Whether these are the server's events.
    ghost events: { Bool };

    /// The message's target, opcode and arguments.
    ghost target: { Self → ObjectView };

    ghost code: { Self → ℕ };

    ghost values: { Self → List Value };

    /// The object that the message announces; none, unless an `impl` says so.
    ghost announced: { Self → Option ObjectView } = { λ _. None };

    /// Reads the arguments of the opcode to the object, and announces its new object.
    ///
    /// `NoMemory` only where the message has a text or announces an object, or the object's interface isn't a known one.
    fn parse(
        alloc: Global,
        object: Object,
        opcode: u32,
        bytes: &mut ByteStream<'_>,
        table: &mut Table,
    ) -> Result<Self, ParseError>
        ensures read { ReadsArguments
            (λ m. record { values = values m; table = table.new; unread = bytes.new }) bytes.new.taken result
            (message_read events object.interface opcode bytes.old table.old) }
        ensures target { IfOk result (λ m. (target m ≡ object) × (code m ≡ opcode)) }
        ensures announced { IfOk result (λ m. Announced (announced m) table.old table.new) }
        ensures err { OnErr result (table.new ≡ table.old) }
        ensures memory { IfErr result (WhereFull (message_wants events object.interface opcode ≡ true)) };

    /// Reads the same, if the message is lawful, announces nothing, and nothing is left. `None` says nothing, nor where the
    /// stream stands then: `parse` reads the message from its beginning, or says what is wrong. An `impl` may leave it out.
    fn parse_lawful(object: &Object, opcode: u32, bytes: &mut ByteStream<'_>) -> Option<Self>
        ensures read { IfSome result (λ m. ReadsWhole events object.now.interface opcode
            (values m) bytes.old bytes.new) }
        ensures target { IfSome result (λ m. (target m ≡ object.now) × (code m ≡ opcode)) }
        ensures announced { IfSome result (λ m. announced m ≡ None) }
    {
        None
    }

    /// All arguments in the row's order: of a new object its id, its name where the message names it, and its version.
    ///
    /// `NoMemory` leaves the message.
    fn arguments(&self, alloc: Global) -> Result<Vec<Arg<'_>>, NoMemory>
        ensures { IfOk result (λ args. map value_of_arg args.items ≡ values self.now) };

    /// The arguments in order. A new object is shown by its id, without its version and, where the message
    /// names it, without the name of its interface.
    fn args(&self, alloc: Global) -> Result<Vec<Arg<'_>>, NoMemory>
        ensures { IfOk result (λ args. map shown_of_arg args.items ≡
            shown events (target self.now).interface (code self.now) (values self.now)) };

    /// The object that the message is to.
    fn object(&self) -> &Object
        ensures { result.now ≡ target self.now };

    /// The opcode.
    fn opcode(&self) -> u32
        ensures { result ≡ code self.now };
}

/// What a call for the next message answers: `None` where no whole one came.
pub type Answer<T> = Result<Option<PendingRequestResult<T>>, NoMemory>;

/// What stands at the front.
#[derive(Debug, Drop)]
pub enum PendingRequestResult<T> {
    Request(T),
    ParseError(ParseError),
    InvalidObject(u64),
}
