//! What the requests of each interface promise.

ghost use Rattle.std.specs.Prelude.{◌≡◌, ℕ, List, Option, None, IfSome, IfOk, IfErr, OnErr, map, true, false};
ghost use Rattle.ei_spec.specs.Value.{Value};
ghost use Rattle.ei_spec.specs.Interface.{ObjectView, Known};
ghost use Rattle.ei_spec.specs.declared.interface.KnownInterface.{KnownInterface};
ghost use Rattle.ei_wire.specs.Gives.{value_of_arg, WhereFull};
ghost use Rattle.ei_backend.specs.Message.{message_wants};
ghost use Rattle.ei_backend.specs.Proxies.{Announced, ReadsRow, ReadsWhole, Shows};

use ei_backend::Table;
use ei_wire::{Arg, ByteStream, NoMemory, ParseError};
use std::alloc::Global;

/// A message that was read, or why there is none.
pub(crate) type Parsed<T> = Result<T, ParseError>;

/// The requests of one interface, by their rows in the table of messages.
pub(crate) trait Message: Sized {
    ghost code: { Self → ℕ };

    ghost values: { Self → List Value };

    /// The object that the request announces; none, unless an `impl` says so.
    ghost announced: { Self → Option ObjectView } = { λ _. None };

    /// The interface.
    ghost KNOWN: { KnownInterface };

    /// Reads the arguments of a request of that opcode, and announces the object that it bears.
    fn parse(opcode: u32, bytes: &mut ByteStream<'_>, objects: &mut Table) -> Parsed<Self>
        ensures read { ReadsRow values false KNOWN opcode bytes.old bytes.new objects.old objects.new result }
        ensures code { IfOk result (λ m. code m ≡ opcode) }
        ensures announced { IfOk result (λ m. Announced (announced m) objects.old objects.new) }
        ensures err { OnErr result (objects.new ≡ objects.old) }
        ensures memory { IfErr result (WhereFull (message_wants false (Known KNOWN) opcode ≡ true)) };

    /// Reads the same, if it is lawful, announces nothing, and nothing is left.
    fn parse_lawful(opcode: u32, bytes: &mut ByteStream<'_>) -> Option<Self>
        ensures read { IfSome result (λ m. ReadsWhole false (Known KNOWN) opcode (values m) bytes.old bytes.new) }
        ensures code { IfSome result (λ m. code m ≡ opcode) }
        ensures announced { IfSome result (λ m. announced m ≡ None) };

    fn opcode(&self) -> u32
        ensures { result ≡ code self.now };

    /// All arguments in the row's order, with what `args` leaves out of a new object: its version and, where the message names it, its name.
    fn arguments(&self, alloc: Global) -> Result<Vec<Arg<'_>>, NoMemory>
        ensures { IfOk result (λ args. map value_of_arg args.items ≡ values self.now) };

    /// The arguments in order.
    fn args(&self, alloc: Global) -> Result<Vec<Arg<'_>>, NoMemory>
        ensures { IfOk result (λ args. Shows false KNOWN (code self.now) (values self.now) args.items) };
}
