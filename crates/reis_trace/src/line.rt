//! A message as a line of text.

ghost use Rattle.std.specs.Prelude.{◌≡◌, IfOk};
ghost use Rattle.std.specs.Option.{option_map};
ghost use Rattle.ei_spec.specs.Interface.{bytes_of};
ghost use Rattle.ei_wire.specs.ArgText.{arg_text};
ghost use Rattle.reis_trace.specs.TraceLine.{trace_text, commas, name_shown, arrow, operation};

use ei_backend::Object;
use ei_types::op_name;
use ei_wire::{Arg, EiText, NoMemory};
use std::alloc::Global;
use std::fmt;

/// The line of a message that an end sent or got, without its newline, as ` -> ei_handshake@0.handshake_version(1)`:
/// an arrow where it came in, the name of the object's interface, the object's id in hexadecimal, the message's name,
/// and its arguments. An unknown name is shown as `UNKNOWN`.
///
/// The message is an event where it comes to a client or leaves a server, and else a request.
pub fn trace_line(
    alloc: Global,
    client: bool,
    incoming: bool,
    object: Option<&Object>,
    object_id: u64,
    opcode: u32,
    args: &[Arg<'_>],
) -> Result<EiText, NoMemory>
    ensures { IfOk result (λ line. line ≡ trace_text client incoming
        (option_map (λ o. bytes_of o.now.interface) object.entry)
        object_id opcode (commas arg_text args.now)) }
{
    let line = Line {
        client,
        incoming,
        object,
        object_id,
        opcode,
        args,
    };
    EiText::new(alloc, format!(in alloc; "{line}")?.as_str())
}

/// A message that an end sent or got, which is shown as its line.
#[derive(Drop)]
pub(crate) struct Line<'a> {
    /// Whether the end is a client.
    pub(crate) client: bool,
    pub(crate) incoming: bool,
    pub(crate) object: Option<&'a Object>,
    pub(crate) object_id: u64,
    pub(crate) opcode: u32,
    pub(crate) args: &'a [Arg<'a>],
}

impl fmt::Display for Line<'_> {
    ghost use Rattle.std.specs.Prelude.{Some};

    ghost output = { λ l. Some (trace_text l.client l.incoming (option_map (λ o. bytes_of o.now.interface) l.object)
        l.object_id l.opcode (commas arg_text l.args.now)) };

    fn fmt<W: fmt::Write>(&self, f: &mut fmt::Formatter<W>) -> fmt::Result {
        let interface = self.object.map(|o| o.interface());
        let name = operation(self.client, self.incoming, interface, self.opcode);
        let arrow = arrow(self.incoming);
        let interface = name_shown(interface);
        let object_id = self.object_id;
        let name = name_shown(name);
        let args = Commas(self.args);
        write!(f, "{arrow}{interface}@{object_id:x}.{name}({args})")
    }
}

/// An arrow before a message that comes in.
fn arrow(incoming: bool) -> &'static str
    ensures { result.now ≡ arrow incoming }
{
    if incoming { " -> " } else { "" }
}

/// The name of the message.
fn operation(
    client: bool,
    incoming: bool,
    interface: Option<&str>,
    opcode: u32,
) -> Option<&'static str>
    ensures { option_map (λ name. name.now) result ≡
        operation client incoming (option_map (λ name. name.now) interface.entry) opcode }
{
    op_name(client == incoming, interface?, opcode)
}

/// A name, or that there is none.
fn name_shown(name: Option<&str>) -> &str
    ensures { result.now ≡ name_shown (option_map (λ name. name.now) name.entry) }
{
    name.unwrap_or("UNKNOWN")
}

/// Arguments, with a comma and a blank between them.
#[derive(Drop)]
struct Commas<'a>(&'a [Arg<'a>]);

impl fmt::Display for Commas<'_> {
    ghost use Rattle.std.specs.Prelude.{Some};

    ghost output = { λ args. Some (commas arg_text args.0.now) };

    #[tactic(auto, using(crate::proofs::Between::commas_more))]
    fn fmt<W: fmt::Write>(&self, f: &mut fmt::Formatter<W>) -> fmt::Result {
        let mut between = "";
        for arg in self.0 {
            write!(f, "{between}{arg}")?;
            between = ", ";
        }
        Ok(())
    }
}
