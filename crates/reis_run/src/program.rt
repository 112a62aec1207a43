//! The program, over any input, output and clock.

ghost use Rattle.std.specs.Prelude.{◌≡◌, ◌≤◌, ◌⊎◌, ℕ, Some, None, Ok, false};
ghost use Rattle.ei_types.specs.Capability.{bits_of, all_bits};
ghost use Rattle.ei_backend.specs.Lent.{LentSink, LentClock};
ghost use Rattle.ei_backend.specs.Outside.{Piece};
ghost use Rattle.ei_serve.specs.Standing.{setup_of};
ghost use Rattle.ei_serve.specs.Serving.{LeftReadings};
ghost use Rattle.ei_serve.specs.declared.session.Ended.TheVariants as ended;
ghost use Rattle.reis_demo.specs.Generated.{demo_setup};
ghost use Rattle.reis_demo.specs.Summary.{demo_session, demo_lines};
ghost use Rattle.reis_lines.specs.Lent.{LentInput};
ghost use Rattle.reis_run.specs.Asked.{setup_with, IsCut, Serves, Runs, MayAnswer, reads_input};
ghost use Rattle.reis_run.specs.ProgramOutside.{outside};
ghost use Rattle.reis_run.specs.Tell.{told_text, Tells};
ghost use Rattle.reis_run.specs.Words.{command_of};

use crate::session::serve_lines;
pub use crate::tell::NO_MEMORY;
use crate::tell::{DONE, Form, tell, tell_session};
use crate::words::{Command, USAGE};
use ei_backend::{Clock, Sink, Tray};
use ei_serve::Setup;
use ei_types::DeviceCapabilities;
use ei_wire::{EiText, NoMemory};
use reis_demo::demo;
use reis_lines::Input;
use std::alloc::Global;

/// The words are no command.
const NO_COMMAND: u8 = 2;

/// The capabilities of these bits.
fn capabilities_of(bits: u32) -> DeviceCapabilities
    requires { bits ≤ all_bits }
    ensures { bits_of result ≡ bits }
{
    DeviceCapabilities::from_bits(u64::from(bits)).unwrap()
}

/// The setup of a session.
fn setup(initial_serial: u32, capabilities: u32, pieces: u32) -> Setup
    requires { capabilities ≤ all_bits }
    ensures value { setup_of result ≡ setup_with initial_serial capabilities pieces }
    ensures lawful { bits_of result.capabilities ≤ all_bits }
{
    Setup {
        initial_serial,
        capabilities: capabilities_of(capabilities),
        pieces,
    }
}

/// Serves the lines of the input, and tells of the session in this form.
fn serve_command<I: Input, O: Sink, C: Clock>(
    alloc: Global,
    form: Form,
    setup: Setup,
    input: &mut I,
    output: &mut O,
    clock: &mut C,
) -> u8
    requires lawful { bits_of setup.capabilities ≤ all_bits }
    ensures serves { Serves (told_text form) (setup_of setup) result
        (outside (I.view input.old) (O.view output.old) (C.view clock.old).left)
        (outside (I.view input.new) (O.view output.new) (C.view clock.new).left) }
    ensures answer { result ≡ 2 → ⊥ }
    ensures input { LentInput I.view I.later input.old input.new }
    ensures output { LentSink O.view O.later (result ≡ 4) output.old output.new }
    ensures clock { LentClock C.later clock.old clock.new }
{
    let mut reply = Tray::new(alloc);
    let mut requests = Vec::new(alloc);
    let last = serve_lines(alloc, setup, input, clock, &mut reply, &mut requests);
    tell_session(alloc, form, output, reply.bytes(), &requests, &last)
}

/// Serves the generated stream, and tells six lines of it.
fn demo_command<O: Sink, C: Clock>(
    alloc: Global,
    groups: u32,
    start: u32,
    output: &mut O,
    clock: &mut C,
) -> u8
    ensures lines { (held : Piece) → (O.view output.old).taken ≡ Some held →
        Tells 0 (demo_lines groups start (Ok ended.Disconnect)) held result (O.view output.new).taken }
    ensures answer { (result ≡ 0) ⊎ IsCut result }
    ensures readings { result ≡ 0 →
        LeftReadings demo_setup (demo_session groups start).handled (C.view clock.old).left (C.view clock.new).left }
    ensures output { LentSink O.view O.later (result ≡ 4) output.old output.new }
    ensures clock { LentClock C.later clock.old clock.new }
{
    match demo(alloc, groups, start, clock) {
        // the session over the generated stream ends with the disconnect
        Ok(summary) => tell(output, &summary.text, DONE),
        Err(NoMemory) => NO_MEMORY,
    }
}

/// Does what the words say, and answers the status to end with.
///
/// `serve` and three numbers, the first serial, the capabilities and the most pieces, serve a client
/// whose pieces are the input's lines; the output takes a report: the reply bytes, a line for each
/// request, and how the session ended. `trace` and the same numbers do so too, and behind the report
/// comes a line for each reply message as a fresh client reads it, whatever the status. `demo`, a number
/// of groups and a start serve a generated stream, and the output takes six lines. Any other words are
/// refused: the output takes the usage line.
///
/// The status is 0 where the session came to its end, 1 where it stopped, 2 where the words were
/// refused, 3 where the input failed or a line was bad, 4 where the output failed, behind a front of the
/// text, and 5 where memory ran out.
pub fn run<I: Input, O: Sink, C: Clock>(
    alloc: Global,
    words: &[EiText],
    input: &mut I,
    output: &mut O,
    clock: &mut C,
) -> u8
    // by the command that the words are, exactly: its report, its trace or its six lines; with none, the usage line
    ensures runs { Runs USAGE.now (command_of words.now) result
        (outside (I.view input.old) (O.view output.old) (C.view clock.old).left)
        (outside (I.view input.new) (O.view output.new) (C.view clock.new).left) }
    ensures answer { MayAnswer (command_of words.now) result }
    ensures unasked { reads_input (command_of words.now) ≡ false → input.new ≡ input.old }
    ensures unread { command_of words.now ≡ None → clock.new ≡ clock.old }
    // the input, the output and the clock: status 4 exactly where the output failed
    ensures input { LentInput I.view I.later input.old input.new }
    ensures output { LentSink O.view O.later (result ≡ 4) output.old output.new }
    ensures clock { LentClock C.later clock.old clock.new }
{
    match Command::from_words(words) {
        Some(Command::Serve(serial, capabilities, pieces)) => {
            let asked = setup(serial, capabilities, pieces);
            serve_command(alloc, Form::Plain, asked, input, output, clock)
        }
        Some(Command::Trace(serial, capabilities, pieces)) => {
            let asked = setup(serial, capabilities, pieces);
            serve_command(alloc, Form::Traced, asked, input, output, clock)
        }
        Some(Command::Demo(groups, start)) => demo_command(alloc, groups, start, output, clock),
        None => tell(output, USAGE.as_bytes(), NO_COMMAND),
    }
}
