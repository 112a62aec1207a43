//! The program `reis`: the words that it was started with, over standard input, standard output and the clock.
//!
//! What it does with them is `reis_run::run`.
#![tactic(auto)]

ghost use Rattle.std.specs.Prelude.{◌≡◌, [], map, drop, IfOk, IfErr};
ghost use Rattle.std.specs.String.{string_bytes};
ghost use Rattle.std.specs.Vec.Iter.{into_iter_items};

use ei_wire::{EiText, NoMemory};
use reis_run::std_io::{StdClock, StdInput, StdOutput};
use reis_run::{NO_MEMORY, run};
use std::alloc::Global;
use std::env::Args;
use std::process::ExitCode;
use std::{env, io};

/// The words after the program's name.
fn words_of(alloc: Global, mut arguments: Args) -> Result<Vec<EiText>, NoMemory>
    ensures { IfOk result (λ words. words.items ≡ map string_bytes (drop 1 (into_iter_items arguments))) }
{
    let mut words = Vec::new(alloc);
    let _name = arguments.next();
    'words: while let Some(argument) = arguments.next() {
        words.push(EiText::new(alloc, argument.as_str())?)?;
    }
    Ok(words)
}

/// The words that the program was started with: none where one of the arguments isn't text.
fn started_with(alloc: Global, arguments: io::Result<Args>) -> Result<Vec<EiText>, NoMemory>
    // all the words behind the first, in their order
    ensures words { IfOk arguments (λ args. IfOk result (λ words.
        words.items ≡ map string_bytes (drop 1 (into_iter_items args)))) }
    ensures none { IfErr arguments (λ e. IfOk result (λ words. words.items ≡ [])) }
{
    match arguments {
        Ok(arguments) => words_of(alloc, arguments),
        Err(e) if e.kind() == io::ErrorKind::OutOfMemory => Err(NoMemory),
        Err(_) => Ok(Vec::new(alloc)),
    }
}

fn main(rt: HostRuntime) -> ExitCode {
    let Ok(words) = started_with(rt.alloc(), env::args(&rt)) else {
        return ExitCode::from(NO_MEMORY);
    };
    let mut input = StdInput::new(rt.stdin());
    let mut output = StdOutput::new(rt.stdout());
    let mut clock = StdClock::new(&rt);
    ExitCode::from(run(rt.alloc(), &words, &mut input, &mut output, &mut clock))
}
