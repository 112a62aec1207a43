//! A script, as a line spells it.

use crate::spelled::{capabilities, interface_of, is_read, values_of};
use ei_backend::Readings;
use ei_emit::{EmitStep, emit};
use std::alloc::Global;
use std::fmt::Debug;
use test_table::{Answer, Reader, Stop};

/// A script has fewer steps.
const TOO_MANY_STEPS: usize = 4_294_967_295;

/// `emit SERIAL READINGS STEP / STEP ..`: the events that the client reports, and why the script ended.
pub(crate) fn script(alloc: Global, answer: &mut Answer, mut words: Reader<'_>) {
    let serial = words.number();
    let readings = readings_of(alloc, answer, &mut words);
    let steps = steps_of(alloc, answer, &mut words);
    if is_read(answer, &words) {
        play(alloc, answer, serial, &readings, &steps);
    }
    // Let go by a call: at the end of a scope the drop of each field is proved anew.
    drop(steps);
    drop(readings);
}

/// Plays the steps with a clock of these readings.
fn play(alloc: Global, answer: &mut Answer, serial: u32, readings: &[u64], steps: &[EmitStep]) {
    if let Some(mut clock) = answer.take(Readings::new(alloc, readings)) {
        tell_reports(alloc, answer, serial, &mut clock, steps);
        drop(clock);
    }
}

/// Tells what the client reports of the steps, and why they ended.
fn tell_reports(
    alloc: Global,
    answer: &mut Answer,
    serial: u32,
    clock: &mut Readings,
    steps: &[EmitStep],
) {
    if steps.len() >= TOO_MANY_STEPS {
        answer.stop(Stop::Line);
        return;
    }
    let mut out = Vec::new(alloc);
    let ended = emit(alloc, "emit", serial, clock, steps, &mut out).err();
    tell_all(answer, &out);
    drop(out);
    if let Some(error) = ended {
        answer.display(&error);
    }
}

/// Tells the events.
fn tell_all<T: Debug>(answer: &mut Answer, events: &[T]) {
    for event in events {
        answer.show(event);
        answer.put(" / ");
    }
}

/// The readings of the clock: numbers between commas, or `-` for none.
fn readings_of(alloc: Global, answer: &mut Answer, words: &mut Reader<'_>) -> Vec<u64> {
    let mut readings = Vec::new(alloc);
    let word = words.word();
    if word != "-" {
        for digits in word.split(',') {
            let reading = words.or(digits.parse::<u64>(), 0);
            drop(answer.take(readings.push(reading)));
        }
    }
    readings
}

/// The steps that the words not yet read spell.
fn steps_of(alloc: Global, answer: &mut Answer, words: &mut Reader<'_>) -> Vec<EmitStep> {
    let mut steps = Vec::new(alloc);
    for spelled in words.rest().split('/') {
        if !spelled.trim().is_empty() {
            let mut step = Reader::new(spelled.trim());
            let made = step_of(alloc, answer, &mut step);
            drop(answer.take(steps.push(made)));
            words.or(step.done(), ());
        }
    }
    steps
}

/// A step: its name, the number of its device, and more.
fn step_of(alloc: Global, answer: &mut Answer, words: &mut Reader<'_>) -> EmitStep {
    let name = words.word();
    if name == "add" {
        let capabilities = capabilities(words);
        return EmitStep::Add { capabilities };
    }
    let device = words.number();
    match name {
        "input" => input_of(alloc, answer, device, words),
        _ => plain_step(name, device, words),
    }
}

/// A step of that name, which is no input.
fn plain_step(name: &str, device: u32, words: &mut Reader<'_>) -> EmitStep {
    match name {
        "remove" => EmitStep::Remove { device },
        "start" => EmitStep::Start {
            device,
            sequence: words.number(),
        },
        "stop" => EmitStep::Stop { device },
        "pause" => EmitStep::Pause { device },
        "resume" => EmitStep::Resume { device },
        "frame" => EmitStep::Frame {
            device,
            time: words.id(),
        },
        _ => {
            words.miss();
            EmitStep::Stop { device }
        }
    }
}

/// An input: its interface, its opcode and its values.
fn input_of(alloc: Global, answer: &mut Answer, device: u32, words: &mut Reader<'_>) -> EmitStep {
    let name = words.word();
    EmitStep::Input {
        device,
        interface: interface_of(words, name),
        opcode: words.number(),
        values: values_of(alloc, answer, words),
    }
}
