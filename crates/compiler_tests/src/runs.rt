//! The run of a source's object beside the source's meaning: each event, with the cycles at each label and at the end.

ghost use Rattle.std.specs.Prelude.{IfOk, nat_eq};
ghost use Rattle.std.specs.List.{IsDistinct};

use cerco_base::{Event, Fault, FaultKind, IoFault, LabelList, NoMemory, SoundSink};
use cerco_pipeline::{Compiled, compile};
use clight_meaning::{Evaluator, Turn};
use object_hex::{read_map, write_map};
use sim51::{Events, Machine, Step};
use std::alloc::Global;

/// How many labels are told of at most.
const MOST_LABELS: u32 = 40;

/// How many steps or events are told of at most.
const MOST_STEPS: u32 = 200_000;

/// The text of the addresses of labels has no more bytes.
const LONGEST: usize = 1 << 20;

/// A run is told up to so many cycles.
const MOST_CYCLES: u64 = 1 << 40;

/// What is told of a run so far.
#[derive(Drop)]
struct Told {
    words: String,
    labels: u32,
}

impl Told {
    fn new(alloc: Global) -> Told {
        Told {
            words: String::new(alloc),
            labels: 0,
        }
    }

    // A label is passed after so many cycles. The answer is whether more is told.
    fn pass(&mut self, alloc: Global, label: u16, cycles: u64) -> Result<bool, NoMemory> {
        let word = format!(in alloc; "L{label} {cycles} ")?;
        self.words.push_str(&word)?;
        self.labels = self.labels.saturating_add(1);
        Ok(self.labels < MOST_LABELS)
    }

    fn read(&mut self, alloc: Global, byte: u8) -> Result<(), NoMemory> {
        let word = format!(in alloc; "R{byte} ")?;
        Ok(self.words.push_str(&word)?)
    }

    fn write(&mut self, alloc: Global, byte: u8) -> Result<(), NoMemory> {
        let word = format!(in alloc; "P{byte} ")?;
        Ok(self.words.push_str(&word)?)
    }

    fn end(&mut self, alloc: Global, cycles: u64) -> Result<(), NoMemory> {
        let word = format!(in alloc; "end {cycles}")?;
        Ok(self.words.push_str(&word)?)
    }
}

// ---- the object

// Tells of a step that began after so many cycles. The answer is whether more is told.
fn tell_events(
    alloc: Global,
    events: Events,
    cycles: u64,
    told: &mut Told,
) -> Result<bool, NoMemory> {
    if let Some(label) = events.label {
        if !told.pass(alloc, label.0, cycles)? {
            return Ok(false);
        }
    }
    if let Some((_, byte)) = events.read {
        told.read(alloc, byte)?;
    }
    if let Some((_, byte)) = events.write {
        told.write(alloc, byte)?;
    }
    Ok(true)
}

fn tell_object(alloc: Global, machine: &mut Machine<'_>, told: &mut Told) -> Result<(), NoMemory> {
    for _ in 0..MOST_STEPS {
        let cycles = machine.cycles();
        if cycles >= MOST_CYCLES {
            return Ok(());
        }
        match machine.step() {
            Step::Went(events) => {
                if !tell_events(alloc, events, cycles, told)? {
                    return Ok(());
                }
            }
            Step::Halted => return told.end(alloc, cycles),
            Step::Reserved => return Ok(()),
        }
    }
    Ok(())
}

// The addresses of the labels, through their text, whose reader sees that they differ.
fn labels_of(alloc: Global, compiled: &Compiled) -> Result<LabelList, NoMemory>
    ensures distinct { IfOk result (IsDistinct nat_eq) }
{
    let mut text = SoundSink::new(alloc);
    if write_map(compiled.labels(), &mut text).is_err() {
        return Err(NoMemory);
    }
    let bytes = text.bytes();
    if bytes.len() > LONGEST {
        return Err(NoMemory);
    }
    match read_map(alloc, bytes) {
        Ok(labels) => Ok(labels),
        Err(_) => Err(NoMemory),
    }
}

// The run of an object.
fn run_object(
    alloc: Global,
    compiled: &Compiled,
    script: &[u8],
    told: &mut Told,
) -> Result<(), NoMemory> {
    let code = compiled.code();
    if code.len() > 65536 {
        return Err(NoMemory);
    }
    let labels = labels_of(alloc, compiled)?;
    let mut machine = Machine::load(alloc, code, labels.as_slice(), script)?;
    tell_object(alloc, &mut machine, told)
}

// ---- the meaning

fn cost_of(costs: &[u32], label: u16) -> u64 {
    match costs.get(usize::from(label)) {
        Some(cost) => u64::from(*cost),
        None => 0,
    }
}

// Tells of a run by its meaning that has taken so many cycles, with the costs of its labels. The answer is the fault that it met, if any.
fn tell_meaning(
    alloc: Global,
    evaluator: &mut Evaluator<'_>,
    costs: &[u32],
    start: u32,
    told: &mut Told,
) -> Result<Option<FaultKind>, NoMemory> {
    let mut cycles = u64::from(start);
    for _ in 0..MOST_STEPS {
        if evaluator.labels() >= 100 {
            return Ok(None);
        }
        match evaluator.next()? {
            Turn::Event(Event::Label(label)) => {
                if !told.pass(alloc, label.0, cycles)? {
                    return Ok(None);
                }
                cycles = cycles.saturating_add(cost_of(costs, label.0));
            }
            Turn::Event(Event::Read(_, byte)) => told.read(alloc, byte)?,
            Turn::Event(Event::Write(_, byte)) => told.write(alloc, byte)?,
            Turn::Ended => {
                told.end(alloc, cycles)?;
                return Ok(None);
            }
            Turn::Fault(kind) => return Ok(Some(kind)),
        }
    }
    Ok(None)
}

// The run of a source by its meaning, and the fault that it met, if any.
fn run_meaning(
    alloc: Global,
    compiled: &Compiled,
    script: &[u8],
    told: &mut Told,
) -> Result<Option<FaultKind>, NoMemory> {
    let mut evaluator = Evaluator::new(alloc, compiled.labelled(), script)?;
    tell_meaning(
        alloc,
        &mut evaluator,
        compiled.costs(),
        compiled.start(),
        told,
    )
}

// What is told of the run of a source: the object's, where it agrees with the meaning, costs included; up to a fault that the meaning
// meets, with the fault, where the object's begins so; else both.
fn told_of(alloc: Global, compiled: &Compiled, script: &[u8]) -> Result<String, NoMemory> {
    let mut object = Told::new(alloc);
    run_object(alloc, compiled, script, &mut object)?;
    let mut meaning = Told::new(alloc);
    let fault = run_meaning(alloc, compiled, script, &mut meaning)?;
    let begins = object
        .words
        .as_bytes()
        .starts_with(meaning.words.as_bytes());
    match fault {
        None if object.words == meaning.words => Ok(meaning.words),
        Some(kind) if begins => Ok(format!(in alloc; "{}{kind:?}", meaning.words)?),
        _ => Ok(format!(in alloc; "object {} meaning {}", object.words, meaning.words)?),
    }
}

/// What is told of the run of a text on a script.
pub fn run(alloc: Global, text: &[u8], script: &[u8]) -> Result<String, Fault> {
    let compiled = compile(alloc, text)?;
    Ok(told_of(alloc, &compiled, script)?)
}

// Whether object and meaning agree on these scripts. A run that reads nothing is the same on all of them.
fn agree(alloc: Global, compiled: &Compiled, scripts: &[&[u8]]) -> Result<bool, Fault> {
    for script in scripts {
        let words = told_of(alloc, compiled, script)?;
        if words.as_bytes().starts_with(b"object") {
            return Ok(false);
        }
        if !words.as_bytes().contains(&b'R') {
            return Ok(true);
        }
    }
    Ok(true)
}

/// Whether the object of a text and its meaning agree on these scripts.
pub fn agrees(alloc: Global, text: &[u8], scripts: &[&[u8]]) -> Result<bool, Fault> {
    let compiled = compile(alloc, text)?;
    agree(alloc, &compiled, scripts)
}
