//! The text of a program's meaning: each event of its run on a port script, and the cycles that its labels cost.
#![tactic(auto)]

ghost use Rattle.std.specs.Prelude.{◌≡◌, ◌<◌, ◌+◌, ◌*◌, ◌-◌, ◌^◌, ◌∷◌, [], IfOk, IfSome};
ghost use Rattle.cerco_base.specs.Outside.IoCalls.{PutsText};
ghost use Rattle.clight_syntax.specs.Annotations.{cost_of};
ghost use Rattle.clight_syntax.specs.Code.TypedViews.{labelled_of};
ghost use Rattle.clight_meaning.specs.Meaning.{source};
ghost use Rattle.clight_meaning.specs.Code.Turns.{rest};
ghost use Rattle.meaning_text.specs.Text.{event_line, fault_line, meaning_text, text_from};
ghost use Rattle.meaning_text.specs.Code.Counting.{costs_held, count_after, turn_line};

pub mod laws;

use cerco_base::{Event, FaultKind, IoFault, Label, Sink, SoundSink, put_all};
use clight_meaning::{Evaluator, Turn};
use clight_syntax::Labelled;
use printed_lines::{put_count, put_pair, put_pending};
use std::alloc::Global;

/// The costs of a program, in machine cycles.
#[derive(Clone, Copy)]
pub struct LabelCosts<'a> {
    /// The cost of the start.
    pub start: u32,
    /// The cost of each label, by its number.
    pub labels: &'a [u32],
}

impl LabelCosts<'_> {
    // What the start costs.
    fn at_start(self) -> u64
        ensures value { result ≡ self.entry.start }
        ensures small { result < 2 ^ 32 }
    {
        self.start as u64
    }

    // What a label costs.
    fn of(self, label: Label) -> u64
        ensures value { result ≡ cost_of (costs_held self.entry) label }
        ensures small { result < 2 ^ 32 }
    {
        self.labels.get(label.0 as usize).copied().unwrap_or(0) as u64
    }
}

/// How far a run is told.
#[derive(Clone, Copy)]
pub struct Count {
    // How many labels it may still pass.
    left: u32,
    // What the start and the labels so far cost.
    cost: u64,
}

impl Count {
    // The count once a label is passed, none where there is none left.
    fn pass(self, label: Label, costs: LabelCosts<'_>) -> Option<Count>
        requires { self.cost + self.left * (2 ^ 32 - 1) < 2 ^ 64 }
        ensures count { result ≡ count_after (costs_held costs.entry) (Turn.Event (Event.Label label)) self }
        ensures small { IfSome result (λ next. next.cost + next.left * (2 ^ 32 - 1) < 2 ^ 64) }
    {
        let left = self.left.checked_sub(1)?;
        Some(Count {
            left,
            cost: self.cost + costs.of(label),
        })
    }

    // The count once a turn is told, none where the run stops with it.
    fn after(self, turn: Turn, costs: LabelCosts<'_>) -> Option<Count>
        requires { self.cost + self.left * (2 ^ 32 - 1) < 2 ^ 64 }
        ensures count { result ≡ count_after (costs_held costs.entry) turn self }
        ensures small { IfSome result (λ next. next.cost + next.left * (2 ^ 32 - 1) < 2 ^ 64) }
    {
        match turn {
            Turn::Event(Event::Label(label)) => self.pass(label, costs),
            Turn::Event(_) => Some(self),
            Turn::Ended => None,
            Turn::Fault(_) => None,
        }
    }
}

// Puts the line of a fault.
fn put_fault<O: Sink>(kind: FaultKind, out: &mut O) -> Result<(), IoFault>
    ensures { PutsText (O.state out.old) (O.state out.new) (fault_line kind) result }
{
    match kind {
        FaultKind::Unset => put_all(out, b"fault unset\n"),
        FaultKind::Outside => put_all(out, b"fault outside\n"),
        FaultKind::Dead => put_all(out, b"fault dead\n"),
        FaultKind::Zero => put_all(out, b"fault zero\n"),
        FaultKind::Compare => put_all(out, b"fault compare\n"),
    }
}

// Puts the line of an event.
fn put_event<O: Sink>(event: Event, cost: u64, out: &mut O) -> Result<(), IoFault>
    ensures { PutsText (O.state out.old) (O.state out.new) (event_line cost event) result }
{
    match event {
        Event::Label(label) => put_pair(b'L', label.0 as u64, cost, out),
        Event::Read(port, byte) => put_pair(b'R', port.number() as u64, byte as u64, out),
        Event::Write(port, byte) => put_pair(b'P', port.number() as u64, byte as u64, out),
    }
}

// Puts the line of an event, or that the run is stopped before a label.
fn put_next<O: Sink>(event: Event, count: Count, out: &mut O) -> Result<(), IoFault>
    ensures { PutsText (O.state out.old) (O.state out.new) (turn_line (Turn.Event event) count) result }
{
    match event {
        Event::Label(_) if count.left == 0 => put_count("stop ", count.cost, out),
        _ => put_event(event, count.cost, out),
    }
}

// Puts the line of a turn.
fn put_turn<O: Sink>(turn: Turn, count: Count, out: &mut O) -> Result<(), IoFault>
    ensures { PutsText (O.state out.old) (O.state out.new) (turn_line turn count) result }
{
    match turn {
        Turn::Event(event) => put_next(event, count, out),
        Turn::Ended => put_count("end ", count.cost, out),
        Turn::Fault(kind) => put_fault(kind, out),
    }
}

// Puts what is left to tell of a run.
fn tell_on<O: Sink>(
    alloc: Global,
    evaluator: &mut Evaluator<'_>,
    costs: LabelCosts<'_>,
    limit: u32,
    out: &mut O,
) -> Result<(), IoFault>
    requires { evaluator.old.labels ≡ 0 }
    ensures { PutsText (O.state out.old) (O.state out.new) (meaning_text (costs_held costs.entry) (rest evaluator.old limit)) result }
{
    let mut count = Count {
        left: limit,
        cost: costs.at_start(),
    };
    let mut pending = SoundSink::new(alloc);
    loop {
        let Ok(turn) = evaluator.next() else {
            return Err(IoFault::OutOfMemory);
        };
        let Ok(()) = put_turn(turn, count, &mut pending) else {
            return Err(IoFault::OutOfMemory);
        };
        match count.after(turn, costs) {
            None => return put_all(out, pending.bytes()),
            Some(next) => count = next,
        }
        pending = put_pending(alloc, pending, out)?;
    }
}

/// Puts the text of a program's meaning on a port script: each event, with the cost so far at each label, up to the stop where one
/// label more is due than `limit`, to the end or to a fault.
///
/// # Errors
///
/// The fault of the output, or out of memory. A prefix of the text was put then.
pub fn tell<O: Sink>(
    alloc: Global,
    program: &Labelled,
    costs: LabelCosts<'_>,
    script: &[u8],
    limit: u32,
    out: &mut O,
) -> Result<(), IoFault>
    ensures { PutsText (O.state out.old) (O.state out.new) (meaning_text (costs_held costs.entry) (source (labelled_of program.now) script.now limit)) result }
{
    match Evaluator::new(alloc, program, script) {
        Ok(mut evaluator) => tell_on(alloc, &mut evaluator, costs, limit, out),
        Err(_) => Err(IoFault::OutOfMemory),
    }
}
