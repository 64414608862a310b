//! The evaluator of labelled programs.
ghost use Rattle.std.specs.Prelude.{◌≡◌, ◌+◌, ◌<◌, ◌≤◌, ◌^◌, IfOk, IsErr, OnErr, true, false};
ghost use Rattle.cerco_base.specs.declared.events.FaultKind.{FaultKind};
ghost use Rattle.clight_syntax.specs.Code.TypedViews.{labelled_of};
ghost use Rattle.clight_meaning.specs.Meaning.{source};
ghost use Rattle.clight_meaning.specs.Code.Turns.{rest, Tells, OnlyEnds, OnlyFaults, labels_told};

use crate::running::Running;
use crate::turn::Turn;
use cerco_base::{Event, NoMemory};
use clight_syntax::Labelled;
use std::alloc::Global;

/// A run of a labelled program on a port script, event by event. What it has still to tell is its rest: for each number of labels
/// that it may still pass the events up to the stop at the next label, to the end, or to a fault.
#[derive(Drop)]
pub struct Evaluator<'a> {
    running: Running<'a>,
    /// How many labels were answered.
    labels: u64,
    /// Memory was wanting.
    failed: bool,
}

impl<'a> Evaluator<'a> {
    /// The run of a program whose port readings take the bytes of the script in turn, and 255 behind its end. Its rest is the
    /// meaning of the program.
    pub fn new(
        alloc: Global,
        program: &'a Labelled,
        script: &'a [u8],
    ) -> Result<Evaluator<'a>, NoMemory>
        ensures means { IfOk result (λ e. rest e ≡ source (labelled_of program.now) script.now) }
        ensures labels { IfOk result (λ e. e.labels ≡ 0) }
    {
        Ok(Evaluator {
            running: Running::new(alloc, &program.program, script)?,
            labels: 0,
            failed: false,
        })
    }

    /// The next event of the meaning, or that the run has ended or meets a fault, which is answered again from then on. Once out
    /// of memory it answers out of memory from then on.
    #[tactic(auto, using(crate::proofs::Exact::only_answers))]
    pub fn next(&mut self) -> Result<Turn, NoMemory>
        requires { self.old.labels < 2 ^ 62 }
        ensures told { IfOk result (λ t. Tells t (rest self.old) (rest self.new)) }
        ensures ends { OnlyEnds (rest self.old) → IfOk result (λ t. t ≡ Turn.Ended) }
        ensures faults { (kind : FaultKind) → OnlyFaults kind (rest self.old) → IfOk result (λ t. t ≡ Turn.Fault kind) }
        ensures counted { IfOk result (λ t. self.new.labels ≡ self.old.labels + labels_told t) }
        ensures same { OnErr result (self.new.labels ≡ self.old.labels) }
        ensures fails { OnErr result (self.new.failed ≡ true) }
        ensures stays_failed { self.old.failed ≡ true → IsErr result }
    {
        if self.failed {
            return Err(NoMemory);
        }
        match self.running.next() {
            Err(_) => {
                self.failed = true;
                Err(NoMemory)
            }
            Ok(turn) => {
                self.labels += labels_told(turn);
                Ok(turn)
            }
        }
    }

    /// How many labels were answered so far. Each call of a function passes a label, so no more calls than these were made.
    pub fn labels(&self) -> u64
        ensures { result ≡ self.now.labels }
    {
        self.labels
    }
}

/// How many labels an answer passes.
fn labels_told(turn: Turn) -> u64
    ensures value { result ≡ labels_told turn }
    ensures few { result ≤ 1 }
{
    match turn {
        Turn::Event(event) => match event {
            Event::Label(_) => 1,
            _ => 0,
        },
        _ => 0,
    }
}
