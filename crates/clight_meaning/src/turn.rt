//! What an evaluator answers.

use cerco_base::{Event, FaultKind};

/// What comes next in a run.
#[derive(Clone, Copy, Debug, PartialEq, Eq)]
pub enum Turn {
    /// An event.
    Event(Event),
    /// `main` has returned.
    Ended,
    /// The program meets a fault.
    Fault(FaultKind),
}
