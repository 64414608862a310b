//! The compiler: from the bytes of a source to its object and its exact costs, by all stages in their order.
#![tactic(auto)]

ghost use Rattle.std.specs.Prelude.{◌≡◌, Err, IfOk};
ghost use Rattle.cerco_base.specs.declared.reasons.Reason.{Reason};
ghost use Rattle.cerco_base.specs.declared.reasons.Fault.TheVariants.{Refused};
ghost use Rattle.cerco_pipeline.specs.Built.{IsBuilt, IsRefused};
ghost use Rattle.cerco_pipeline.specs.Programs.{HasRoomByText};
ghost use Rattle.cerco_pipeline.specs.Compiled.{IsCompiled};

pub mod compiled;
mod costs;
mod front;
pub mod laws;
mod rear;
mod telling;

use back_end::Assembled;
use cerco_base::{Code, Fault, LabelList};
use clight_syntax::{Labelled, Points};
pub use compiled::Compiled;
use costs::{ObjectCosts, costs_of};
use front::labelled_program;
use rear::assembled;
use std::alloc::Global;
pub use telling::tell_meaning;

/// What `build` writes of a compiled source.
#[derive(Drop)]
pub struct Built {
    /// The annotations of the source.
    pub points: Points,
    /// The object code from address 0 on.
    pub code: Code,
    /// The address of each label, by its number.
    pub labels: LabelList,
    /// The cost of the start, in machine cycles.
    pub start: u32,
    /// The cost of each label, by its number, in machine cycles.
    pub costs: Vec<u32>,
}

/// The labelled program of a source, its object with the values from which it is made, and the exact costs of its labels.
///
/// # Errors
///
/// The first reason against the source, or `CellsFull` or `CodeFull` where its program is too big for the machine; or out of memory.
pub fn compile(alloc: Global, text: &[u8]) -> Result<Compiled, Fault>
    ensures compiled { IfOk result (IsCompiled text.now) }
    ensures refused { (reason : Reason) → result ≡ Err (Refused reason) → IsRefused text.now reason }
    // A sound source whose own bounds say that there is room is not refused.
    ensures complete { HasRoomByText text.now → (reason : Reason) → result ≡ Err (Refused reason) → ⊥ }
{
    let labelled = labelled_program(alloc, text)?;
    let assembled = assembled(alloc, &labelled)?;
    let ObjectCosts {
        start,
        labels: costs,
    } = costs_of(alloc, &assembled.object)?;
    Ok(Compiled {
        labelled,
        assembled,
        start,
        costs,
    })
}

/// The object of a source, with the costs and the annotations of its labels.
///
/// # Errors
///
/// The first reason against the source, or `CellsFull` or `CodeFull` where its program is too big for the machine; or out of memory.
pub fn build(alloc: Global, text: &[u8]) -> Result<Built, Fault>
    ensures built { IfOk result (λ b. IsBuilt text.now b.points b.code b.labels (record { start = b.start; labels = b.costs.items })) }
    ensures refused { (reason : Reason) → result ≡ Err (Refused reason) → IsRefused text.now reason }
    // A sound source whose own bounds say that there is room is not refused.
    ensures complete { HasRoomByText text.now → (reason : Reason) → result ≡ Err (Refused reason) → ⊥ }
{
    let Compiled {
        labelled,
        assembled,
        start,
        costs,
    } = compile(alloc, text)?;
    let Labelled { points, program: _ } = Box::into_inner(labelled);
    let Assembled { object, .. } = assembled;
    Ok(Built {
        points,
        code: object.code,
        labels: object.labels,
        start,
        costs,
    })
}
