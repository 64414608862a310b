//! The back end: from a program of Cminor to its object, by all passes in their order.
#![tactic(auto)]

ghost use Rattle.std.specs.Prelude.{◌≡◌, ◌≤◌, length, Err, IfOk};
ghost use Rattle.cerco_base.specs.declared.reasons.Reason.{Reason};
ghost use Rattle.cerco_base.specs.declared.reasons.Fault.TheVariants.{Refused};
ghost use Rattle.cerco_traces.specs.Preservation.{Preserves};
ghost use Rattle.cerco_middle.specs.Code.Views.{cminor_of};
ghost use Rattle.cerco_middle.specs.Cminor.Trees.{labels_of};
ghost use Rattle.cerco_middle.specs.Cminor.Meaning.{cminor};
ghost use Rattle.cerco_middle.specs.Cminor.WellFormed.{IsWellFormed};
ghost use Rattle.cerco_middle.specs.Cminor.Sums.{long_length};
ghost use Rattle.sim51.specs.Runs.{object as object_run};
ghost use Rattle.back_end.specs.Chain.{IsChain};
ghost use Rattle.back_end.specs.Refusals.{IsRefused, Suffices};
ghost use Rattle.back_end.specs.Needs.{IsWithinNeed};

pub mod assembled;
mod frames;
mod graphs;
mod linear;

use asm51_select::select;
pub use assembled::{Allocations, Assembled};
use cerco_base::Fault;
use cerco_middle::Cminor;
use frames::{allocate, frame_bases};
use graphs::to_bytes;
use jump_expand::{emit, expand};
use linear::linear_code;
use std::alloc::Global;

/// The object of a program. It is refused as `CellsFull` where the cells of internal RAM don't suffice,
/// and as `CodeFull` where code memory doesn't, with how many are needed.
pub fn back_end(alloc: Global, program: &Cminor) -> Result<Assembled, Fault>
    requires { IsWellFormed (cminor_of program.now) }
    ensures chain { IfOk result (IsChain (cminor_of program.now)) }

    // On every script and within all bounds, the object shows the events of the program and stops where it stops.
    ensures preserves { IfOk result (λ a. Preserves (cminor (cminor_of program.now)) (object_run a.object.code a.object.labels)) }
    ensures length { IfOk result (λ a. length a.object.code ≤ long_length (cminor_of program.now)) }
    ensures labels { IfOk result (λ a. length a.object.labels ≡ length (labels_of (cminor_of program.now).functions)) }
    ensures need { IfOk result (λ a. IsWithinNeed (cminor_of program.now) a.bases.need) }
    ensures refused { (reason : Reason) → result ≡ Err (Refused reason) → IsRefused (cminor_of program.now) reason }
    ensures complete { Suffices (cminor_of program.now) → (reason : Reason) → result ≡ Err (Refused reason) → ⊥ }
{
    let ertl = to_bytes(alloc, program)?;
    let allocations = allocate(alloc, ertl.graphs.as_slice())?;
    let bases = frame_bases(alloc, &ertl, allocations.as_slice())?;
    let lin = linear_code(alloc, &ertl, allocations.as_slice(), &bases)?;
    let asm = select(alloc, &lin)?;
    let layout = expand(alloc, &asm)?;
    let object = emit(alloc, &asm, &layout)?;
    Ok(Assembled {
        ertl,
        allocations,
        bases,
        lin,
        asm,
        layout,
        object,
    })
}
