//! The first pass of the back end: from the labelled source to Cminor, in which places are addresses of a flat external RAM.
#![tactic(auto)]

ghost use Rattle.std.specs.Prelude.{◌≡◌, ◌≤◌, IfOk};
ghost use Rattle.cerco_traces.specs.Preservation.{PreservesSource};
ghost use Rattle.cerco_middle.specs.Code.Views.{cminor_of};
ghost use Rattle.cerco_middle.specs.Cminor.Meaning.{cminor};
ghost use Rattle.cerco_middle.specs.Cminor.Sums.{long_length};
ghost use Rattle.cerco_middle.specs.Cminor.WellFormed.{IsWellFormed};
ghost use Rattle.cerco_middle.specs.Programs.{AreNumbered};
ghost use Rattle.clight_meaning.specs.Meaning.{source};
ghost use Rattle.clight_programs.specs.Labels.{labels_of};
ghost use Rattle.clight_programs.specs.Programs.{IsChecked};
ghost use Rattle.clight_syntax.specs.Bounds.{code_bound};
ghost use Rattle.clight_syntax.specs.Code.TypedViews.{labelled_of};
ghost use Rattle.cminor_gen.specs.Promises.{KeepsProgram, NeedNoMore, LabelsAreNumbered};
ghost use Rattle.cminor_gen.specs.Translation.Programs.{translated};

mod expressions;
mod functions;
mod operators;
mod start;
mod statements;
mod variables;

use crate::functions::functions;
use crate::start::start_bytes;
use cerco_base::NoMemory;
use cerco_middle::Cminor;
use clight_syntax::Labelled;
use std::alloc::Global;

// The program that the translation tells.
fn translation(alloc: Global, program: &Labelled) -> Result<Cminor, NoMemory>
    ensures { IfOk result (λ c. cminor_of c ≡ translated (labelled_of program.now)) }
{
    let program = &program.program;
    Ok(Cminor {
        functions: functions(alloc, program)?,
        calls: program.calls.duplicate()?,
        main: program.main,
        start: start_bytes(alloc, program)?,
    })
}

/// The Cminor program of a labelled one (CerCo, deliverable 3.2).
///
/// # Errors
///
/// Out of memory.
pub fn to_cminor(alloc: Global, program: &Labelled) -> Result<Cminor, NoMemory>
    // Each form becomes what the translation says.
    ensures is { IfOk result (λ c. cminor_of c ≡ translated (labelled_of program.now)) }

    // On every script, the program of a checked one shows the events of its meaning and stops where it stops, and touches no other
    // address of external RAM than those of its data.
    ensures preserves { IfOk result (λ c. IsChecked (labelled_of program.now) → PreservesSource (source (labelled_of program.now)) (cminor (cminor_of c)) (labelled_of program.now).data_bytes) }
    ensures same { IfOk result (λ c. KeepsProgram (labelled_of program.now) (cminor_of c)) }
    ensures need { IfOk result (λ c. NeedNoMore (labelled_of program.now) (cminor_of c)) }

    // It is well formed where each label of a checked program is at one place, and no longer than the program's bound.
    ensures formed { IfOk result (λ c. IsChecked (labelled_of program.now) → AreNumbered (labels_of (labelled_of program.now).functions) → IsWellFormed (cminor_of c)) }
    ensures length { IfOk result (λ c. IsChecked (labelled_of program.now) → long_length (cminor_of c) ≤ code_bound (labelled_of program.now)) }
{
    translation(alloc, program)
}

/// Each label of a labelled program is at one place. The function does nothing: its contract is that law.
pub fn labels_are_numbered()
    ensures { LabelsAreNumbered }
{}
