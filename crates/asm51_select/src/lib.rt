//! Selection: the instructions of linear code, and with them an assembly program (Intel, MCS-51
//! family: instruction set; A. W. Appel, Modern Compiler Implementation: instruction selection).
#![tactic(auto)]

ghost use Rattle.std.specs.Prelude.{◌≡◌, ◌≤◌, IfOk};
ghost use Rattle.cerco_traces.specs.Preservation.{Preserves};
ghost use Rattle.rtl.specs.Code.Views.{lin_program_of};
ghost use Rattle.rtl.specs.Linear.{lin};
ghost use Rattle.rtl.specs.Lengths.{lin_length};
ghost use Rattle.rtl.specs.WellFormed.{IsLinProgram};
ghost use Rattle.asm51.specs.Meaning.{assembly};
ghost use Rattle.asm51.specs.Layouts.{long_length};
ghost use Rattle.asm51.specs.WellFormed.{IsWellFormed};
ghost use Rattle.asm51.specs.Selected.{AreSelected};
ghost use Rattle.asm51.specs.Ends.{HasEnds};
ghost use Rattle.asm51_select.specs.Translation.{selected};
ghost use Rattle.asm51_select.specs.Graphs.{IsOfLabelledGraphs, KeepsLabels};

mod access;
mod functions;
mod operations;

use asm51::Asm;
use cerco_base::NoMemory;
use functions::{add_functions, add_start};
use rtl::LinProgram;
use std::alloc::Global;

/// One more than the greatest number of items that a layout can take.
const ITEM_LIMIT: usize = 1 << 28;

/// The assembly program of a program of linear code: the start, and then its functions by their
/// numbers. It preserves the traces of the linear code. A program of too many items for a layout is
/// out of memory.
pub fn select(alloc: Global, program: &LinProgram) -> Result<Asm, NoMemory>
    requires formed { IsLinProgram (lin_program_of program.now) }
    ensures is { IfOk result (λ asm. asm ≡ selected (lin_program_of program.now)) }
    ensures preserves { IfOk result (λ asm. Preserves (lin (lin_program_of program.now)) (assembly asm)) }
    ensures formed { IfOk result (λ asm. IsWellFormed asm) }
    ensures object { IfOk result (λ asm. IsOfLabelledGraphs (lin_program_of program.now) → AreSelected asm) }
    ensures ends { IfOk result (λ asm. IsOfLabelledGraphs (lin_program_of program.now) → HasEnds asm) }
    ensures labels { IfOk result (λ asm. KeepsLabels (lin_program_of program.now) asm) }
    ensures length { IfOk result (λ asm. long_length asm ≤ lin_length (lin_program_of program.now)) }
{
    let mut asm = Asm::new(alloc);
    add_start(&mut asm, program.start.bytes(), program.main)?;
    add_functions(&mut asm, program.lins.as_slice())?;
    if asm.as_slice().len() >= ITEM_LIMIT {
        return Err(NoMemory);
    }
    Ok(asm)
}
