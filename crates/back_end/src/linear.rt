//! From ERTL, with places for its virtual registers, to linear code.

ghost use Rattle.std.specs.Prelude.{◌≤◌, IfOk};
ghost use Rattle.rtl.specs.Code.Views.{program_of, lin_program_of};
ghost use Rattle.rtl.specs.Graphs.{AreSoundlyLabelled};
ghost use Rattle.rtl.specs.WellFormed.{IsErtl};
ghost use Rattle.ltl_alloc.specs.Allocated.{EachHas, sizes_of};
ghost use Rattle.ltl_alloc.specs.Frames.{AreBases};
ghost use Rattle.back_end.specs.Chain.{IsConventional, IsPlainest, IsLinearCodeOf};

use cerco_base::NoMemory;
use lin_gen::linearise_program;
use ltl_alloc::{Allocation, Bases, to_ltl};
use rtl::{Bytes, LinProgram, Vreg};
use std::alloc::Global;

/// The linear code of a program.
pub fn linear_code(
    alloc: Global,
    ertl: &Bytes<Vreg>,
    allocations: &[Allocation],
    bases: &Bases,
) -> Result<LinProgram, NoMemory>
    requires formed { IsErtl (program_of ertl.now) }
    requires labelled { AreSoundlyLabelled (program_of ertl.now).graphs }
    requires conventional { IsConventional (program_of ertl.now) }
    requires allocations { EachHas IsPlainest (program_of ertl.now).graphs allocations.now }
    requires bases { AreBases ertl.now.calls (sizes_of allocations.now) bases.now }
    requires enough { bases.now.need ≤ 112 }
    ensures { IfOk result (λ lin. IsLinearCodeOf (program_of ertl.now) allocations.now bases.now (lin_program_of lin)) }
{
    let ltl = to_ltl(alloc, ertl, allocations, bases)?;
    linearise_program(alloc, &ltl)
}
