//! The passes over graphs, from Cminor to ERTL.

ghost use Rattle.std.specs.Prelude.{IfOk};
ghost use Rattle.cerco_middle.specs.Code.Views.{cminor_of};
ghost use Rattle.cerco_middle.specs.Cminor.WellFormed.{IsWellFormed};
ghost use Rattle.rtl.specs.Code.Views.{program_of};
ghost use Rattle.back_end.specs.Chain.{IsErtlOf};

use cerco_base::NoMemory;
use cerco_middle::Cminor;
use ertl_gen::to_ertl;
use rtl::{Bytes, Vreg};
use rtl_gen::to_rtl;
use rtlabs_gen::to_rtlabs;
use std::alloc::Global;

/// The ERTL program of a program.
pub fn to_bytes(alloc: Global, program: &Cminor) -> Result<Bytes<Vreg>, NoMemory>
    requires { IsWellFormed (cminor_of program.now) }
    ensures { IfOk result (λ ertl. IsErtlOf (cminor_of program.now) (program_of ertl)) }
{
    let rtlabs = to_rtlabs(alloc, program)?;
    let rtl = to_rtl(alloc, &rtlabs)?;
    to_ertl(alloc, &rtl)
}
