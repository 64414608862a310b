//! From the labelled program to its object.
ghost use Rattle.std.specs.Prelude.{◌≡◌, Err, IfOk};
ghost use Rattle.cerco_base.specs.declared.reasons.Reason.{Reason};
ghost use Rattle.cerco_base.specs.declared.reasons.Fault.TheVariants.{Refused};
ghost use Rattle.checked_programs.specs.Limits.{IsWithinLimits};
ghost use Rattle.cerco_middle.specs.Programs.{AreNumbered};
ghost use Rattle.clight_programs.specs.Labels.{labels_of};
ghost use Rattle.clight_programs.specs.Programs.{IsChecked};
ghost use Rattle.clight_syntax.specs.Code.TypedViews.{labelled_of};
ghost use Rattle.cerco_pipeline.specs.Compiled.{IsAssembled};
ghost use Rattle.cerco_pipeline.specs.Built.{LacksRoom};

use back_end::{Assembled, back_end};
use cerco_base::Fault;
use clight_syntax::Labelled;
use cminor_gen::to_cminor;
use std::alloc::Global;

/// The object of a program, with the values from which it is made, or that there is no room for its cells or its code.
pub fn assembled(alloc: Global, program: &Labelled) -> Result<Assembled, Fault>
    requires checked { IsChecked (labelled_of program.now) }
    requires numbered { AreNumbered (labels_of (labelled_of program.now).functions) }
    requires limits { IsWithinLimits (labelled_of program.now) }
    ensures assembled { IfOk result (IsAssembled (labelled_of program.now)) }
    ensures refused { (reason : Reason) → result ≡ Err (Refused reason) → LacksRoom (labelled_of program.now) reason }
{
    let source = to_cminor(alloc, program)?;
    back_end(alloc, &source)
}
