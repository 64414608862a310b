//! The front end: from the bytes of a source to its labelled program.
ghost use Rattle.std.specs.Prelude.{◌≡◌, Err, IfOk};
ghost use Rattle.cerco_base.specs.declared.reasons.Reason.{Reason};
ghost use Rattle.cerco_base.specs.declared.reasons.Fault.TheVariants.{Refused};
ghost use Rattle.cerco_pipeline.specs.Compiled.{IsRead};
ghost use Rattle.cerco_pipeline.specs.Programs.{HasFirstReason};

use cerco_base::Fault;
use clight_check::check;
use clight_reader::{parse, tokens};
use clight_syntax::Labelled;
use cost_labels::label;
use std::alloc::Global;

/// The labelled program of a source, or the first reason against it.
pub fn labelled_program(alloc: Global, text: &[u8]) -> Result<Box<Labelled>, Fault>
    ensures read { IfOk result (λ program. IsRead text.now program.value) }
    ensures refused { (reason : Reason) → result ≡ Err (Refused reason) → HasFirstReason text.now reason }
{
    let tokens = tokens(alloc, text)?;
    let tree = parse(alloc, &tokens)?;
    let typed = check(alloc, tree)?;
    let labelled = label(alloc, typed)?;
    Ok(Box::new(alloc, labelled)?)
}
