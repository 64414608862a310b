//! The meaning of a source, told with its costs.
ghost use Rattle.std.specs.Prelude.{◌≡◌, Err, IfOk, OnErr};
ghost use Rattle.cerco_base.specs.declared.reasons.Reason.{Reason};
ghost use Rattle.cerco_base.specs.declared.reasons.Fault.TheVariants.{Refused};
ghost use Rattle.cerco_pipeline.specs.Built.{IsRefused};
ghost use Rattle.cerco_pipeline.specs.Programs.{HasRoomByText};
ghost use Rattle.cerco_pipeline.specs.Told.{PutsMeaning};

use crate::compile;
use cerco_base::{Fault, IoFault, Sink};
use meaning_text::{LabelCosts, tell};
use std::alloc::Global;

/// Compiles a source and puts the text of its meaning on a port script, for a budget of labels. The inner result is that of the
/// output, of which nothing is used before the source is compiled.
///
/// # Errors
///
/// As `compile`.
pub fn tell_meaning<O: Sink>(
    alloc: Global,
    text: &[u8],
    script: &[u8],
    limit: u32,
    out: &mut O,
) -> Result<Result<(), IoFault>, Fault>
    ensures told { IfOk result (PutsMeaning text.now script.now limit (O.state out.old) (O.state out.new)) }
    ensures untouched { OnErr result (O.state out.new ≡ O.state out.old) }
    ensures refused { (reason : Reason) → result ≡ Err (Refused reason) → IsRefused text.now reason }
    // A sound source whose own bounds say that there is room is not refused.
    ensures complete { HasRoomByText text.now → (reason : Reason) → result ≡ Err (Refused reason) → ⊥ }
{
    let compiled = compile(alloc, text)?;
    let costs = LabelCosts {
        start: compiled.start(),
        labels: compiled.costs(),
    };
    Ok(tell(alloc, compiled.labelled(), costs, script, limit, out))
}
