//! From Cminor to RTLabs: structured statements become control flow graphs. The graph of a function is built from its end to its
//! entry, so that a jump is no node but the number of the node that it leads to.
#![tactic(auto)]

ghost use Rattle.std.specs.Prelude.{◌≡◌, IfOk};
ghost use Rattle.cerco_traces.specs.Preservation.{Preserves};
ghost use Rattle.cerco_middle.specs.Code.Views.{cminor_of, rtlabs_of};
ghost use Rattle.cerco_middle.specs.Cminor.Meaning.{cminor};
ghost use Rattle.cerco_middle.specs.Cminor.WellFormed.{IsWellFormed as IsWellFormedCminor};
ghost use Rattle.cerco_middle.specs.Cminor.Sums.{long_length as length_of_cminor};
ghost use Rattle.cerco_middle.specs.RtLabs.Meaning.{rtlabs};
ghost use Rattle.cerco_middle.specs.RtLabs.WellFormed.{IsWellFormed};
ghost use Rattle.cerco_middle.specs.RtLabs.Sums.{long_length};
ghost use Rattle.rtlabs_gen.specs.Translation.{translated};
ghost use Rattle.rtlabs_gen.specs.Promises.{AreSoundlyLabelled, KeepsProgram, NeedNoMore, KeepsSums};

mod calls;
mod exits;
mod expressions;
mod functions;
mod graph;
mod statements;

use crate::functions::function_graphs;
use cerco_base::{NoMemory, StartBytes};
use cerco_middle::{Cminor, RtLabs};
use std::alloc::Global;

// A copy of what a program sets first.
fn copy_start(alloc: Global, start: &StartBytes) -> Result<StartBytes, NoMemory>
    ensures { IfOk result (λ copy. copy ≡ start.now) }
{
    let mut copy = StartBytes::new(alloc);
    for (at, byte) in start.bytes() {
        copy.push(*at, *byte)?;
    }
    Ok(copy)
}

// The graphs that the definition tells.
fn graphs(alloc: Global, program: &Cminor) -> Result<RtLabs, NoMemory>
    ensures { IfOk result (λ r. rtlabs_of r ≡ translated (cminor_of program.now)) }
{
    let calls = program.calls.duplicate()?;
    let start = copy_start(alloc, &program.start)?;
    let functions = function_graphs(alloc, program.functions.as_slice())?;
    Ok(RtLabs {
        functions,
        calls,
        main: program.main,
        start,
    })
}

/// The control flow graphs of a program. Out of memory is also the answer where a graph has more nodes than a `u32` counts.
pub fn to_rtlabs(alloc: Global, program: &Cminor) -> Result<RtLabs, NoMemory>
    ensures is { IfOk result (λ r. rtlabs_of r ≡ translated (cminor_of program.now)) }

    // On every script and within all bounds, the graphs show the events of the program and stop where it stops.
    ensures preserves { IfOk result (λ r. Preserves (cminor (cminor_of program.now)) (rtlabs (rtlabs_of r))) }
    ensures formed { IfOk result (λ r. IsWellFormedCminor (cminor_of program.now) → IsWellFormed (rtlabs_of r)) }
    ensures labelled { IfOk result (λ r. AreSoundlyLabelled (rtlabs_of r)) }
    ensures same { IfOk result (λ r. KeepsProgram (cminor_of program.now) (rtlabs_of r)) }
    ensures length { IfOk result (λ r. long_length (rtlabs_of r) ≡ length_of_cminor (cminor_of program.now)) }
    ensures need { IfOk result (λ r. NeedNoMore (cminor_of program.now) (rtlabs_of r)) }
    // of these, length and need and the labels follow
    ensures sums { IfOk result (λ r. KeepsSums (cminor_of program.now) (rtlabs_of r)) }
{
    graphs(alloc, program)
}
