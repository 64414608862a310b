//! The pass from RTLabs to RTL: operations on values of two bytes become operations on bytes, over virtual registers. Each node
//! keeps its number. A new node after the entry takes the parameters from their argument places and sets the other variables to 0.
#![tactic(auto)]

ghost use Rattle.std.specs.Prelude.{◌≡◌, ℕ, ◌≤◌, IfOk};
ghost use Rattle.cerco_traces.specs.Preservation.{Preserves};
ghost use Rattle.cerco_middle.specs.Code.Views.{rtlabs_of};
ghost use Rattle.cerco_middle.specs.RtLabs.Meaning.{rtlabs};
ghost use Rattle.cerco_middle.specs.RtLabs.Sums.{long_length};
ghost use Rattle.cerco_middle.specs.RtLabs.WellFormed.{IsWellFormed};
ghost use Rattle.rtl.specs.CallingConvention.{RespectsConvention, CarryStaysInside};
ghost use Rattle.rtl.specs.Code.Views.{program_of};
ghost use Rattle.rtl.specs.Graphs.{graph_at, numbered, AreSoundlyLabelled};
ghost use Rattle.rtl.specs.Lengths.{vreg_length};
ghost use Rattle.rtl.specs.Locations.{vreg_number};
ghost use Rattle.rtl.specs.Meaning.{rtl as rtl_run};
ghost use Rattle.rtl.specs.WellFormed.{IsRtl};
ghost use Rattle.rtl_gen.specs.Translation.{translated};
ghost use Rattle.rtl_gen.specs.Promises.{GraphsAreLabelled, KeepsProgram, NeedNoMore};

mod entry;
mod graphs;
mod start;

use crate::graphs::push_graphs;
use crate::start::duplicate;
use cerco_base::NoMemory;
use cerco_middle::RtLabs;
use rtl::{Bytes, Graphs, Vreg};
use std::alloc::Global;

// The program over bytes, by its translation.
fn translation(alloc: Global, program: &RtLabs) -> Result<Bytes<Vreg>, NoMemory>
    ensures { IfOk result (λ bytes. program_of bytes ≡ translated (rtlabs_of program.now)) }
{
    let calls = program.calls.duplicate()?;
    let start = duplicate(alloc, &program.start)?;
    let mut graphs = Graphs::new(alloc);
    push_graphs(alloc, &mut graphs, program.functions.as_slice())?;
    Ok(Bytes {
        graphs,
        calls,
        main: program.main,
        start,
    })
}

/// The program over bytes. Out of memory is also the answer where a function has 2 ^ 28 variables or nodes or more, or names a
/// variable, a temporary or an argument byte by a number from 2 ^ 29 on.
pub fn to_rtl(alloc: Global, program: &RtLabs) -> Result<Bytes<Vreg>, NoMemory>
    ensures is { IfOk result (λ bytes. program_of bytes ≡ translated (rtlabs_of program.now)) }

    // On every script and within all bounds, the graphs of bytes show the events of the program and stop where it stops.
    ensures preserves { IfOk result (λ bytes. IsWellFormed (rtlabs_of program.now) → GraphsAreLabelled (rtlabs_of program.now) → Preserves (rtlabs (rtlabs_of program.now)) (rtl_run (program_of bytes))) }
    ensures formed { IfOk result (λ bytes. IsWellFormed (rtlabs_of program.now) → IsRtl (program_of bytes)) }
    ensures labelled { IfOk result (λ bytes. IsWellFormed (rtlabs_of program.now) → GraphsAreLabelled (rtlabs_of program.now) → AreSoundlyLabelled (program_of bytes).graphs) }
    ensures conventional { IfOk result (λ bytes. IsWellFormed (rtlabs_of program.now) → GraphsAreLabelled (rtlabs_of program.now) → RespectsConvention 12 (graph_at (numbered vreg_number (program_of bytes)))) }
    ensures carry { IfOk result (λ bytes. (f : ℕ) → CarryStaysInside 12 (graph_at (numbered vreg_number (program_of bytes)) f)) }
    ensures same { IfOk result (λ bytes. KeepsProgram (rtlabs_of program.now) (program_of bytes)) }
    ensures length { IfOk result (λ bytes. vreg_length (program_of bytes) ≤ long_length (rtlabs_of program.now)) }
    ensures need { IfOk result (λ bytes. IsWellFormed (rtlabs_of program.now) → NeedNoMore (rtlabs_of program.now) (program_of bytes)) }
{
    translation(alloc, program)
}
