//! RTL to ERTL: arguments and results are handed over in the places of the calling convention.
#![tactic(auto)]

ghost use Rattle.std.specs.Prelude.{◌≡◌, ℕ, ◌≤◌, IfOk};
ghost use Rattle.cerco_traces.specs.Preservation.{Preserves};
ghost use Rattle.rtl.specs.Locations.{vreg_number};
ghost use Rattle.rtl.specs.Graphs.{graph_at, numbered, AreSoundlyLabelled};
ghost use Rattle.rtl.specs.Meaning.{rtl as rtl_run, ertl as ertl_run};
ghost use Rattle.rtl.specs.WellFormed.{IsRtl, IsErtl};
ghost use Rattle.rtl.specs.CallingConvention.{RespectsConvention, CarryStaysInside};
ghost use Rattle.rtl.specs.Lengths.{vreg_length, register_need};
ghost use Rattle.rtl.specs.Code.Views.{program_of};
ghost use Rattle.ertl_gen.specs.Translation.{exchanged, ertl_of, KeepsOutline};

use byte_renaming::{Naming, copy_start, rename_graphs};
use cerco_base::NoMemory;
use rtl::{Bytes, Vreg};
use std::alloc::Global;

// The virtual registers 12 to 23 and those from 0 to 11 change their numbers with each other.
struct Exchange;

impl Naming<Vreg, Vreg> for Exchange {
    ghost named = { λ _ v. exchanged v };

    fn name(&self, v: Vreg) -> Vreg {
        match v.0 {
            0..=11 => Vreg(v.0 + 12),
            12..=23 => Vreg(v.0 - 12),
            n => Vreg(n),
        }
    }
}

/// The ERTL program of an RTL program (CerCo, deliverable 4.2). The argument and result bytes, which
/// RTL hands over in the virtual registers 12 to 23, are in those from 0 to 11, which stand for the
/// places of the calling convention; all else is the same. It fails only when out of memory.
pub fn to_ertl(alloc: Global, program: &Bytes<Vreg>) -> Result<Bytes<Vreg>, NoMemory>
    ensures is { IfOk result (λ ertl. program_of ertl ≡ ertl_of (program_of program.now)) }
    ensures preserves { IfOk result (λ ertl. Preserves (rtl_run (program_of program.now)) (ertl_run (program_of ertl))) }
    ensures formed { IfOk result (λ ertl. IsRtl (program_of program.now) → IsErtl (program_of ertl)) }
    ensures labelled { IfOk result (λ ertl. AreSoundlyLabelled (program_of program.now).graphs → AreSoundlyLabelled (program_of ertl).graphs) }
    ensures conventional { IfOk result (λ ertl. RespectsConvention 12 (graph_at (numbered vreg_number (program_of program.now))) → RespectsConvention 0 (graph_at (numbered vreg_number (program_of ertl)))) }
    ensures carry { IfOk result (λ ertl. (f : ℕ) → CarryStaysInside 12 (graph_at (numbered vreg_number (program_of program.now)) f) → CarryStaysInside 0 (graph_at (numbered vreg_number (program_of ertl)) f)) }
    ensures same { IfOk result (λ ertl. KeepsOutline (program_of program.now) (program_of ertl)) }
    ensures length { IfOk result (λ ertl. vreg_length (program_of ertl) ≤ vreg_length (program_of program.now)) }
    ensures need { IfOk result (λ ertl. (f : ℕ) → register_need (graph_at (program_of ertl).graphs f) ≤ register_need (graph_at (program_of program.now).graphs f)) }
{
    let calls = program.calls.duplicate()?;
    let start = copy_start(alloc, &program.start)?;
    let graphs = rename_graphs(alloc, &Exchange, program.graphs.as_slice())?;
    Ok(Bytes {
        graphs,
        calls,
        main: program.main,
        start,
    })
}
