//! Linear code of whole programs.

ghost use Rattle.std.specs.Prelude.{◌≡◌, ◌≤◌, map, IfOk};
ghost use Rattle.cerco_traces.specs.Preservation.{Preserves};
ghost use Rattle.rtl.specs.Code.Views.{graph_of, program_of, item_of, lin_program_of};
ghost use Rattle.rtl.specs.Graphs.{AreSoundlyLabelled};
ghost use Rattle.rtl.specs.Meaning.{ltl};
ghost use Rattle.rtl.specs.Linear.{lin};
ghost use Rattle.rtl.specs.WellFormed.{IsLtl, IsLinProgram};
ghost use Rattle.rtl.specs.Lengths.{ltl_length, lin_length};
ghost use Rattle.lin_gen.specs.Linearised.{AreReady, AreOrderings, IsLinearised};

use crate::linearise;
use cerco_base::{NoMemory, StartBytes};
use rtl::{Bytes, Graph, LinProgram, Lins, Place, Sequence};
use std::alloc::Global;

// The linear code of each function.
fn linearise_all(alloc: Global, graphs: &[Graph<Place>]) -> Result<Lins, NoMemory>
    requires { AreReady (map graph_of graphs.now) }
    ensures { IfOk result (λ lins. AreOrderings (map graph_of graphs.now) (map (map item_of) lins)) }
{
    let mut lins = Sequence::new(alloc);
    for graph in graphs {
        lins.push(linearise(alloc, graph)?)?;
    }
    Ok(lins)
}

// A copy of the initialised bytes.
fn copy_start(alloc: Global, bytes: &[(u16, u8)]) -> Result<StartBytes, NoMemory>
    ensures { IfOk result (λ copy. copy ≡ bytes.now) }
{
    let mut start = StartBytes::new(alloc);
    for (at, byte) in bytes {
        start.push(*at, *byte)?;
    }
    Ok(start)
}

/// The linear code of a program: that of each of its functions, with its `main` and its start. It
/// preserves the traces of the graphs.
pub fn linearise_program(alloc: Global, program: &Bytes<Place>) -> Result<LinProgram, NoMemory>
    requires labelled { AreSoundlyLabelled (map graph_of program.now.graphs) }
    requires formed { IsLtl (program_of program.now) }
    ensures is { IfOk result (λ lins. IsLinearised (program_of program.now) (lin_program_of lins)) }
    ensures preserves { IfOk result (λ lins. Preserves (ltl (program_of program.now)) (lin (lin_program_of lins))) }
    ensures formed { IfOk result (λ lins. IsLinProgram (lin_program_of lins)) }
    ensures length { IfOk result (λ lins. lin_length (lin_program_of lins) ≤ ltl_length (program_of program.now)) }
{
    let lins = linearise_all(alloc, program.graphs.as_slice())?;
    let start = copy_start(alloc, program.start.bytes())?;
    Ok(LinProgram {
        lins,
        main: program.main,
        start,
    })
}
