//! The plainest allocation: one cell for each virtual register.
ghost use Rattle.std.specs.Prelude.{◌≡◌, ℕ, ◌^◌, ◌<◌, ◌≤◌, map, length, vec_len, All, IfOk};
ghost use Rattle.rtl.specs.Locations.{vreg_number};
ghost use Rattle.rtl.specs.WellFormed.{locations_in, NamesItsVregs};
ghost use Rattle.rtl.specs.Lengths.{stands_in, register_need};
ghost use Rattle.rtl.specs.Code.Views.{graph_of};
ghost use Rattle.ltl_alloc.specs.Allocations.{spot_of, IsExact};
ghost use Rattle.ltl_alloc.specs.Allocated.{Serves, PlacesAll};
ghost use Rattle.ltl_alloc.specs.OneCell.{spot_of_argument, cells_below, spot_for, one_cell};
ghost use Rattle.ltl_alloc.specs.Code.Spots.{is_marked};

use crate::allocation::{Allocation, Spot};
use crate::named::locations;
use cerco_base::NoMemory;
use rtl::{Graph, Sequence, Vreg};
use std::alloc::Global;

// One more than the greatest of these numbers.
fn bound(list: &[Vreg]) -> usize
    ensures above { All (λ v. v.0 < result) list.now }
    ensures few { result ≤ 2 ^ 32 }
{
    let mut bound: usize = 0;
    for v in list {
        bound = bound.max(v.0 as usize + 1);
    }
    bound
}

// For each virtual register by number, whether it is one of these.
fn marks(alloc: Global, list: &[Vreg]) -> Result<Vec<bool>, NoMemory>
    ensures marks { IfOk result (λ marks. (v : ℕ) → is_marked marks.items v ≡ stands_in v (map vreg_number list.now)) }
    ensures few { IfOk result (λ marks. vec_len marks ≤ 2 ^ 32) }
{
    let mut marks = vec![in alloc; false; bound(list)]?;
    for v in list {
        marks[v.0 as usize] = true;
    }
    Ok(marks)
}

// The spot of an argument place.
fn argument_spot(v: usize) -> Spot
    requires { v < 12 }
    ensures { result ≡ spot_of_argument v }
{
    if v < 6 {
        Spot::Reg(v as u8 + 2)
    } else {
        let place = v - 6;
        Spot::Arg(place as u8)
    }
}

// The spot of a virtual register, where the ones below it have so many cells.
fn next_spot(named: bool, v: usize, cells: u32) -> Option<Spot>
    ensures { result ≡ spot_for named v cells }
{
    if !named {
        return None;
    }
    if v < 12 {
        Some(argument_spot(v))
    } else {
        Some(Spot::Cell(cells))
    }
}

// The spots of the virtual registers that are marked.
fn spots_of(alloc: Global, marks: &[bool]) -> Result<Allocation, NoMemory>
    requires { length marks.now ≤ 2 ^ 32 }
    ensures spots { IfOk result (λ a. (v : ℕ) → spot_of a v ≡ one_cell (is_marked marks.now) v) }
    ensures cells { IfOk result (λ a. a.cells ≡ cells_below (is_marked marks.now) (length marks.now)) }
{
    let mut spots = Sequence::new(alloc);
    let mut cells = 0;
    for (v, &named) in marks.iter().enumerate() {
        spots.push(next_spot(named, v, cells))?;
        if named && v >= 12 {
            cells += 1;
        }
    }
    Ok(Allocation { spots, cells })
}

/// The plainest allocation: virtual registers below 12 have the places of arguments, and the others
/// have cells of their own, numbered from 0 by rising virtual register. It fails only when out of
/// memory.
pub fn one_cell_each(alloc: Global, graph: &Graph<Vreg>) -> Result<Allocation, NoMemory>
    ensures spots { IfOk result (λ a. (v : ℕ) → spot_of a v ≡ one_cell (λ w. stands_in w (map vreg_number (locations_in (graph_of graph.now)))) v) }
    ensures serves { IfOk result (Serves (graph_of graph.now)) }
    ensures places { IfOk result (PlacesAll (graph_of graph.now)) }
    ensures exact { IfOk result IsExact }
    ensures need { IfOk result (λ a. NamesItsVregs 0 (graph_of graph.now) → a.cells ≤ register_need (graph_of graph.now)) }
{
    let list = locations(alloc, graph)?;
    let marks = marks(alloc, &list)?;
    spots_of(alloc, &marks)
}
