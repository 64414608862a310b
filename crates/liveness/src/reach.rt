//! Searches along ways.
ghost use Rattle.std.specs.Prelude.{◌≡◌, ℕ, ◌<◌, ◌↔◌, [], ◌∷◌, length, true, false, OnOk, IfOk};
ghost use Rattle.cerco_traces.specs.LabelledGraphs.{In};
ghost use Rattle.liveness.specs.Code.Rows.{ways_of, AllBelow, AreDistinct};
ghost use Rattle.liveness.specs.Code.Reach.{is_marked, Reached, AreClear, AreSet, AreListed, AreMarked};

use crate::ways::{Ways, row};
use cerco_base::NoMemory;
use std::alloc::Global;

/// Whether a number is marked.
pub fn is_marked(marks: &[bool], i: usize) -> bool
    ensures { result ≡ is_marked marks.now i }
{
    match marks.get(i) {
        Some(mark) => *mark,
        None => false,
    }
}

/// Gives each of these numbers this mark.
pub fn set_all(marks: &mut Vec<bool>, list: &[usize], value: bool)
    requires { AllBelow list.now (length marks.old.items) }
    ensures { AreSet marks.old.items list.now value marks.new.items }
{
    for i in list {
        marks[*i] = value;
    }
}

// Marks and lists a number that isn't marked and is no wall.
fn mark(
    marks: &mut Vec<bool>,
    list: &mut Vec<usize>,
    walls: &[bool],
    j: usize,
) -> Result<(), NoMemory>
    requires within { j < length marks.old.items }
    requires listed { AreListed marks.old.items list.old.items }
    ensures { OnOk result (AreMarked walls.now marks.old.items list.old.items (j ∷ []) marks.new.items list.new.items) }
{
    if !is_marked(walls, j) && !marks[j] {
        list.push(j)?;
        marks[j] = true;
    }
    Ok(())
}

// The same for each of a row.
fn mark_all(
    marks: &mut Vec<bool>,
    list: &mut Vec<usize>,
    walls: &[bool],
    row: &[usize],
) -> Result<(), NoMemory>
    requires within { AllBelow row.now (length marks.old.items) }
    requires listed { AreListed marks.old.items list.old.items }
    ensures { OnOk result (AreMarked walls.now marks.old.items list.old.items row.now marks.new.items list.new.items) }
{
    for j in row {
        mark(marks, list, walls, *j)?;
    }
    Ok(())
}

/// What is reached from seeds along ways that lead to no wall, each once. Takes marks of which none
/// is set, and leaves them so.
pub fn reach(
    alloc: Global,
    ways: &[Ways],
    seeds: &[usize],
    walls: &[bool],
    marks: &mut Vec<bool>,
) -> Result<Vec<usize>, NoMemory>
    requires seeds { AllBelow seeds.now (length ways.now) }
    requires ways { (i : ℕ) → AllBelow (ways_of ways.now i) (length ways.now) }
    requires clear { AreClear marks.old.items (length ways.now) }
    ensures exact { IfOk result (λ list. (i : ℕ) → In i list.items ↔ Reached seeds.now (ways_of ways.now) walls.now i) }
    ensures distinct { IfOk result (λ list. AreDistinct list.items) }
    ensures below { IfOk result (λ list. AllBelow list.items (length ways.now)) }
    ensures clear { OnOk result (AreClear marks.new.items (length ways.now)) }
{
    let mut list = Vec::new(alloc);
    mark_all(marks, &mut list, &[], seeds)?;
    let mut next = 0;
    while next < list.len() {
        let i = list[next];
        mark_all(marks, &mut list, walls, row(ways, i))?;
        next += 1;
    }
    set_all(marks, &list, false);
    Ok(list)
}
