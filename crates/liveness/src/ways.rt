//! Rows of numbers by number, as the ways between the points of a graph.
ghost use Rattle.std.specs.Prelude.{◌≡◌, ℕ, ◌<◌, [], length, OnOk, IfOk};
ghost use Rattle.cerco_traces.specs.LabelledGraphs.{In};
ghost use Rattle.liveness.specs.Code.Rows.{ways_of, AllBelow, AreDistinct, IsAddedAt, AddedTo, AddedOnce, AreTurned};

use cerco_base::NoMemory;
use std::alloc::Global;

/// A row: where the ways from a point lead.
#[derive(Drop)]
pub struct Ways {
    pub to: Vec<usize>,
}

/// A row, or nothing where there is no such row.
pub fn row(ways: &[Ways], x: usize) -> &[usize]
    ensures { result.now ≡ ways_of ways.now x }
{
    match ways.get(x) {
        Some(row) => row.to.as_slice(),
        None => &[],
    }
}

/// So many rows, all of them empty.
pub fn empty_rows(alloc: Global, count: usize) -> Result<Vec<Ways>, NoMemory>
    ensures long { IfOk result (λ ways. length ways.items ≡ count) }
    ensures none { IfOk result (λ ways. (x : ℕ) → ways_of ways.items x ≡ []) }
{
    let mut ways: Vec<Ways> = Vec::new(alloc);
    for _x in 0..count {
        ways.push(Ways {
            to: Vec::new(alloc),
        })?;
    }
    Ok(ways)
}

/// Adds a number at the end of a row.
pub fn add_way(ways: &mut Vec<Ways>, x: usize, i: usize) -> Result<(), NoMemory>
    requires { x < length ways.old.items }
    ensures long { length ways.new.items ≡ length ways.old.items }
    ensures added { OnOk result (IsAddedAt (ways_of ways.old.items) x i (ways_of ways.new.items)) }
{
    ways[x].to.push(i)?;
    Ok(())
}

/// Adds a number at the end of each of these rows.
pub fn add_to_each(ways: &mut Vec<Ways>, rows: &[usize], i: usize) -> Result<(), NoMemory>
    requires { AllBelow rows.now (length ways.old.items) }
    ensures long { length ways.new.items ≡ length ways.old.items }
    ensures added { OnOk result (AddedTo (ways_of ways.old.items) (λ x. In x rows.now) i (ways_of ways.new.items)) }
    ensures once { OnOk result (AreDistinct rows.now → AddedOnce (ways_of ways.old.items) i (ways_of ways.new.items)) }
{
    for x in rows {
        add_way(ways, *x, i)?;
    }
    Ok(())
}

/// The ways turned around: the row of a point lists from where ways lead to it.
pub fn backward(alloc: Global, ways: &[Ways]) -> Result<Vec<Ways>, NoMemory>
    requires { (i : ℕ) → AllBelow (ways_of ways.now i) (length ways.now) }
    ensures long { IfOk result (λ back. length back.items ≡ length ways.now) }
    ensures turned { IfOk result (λ back. AreTurned (λ y x. In x (ways_of ways.now y)) (length ways.now) (ways_of back.items)) }
{
    let mut back = empty_rows(alloc, ways.len())?;
    for i in 0..ways.len() {
        add_to_each(&mut back, row(ways, i), i)?;
    }
    Ok(back)
}
