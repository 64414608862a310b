//! Turns, in each of which the operations are marked that write something where it is live by the
//! marks so far.
ghost use Rattle.std.specs.Prelude.{◌≡◌, ℕ, false, length, OnOk};
ghost use Rattle.rtl.specs.Programs.{Graph as GraphOf};
ghost use Rattle.liveness.specs.Code.Reach.{AreClear};
ghost use Rattle.liveness.specs.Code.Views.{storage_of};
ghost use Rattle.liveness.specs.Code.Points.{count};
ghost use Rattle.liveness.specs.Code.Flow.{IsFlow, HasGraph};
ghost use Rattle.pruned_graphs.specs.Searches.{IsTurn, AreSound};
ghost use Rattle.dropping.specs.Code.Marks.{HasGrown};
ghost use Rattle.dropping.specs.Code.Turns.{marks_of, ExitsAreMarked, AllWritersAreMarked};

use crate::marks::{Needed, mark_before_each, marked_of};
use cerco_base::NoMemory;
use liveness::flow::Flow;
use liveness::reach::{reach, set_all};
use liveness::storages::Storage;
use std::alloc::Global;

/// Marks of points, none of which is set between two searches: what a search has reached, and
/// what it doesn't go through.
#[derive(Drop)]
pub struct Scratch {
    pub reached: Vec<bool>,
    pub walls: Vec<bool>,
}

// Marks the operations that write this where it is live by the marks so far.
fn turn(
    alloc: Global,
    flow: &Flow,
    storage: Storage,
    needed: &mut Needed,
    scratch: &mut Scratch,
) -> Result<(), NoMemory>
    requires reached { AreClear scratch.old.reached.items (count flow.now.points) }
    requires walls { AreClear scratch.old.walls.items (count flow.now.points) }
    requires flow { HasGraph flow.now }
    requires long { length needed.old.marks.items ≡ count flow.now.points }
    ensures turn { OnOk result ((g : GraphOf ℕ) → IsFlow g flow.now → ExitsAreMarked g flow.now.points needed.old.marks.items → IsTurn 0 g (storage_of storage) (marks_of g flow.now.points needed.old.marks.items) (marks_of g flow.now.points needed.new.marks.items)) }
    ensures grown { OnOk result (HasGrown needed.old needed.new) }
    ensures reached { OnOk result (AreClear scratch.new.reached.items (count flow.now.points)) }
    ensures walls { OnOk result (AreClear scratch.new.walls.items (count flow.now.points)) }
{
    let stops = flow.stops.of(storage);
    set_all(&mut scratch.walls, stops, true);
    let seeds = marked_of(alloc, flow.uses.of(storage), &needed.marks)?;
    let list = reach(
        alloc,
        &flow.back,
        &seeds,
        &scratch.walls,
        &mut scratch.reached,
    )?;
    mark_before_each(&flow.points, &scratch.walls, needed, &list);
    set_all(&mut scratch.walls, stops, false);
    Ok(())
}

/// A turn for each virtual register, from the greatest one down, and one for the carry.
pub fn round(
    alloc: Global,
    flow: &Flow,
    needed: &mut Needed,
    scratch: &mut Scratch,
) -> Result<(), NoMemory>
    requires reached { AreClear scratch.old.reached.items (count flow.now.points) }
    requires walls { AreClear scratch.old.walls.items (count flow.now.points) }
    requires flow { HasGraph flow.now }
    requires long { length needed.old.marks.items ≡ count flow.now.points }
    ensures sound { OnOk result ((g : GraphOf ℕ) → IsFlow g flow.now → ExitsAreMarked g flow.now.points needed.old.marks.items → AreSound 0 g (marks_of g flow.now.points needed.old.marks.items) → AreSound 0 g (marks_of g flow.now.points needed.new.marks.items)) }
    ensures whole { OnOk result (needed.new.changed ≡ false → (g : GraphOf ℕ) → IsFlow g flow.now → ExitsAreMarked g flow.now.points needed.old.marks.items → AllWritersAreMarked g (marks_of g flow.now.points needed.new.marks.items)) }
    ensures grown { OnOk result (HasGrown needed.old needed.new) }
    ensures reached { OnOk result (AreClear scratch.new.reached.items (count flow.now.points)) }
    ensures walls { OnOk result (AreClear scratch.new.walls.items (count flow.now.points)) }
{
    let mut v = flow.uses.vregs.len();
    while v > 0 {
        v -= 1;
        turn(alloc, flow, Storage::Vreg(v as u32), needed, scratch)?;
    }
    turn(alloc, flow, Storage::Carry, needed, scratch)
}
