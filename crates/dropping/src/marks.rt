//! Marks of the points that are needed, of which more and more are set.
ghost use Rattle.std.specs.Prelude.{◌≡◌, ℕ, ◌<◌, ◌↔◌, true, length, slice_set, IfOk};
ghost use Rattle.cerco_traces.specs.LabelledGraphs.{In};
ghost use Rattle.liveness.specs.Code.Rows.{AllBelow};
ghost use Rattle.liveness.specs.Code.Reach.{is_marked};
ghost use Rattle.dropping.specs.Code.Marks.{HasGrown, AreMarkedBefore};

use cerco_base::NoMemory;
use liveness::points::Points;
use liveness::reach::is_marked;
use std::alloc::Global;

/// Of each point whether it is needed, as far as is known, and whether a mark is new.
#[derive(Drop)]
pub struct Needed {
    pub marks: Vec<bool>,
    pub changed: bool,
}

// Marks a point.
fn mark(needed: &mut Needed, j: usize)
    requires { j < length needed.old.marks.items }
    ensures marks { needed.new.marks.items ≡ slice_set needed.old.marks.items j true }
    ensures grown { HasGrown needed.old needed.new }
{
    if !needed.marks[j] {
        needed.marks[j] = true;
        needed.changed = true;
    }
}

// Marks the operation before this point, if it is one of the walls.
fn mark_before(points: &Points, walls: &[bool], needed: &mut Needed, i: usize)
    requires within { i < length points.now.places.items }
    requires long { length needed.old.marks.items ≡ length points.now.places.items }
    ensures marks { AreMarkedBefore points.now walls.now (λ k. i ≡ k) needed.old.marks.items needed.new.marks.items }
    ensures grown { HasGrown needed.old needed.new }
{
    if i > 0 && points.places[i].op > 0 && is_marked(walls, i - 1) {
        mark(needed, i - 1)
    }
}

/// The same before each of these points.
pub fn mark_before_each(points: &Points, walls: &[bool], needed: &mut Needed, list: &[usize])
    requires within { AllBelow list.now (length points.now.places.items) }
    requires long { length needed.old.marks.items ≡ length points.now.places.items }
    ensures marks { AreMarkedBefore points.now walls.now (λ k. In k list.now) needed.old.marks.items needed.new.marks.items }
    ensures grown { HasGrown needed.old needed.new }
{
    for i in list {
        mark_before(points, walls, needed, *i);
    }
}

/// Those of a list that are marked.
pub fn marked_of(alloc: Global, list: &[usize], marks: &[bool]) -> Result<Vec<usize>, NoMemory>
    ensures { IfOk result (λ kept. (i : ℕ) → In i kept.items ↔ (In i list.now × (is_marked marks.now i ≡ true))) }
{
    let mut kept = Vec::new(alloc);
    for i in list {
        if is_marked(marks, *i) {
            kept.push(*i)?;
        }
    }
    Ok(kept)
}
