//! The annotated text of a source: the source with the C text that makes it count its own cost. Its
//! numbers are read back, and the source is.
#![tactic(auto)]

ghost use Rattle.std.specs.Prelude.{◌≡◌, ◌<◌, ◌++◌, ◌∷◌, length, slice_index, decimal, codes};
ghost use Rattle.std.specs.List.{flat_map};
ghost use Rattle.cerco_base.specs.Outside.IoCalls.{PutsText};
ghost use Rattle.clight_syntax.specs.Annotations.{annotated, around, piece_text, AreInOrder, HasLabelsBelow, HaveLabelsBelow, labels_in, AreNumberedInOrder, BeginWithStart, numbers_of};
ghost use Rattle.annotate.specs.Erasure.{erased};
ghost use Rattle.clight_source.specs.Markers.{HasNoMarker};
ghost use Rattle.annotate.specs.Numbers.{numbers};

mod cuts;
mod erasing;
mod laws;
mod reading;

use cerco_base::{IoFault, Label, Sink, put_all};
use clight_syntax::{Piece, Point, Points};
pub use erasing::erase;
use itoa::Buffer;
pub use laws::costs_of_runs;
pub use reading::read_cost;

// Puts a number in decimal between two texts.
fn put_number<O: Sink>(
    before: &[u8],
    number: u32,
    behind: &[u8],
    out: &mut O,
) -> Result<(), IoFault>
    ensures { PutsText (O.state out.old) (O.state out.new)
        (before.now ++ (decimal number ++ behind.now)) result }
{
    put_all(out, before)?;
    let mut digits = Buffer::new();
    put_all(out, digits.format(number).as_bytes())?;
    put_all(out, behind)
}

// Puts the cost of a label between two texts.
fn put_cost<O: Sink>(
    before: &[u8],
    label: Label,
    costs: &[u32],
    behind: &[u8],
    out: &mut O,
) -> Result<(), IoFault>
    requires { label.0 < length costs.now }
    ensures { PutsText (O.state out.old) (O.state out.new)
        (around before.now (slice_index costs.now label.0) behind.now) result }
{
    put_number(before, costs[label.0 as usize], behind, out)
}

// Puts the annotation behind the left operand of `&&` or `||`, with the costs where it is true and where it is false.
fn put_both<O: Sink>(
    on_true: Label,
    on_false: Label,
    costs: &[u32],
    out: &mut O,
) -> Result<(), IoFault>
    requires first { on_true.0 < length costs.now }
    requires second { on_false.0 < length costs.now }
    ensures { PutsText (O.state out.old) (O.state out.new)
        (around (codes "/*@*/)?(__cost+=") (slice_index costs.now on_true.0)
        (around (codes ",1):(__cost+=") (slice_index costs.now on_false.0) (codes ",0))/*@*/"))) result }
{
    put_cost(b"/*@*/)?(__cost+=", on_true, costs, b",1):(__cost+=", out)?;
    put_cost(b"", on_false, costs, b",0))/*@*/", out)
}

// Puts an annotation.
fn put_piece<O: Sink>(piece: Piece, start: u32, costs: &[u32], out: &mut O) -> Result<(), IoFault>
    requires { HasLabelsBelow (length costs.now) piece }
    ensures { PutsText (O.state out.old) (O.state out.new)
        (piece_text (record { start = start; labels = costs.now }) piece) result }
{
    match piece {
        Piece::Start => put_number(b"/*@*/unsigned long __cost=", start, b";/*@*/", out),
        Piece::After(label) => put_cost(b"/*@*/__cost+=", label, costs, b";/*@*/", out),
        Piece::ArmOpen(label) => put_cost(b"/*@*/{__cost+=", label, costs, b";/*@*/", out),
        Piece::ArmClose => put_all(out, b"/*@*/}/*@*/"),
        Piece::ThenClose(label) => put_cost(b"/*@*/}else{__cost+=", label, costs, b";}/*@*/", out),
        Piece::BodyClose(label) => put_cost(b"/*@*/}__cost+=", label, costs, b";/*@*/", out),
        Piece::DoOpen => put_all(out, b"/*@*/{/*@*/"),
        Piece::DoClose => put_all(out, b"/*@*/}/*@*/"),
        Piece::CondOpen => put_all(out, b"/*@*/((/*@*/"),
        Piece::CondBoth(on_true, on_false) => put_both(on_true, on_false, costs, out),
        Piece::CondRepeat(label) => put_cost(
            b"/*@*/)?(__cost+=",
            label,
            costs,
            b",1):0)/*@*/",
            out,
        ),
    }
}

// Puts the source with the annotation of each point before the byte at its offset.
fn put_annotated<O: Sink>(
    source: &[u8],
    points: &[Point],
    start: u32,
    costs: &[u32],
    out: &mut O,
) -> Result<(), IoFault>
    requires ordered { AreInOrder (length source.now) points.now }
    requires labelled { HaveLabelsBelow (length costs.now) points.now }
    ensures { PutsText (O.state out.old) (O.state out.new)
        (annotated source.now points.now (record { start = start; labels = costs.now })) result }
{
    let mut from = 0;
    for point in points {
        let at = point.at as usize;
        put_all(out, &source[from..at])?;
        put_piece(point.piece, start, costs, out)?;
        from = at;
    }
    put_all(out, &source[from..])
}

/// Puts the annotated text of a source: before the byte at each point's offset stands its
/// annotation, with the cost of the program's start or of its label. It takes no memory but
/// through the output.
///
/// # Errors
///
/// The fault of the output. A prefix of the text was put then.
pub fn annotate<O: Sink>(
    source: &[u8],
    points: &Points,
    start: u32,
    costs: &[u32],
    out: &mut O,
) -> Result<(), IoFault>
    requires ordered { AreInOrder (length source.now) points.now }
    requires labelled { HaveLabelsBelow (length costs.now) points.now }

    ensures puts { PutsText (O.state out.old) (O.state out.new)
        (annotated source.now points.now (record { start = start; labels = costs.now })) result }

    // Without the annotations it is the source again.
    ensures erases { HasNoMarker source.now →
        erased (annotated source.now points.now (record { start = start; labels = costs.now }))
        ≡ source.now }

    // Its numbers are those of the annotations, in order.
    ensures counts { HasNoMarker source.now →
        numbers (annotated source.now points.now (record { start = start; labels = costs.now }))
        ≡ flat_map (λ point. numbers_of (record { start = start; labels = costs.now }) point.piece) points.now }

    // Where they begin with that of the start and name as many labels as there are costs, by their numbers in order, the
    // numbers are the cost of the start and the costs of the labels: number l + 1 is the cost of label l.
    ensures costs { HasNoMarker source.now → BeginWithStart points.now → AreNumberedInOrder (labels_in points.now)
        → length (labels_in points.now) ≡ length costs.now
        → numbers (annotated source.now points.now (record { start = start; labels = costs.now })) ≡ start ∷ costs.now }
{
    put_annotated(source, points.as_slice(), start, costs, out)
}
