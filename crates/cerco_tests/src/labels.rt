//! Where the labels of programs and their annotations are.

use crate::sources::{ARMS, DO_LOOP, RING, WHILE_BOTH, labelled};
use cerco_base::{Fault, NoMemory};
use clight_syntax::{Piece, Point};
use std::alloc::Global;
use std::process::Abort;

// An annotation: a word for it and the numbers of its labels.
fn piece_text(alloc: Global, piece: Piece) -> Result<String, NoMemory> {
    let text = match piece {
        Piece::Start => String::from_str(alloc, "start")?,
        Piece::After(label) => format!(in alloc; "after L{}", label.0)?,
        Piece::ArmOpen(label) => format!(in alloc; "arm L{}", label.0)?,
        Piece::ArmClose => String::from_str(alloc, "arm ends")?,
        Piece::ThenClose(label) => format!(in alloc; "arm ends, else L{}", label.0)?,
        Piece::BodyClose(label) => format!(in alloc; "body ends, then L{}", label.0)?,
        Piece::DoOpen => String::from_str(alloc, "do")?,
        Piece::DoClose => String::from_str(alloc, "do ends")?,
        Piece::CondOpen => String::from_str(alloc, "condition")?,
        Piece::CondBoth(one, other) => format!(in alloc; "true L{}, false L{}", one.0, other.0)?,
        Piece::CondRepeat(label) => format!(in alloc; "again L{}", label.0)?,
    };
    Ok(text)
}

/// The annotations, each with its place and a line end.
pub fn points_text(alloc: Global, points: &[Point]) -> Result<String, NoMemory> {
    let mut text = String::new(alloc);
    for point in points {
        let piece = piece_text(alloc, point.piece)?;
        let line = format!(in alloc; "{} {piece}\n", point.at)?;
        text.push_str(&line)?;
    }
    Ok(text)
}

// The annotations of a source.
fn annotations(alloc: Global, source: &str) -> Result<String, Fault> {
    let program = labelled(alloc, source)?;
    match points_text(alloc, program.points().as_slice()) {
        Ok(text) => Ok(text),
        Err(NoMemory) => Err(Fault::OutOfMemory),
    }
}

fn see_annotations(
    rt: &impl Abort,
    alloc: Global,
    source: &str,
    wanted: &str,
) -> Result<(), Fault> {
    let found = annotations(alloc, source)?;
    assert_eq!(rt; found.as_str(), wanted, "{source}");
    Ok(())
}

const OF_ARMS: &str = "0 start
16 after L0
42 arm L1
43 arm ends
48 arm L2
53 arm ends
";

const OF_DO_LOOP: &str = "0 start
16 after L0
60 do
66 arm L1
72 arm ends, else L2
73 do ends
79 condition
80 again L3
82 after L4
";

const OF_WHILE_BOTH: &str = "0 start
16 after L0
64 condition
65 true L1, false L2
69 arm L3
80 body ends, then L4
";

const OF_RING: &str = "0 start
202 after L0
287 after L1
407 after L2
447 arm L3
461 after L4
484 arm ends, else L5
494 after L6
537 after L7
584 arm L8
594 arm ends, else L9
642 after L10
662 after L11
673 arm L12
684 after L13
703 body ends, then L14
";

#[test]
fn labels_have_their_places(rt: HostRuntime) -> Result<(), Fault> {
    let alloc = rt.alloc();
    see_annotations(&rt, alloc, ARMS, OF_ARMS)?;
    see_annotations(&rt, alloc, DO_LOOP, OF_DO_LOOP)?;
    see_annotations(&rt, alloc, WHILE_BOTH, OF_WHILE_BOTH)?;
    see_annotations(&rt, alloc, RING, OF_RING)
}
