//! The annotations of a source and where they stand.
ghost use Rattle.std.specs.Prelude.{◌≡◌, ◌++◌, ◌∷◌, [], OnOk, OnErr};

use cerco_base::{Label, NoMemory};
use std::alloc::Global;
use std::marker::Model;

/// An annotation of the source. Its text is C (ISO/IEC 9899:1999); with those of the whole source it adds the cost of each
/// label to the cost variable where the label is passed.
#[derive(Clone, Copy)]
pub enum Piece {
    /// `unsigned long __cost=S;` at the start of the text, with the cost S of the program's start.
    Start,
    /// `__cost+=C;` behind the `{` of a function's body, and behind a call or a `do`.
    After(Label),
    /// `{__cost+=C;` before an arm of `if` and before the body of `while` or `for`.
    ArmOpen(Label),
    /// `}` behind each arm of an `if` with `else`.
    ArmClose,
    /// `}else{__cost+=C;}` behind the arm of an `if` without `else`, with the cost of the missing arm.
    ThenClose(Label),
    /// `}__cost+=C;` behind the body of `while` or `for`, with the cost behind the loop.
    BodyClose(Label),
    /// `{` before the body of `do`.
    DoOpen,
    /// `}` behind the body of `do`.
    DoClose,
    /// `((` before the left operand of `&&` or `||`, and before the condition of `do`.
    CondOpen,
    /// `)?(__cost+=T,1):(__cost+=F,0))` behind that left operand, with the costs where it is true and where it is false.
    CondBoth(Label, Label),
    /// `)?(__cost+=C,1):0)` behind the condition of `do`, with the cost of the way back to the body.
    CondRepeat(Label),
}

/// A place in a source at which an annotation stands.
#[derive(Clone, Copy)]
pub struct Point {
    /// The annotation stands before the byte with this offset, counted from 0. At the text's
    /// length it stands at the end.
    pub at: u32,
    /// The annotation.
    pub piece: Piece,
}

/// The annotations of a source, in the order in which they stand in the annotated text. Contracts
/// see them as the list of the points.
#[derive(Drop)]
pub struct Points {
    points: Vec<Point>,
}

impl Model for Points {
    ghost use Rattle.std.specs.Prelude.{List};
    ghost use Rattle.clight_syntax.specs.declared.points.Point.{Point};

    ghost Value = { List Point };

    ghost view = { λ p. p.points.items };
}

impl Points {
    /// No annotations.
    pub fn new(alloc: Global) -> Points
        ensures { result ≡ [] }
    {
        Points {
            points: Vec::new(alloc),
        }
    }

    /// Adds a point at the end. When out of memory, the list is unchanged.
    pub fn push(&mut self, point: Point) -> Result<(), NoMemory>
        ensures added { OnOk result (self.new ≡ self.old ++ point ∷ []) }
        ensures same { OnErr result (self.new ≡ self.old) }
    {
        self.points.push(point)?;
        Ok(())
    }

    /// Its points.
    pub fn as_slice(&self) -> &[Point]
        ensures { result.now ≡ self.now }
    {
        self.points.as_slice()
    }
}
