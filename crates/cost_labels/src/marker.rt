//! The labels that were given so far, and the annotations that name them.
ghost use Rattle.std.specs.Prelude.{◌≡◌, ◌++◌, ◌∷◌, [], ◌+◌, length, IfOk, OnOk};
ghost use Rattle.clight_syntax.specs.Annotations.{labels_of, labels_in, AreNumberedFrom, AreNumberedInOrder};
ghost use Rattle.clight_syntax.specs.Labelling.{point};
ghost use Rattle.cost_labels.specs.Code.Parts.{piece_of};
ghost use Rattle.clight_syntax.specs.declared.points.Piece.TheVariants as P;

use crate::parts::Part;
use cerco_base::{Label, NoMemory};
use clight_syntax::{Piece, Point, Points};
use std::alloc::Global;

/// The annotations so far, whose labels are numbered in order.
#[derive(Drop)]
pub struct Marker {
    /// The annotations.
    pub points: Points,
    /// How many labels they name.
    pub count: u32,
    ghost numbered: { AreNumberedInOrder (labels_in points) },
    ghost counted: { length (labels_in points) ≡ count },
}

// How many labels there are with those of an annotation.
fn count_with(count: u32, piece: Piece) -> u32
    requires { AreNumberedFrom count (labels_of piece) }
    ensures { result ≡ count + length (labels_of piece) }
{
    match piece {
        Piece::Start | Piece::ArmClose | Piece::DoOpen | Piece::DoClose | Piece::CondOpen => count,
        Piece::After(label)
        | Piece::ArmOpen(label)
        | Piece::ThenClose(label)
        | Piece::BodyClose(label)
        | Piece::CondRepeat(label) => label.0 as u32 + 1,
        Piece::CondBoth(_, on_false) => on_false.0 as u32 + 1,
    }
}

impl Marker {
    /// No annotations.
    pub fn new(alloc: Global) -> Marker
        ensures { result.points ≡ [] }
    {
        Marker {
            points: Points::new(alloc),
            count: 0,
        }
    }

    // The next label.
    fn next(&self) -> Result<Label, NoMemory>
        ensures { IfOk result (λ label. label.0 ≡ self.now.count) }
    {
        match u16::try_from(self.count) {
            Ok(number) => Ok(Label(number)),
            Err(_) => Err(NoMemory),
        }
    }

    /// Adds an annotation. Its labels are the next ones.
    pub fn add(&mut self, at: u32, piece: Piece) -> Result<(), NoMemory>
        requires { AreNumberedFrom self.old.count (labels_of piece) }
        ensures { OnOk result (self.new.points ≡ self.old.points ++ point at piece ∷ []) }
    {
        let count = count_with(self.count, piece);
        self.points.push(Point { at, piece })?;
        self.count = count;
        Ok(())
    }

    /// Gives the next label to a part of the program that begins or ends here.
    pub fn give(&mut self, at: u32, part: Part) -> Result<Label, NoMemory>
        ensures { IfOk result (λ label. self.new.points ≡ self.old.points ++ point at (piece_of part label) ∷ []) }
    {
        let label = self.next()?;
        self.add(at, part.piece(label))?;
        Ok(label)
    }

    /// Gives the labels after a left operand that ends here: where it is true, and where it is false.
    pub fn close_operand(&mut self, at: u32) -> Result<(Label, Label), NoMemory>
        ensures { IfOk result (λ labels. self.new.points ≡ self.old.points ++ point at (P.CondBoth labels.0 labels.1) ∷ []) }
    {
        let on_true = self.next()?;
        let on_false = match on_true.0.checked_add(1) {
            Some(number) => Label(number),
            None => return Err(NoMemory),
        };
        self.add(at, Piece::CondBoth(on_true, on_false))?;
        Ok((on_true, on_false))
    }
}
