//! The parts of a program that have labels of their own.
ghost use Rattle.std.specs.Prelude.{◌≡◌, ◌∷◌, []};
ghost use Rattle.clight_syntax.specs.Annotations.{labels_of};
ghost use Rattle.cost_labels.specs.Code.Parts.{piece_of};

use cerco_base::Label;
use clight_syntax::Piece;

/// A part of a program that has a label of its own.
#[derive(Clone, Copy)]
pub enum Part {
    /// What follows a place.
    After,
    /// An arm or a body, which begins here.
    Arm,
    /// The missing arm of an `if` that ends here.
    MissingArm,
    /// What follows a loop whose body ends here.
    AfterBody,
    /// The way back of a `do` whose condition ends here.
    Repeat,
}

impl Part {
    /// The annotation of its label.
    pub fn piece(self, label: Label) -> Piece
        ensures value { result ≡ piece_of self label }
        ensures one { labels_of result ≡ label ∷ [] }
    {
        match self {
            Part::After => Piece::After(label),
            Part::Arm => Piece::ArmOpen(label),
            Part::MissingArm => Piece::ThenClose(label),
            Part::AfterBody => Piece::BodyClose(label),
            Part::Repeat => Piece::CondRepeat(label),
        }
    }
}
