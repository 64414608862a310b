//! What is promised of sound programs. The functions do nothing: their contracts are the laws, which are proved.
ghost use Rattle.clight_check.specs.Laws.{NotBoth, ReasonIsUnique, TreeIsUnique};

/// No program is both sound and unsound.
pub fn not_both()
    ensures { NotBoth }
{}

/// An unsound program has one first reason.
pub fn reason_is_unique()
    ensures { ReasonIsUnique }
{}

/// A sound program has one typed tree with its layout, but for the order of its calls.
pub fn tree_is_unique()
    ensures { TreeIsUnique }
{}
