//! What the bytes of a source determine. Each function does nothing, and ensures a law.
ghost use Rattle.cerco_pipeline.specs.Laws.{ProgramIsUnique, NotBoth, FirstReasonIsUnique};

/// A source has one program at most, but for the order of its calls.
pub fn program_is_unique()
    ensures { ProgramIsUnique }
{}

/// No source has both a program and a first reason against it.
pub fn not_both()
    ensures { NotBoth }
{}

/// There is one first reason at most.
pub fn first_reason_is_unique()
    ensures { FirstReasonIsUnique }
{}
