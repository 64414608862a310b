//! The object of an assembly program does on the machine what the program means.
#![tactic(auto)]

ghost use Rattle.objects51.specs.Preserved.{ObjectPreserves};

/// In its relaxed layout the object of a selection preserves the traces of the assembly program. The function does nothing, and ensures
/// this law.
pub fn object_preserves()
    ensures { ObjectPreserves }
{}
