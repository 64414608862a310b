//! Laws of the assembly language. Each function does nothing, and ensures a law.
ghost use Rattle.asm51.specs.Laws.{TargetsAreFound, LabelsAreMarked, OneIsRelaxed, RelaxedReaches, FormsAreOfJumps, LongIsLongest, LongStays, StraightCodeRuns};

/// In well formed items each jump, test and call leads to what it names.
pub fn targets_are_found()
    ensures { TargetsAreFound }
{}

/// In well formed items each label has the address of its one mark.
pub fn labels_are_marked()
    ensures { LabelsAreMarked }
{}

/// Each program has one relaxed layout.
pub fn one_is_relaxed()
    ensures { OneIsRelaxed }
{}

/// In the relaxed layout each jump reaches its target.
pub fn relaxed_reaches()
    ensures { RelaxedReaches }
{}

/// In the relaxed layout the jumps and the tests have forms, and no other items.
pub fn forms_are_of_jumps()
    ensures { FormsAreOfJumps }
{}

/// No layout is longer than the one with long jumps.
pub fn long_is_longest()
    ensures { LongIsLongest }
{}

/// In the layout with long jumps no jump grows.
pub fn long_stays()
    ensures { LongStays }
{}

/// Straight-line code runs to its end.
pub fn straight_code_runs()
    ensures { StraightCodeRuns }
{}
