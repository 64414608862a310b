//! What is promised of programs that pass the checker. The functions do nothing: their contracts are the laws, which are proved.
ghost use Rattle.checked_programs.specs.Laws.{WellTypedIsChecked, SoundIsChecked, LaidOutIsWithinLimits};

/// A well-typed program with right names is a checked one once it is laid out, whatever labels it gets.
pub fn well_typed_is_checked()
    ensures { WellTypedIsChecked }
{}

/// The program that a sound source is given is a checked one once it has its labels.
pub fn sound_is_checked()
    ensures { SoundIsChecked }
{}

/// A program with its layout is within the compiler's limits, whatever labels it gets.
pub fn laid_out_is_within_limits()
    ensures { LaidOutIsWithinLimits }
{}
