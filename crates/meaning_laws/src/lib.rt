//! Laws of the meaning of programs: the labels that are told are counted, a call of a checked program is entered without a fault, and plain
//! expressions have values. The functions do nothing: their contracts are the laws, which are proved.
#![tactic(auto)]

ghost use Rattle.meaning_laws.specs.Counting.{StopsAreCounted};
ghost use Rattle.meaning_laws.specs.Faultless.{CallsAreEntered, PlainHaveValues};

/// A run that stops at a label has passed exactly as many labels as it might, and any other run no more.
pub fn stops_are_counted()
    ensures { StopsAreCounted }
{}

/// Entering a call of a checked program is never a fault.
pub fn calls_are_entered()
    ensures { CallsAreEntered }
{}

/// A plain expression whose variables have values has a value.
pub fn plain_have_values()
    ensures { PlainHaveValues }
{}
