//! What a checked program is to a compiler: definitions and laws. They speak of the finished program, by the numbers of its variables
//! and functions, with labels or without. The function does nothing: its contract is a law, which is proved.
#![tactic(auto)]

ghost use Rattle.clight_programs.specs.Labels.{LabelsAreInOrder};

/// The labels of a labelled program are 0, 1, 2 and so on along its tree.
pub fn labels_in_order()
    ensures { LabelsAreInOrder }
{}
