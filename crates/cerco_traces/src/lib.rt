//! The framework of runs that all languages of the compiler share: transition systems, runs within bounds, arrival at a
//! stop, trace preservation and its composition, the shape of the headline, and soundly labelled graphs. It has
//! definitions and lemmas alone, and no code.
#![tactic(auto)]
