//! C's memory, blocks of typed cells, as it is held in a flat external RAM: definitions and laws alone, for the pass that gives
//! places their addresses.
#![tactic(auto)]
