//! Tests of the crates that all others stand on: files and outputs, the lists of an object, and the order of calls.
#![tactic(auto)]

#[cfg(test)]
mod calls;
#[cfg(test)]
mod lists;
#[cfg(test)]
mod outside;
