//! Tests that join several crates of the compiler, from the text of a source on.
#![tactic(auto)]

#[cfg(test)]
mod labels;
#[cfg(test)]
mod layouts;
#[cfg(test)]
mod limits;
#[cfg(test)]
mod meanings;
#[cfg(test)]
mod names;
#[cfg(test)]
mod sources;
#[cfg(test)]
mod trees;
#[cfg(test)]
mod types;
