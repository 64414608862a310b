//! Tests of the whole compiler: sources, their objects and their costs.
#![tactic(auto)]

pub mod lengths;
#[cfg(test)]
mod operators;
#[cfg(test)]
mod programs;
#[cfg(test)]
mod rows;
#[cfg(test)]
mod runs;
