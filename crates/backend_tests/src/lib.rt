//! Tests of the languages between the source and the object: the places of the calling convention, frames of cells, and the layout
//! of the last language.
#![tactic(auto)]

#[cfg(test)]
mod convention;
#[cfg(test)]
mod dead_operations;
#[cfg(test)]
mod frames;
#[cfg(test)]
mod jumps;
#[cfg(test)]
mod lists;
#[cfg(test)]
mod live_sets;
#[cfg(test)]
mod readers;
pub mod setters;
