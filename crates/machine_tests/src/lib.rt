//! Tests of the instruction set and of the machine, from the manual: lines of a listing, and programs whose outcome was worked out by
//! hand.
#![tactic(auto)]

#[cfg(test)]
mod arithmetic;
#[cfg(test)]
mod halting;
#[cfg(test)]
mod jumps;
#[cfg(test)]
mod lines;
#[cfg(test)]
mod moves;
#[cfg(test)]
mod ports;
#[cfg(test)]
mod programs;
