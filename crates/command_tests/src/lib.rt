//! Tests of the whole program: what `cerco` prints and writes for its words and files, and its exit status.
#![tactic(auto)]

#[cfg(test)]
mod costs;
#[cfg(test)]
mod events;
#[cfg(test)]
mod faults;
#[cfg(test)]
mod hostile;
#[cfg(test)]
mod meanings;
#[cfg(test)]
mod objects;
#[cfg(test)]
mod refusals;
#[cfg(test)]
mod seeing;
#[cfg(test)]
mod sources;
#[cfg(test)]
mod words;
