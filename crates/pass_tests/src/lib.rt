//! Tests of the passes, from the text of a source on.
#![tactic(auto)]

#[cfg(test)]
mod graphs;
#[cfg(test)]
mod machine;
#[cfg(test)]
mod runs;
#[cfg(test)]
mod sources;
#[cfg(test)]
mod words;
