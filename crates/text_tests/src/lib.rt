//! Tests of the texts at both ends of the compiler: the tokens of a source, the generator's sources, the annotated
//! source, and the texts of an object.
#![tactic(auto)]

#[cfg(test)]
mod annotated;
#[cfg(test)]
mod objects;
#[cfg(test)]
mod read_back;
#[cfg(test)]
mod samples;
#[cfg(test)]
mod tokens_of_texts;
