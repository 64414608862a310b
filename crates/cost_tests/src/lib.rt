//! Tests of the costs of object code.
#![tactic(auto)]

#[cfg(test)]
mod ways;
