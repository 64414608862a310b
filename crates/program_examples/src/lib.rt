//! A program written by hand that is a checked one: an example alone, whose conditions are computed. The crate has no call.
#![tactic(auto)]
