//! ERTL to LTL: places for virtual registers, frames of cells along call paths, and graphs over the
//! places.
#![tactic(auto)]

pub mod allocation;
pub mod frames;
mod named;
pub mod plainest;
pub mod renaming;

pub use allocation::{Allocation, Spot, Spots};
pub use frames::{Bases, Firsts, place_frames};
pub use plainest::one_cell_each;
pub use renaming::{rename, to_ltl};
