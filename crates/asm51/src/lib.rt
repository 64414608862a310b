//! The assembly language of the MCS-51 in which jumps name places instead of addresses: its items, and the forms and
//! addresses that they get in code memory.
#![tactic(auto)]

pub mod items;
pub mod laws;
pub mod layouts;
pub mod lists;

pub use items::{Asm, AsmItem};
pub use layouts::{Form, JumpLayout};
pub use lists::{FormList, NumberList};
