//! The texts of an object: its code in Intel's hexadecimal object format, and the addresses of its
//! labels.
#![tactic(auto)]

mod digits;
mod hex_text;
mod map_text;
mod reading;

pub use hex_text::write_hex;
pub use map_text::write_map;
pub use reading::{HexError, HexFault, HexKind, MapError, MapFault, read_hex, read_map};
