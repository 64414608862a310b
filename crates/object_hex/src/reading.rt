//! The texts of an object, read back.

mod faults;
mod hex_reader;
mod image;
mod line;
mod map_reader;
mod record;

pub use faults::{HexError, HexFault, HexKind, MapError, MapFault};
pub use hex_reader::read_hex;
pub use map_reader::read_map;
