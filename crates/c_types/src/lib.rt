//! The types of C that the compiler's profile has (ISO/IEC 9899:1999, 6.2.5), their sizes, and the conversions between
//! integer types.
#![tactic(auto)]

pub mod integers;
pub mod sizes;
pub mod structs;
pub mod types;

pub use integers::{IntegerType, Size};
pub use structs::{MemberType, StructType};
pub use types::Ty;
