//! The structs of a program (ISO/IEC 9899:1999, 6.7.2.1).

use crate::types::Ty;

/// A member of a struct.
#[derive(Drop)]
pub struct MemberType {
    /// The number of its name.
    pub name: u32,
    pub ty: Ty,
    /// Where it begins in the struct, in bytes.
    pub offset: u32,
}

/// A struct.
#[derive(Drop)]
pub struct StructType {
    /// The number of its tag's name.
    pub tag: u32,
    pub members: Vec<MemberType>,
    /// How many bytes it has.
    pub size: u32,
}
