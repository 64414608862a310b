//! What can be wrong with the texts of an object.
ghost use Rattle.std.specs.Prelude.{◌≡◌};
ghost use Rattle.object_hex.specs.declared.reading.faults.HexError.TheVariants as Hex;
ghost use Rattle.object_hex.specs.declared.reading.faults.MapError.TheVariants as Map;

use cerco_base::NoMemory;
use std::alloc::AllocError;
use thiserror::Error;

/// What is wrong with a line of a hex text. Where several kinds fit one line, the first of them here
/// counts, but for `After`, which comes before all others.
#[derive(Clone, Copy, Debug, PartialEq, Eq, Error)]
pub enum HexKind {
    /// It isn't `:` and pairs of hex digits, as many as the first pair says.
    #[error("it has not the form of a record")]
    Form,
    /// The bytes of the record don't sum to 0 modulo 256.
    #[error("its bytes do not sum to 0")]
    Sum,
    /// The type isn't 00, 01 or 04.
    #[error("its type is none of 00, 01 and 04")]
    Type,
    /// An extended linear address record whose address isn't 0.
    #[error("its upper address is not 0")]
    Upper,
    /// An end of file record with data bytes.
    #[error("it ends the file and has data")]
    End,
    /// A data record with a byte past address FFFFH.
    #[error("it has a byte past FFFFH")]
    Range,
    /// A data record with a byte at an address that has one already.
    #[error("it gives a byte that was given before")]
    Twice,
    /// A line behind the end of file record.
    #[error("it stands behind the end of the file")]
    After,
    /// There is no end of file record: the line would stand behind the last one.
    #[error("it is missing: the end of the file")]
    NoEnd,
}

/// The first bad line of a hex text.
#[derive(Clone, Copy, Debug, PartialEq, Eq)]
pub struct HexFault {
    /// The number of the line, counted from 1.
    pub line: u32,
    /// What is wrong with it.
    pub kind: HexKind,
}

/// The first bad line of a text of label addresses.
#[derive(Clone, Copy, Debug, PartialEq, Eq)]
pub struct MapFault {
    /// The number of the line, counted from 1.
    pub line: u32,
}

/// Why a hex text wasn't read.
#[derive(Clone, Copy, Debug, PartialEq, Eq, Error)]
pub enum HexError {
    /// It is no hex text.
    #[error("it is no hex text")]
    Fault(HexFault),
    /// There was no memory for its code.
    #[error("out of memory")]
    OutOfMemory,
}

/// Why a text of label addresses wasn't read.
#[derive(Clone, Copy, Debug, PartialEq, Eq, Error)]
pub enum MapError {
    /// It is no such text.
    #[error("it is no text of label addresses")]
    Fault(MapFault),
    /// There was no memory for the addresses.
    #[error("out of memory")]
    OutOfMemory,
}

impl From<AllocError> for HexError {
    ghost from_gives = { λ _ error. error ≡ Hex.OutOfMemory };

    fn from(_: AllocError) -> Self {
        HexError::OutOfMemory
    }
}

impl From<NoMemory> for HexError {
    ghost from_gives = { λ _ error. error ≡ Hex.OutOfMemory };

    fn from(_: NoMemory) -> Self {
        HexError::OutOfMemory
    }
}

impl From<AllocError> for MapError {
    ghost from_gives = { λ _ error. error ≡ Map.OutOfMemory };

    fn from(_: AllocError) -> Self {
        MapError::OutOfMemory
    }
}

impl From<NoMemory> for MapError {
    ghost from_gives = { λ _ error. error ≡ Map.OutOfMemory };

    fn from(_: NoMemory) -> Self {
        MapError::OutOfMemory
    }
}
