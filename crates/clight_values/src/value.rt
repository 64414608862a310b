//! The values of expressions, and the blocks in which variables live.

/// A byte of a live block, or the end of the block.
#[derive(Clone, Copy)]
pub struct Place {
    /// Where the block stands among the live ones, the oldest first.
    pub slot: usize,
    /// The number of the call that made the block. The globals are those of call 0.
    pub call: u64,
    /// The offset in the block, in bytes.
    pub offset: u32,
}

/// A value of a scalar type.
#[derive(Clone, Copy)]
pub enum Value {
    /// An integer, by the bits of its type.
    Integer(u32),
    /// The null pointer.
    Null,
    /// A pointer to a place.
    Pointer(Place),
}

/// A live block: a variable, with the call that made it.
#[derive(Clone, Copy)]
pub struct Block {
    /// The number of the call.
    pub call: u64,
    /// Where its first byte stands among those of all live blocks.
    pub begin: usize,
    /// How many bytes it has.
    pub size: u32,
}
