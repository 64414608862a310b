//! How scalars are held in memory, and the operators on two values.

/// How a scalar is held. Each is read as two bytes.
#[derive(Clone, Copy)]
pub enum Held {
    /// One byte, extended by zeros.
    U8,
    /// One byte, extended by its sign.
    I8,
    /// Two bytes, the low one first.
    W16,
}

/// How the scalars of a list are held, in order.
pub type HeldList = Vec<Held>;

/// An operator on two values.
#[derive(Clone, Copy)]
pub enum CmOp {
    /// The sum, modulo.
    Add,
    /// The difference, modulo.
    Sub,
    /// The product of the low bytes.
    Mul,
    /// The quotient of the low bytes.
    Div,
    /// The remainder of the low bytes.
    Rem,
    And,
    Or,
    Xor,
    /// 1 where both are equal, else 0. The other comparisons answer in this way too.
    Eq,
    Ne,
    /// Less, as signed numbers.
    LtS,
    /// Less, as unsigned numbers.
    LtU,
    /// Less or equal, as signed numbers.
    LeS,
    /// Less or equal, as unsigned numbers.
    LeU,
}
