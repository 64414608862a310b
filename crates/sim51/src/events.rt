//! What a step shows.

use cerco_base::{Label, Port};

/// The events of a step, in this order. An instruction reads one port at most, and writes one.
#[derive(Clone, Copy)]
pub struct Events {
    /// The label that is passed, where one stands at the instruction's address.
    pub label: Option<Label>,
    /// The port whose pins are read, and the byte that they show.
    pub read: Option<(Port, u8)>,
    /// The port whose latch is written, and its new byte.
    pub write: Option<(Port, u8)>,
}

/// What a step came to.
#[derive(Clone, Copy)]
pub enum Step {
    /// An instruction was made, with these events.
    Went(Events),
    /// The machine stands at a jump to itself. Nothing has changed.
    Halted,
    /// The machine stands at A5H, the one opcode that stands for no instruction. Nothing has changed.
    Reserved,
}
