//! RTLabs: a control flow graph for each function, with one operation a node. Its operations work on the function's variables and on
//! temporaries, which are numbered by the depth of the evaluation stack.

use crate::operators::{CmOp, Held, HeldList};
use cerco_base::{CallOrder, Label, StartBytes};

/// What a node does. Variables, temporaries, functions and nodes are given by number.
#[derive(Clone, Copy)]
pub enum RtOp {
    /// The temporary becomes the number.
    Const(u32, u16),
    /// The temporary becomes the variable's value.
    Get {
        temporary: u32,
        variable: u32,
    },
    /// The variable becomes the temporary's value, of which it keeps what it holds.
    Put {
        variable: u32,
        temporary: u32,
    },
    /// The temporary becomes its negative.
    Neg(u32),
    /// The temporary becomes its complement.
    Not(u32),
    /// The temporary becomes the part of it that is held so.
    Narrow(Held, u32),
    /// The left temporary becomes the operator's value.
    Bin {
        operator: CmOp,
        left: u32,
        right: u32,
    },
    /// The temporary is shifted left by so many bits.
    Shl(u8, u32),
    /// The temporary is shifted right by so many bits. It keeps its sign where the flag is true.
    Shr(u8, bool, u32),
    /// The temporary becomes what is held in external RAM at its address.
    Load(Held, u32),
    /// The value is stored in external RAM at the address.
    Store {
        held: Held,
        address: u32,
        value: u32,
    },
    /// The temporary becomes the byte that port 1 shows.
    ReadPort(u32),
    /// The temporary's low byte is written to port 1.
    WritePort(u32),
    /// The temporary is handed over as the argument that begins at this argument byte.
    Arg {
        held: Held,
        first_byte: u32,
        temporary: u32,
    },
    /// The function is called.
    Call(u32),
    /// The temporary becomes the result of the last call, which is held so.
    Result(Held, u32),
    /// The label is passed.
    Label(Label),
    /// The run goes on at the first node where the temporary isn't 0, else at the second.
    Test {
        temporary: u32,
        on_true: u32,
        on_false: u32,
    },
    /// The function returns.
    Return,
    /// The function returns with the temporary as its result.
    ReturnValue(u32),
}

/// A node: its operation, and the node that comes next, if any.
#[derive(Clone, Copy)]
pub struct RtNode {
    pub op: RtOp,
    pub next: Option<u32>,
}

/// The nodes of a graph, by number.
pub type RtNodes = Vec<RtNode>;

/// A function.
#[derive(Drop)]
pub struct RtFunction {
    /// How each variable is held, the parameters first.
    pub held: HeldList,
    /// How many parameters it has.
    pub params: u32,
    /// How its result is held, if it has one.
    pub result: Option<Held>,
    /// The node at which it begins.
    pub entry: u32,
    pub nodes: RtNodes,
}

/// Functions, by number.
pub type RtFunctions = Vec<RtFunction>;

/// A program.
#[derive(Drop)]
pub struct RtLabs {
    pub functions: RtFunctions,
    /// The functions in the order of their calls.
    pub calls: CallOrder,
    /// The number of `main`.
    pub main: u32,
    /// The bytes that external RAM has at first, with their addresses.
    pub start: StartBytes,
}
