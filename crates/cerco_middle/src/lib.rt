//! The two languages between the checked source and byte operations: Cminor, structured statements over a flat memory, and
//! RTLabs, control flow graphs of the same operations. It has their programs, what these mean, which of them are well
//! formed, how long their code can become and how many bytes of registers their functions need. There is no pass here.
#![tactic(auto)]

pub mod cminor;
pub mod operators;
pub mod rtlabs;

pub use cminor::{CmArgs, CmCond, CmExpr, CmFunction, CmFunctions, CmList, CmStmt, Cminor};
pub use operators::{CmOp, Held, HeldList};
pub use rtlabs::{RtFunction, RtFunctions, RtLabs, RtNode, RtNodes, RtOp};
