//! Why a program has no order of calls.
ghost use Rattle.std.specs.Prelude.{◌≡◌};
ghost use Rattle.call_graph.specs.declared.faults.OrderFault.TheVariants as Fault;

use cerco_base::NoMemory;
use std::alloc::{AllocError, AllocFailed};
use thiserror::Error;

/// Why a program has no order of calls.
#[derive(Clone, Copy, Debug, PartialEq, Eq, Error)]
pub enum OrderFault {
    /// This function is on a cycle of calls.
    #[error("function {0} is on a cycle of calls")]
    Cycle(u32),
    /// There was no memory for the order.
    #[error("out of memory")]
    OutOfMemory,
}

impl From<AllocError> for OrderFault {
    ghost from_gives = { λ _ fault. fault ≡ Fault.OutOfMemory };

    fn from(_: AllocError) -> Self {
        OrderFault::OutOfMemory
    }
}

impl<T: Drop> From<AllocFailed<T>> for OrderFault {
    ghost from_gives = { λ _ fault. fault ≡ Fault.OutOfMemory };

    fn from(_: AllocFailed<T>) -> Self {
        OrderFault::OutOfMemory
    }
}

impl From<NoMemory> for OrderFault {
    ghost from_gives = { λ _ fault. fault ≡ Fault.OutOfMemory };

    fn from(_: NoMemory) -> Self {
        OrderFault::OutOfMemory
    }
}
