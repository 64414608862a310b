//! What can go wrong outside the program.
ghost use Rattle.std.specs.Prelude.{◌≡◌};
ghost use Rattle.cerco_base.specs.declared.outside.faults.IoFault.TheVariants as Io;
ghost use Rattle.cerco_base.specs.declared.outside.faults.ReadFault.TheVariants as Read;

use std::alloc::AllocError;
use thiserror::Error;

/// Why a file or an output couldn't be written.
#[derive(Clone, Copy, Debug, PartialEq, Eq, Error)]
pub enum IoFault {
    /// The outside refused the call, and its count of faults rose.
    #[error("the call failed")]
    Failed,
    /// There was no memory for the call.
    #[error("out of memory")]
    OutOfMemory,
}

/// Why a file couldn't be read.
#[derive(Clone, Copy, Debug, PartialEq, Eq, Error)]
pub enum ReadFault {
    /// No file has this name.
    #[error("there is no such file")]
    Missing,
    /// The outside refused the call, and its count of faults rose.
    #[error("the call failed")]
    Failed,
    /// There was no memory for the call.
    #[error("out of memory")]
    OutOfMemory,
}

impl From<AllocError> for IoFault {
    ghost from_gives = { λ _ fault. fault ≡ Io.OutOfMemory };

    fn from(_: AllocError) -> Self {
        IoFault::OutOfMemory
    }
}

impl From<AllocError> for ReadFault {
    ghost from_gives = { λ _ fault. fault ≡ Read.OutOfMemory };

    fn from(_: AllocError) -> Self {
        ReadFault::OutOfMemory
    }
}
