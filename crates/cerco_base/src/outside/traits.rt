//! The world outside the program, as those who call it see it: files under names, and outputs.
ghost use Rattle.std.specs.Prelude.{◌≡◌};
ghost use Rattle.cerco_base.specs.Outside.IoStates.{FilesState, SinkState};
ghost use Rattle.cerco_base.specs.Outside.IoCalls.{ReadsAt, Creates, AppendsSome, PutsSome};

use crate::outside::faults::{IoFault, ReadFault};

/// Files under names.
///
/// An implementation may let its contents be known to proofs or not. It counts its faults, keeps the name of the last
/// one, and answers that a call failed only where the count rose in that call.
pub trait Files {
    ghost state: { Self → FilesState };

    /// Copies bytes of the file from the offset `at` on to the front of `into`, and gives their number: at least one
    /// where `into` isn't empty and the file goes on. No file is changed.
    fn read_at(&mut self, name: &str, at: u64, into: &mut [u8]) -> Result<usize, ReadFault>
        ensures { ReadsAt (state self.old) (state self.new) name.now at into.new result };

    /// Makes the name stand for an empty file.
    fn create(&mut self, name: &str) -> Result<(), IoFault>
        ensures { Creates (state self.old) (state self.new) name.now result };

    /// Adds bytes at the file's end, at least one where there are any, and gives their number. A file that isn't
    /// there is made first.
    fn append(&mut self, name: &str, bytes: &[u8]) -> Result<usize, IoFault>
        ensures { AppendsSome (state self.old) (state self.new) name.now bytes.now result };
}

/// An output that takes bytes.
pub trait Sink {
    ghost state: { Self → SinkState };

    /// Adds bytes at the end, at least one where there are any, and gives their number.
    fn put(&mut self, bytes: &[u8]) -> Result<usize, IoFault>
        ensures { PutsSome (state self.old) (state self.new) bytes.now result };
}
