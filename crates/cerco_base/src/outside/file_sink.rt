//! An output over one file.
ghost use Rattle.cerco_base.specs.Outside.IoStates.{file_sink_state};

use crate::outside::faults::IoFault;
use crate::outside::traits::{Files, Sink};

/// The output that appends to one file of `files`. Its bytes are those under the name, its faults are those of the
/// files, and the other files stand beside it.
#[derive(Drop)]
pub struct FileSink<'a, F: Files> {
    pub files: &'a mut F,
    pub name: &'a str,
}

impl<F: Files> Sink for FileSink<'_, F> {
    ghost state = { λ s. file_sink_state (F.state s.files.now) s.name.now s.files.ghost_name };

    fn put(&mut self, bytes: &[u8]) -> Result<usize, IoFault> {
        self.files.append(self.name, bytes)
    }
}
