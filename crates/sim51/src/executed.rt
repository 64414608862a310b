//! What an instruction comes to besides what it changes.
ghost use Rattle.std.specs.Prelude.{◌≡◌, None};

use cerco_base::Port;

/// Where the machine goes on after an instruction, and the port that it read and wrote.
#[derive(Clone, Copy)]
pub(crate) struct Executed {
    pub(crate) pc: u16,
    pub(crate) read: Option<(Port, u8)>,
    pub(crate) write: Option<(Port, u8)>,
}

impl Executed {
    /// The machine goes on at this address. No port was read or written.
    #[inline(always)]
    pub(crate) fn at(pc: u16) -> Executed
        ensures { result ≡ record { pc = pc; read = None; write = None } }
    {
        Executed::reading(pc, None)
    }

    /// The machine goes on at this address, and maybe read this port. None was written.
    #[inline(always)]
    pub(crate) fn reading(pc: u16, read: Option<(Port, u8)>) -> Executed
        ensures { result ≡ record { pc = pc; read = read; write = None } }
    {
        Executed {
            pc,
            read,
            write: None,
        }
    }
}
