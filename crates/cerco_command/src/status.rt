//! How the program ends.
ghost use Rattle.std.specs.Prelude.{◌≡◌};

use cerco_base::IoFault;

/// The exit status of the program.
#[derive(Clone, Copy, Debug, PartialEq, Eq)]
pub enum Status {
    /// 0: the command is done.
    Done,
    /// 0 as well: the meaning of a source is told. This is a status of its own since the bytes of a source and a script don't determine the
    /// costs that are told: these depend on the code that the back end makes, of which the contracts allow more than one.
    Told,
    /// 1: a file that the command reads isn't there.
    NoFile,
    /// 2: the words are no command.
    Usage,
    /// 3: the source is no sound program, for a reason that its bytes determine.
    Refused,
    /// 3 as well: the source is sound, and its program needs more cells or more code than the machine has. This is a status of its own
    /// since the bytes of a source don't determine what its program needs: that depends on the code that the back end makes of it, of
    /// which the contracts allow more than one. So it is no firm answer, as `Refused` is.
    NoRoom,
    /// 4: a call of the files failed.
    FileFault,
    /// 5: a call of the output failed.
    OutFault,
    /// 6: a file is too long, or isn't a text of an object.
    BadInput,
    /// 7: the start of an object, or one of its labels, has no single cost.
    Uncosted,
    /// 8: the reserved opcode is met.
    Reserved,
    /// 9: there was no memory.
    NoMemory,
}

impl Status {
    ghost use Rattle.cerco_command.specs.Status.{code_of, status_of};

    /// That of a fault of the output.
    pub fn of_fault(fault: IoFault) -> Status
        ensures { result ≡ status_of fault }
    {
        match fault {
            IoFault::Failed => Status::OutFault,
            IoFault::OutOfMemory => Status::NoMemory,
        }
    }

    /// Its number, which the program ends with.
    pub fn code(self) -> u8
        ensures { result ≡ code_of self }
    {
        match self {
            Status::Done | Status::Told => 0,
            Status::NoFile => 1,
            Status::Usage => 2,
            Status::Refused | Status::NoRoom => 3,
            Status::FileFault => 4,
            Status::OutFault => 5,
            Status::BadInput => 6,
            Status::Uncosted => 7,
            Status::Reserved => 8,
            Status::NoMemory => 9,
        }
    }
}
