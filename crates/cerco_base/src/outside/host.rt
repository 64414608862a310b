//! The files and the standard output of the process: the trusted edge, a few lines over std. They let nothing be known
//! of what they hold, and count each fault.
ghost use Rattle.std.specs.Prelude.{◌≡◌, ◌≤◌, IfOk, length};

use crate::outside::faults::{IoFault, ReadFault};
use crate::outside::traits::{Files, Sink};
use std::alloc::Global;
use std::fs::{File, OpenOptions};
use std::io::{self, ErrorKind, Write};
use std::os::unix::fs::FileExt;

/// The files of the process.
#[derive(Drop)]
pub struct HostFiles {
    system: HostRuntime,
    alloc: Global,
    faults: u64,
    last_fault: String,
}

fn read_some(system: &HostRuntime, name: &str, at: u64, into: &mut [u8]) -> io::Result<usize>
    ensures { IfOk result (λ n. n ≤ length into.new) }
{
    File::open(system, name)?.read_at(into, at)
}

fn append_some(system: &HostRuntime, name: &str, bytes: &[u8]) -> io::Result<usize>
    ensures { IfOk result (λ n. n ≤ length bytes.now) }
{
    let mut how = OpenOptions::new();
    how.append(true).create(true);
    how.open(system, name)?.write(bytes)
}

impl HostFiles {
    ghost use Rattle.cerco_base.specs.Outside.Host.{host_files_state};
    ghost use Rattle.cerco_base.specs.Outside.IoFaults.{HasCause};
    ghost use Rattle.cerco_base.specs.declared.outside.faults.IoFault.TheVariants as Io;
    ghost use Rattle.std.specs.Prelude.{Err, ℕ};

    /// The files of this process, through the runtime that `main` is given. No fault so far.
    pub fn new(alloc: Global, system: HostRuntime) -> HostFiles
        ensures { (host_files_state result).faults ≡ 0 }
    {
        HostFiles {
            system,
            alloc,
            faults: 0,
            last_fault: String::new(alloc),
        }
    }

    // One more fault, at this name.
    fn fail(&mut self, name: &str) -> IoFault
        ensures { HasCause {T = ℕ} Io.Failed name.now (host_files_state self.new).last_fault self.old.faults self.new.faults (Err result) }
    {
        match String::from_str(self.alloc, name) {
            Ok(kept) => self.last_fault = kept,
            Err(_) => return IoFault::OutOfMemory,
        }
        self.faults = self.faults.saturating_add(1);
        IoFault::Failed
    }
}

impl Files for HostFiles {
    ghost use Rattle.cerco_base.specs.Outside.Host.{host_files_state};

    ghost state = { host_files_state };

    fn read_at(&mut self, name: &str, at: u64, into: &mut [u8]) -> Result<usize, ReadFault> {
        match read_some(&self.system, name, at, into) {
            Ok(count) => Ok(count),
            Err(error) if error.kind() == ErrorKind::NotFound => Err(ReadFault::Missing),
            Err(_) => match self.fail(name) {
                IoFault::Failed => Err(ReadFault::Failed),
                IoFault::OutOfMemory => Err(ReadFault::OutOfMemory),
            },
        }
    }

    fn create(&mut self, name: &str) -> Result<(), IoFault> {
        match File::create(&self.system, name) {
            Ok(_) => Ok(()),
            Err(_) => Err(self.fail(name)),
        }
    }

    fn append(&mut self, name: &str, bytes: &[u8]) -> Result<usize, IoFault> {
        match append_some(&self.system, name, bytes) {
            Ok(count) if count > 0 || bytes.is_empty() => Ok(count),
            _ => Err(self.fail(name)),
        }
    }
}

/// The standard output of the process.
#[derive(Drop)]
pub struct HostOut {
    system: HostRuntime,
    faults: u64,
}

impl HostOut {
    ghost use Rattle.cerco_base.specs.Outside.Host.{host_out_state};

    /// The standard output of this process, through the runtime that `main` is given. No fault so far.
    pub fn new(system: HostRuntime) -> HostOut
        ensures { (host_out_state result).faults ≡ 0 }
    {
        HostOut { system, faults: 0 }
    }
}

impl Sink for HostOut {
    ghost use Rattle.cerco_base.specs.Outside.Host.{host_out_state};

    ghost state = { host_out_state };

    fn put(&mut self, bytes: &[u8]) -> Result<usize, IoFault> {
        match self.system.write_some(bytes) {
            Ok(count) if count > 0 || bytes.is_empty() => Ok(count),
            _ => {
                self.faults = self.faults.saturating_add(1);
                Err(IoFault::Failed)
            }
        }
    }
}
