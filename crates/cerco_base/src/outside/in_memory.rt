//! Files and an output in memory, whose calls can be told to fail by their numbers.
ghost use Rattle.std.specs.Prelude.{◌≡◌, ◌≤◌, ◌++◌, ◌∷◌, max, option_map, OnOk, OnErr, IfOk, None, List, ℕ, [], string_bytes};
ghost use Rattle.cerco_base.specs.Outside.IoFaults.{HasCause};
ghost use Rattle.cerco_base.specs.Outside.IoCalls.{ReadsAt, Creates, AppendsSome, PutsSome};
ghost use Rattle.cerco_base.specs.declared.outside.faults.IoFault.TheVariants as Io;
ghost use Rattle.cerco_base.specs.declared.outside.faults.ReadFault.TheVariants as Read;

use crate::no_memory::NoMemory;
use crate::outside::faults::{IoFault, ReadFault};
use crate::outside::file_store::Store;
use crate::outside::traits::{Files, Sink};
use std::alloc::Global;

/// Files in memory. The calls of [`Files`] are numbered from 0, and those that [`MemoryFiles::fail`] lists fail.
#[derive(Drop)]
pub struct MemoryFiles {
    store: Store,
    calls: u64,
    faults: u64,
    last_fault: String,
    failing: Vec<u64>,
    // how many bytes a call takes at most; 0 is taken as 1
    most: usize,
}

impl MemoryFiles {
    ghost use Rattle.cerco_base.specs.Outside.InMemory.{memory_files_state, counted, is_due, FailsWhereDue, CountsFilesCall, KeepsCounts};
    ghost use Rattle.cerco_base.specs.Outside.FileStore.{file_of, SetsFile, SameNames};

    /// No files, no call so far, and none that is to fail.
    pub fn new(alloc: Global) -> MemoryFiles
        ensures files { (q : List ℕ) → (memory_files_state result).file q ≡ None }
        ensures calls { result.calls ≡ 0 }
        ensures faults { result.faults ≡ 0 }
        ensures failing { result.failing.items ≡ [] }
    {
        MemoryFiles {
            store: Store::new(alloc),
            calls: 0,
            faults: 0,
            last_fault: String::new(alloc),
            failing: Vec::new(alloc),
            most: usize::MAX,
        }
    }

    /// Puts a whole file there, which is no call of [`Files`]. When out of memory, no file has changed.
    pub fn place(&mut self, name: &str, bytes: &[u8]) -> Result<(), NoMemory>
        ensures done { OnOk result (SetsFile (memory_files_state self.old).file (memory_files_state self.new).file name.now bytes.now) }
        ensures same { OnErr result (SameNames (memory_files_state self.old).file (memory_files_state self.new).file) }
        ensures counts { KeepsCounts self.old self.new }
    {
        self.store.place(name, bytes)?;
        Ok(())
    }

    /// The bytes under a name, `None` exactly where it isn't there.
    pub fn bytes(&self, name: &str) -> Option<&[u8]>
        ensures { option_map (λ b. b.now) result ≡ (memory_files_state self.now).file name.now }
    {
        self.store.bytes(name)
    }

    /// Lets the call with this number fail. When out of memory, nothing has changed.
    pub fn fail(&mut self, call: u64) -> Result<(), NoMemory>
        ensures done { OnOk result (self.new.failing.items ≡ self.old.failing.items ++ call ∷ []) }
        ensures same { OnErr result (self.new.failing.items ≡ self.old.failing.items) }
        ensures files { self.new.store ≡ self.old.store }
        ensures calls { self.new.calls ≡ self.old.calls }
        ensures faults { self.new.faults ≡ self.old.faults }
        ensures last_fault { self.new.last_fault ≡ self.old.last_fault }
    {
        self.failing.push(call)?;
        Ok(())
    }

    /// From now on each call reads or adds so many bytes at most, 1 at least. Nothing else has changed.
    pub fn piece(&mut self, most: usize)
        requires { 1 ≤ most }
        ensures { self.new ≡ record self.old { most = most } }
    {
        self.most = most;
    }

    // One more call. Where it is due to fail, the fault is counted and named.
    fn begin(&mut self, name: &str) -> Result<(), IoFault>
        ensures store { self.new.store ≡ self.old.store }
        ensures cause { HasCause Io.Failed name.now (string_bytes self.new.last_fault) self.old.faults self.new.faults result }
        ensures quiet { OnOk result (self.new.faults ≡ self.old.faults) }
        ensures counts { CountsFilesCall self.old self.new }
        ensures most { self.new.most ≡ self.old.most }
        ensures due { FailsWhereDue Io.Failed Io.OutOfMemory (is_due self.old.calls self.old.failing.items) result }
    {
        let number = self.calls;
        self.calls = self.calls.saturating_add(1);
        if !self.failing.contains(&number) {
            return Ok(());
        }
        self.last_fault = String::from_str(self.store.alloc, name)?;
        self.faults = self.faults.saturating_add(1);
        Err(IoFault::Failed)
    }
}

impl Files for MemoryFiles {
    ghost use Rattle.cerco_base.specs.Outside.InMemory.{memory_files_state, is_due, FailsWhereDue, CountsFilesCall};

    ghost state = { memory_files_state };

    fn read_at(&mut self, name: &str, at: u64, into: &mut [u8]) -> Result<usize, ReadFault>
        ensures reads { ReadsAt (memory_files_state self.old) (memory_files_state self.new) name.now at into.new result }
        ensures counts { CountsFilesCall self.old self.new }
        ensures due { FailsWhereDue Read.Failed Read.OutOfMemory (is_due self.old.calls self.old.failing.items) result }
        ensures piece { IfOk result (λ n. n ≤ max self.old.most 1) }
    {
        match self.begin(name) {
            Ok(()) => {}
            Err(IoFault::Failed) => return Err(ReadFault::Failed),
            Err(IoFault::OutOfMemory) => return Err(ReadFault::OutOfMemory),
        }
        match self.store.copy(name, at, into, self.most.max(1)) {
            Some(count) => Ok(count),
            None => Err(ReadFault::Missing),
        }
    }

    fn create(&mut self, name: &str) -> Result<(), IoFault>
        ensures creates { Creates (memory_files_state self.old) (memory_files_state self.new) name.now result }
        ensures counts { CountsFilesCall self.old self.new }
        ensures due { FailsWhereDue Io.Failed Io.OutOfMemory (is_due self.old.calls self.old.failing.items) result }
    {
        self.begin(name)?;
        self.store.place(name, &[])?;
        Ok(())
    }

    fn append(&mut self, name: &str, bytes: &[u8]) -> Result<usize, IoFault>
        ensures appends { AppendsSome (memory_files_state self.old) (memory_files_state self.new) name.now bytes.now result }
        ensures counts { CountsFilesCall self.old self.new }
        ensures due { FailsWhereDue Io.Failed Io.OutOfMemory (is_due self.old.calls self.old.failing.items) result }
        ensures piece { IfOk result (λ n. n ≤ max self.old.most 1) }
    {
        self.begin(name)?;
        let count = bytes.len().min(self.most.max(1));
        self.store.add(name, &bytes[..count])?;
        Ok(count)
    }
}

/// An output in memory. The calls of [`Sink`] are numbered from 0, and those that [`MemorySink::fail`] lists fail.
#[derive(Drop)]
pub struct MemorySink {
    bytes: Vec<u8>,
    calls: u64,
    faults: u64,
    failing: Vec<u64>,
    // how many bytes a call takes at most; 0 is taken as 1
    most: usize,
}

impl MemorySink {
    ghost use Rattle.cerco_base.specs.Outside.InMemory.{memory_sink_state};

    /// Nothing put, no call so far, and none that is to fail.
    pub fn new(alloc: Global) -> MemorySink
        ensures bytes { (memory_sink_state result).bytes ≡ [] }
        ensures calls { result.calls ≡ 0 }
        ensures faults { result.faults ≡ 0 }
        ensures failing { result.failing.items ≡ [] }
    {
        MemorySink {
            bytes: Vec::new(alloc),
            calls: 0,
            faults: 0,
            failing: Vec::new(alloc),
            most: usize::MAX,
        }
    }

    /// The bytes put so far.
    pub fn bytes(&self) -> &[u8]
        ensures { result.now ≡ (memory_sink_state self.now).bytes }
    {
        self.bytes.as_slice()
    }

    /// Lets the call with this number fail. When out of memory, nothing has changed.
    pub fn fail(&mut self, call: u64) -> Result<(), NoMemory>
        ensures done { OnOk result (self.new.failing.items ≡ self.old.failing.items ++ call ∷ []) }
        ensures same { OnErr result (self.new.failing.items ≡ self.old.failing.items) }
        ensures state { memory_sink_state self.new ≡ memory_sink_state self.old }
        ensures calls { self.new.calls ≡ self.old.calls }
    {
        self.failing.push(call)?;
        Ok(())
    }

    /// From now on each call takes so many bytes at most, 1 at least. Nothing else has changed.
    pub fn piece(&mut self, most: usize)
        requires { 1 ≤ most }
        ensures { self.new ≡ record self.old { most = most } }
    {
        self.most = most;
    }
}

impl Sink for MemorySink {
    ghost use Rattle.cerco_base.specs.Outside.InMemory.{memory_sink_state, is_due, FailsWhereDue, CountsSinkCall};

    ghost state = { memory_sink_state };

    fn put(&mut self, bytes: &[u8]) -> Result<usize, IoFault>
        ensures puts { PutsSome (memory_sink_state self.old) (memory_sink_state self.new) bytes.now result }
        ensures counts { CountsSinkCall self.old self.new }
        ensures due { FailsWhereDue Io.Failed Io.OutOfMemory (is_due self.old.calls self.old.failing.items) result }
        ensures piece { IfOk result (λ n. n ≤ max self.old.most 1) }
    {
        let number = self.calls;
        self.calls = self.calls.saturating_add(1);
        if self.failing.contains(&number) {
            self.faults = self.faults.saturating_add(1);
            return Err(IoFault::Failed);
        }
        let count = bytes.len().min(self.most.max(1));
        self.bytes.extend_from_slice(&bytes[..count])?;
        Ok(count)
    }
}
