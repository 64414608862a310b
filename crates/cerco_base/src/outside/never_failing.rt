//! Files and an output in memory that fail only when out of memory.
ghost use Rattle.std.specs.Prelude.{◌≡◌, option_map, OnOk, OnErr, None, List, ℕ, []};

use crate::no_memory::NoMemory;
use crate::outside::faults::{IoFault, ReadFault};
use crate::outside::file_store::Store;
use crate::outside::traits::{Files, Sink};
use std::alloc::Global;

/// Files in memory that never fail: their count of faults is always 0.
#[derive(Drop)]
pub struct SoundFiles {
    store: Store,
}

impl SoundFiles {
    ghost use Rattle.cerco_base.specs.Outside.InMemory.{sound_files_state};
    ghost use Rattle.cerco_base.specs.Outside.FileStore.{SetsFile, SameNames};

    /// No files.
    pub fn new(alloc: Global) -> SoundFiles
        ensures { (q : List ℕ) → (sound_files_state result).file q ≡ None }
    {
        SoundFiles {
            store: Store::new(alloc),
        }
    }

    /// Puts a whole file there. When out of memory, no file has changed.
    pub fn place(&mut self, name: &str, bytes: &[u8]) -> Result<(), NoMemory>
        ensures done { OnOk result (SetsFile (sound_files_state self.old).file (sound_files_state self.new).file name.now bytes.now) }
        ensures same { OnErr result (SameNames (sound_files_state self.old).file (sound_files_state self.new).file) }
    {
        self.store.place(name, bytes)?;
        Ok(())
    }

    /// The bytes under a name, `None` exactly where it isn't there.
    pub fn bytes(&self, name: &str) -> Option<&[u8]>
        ensures { option_map (λ b. b.now) result ≡ (sound_files_state self.now).file name.now }
    {
        self.store.bytes(name)
    }
}

impl Files for SoundFiles {
    ghost use Rattle.cerco_base.specs.Outside.InMemory.{sound_files_state};

    ghost state = { sound_files_state };

    fn read_at(&mut self, name: &str, at: u64, into: &mut [u8]) -> Result<usize, ReadFault> {
        match self.store.copy(name, at, into, usize::MAX) {
            Some(count) => Ok(count),
            None => Err(ReadFault::Missing),
        }
    }

    fn create(&mut self, name: &str) -> Result<(), IoFault> {
        self.store.place(name, &[])?;
        Ok(())
    }

    fn append(&mut self, name: &str, bytes: &[u8]) -> Result<usize, IoFault> {
        self.store.add(name, bytes)?;
        Ok(bytes.len())
    }
}

/// An output in memory that never fails: its count of faults is always 0.
#[derive(Drop)]
pub struct SoundSink {
    bytes: Vec<u8>,
}

impl SoundSink {
    ghost use Rattle.cerco_base.specs.Outside.InMemory.{sound_sink_state};

    /// Nothing put.
    pub fn new(alloc: Global) -> SoundSink
        ensures { (sound_sink_state result).bytes ≡ [] }
    {
        SoundSink {
            bytes: Vec::new(alloc),
        }
    }

    /// The bytes put so far.
    pub fn bytes(&self) -> &[u8]
        ensures { result.now ≡ (sound_sink_state self.now).bytes }
    {
        self.bytes.as_slice()
    }
}

impl Sink for SoundSink {
    ghost use Rattle.cerco_base.specs.Outside.InMemory.{sound_sink_state};

    ghost state = { sound_sink_state };

    fn put(&mut self, bytes: &[u8]) -> Result<usize, IoFault> {
        self.bytes.extend_from_slice(bytes)?;
        Ok(bytes.len())
    }
}
