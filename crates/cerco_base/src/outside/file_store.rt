//! Bytes under names, in memory.
ghost use Rattle.std.specs.Prelude.{◌≡◌, ◌≤◌, ◌++◌, [], Some, None, OnOk, OnErr, IfSome, IfNone, option_map, unwrap_or, length, List, ℕ};
ghost use Rattle.cerco_base.specs.Outside.IoCalls.{Copies};

use std::alloc::{AllocError, Global};
use std::collections::BTreeMap;

#[derive(Drop)]
pub struct Store {
    pub alloc: Global,
    pub files: BTreeMap<String, Vec<u8>>,
}

// Copies bytes from an offset on, as many as there are and fit, but no more than `most`.
fn copy_from(bytes: &[u8], at: u64, into: &mut [u8], most: usize) -> usize
    requires { 1 ≤ most }
    ensures bound { result ≤ length into.new }
    ensures piece { result ≤ most }
    ensures copies { Copies bytes.now at result into.new }
{
    let Some(rest) = bytes.get(at as usize..) else {
        return 0;
    };
    let count = rest.len().min(into.len()).min(most);
    into[..count].copy_from_slice(&rest[..count]);
    count
}

impl Store {
    ghost use Rattle.cerco_base.specs.Outside.FileStore.{file_of, SetsFile, SameNames};

    /// No files.
    pub fn new(alloc: Global) -> Store
        ensures { (q : List ℕ) → file_of result q ≡ None }
    {
        Store {
            alloc,
            files: BTreeMap::new(alloc),
        }
    }

    /// The bytes under a name.
    pub fn bytes(&self, name: &str) -> Option<&[u8]>
        ensures { option_map (λ b. b.now) result ≡ file_of self.now name.now }
    {
        match self.files.get(name) {
            Some(bytes) => Some(bytes.as_slice()),
            None => None,
        }
    }

    /// Copies bytes of a file from an offset on, `most` at most, and gives their number; `None` where the name isn't there.
    pub fn copy(&self, name: &str, at: u64, into: &mut [u8], most: usize) -> Option<usize>
        requires { 1 ≤ most }
        ensures piece { IfSome result (λ n. n ≤ most) }
        ensures bound { IfSome result (λ n. n ≤ length into.new) }
        ensures copies { IfSome result (λ n. (bytes : List ℕ) × (file_of self.now name.now ≡ Some bytes) × Copies bytes at n into.new) }
        ensures missing { IfNone result (file_of self.now name.now ≡ None) }
    {
        let bytes = self.bytes(name)?;
        Some(copy_from(bytes, at, into, most))
    }

    /// Puts a whole file there.
    pub fn place(&mut self, name: &str, bytes: &[u8]) -> Result<(), AllocError>
        ensures done { OnOk result (SetsFile (file_of self.old) (file_of self.new) name.now bytes.now) }
        ensures same { OnErr result (SameNames (file_of self.old) (file_of self.new)) }
    {
        let key = String::from_str(self.alloc, name)?;
        let kept = bytes.to_vec(self.alloc)?;
        self.files.insert(key, kept)?;
        Ok(())
    }

    /// Adds bytes at a file's end; a file that isn't there is made first.
    pub fn add(&mut self, name: &str, bytes: &[u8]) -> Result<(), AllocError>
        ensures done { OnOk result (SetsFile (file_of self.old) (file_of self.new) name.now (unwrap_or (file_of self.old name.now) [] ++ bytes.now)) }
        ensures same { OnErr result (SameNames (file_of self.old) (file_of self.new)) }
    {
        if let Some(there) = self.files.get_mut(name) {
            there.extend_from_slice(bytes)?;
            return Ok(());
        }
        self.place(name, bytes)
    }
}
