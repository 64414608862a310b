//! The bytes that the records of a hex text give, by address.
ghost use Rattle.std.specs.Prelude.{◌≡◌, ℕ, ◌+◌, ◌≤◌, ◌<◌, ◌==◌, if◌then◌else◌, max, length, map, take, unwrap_or, Option, Some, None, List, IfOk, MatchResult, vec_len, slice_index_or};

use crate::reading::faults::HexKind;
use cerco_base::{Code, NoMemory};
use std::alloc::{AllocError, Global};

// How many bytes code memory has.
const CODE_BYTES: usize = 65536;

// Places that hold no byte.
fn no_bytes(alloc: Global, count: usize) -> Result<Vec<Option<u8>>, AllocError>
    ensures count { IfOk result (λ places. vec_len places ≡ count) }
    ensures none { IfOk result (λ places. (place : ℕ) → place < count → slice_index_or places.items place None ≡ None) }
{
    vec![in alloc; None; count]
}

/// A place for each address of code memory, and the address behind the highest byte given.
#[derive(Drop)]
pub struct Image {
    places: Vec<Option<u8>>,
    reach: usize,
    ghost whole: { vec_len places ≡ 65536 },
    ghost bounded: { reach ≤ 65536 },
}

impl Image {
    ghost use Rattle.std.specs.Option.{option_or};
    ghost use Rattle.std.specs.List.{list_any};
    ghost use Rattle.std.specs.Prelude.{slice_range, is_some};
    ghost use Rattle.object_hex.specs.HexMeaning.{byte_at, load_fault};
    ghost use Rattle.object_hex.specs.Code.Reading.{Holds};

    /// No byte is given.
    pub fn new(alloc: Global) -> Result<Image, AllocError>
        ensures { IfOk result (λ image. Holds image.places.items (λ _. None) × (image.reach ≡ 0)) }
    {
        Ok(Image {
            places: no_bytes(alloc, CODE_BYTES)?,
            reach: 0,
        })
    }

    // Whether an address from an offset on has a byte.
    fn has_some(&self, offset: usize, count: usize) -> bool
        requires { offset + count ≤ 65536 }
        ensures { result ≡ list_any is_some (slice_range self.now.places.items offset (offset + count)) }
    {
        self.places[offset..offset + count]
            .iter()
            .any(|place| place.is_some())
    }

    // Puts bytes from an offset on.
    fn put(&mut self, offset: usize, bytes: &[u8])
        requires { offset + length bytes.now ≤ 65536 }
        ensures put { (address : ℕ) → slice_index_or self.new.places.items address None
            ≡ option_or (byte_at offset bytes.now address) (slice_index_or self.old.places.items address None) }
        ensures reach { self.new.reach ≡ max self.old.reach (if length bytes.now == 0 then 0 else offset + length bytes.now) }
    {
        for (i, byte) in bytes.iter().enumerate() {
            self.places[offset + i] = Some(*byte);
        }
        if !bytes.is_empty() {
            self.reach = self.reach.max(offset + bytes.len());
        }
    }

    /// Adds bytes from an offset on.
    ///
    /// # Errors
    ///
    /// One of them is past address FFFFH, or its address has a byte already. Nothing is added then.
    pub fn load(&mut self, offset: usize, bytes: &[u8]) -> Result<(), HexKind>
        requires { offset + length bytes.now < 4294967296 }
        ensures { (before : ℕ → Option ℕ) → Holds self.old.places.items before → MatchResult result
            (λ _. (load_fault before offset bytes.now ≡ None)
            × Holds self.new.places.items (λ address. option_or (byte_at offset bytes.now address) (before address))
            × (self.new.reach ≡ max self.old.reach (if length bytes.now == 0 then 0 else offset + length bytes.now)))
            (λ kind. load_fault before offset bytes.now ≡ Some kind) }
    {
        if offset + bytes.len() > CODE_BYTES {
            return Err(HexKind::Range);
        }
        if self.has_some(offset, bytes.len()) {
            return Err(HexKind::Twice);
        }
        self.put(offset, bytes);
        Ok(())
    }

    /// The code up to the highest byte given, with 0 where no byte is given.
    pub fn code(&self, alloc: Global) -> Result<Code, NoMemory>
        ensures code { IfOk result (λ code. code ≡ map (λ place. unwrap_or place 0) (take self.now.reach self.now.places.items)) }
        ensures short { IfOk result (λ code. length code ≤ 65536) }
    {
        let mut code = Code::new(alloc);
        for place in &self.places[..self.reach] {
            code.push(place.unwrap_or(0))?;
        }
        Ok(code)
    }
}
