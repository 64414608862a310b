//! The reader of the addresses of an object's labels.
ghost use Rattle.std.specs.Prelude.{◌≡◌, ℕ, ◌<◌, ◌≤◌, length, slice_index_or, slice_set, vec_len, false, true, Some, MatchOption, IfOk, ◌+◌, ◌*◌, slice_index};
ghost use Rattle.hex.specs.Hex.{decode_of};
ghost use Rattle.object_hex.specs.MapAnswer.{IsMapAnswer, ReadsBack};
ghost use Rattle.object_hex.specs.MapMeaning.{address_in, word_of};

use crate::reading::faults::{MapError, MapFault};
use crate::reading::line::split_line;
use cerco_base::LabelList;
use itoa::Buffer;
use std::alloc::{AllocError, Global};

// How many addresses there are.
const ADDRESSES: usize = 65536;

// Marks for so many addresses, none of which is set.
fn no_marks(alloc: Global, count: usize) -> Result<Vec<bool>, AllocError>
    ensures count { IfOk result (λ marks. vec_len marks ≡ count) }
    ensures none { IfOk result (λ marks. (place : ℕ) → place < count → slice_index_or marks.items place false ≡ false) }
{
    vec![in alloc; false; count]
}

// The number of two bytes, the high one first.
fn word(bytes: &[u8]) -> u16
    requires { length bytes.now ≡ 2 }
    ensures { result ≡ 256 * slice_index bytes.now 0 + slice_index bytes.now 1 }
{
    256 * u16::from(bytes[0]) + u16::from(bytes[1])
}

// The address in four hex digits.
fn address_of(digits: &[u8]) -> Option<u16>
    ensures { result ≡ word_of (decode_of digits.now) }
{
    let mut bytes = [0; 2];
    match hex::decode_to_slice(digits, &mut bytes) {
        Ok(()) => Some(word(&bytes)),
        Err(_) => None,
    }
}

// The address in the line of a label.
fn address_in(label: usize, line: &[u8]) -> Option<u16>
    ensures { result ≡ address_in label line.now }
{
    let mut number = Buffer::new();
    let rest = line.strip_prefix(number.format(label).as_bytes())?;
    let digits = rest.strip_prefix(b" ")?;
    address_of(digits)
}

// The address in the line of a label, which is marked as seen; none where the line has another form,
// or an address that was seen before.
fn take_line(label: usize, line: &[u8], seen: &mut Vec<bool>) -> Option<u16>
    requires { vec_len seen.old ≡ 65536 }
    ensures length { vec_len seen.new ≡ 65536 }
    ensures taken { MatchOption result
        ((address : ℕ) → address_in label line.now ≡ Some address
        → (address < 65536) × (slice_index_or seen.old.items address false ≡ true))
        (λ address. (address < 65536) × (address_in label line.now ≡ Some address)
        × (slice_index_or seen.old.items address false ≡ false)
        × (seen.new.items ≡ slice_set seen.old.items address true)) }
{
    let address = address_in(label, line)?;
    let place = usize::from(address);
    if seen[place] {
        return None;
    }
    seen[place] = true;
    Some(address)
}

/// Reads the addresses that a text of label addresses gives: line by line the number of the label,
/// counted from 0, a blank and four hex digits, with no address twice.
///
/// # Errors
///
/// The first bad line of a text that is none, or out of memory.
pub fn read_map(alloc: Global, text: &[u8]) -> Result<LabelList, MapError>
    requires { length text.now ≤ 4294967294 }
    ensures answer { IsMapAnswer text.now result }
    ensures written { ReadsBack text.now result }
{
    let mut seen = no_marks(alloc, ADDRESSES)?;
    let mut labels = LabelList::new(alloc);
    let mut rest = text;
    let mut number: u32 = 0;
    while !rest.is_empty() {
        let (line, behind) = split_line(rest);
        match take_line(number as usize, line, &mut seen) {
            None => return Err(MapError::Fault(MapFault { line: number + 1 })),
            Some(address) => labels.push(address)?,
        }
        rest = behind;
        number += 1;
    }
    Ok(labels)
}
