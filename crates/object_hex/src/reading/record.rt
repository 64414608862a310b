//! The record in a line of a hex text.
ghost use Rattle.std.specs.Prelude.{◌≡◌, ℕ, ◌+◌, ◌≤◌, ◌<◌, length, take, slice_index, sum, Some, None, MatchOption};
ghost use Rattle.object_hex.specs.Records.{record_bytes, data_of, is_address_zero, offset_of, type_of, typed};

use crate::reading::faults::HexKind;

/// The most bytes that a record has: its length, two of its offset, its type, 255 data bytes and its
/// checksum.
pub const MOST_IN_RECORD: usize = 260;

// How many bytes stand before the data bytes of a record.
const BEFORE_DATA: usize = 4;

/// The type of a right record.
#[derive(Clone, Copy, Debug, PartialEq, Eq)]
pub enum RecordType {
    /// Type 00: data bytes from an offset on.
    Data,
    /// Type 01: the last record of a text.
    EndOfFile,
    /// Type 04 with the address 0: it changes nothing.
    UpperAddress,
}

/// Puts the bytes of the record in a line at the front of `room`, and answers how many they are; it
/// answers `None` where the line hasn't the form of a record.
pub fn read_record(line: &[u8], room: &mut [u8; MOST_IN_RECORD]) -> Option<usize>
    ensures { MatchOption result
        (record_bytes line.now ≡ None)
        (λ count. (count ≤ 260) × (record_bytes line.now ≡ Some (take count room.new))) }
{
    if line.is_empty() || line[0] != b':' {
        return None;
    }
    let digits = &line[1..];
    let count = digits.len() / 2;
    if digits.len() != 2 * count || count > MOST_IN_RECORD {
        return None;
    }
    if hex::decode_to_slice(digits, &mut room[..count]).is_err() {
        return None;
    }
    if count == 0 || count != usize::from(room[0]) + BEFORE_DATA + 1 {
        return None;
    }
    Some(count)
}

// The sum of the bytes of a record.
fn sum_of(bytes: &[u8]) -> u32
    requires { length bytes.now ≤ 260 }
    ensures { result ≡ sum bytes.now }
{
    bytes.iter().map(|byte| u32::from(*byte)).sum()
}

/// The data bytes of a record.
pub fn data_in(bytes: &[u8]) -> &[u8]
    requires { length bytes.now ≡ slice_index bytes.now 0 + 5 }
    ensures { result.now ≡ data_of bytes.now }
{
    &bytes[BEFORE_DATA..bytes.len() - 1]
}

/// The offset from which the data bytes of a record are loaded.
pub fn offset_in(bytes: &[u8]) -> usize
    requires { 3 ≤ length bytes.now }
    ensures value { result ≡ offset_of bytes.now }
    ensures small { result < 65536 }
{
    256 * usize::from(bytes[1]) + usize::from(bytes[2])
}

// The type with a number, of a record with these data bytes.
fn type_with(number: u8, bytes: &[u8]) -> Result<RecordType, HexKind>
    ensures { result ≡ typed number bytes.now }
{
    match number {
        0 => Ok(RecordType::Data),
        1 if bytes.is_empty() => Ok(RecordType::EndOfFile),
        1 => Err(HexKind::End),
        4 if bytes.len() == 2 && bytes[0] == 0 && bytes[1] == 0 => Ok(RecordType::UpperAddress),
        4 => Err(HexKind::Upper),
        _ => Err(HexKind::Type),
    }
}

/// The type of a record.
///
/// # Errors
///
/// What is wrong with it by itself.
pub fn record_type(bytes: &[u8]) -> Result<RecordType, HexKind>
    requires { length bytes.now ≡ slice_index bytes.now 0 + 5 }
    ensures { result ≡ type_of bytes.now }
{
    if sum_of(bytes) % 256 != 0 {
        return Err(HexKind::Sum);
    }
    type_with(bytes[3], data_in(bytes))
}
