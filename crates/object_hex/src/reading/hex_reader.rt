//! The reader of an object's code.
ghost use Rattle.std.specs.Prelude.{◌≡◌, ℕ, ◌≤◌, ◌⊎◌, length, List, Ok, Err, Some, None, [], ◌++◌, ◌∷◌, IfOk, MatchResult};
ghost use Rattle.object_hex.specs.HexAnswer.{IsHexAnswer, ReadsBack};

use crate::reading::faults::{HexError, HexFault, HexKind};
use crate::reading::image::Image;
use crate::reading::line::split_line;
use crate::reading::record::{
    MOST_IN_RECORD, RecordType, data_in, offset_in, read_record, record_type,
};
use cerco_base::Code;
use std::alloc::{AllocError, Global};

// What the lines so far gave, and whether one of them was the end of file record.
#[derive(Drop)]
struct HexReader {
    image: Image,
    ended: bool,
}

impl HexReader {
    ghost use Rattle.std.specs.Prelude.{◌+◌, false, slice_index};
    ghost use Rattle.object_hex.specs.HexMeaning.{fault_behind, has_end};
    ghost use Rattle.object_hex.specs.Records.{record_bytes};
    ghost use Rattle.object_hex.specs.Code.Reading.{IsReadUpTo};

    fn new(alloc: Global) -> Result<HexReader, AllocError>
        ensures { IfOk result (λ reader. IsReadUpTo [] reader.image.places.items reader.image.reach reader.ended) }
    {
        Ok(HexReader {
            image: Image::new(alloc)?,
            ended: false,
        })
    }

    // Takes what a record says.
    fn take_record(&mut self, bytes: &[u8]) -> Result<(), HexKind>
        requires { length bytes.now ≡ slice_index bytes.now 0 + 5 }
        ensures { (before : List (List ℕ)) (line : List ℕ) → record_bytes line ≡ Some bytes.now → has_end before ≡ false
            → IsReadUpTo before self.old.image.places.items self.old.image.reach self.old.ended
            → MatchResult result
            (λ _. (fault_behind before line ≡ None)
            × IsReadUpTo (before ++ line ∷ []) self.new.image.places.items self.new.image.reach self.new.ended)
            (λ kind. fault_behind before line ≡ Some kind) }
    {
        let kind = record_type(bytes)?;
        let offset = offset_in(bytes);
        match kind {
            RecordType::Data => self.image.load(offset, data_in(bytes)),
            RecordType::EndOfFile => {
                self.ended = true;
                Ok(())
            }
            RecordType::UpperAddress => Ok(()),
        }
    }

    // Takes the next line.
    fn take_line(&mut self, line: &[u8]) -> Result<(), HexKind>
        ensures { (before : List (List ℕ)) → IsReadUpTo before self.old.image.places.items self.old.image.reach self.old.ended
            → MatchResult result
            (λ _. (fault_behind before line.now ≡ None)
            × IsReadUpTo (before ++ line.now ∷ []) self.new.image.places.items self.new.image.reach self.new.ended)
            (λ kind. fault_behind before line.now ≡ Some kind) }
    {
        if self.ended {
            return Err(HexKind::After);
        }
        let mut room = [0; MOST_IN_RECORD];
        match read_record(line, &mut room) {
            None => Err(HexKind::Form),
            Some(count) => self.take_record(&room[..count]),
        }
    }
}

/// Reads the code that a hex text stands for: records in Intel's hexadecimal object format of the
/// types 00, 01 and 04, the code being at most 64 KiB.
///
/// # Errors
///
/// The first bad line of a text that is no hex text, or out of memory.
pub fn read_hex(alloc: Global, text: &[u8]) -> Result<Code, HexError>
    requires { length text.now ≤ 4294967294 }
    ensures answer { IsHexAnswer text.now result }
    ensures short { IfOk result (λ code. length code ≤ 65536) }
    ensures written { ReadsBack text.now result }
{
    let mut reader = HexReader::new(alloc)?;
    let mut rest = text;
    let mut number: u32 = 0;
    while !rest.is_empty() {
        let (line, behind) = split_line(rest);
        if let Err(kind) = reader.take_line(line) {
            return Err(HexError::Fault(HexFault {
                line: number + 1,
                kind,
            }));
        }
        rest = behind;
        number += 1;
    }
    if !reader.ended {
        return Err(HexError::Fault(HexFault {
            line: number + 1,
            kind: HexKind::NoEnd,
        }));
    }
    Ok(reader.image.code(alloc)?)
}
