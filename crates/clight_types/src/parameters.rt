//! The types of parameters together.
ghost use Rattle.std.specs.Prelude.{◌≡◌, map, min};
ghost use Rattle.c_types.specs.Types.{type_of};
ghost use Rattle.clight_types.specs.Declarations.{bytes_of, types_eq};
ghost use Rattle.clight_types.specs.Code.Held.{size_cap};
ghost use Rattle.clight_types.specs.Code.HeldStructs.{structs_of};

use crate::declared::{capped_size, capped_sum};
use crate::structs::Structs;
use c_types::Ty;

/// How many bytes values of these types have together, or 65,536 where it is more.
pub fn parameter_bytes(structs: &Structs, types: &[Ty]) -> u32
    ensures { result ≡ min (bytes_of (structs_of structs.now) (map type_of types.now)) size_cap }
{
    let mut bytes = 0;
    for ty in types {
        bytes = capped_sum(bytes, capped_size(structs, ty));
    }
    bytes
}

/// Whether types are the same, one after the other.
pub fn are_same_types(left: &[Ty], right: &[Ty]) -> bool
    ensures { result ≡ types_eq (map type_of left.now) (map type_of right.now) }
{
    let mut next = 0;
    for one in left {
        match right.get(next) {
            Some(other) if one.is_same(other) => next += 1,
            _ => return false,
        }
    }
    right.get(next).is_none()
}
