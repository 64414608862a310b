//! The types of integer constants (ISO/IEC 9899:1999, 6.4.4.1).
ghost use Rattle.std.specs.Prelude.{◌≡◌};
ghost use Rattle.c_types.specs.Kinds.{type_for};
ghost use Rattle.clight_syntax.specs.LiteralTypes as spec;

use c_types::{IntegerType, Size};
use clight_source::{Literal, Radix};

/// The type of an integer constant.
pub fn literal_type(literal: Literal) -> IntegerType
    ensures seen { type_for result ≡ spec.literal_type literal }
    ensures value { result ≡ spec.literal_integer literal }
{
    let (size, signed) = match (literal.unsigned, literal.radix) {
        (true, _) if literal.value < 0x1_0000 => (Size::Two, false),
        (true, _) => (Size::Four, false),
        (false, _) if literal.value < 0x8000 => (Size::Two, true),
        (false, Radix::Octal | Radix::Hexadecimal) if literal.value < 0x1_0000 => (
            Size::Two,
            false,
        ),
        (false, _) if literal.value < 0x8000_0000 => (Size::Four, true),
        (false, _) => (Size::Four, false),
    };
    IntegerType { size, signed }
}
