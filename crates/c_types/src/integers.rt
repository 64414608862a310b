//! The integer types, by size and signedness, and the conversions between them (ISO/IEC 9899:1999, 6.2.5 and 6.3.1).
ghost use Rattle.std.specs.Prelude.{◌≡◌, Some, None, if◌then◌else◌};
ghost use Rattle.std.specs.Option.{option_map};
ghost use Rattle.c_types.specs.Types.{type_of};
ghost use Rattle.c_types.specs.Kinds.{is_integer, integer_type, type_for};
ghost use Rattle.c_types.specs.Conversions as c;

use crate::types::Ty;

/// The size of an integer type.
#[derive(Clone, Copy)]
pub enum Size {
    /// One byte.
    One,
    /// Two bytes.
    Two,
    /// Four bytes.
    Four,
}

/// An integer type.
#[derive(Clone, Copy)]
pub struct IntegerType {
    /// How many bytes it has.
    pub size: Size,
    /// Whether it has negative values.
    pub signed: bool,
}

impl IntegerType {
    /// `int`
    pub fn int() -> IntegerType
        ensures { type_for result ≡ c.int }
    {
        IntegerType {
            size: Size::Two,
            signed: true,
        }
    }

    /// The integer type that a type is, if it is one.
    pub fn of(ty: &Ty) -> Option<IntegerType>
        ensures value { result ≡ integer_type (type_of ty.now) }
        ensures seen { option_map type_for result ≡ (if is_integer (type_of ty.now) then Some (type_of ty.now) else None) }
    {
        let (size, signed) = match ty {
            Ty::U8 => (Size::One, false),
            Ty::I8 => (Size::One, true),
            Ty::U16 => (Size::Two, false),
            Ty::I16 => (Size::Two, true),
            Ty::U32 => (Size::Four, false),
            Ty::I32 => (Size::Four, true),
            _ => return None,
        };
        Some(IntegerType { size, signed })
    }

    /// The type that an integer type is.
    pub fn as_type(self) -> Ty
        ensures { type_of result ≡ type_for self }
    {
        match (self.size, self.signed) {
            (Size::One, false) => Ty::U8,
            (Size::One, true) => Ty::I8,
            (Size::Two, false) => Ty::U16,
            (Size::Two, true) => Ty::I16,
            (Size::Four, false) => Ty::U32,
            (Size::Four, true) => Ty::I32,
        }
    }

    /// The type to which an integer is promoted (6.3.1.1).
    pub fn promoted(self) -> IntegerType
        ensures seen { type_for result ≡ c.promoted (type_for self) }
        ensures value { result ≡ c.promoted_integer self }
    {
        match self.size {
            Size::One => IntegerType::int(),
            _ => self,
        }
    }

    /// The type in which two integers are added or compared (6.3.1.8).
    pub fn common(self, other: IntegerType) -> IntegerType
        ensures seen { type_for result ≡ c.common (type_for self) (type_for other) }
        ensures value { result ≡ c.common_integer self other }
    {
        let left = self.promoted();
        let right = other.promoted();
        match (left.size, right.size) {
            (Size::Four, Size::Four) => IntegerType {
                size: Size::Four,
                signed: left.signed && right.signed,
            },
            (Size::Four, _) => left,
            (_, Size::Four) => right,
            (_, _) => IntegerType {
                size: Size::Two,
                signed: left.signed && right.signed,
            },
        }
    }
}
