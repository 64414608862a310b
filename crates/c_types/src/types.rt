//! The types of the language, when two are the same, and their kinds.
ghost use Rattle.std.specs.Prelude.{◌≡◌, IfOk, Some, None, if◌then◌else◌};
ghost use Rattle.std.specs.Option.{option_map};
ghost use Rattle.c_types.specs.Types.{type_of, type_eq};
ghost use Rattle.c_types.specs.Kinds as kinds;

use cerco_base::NoMemory;
use std::alloc::Global;

/// A type. Plain `char` is `U8`, `int` is `I16`, `long` is `I32`.
#[derive(Drop)]
#[cycle(types)]
pub enum Ty {
    /// No value: the result of a function that gives none.
    Void,
    /// `unsigned char`, of one byte
    U8,
    /// `signed char`, of one byte
    I8,
    /// `int`, of two bytes
    I16,
    /// `unsigned int`, of two bytes
    U16,
    /// `long`, of four bytes
    I32,
    /// `unsigned long`, of four bytes
    U32,
    /// A pointer to a type, of two bytes.
    Pointer(Box<Ty>),
    /// So many elements of a type, one after the other.
    Array(Box<Ty>, u32),
    /// The struct with this number. The structs of a program are numbered from 0 in the order of their definitions.
    Struct(u32),
}

impl Ty {
    /// The same type once more.
    pub fn duplicate(&self, alloc: Global) -> Result<Ty, NoMemory>
        ensures { IfOk result (λ copy. type_of copy ≡ type_of self.now) }
    {
        match self {
            Ty::Void => Ok(Ty::Void),
            Ty::U8 => Ok(Ty::U8),
            Ty::I8 => Ok(Ty::I8),
            Ty::I16 => Ok(Ty::I16),
            Ty::U16 => Ok(Ty::U16),
            Ty::I32 => Ok(Ty::I32),
            Ty::U32 => Ok(Ty::U32),
            Ty::Pointer(target) => {
                let copy = target.duplicate(alloc)?;
                Ok(Ty::Pointer(Box::new(alloc, copy)?))
            }
            Ty::Array(element, count) => {
                let copy = element.duplicate(alloc)?;
                Ok(Ty::Array(Box::new(alloc, copy)?, *count))
            }
            Ty::Struct(number) => Ok(Ty::Struct(*number)),
        }
    }

    /// Whether two types are the same.
    pub fn is_same(&self, other: &Ty) -> bool
        ensures { result ≡ type_eq (type_of self.now) (type_of other.now) }
    {
        match (self, other) {
            (Ty::Pointer(one), Ty::Pointer(other)) => one.is_same(other),
            (Ty::Array(one, count), Ty::Array(other, number)) => {
                one.is_same(other) && *count == *number
            }
            (Ty::Struct(number), Ty::Struct(other)) => *number == *other,
            (Ty::Void, Ty::Void)
            | (Ty::U8, Ty::U8)
            | (Ty::I8, Ty::I8)
            | (Ty::I16, Ty::I16)
            | (Ty::U16, Ty::U16)
            | (Ty::I32, Ty::I32)
            | (Ty::U32, Ty::U32) => true,
            (_, _) => false,
        }
    }

    /// Whether it is an integer type.
    pub fn is_integer(&self) -> bool
        ensures { result ≡ kinds.is_integer (type_of self.now) }
    {
        matches!(
            self,
            Ty::U8 | Ty::I8 | Ty::I16 | Ty::U16 | Ty::I32 | Ty::U32
        )
    }

    /// Whether it is an integer or a pointer type.
    pub fn is_scalar(&self) -> bool
        ensures { result ≡ kinds.is_scalar (type_of self.now) }
    {
        !matches!(self, Ty::Void | Ty::Array(_, _) | Ty::Struct(_))
    }

    /// Whether it is the type of an array.
    pub fn is_array(&self) -> bool
        ensures { result ≡ kinds.is_array (type_of self.now) }
    {
        matches!(self, Ty::Array(_, _))
    }

    /// What a value of this type points to, if it is a pointer. An array is the pointer to its first element.
    pub fn target(&self) -> Option<&Ty>
        ensures { option_map (λ x. type_of x.now) result ≡ (if kinds.is_pointer (kinds.value_type (type_of self.now)) then Some (kinds.target_of (kinds.value_type (type_of self.now))) else None) }
    {
        match self {
            Ty::Pointer(target) => Some(target),
            Ty::Array(element, _) => Some(element),
            _ => None,
        }
    }
}
