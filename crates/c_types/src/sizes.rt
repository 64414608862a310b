//! How many bytes types have (ISO/IEC 9899:1999, 6.5.3.4).
ghost use Rattle.std.specs.Prelude.{◌≡◌, ℕ, ◌<◌, ◌≤◌, ◌*◌, ◌^◌, min, map, IfSome, IfNone};
ghost use Rattle.c_types.specs.Types.{type_of, struct_type_of, size_of};

use crate::structs::StructType;
use crate::types::Ty;

// So many elements of so many bytes. Numbers are counted up to 2 to the 32nd.
fn scaled(count: u32, size: u64) -> u64
    ensures { (n : ℕ) → size ≡ min n (2 ^ 32) → result ≡ min (count * n) (2 ^ 32) }
{
    u64::from(count).saturating_mul(size).min(0x1_0000_0000)
}

// The bytes of a struct.
fn struct_size(found: &StructType) -> u64
    ensures value { result ≡ found.now.size }
    ensures few { result < 2 ^ 32 }
{
    u64::from(found.size)
}

// How many bytes a type has, counted up to 2 to the 32nd.
fn counted(structs: &[StructType], ty: &Ty) -> u64
    ensures { result ≡ min (size_of (map struct_type_of structs.now) (type_of ty.now)) (2 ^ 32) }
{
    match ty {
        Ty::Void => 0,
        Ty::U8 | Ty::I8 => 1,
        Ty::I16 | Ty::U16 | Ty::Pointer(_) => 2,
        Ty::I32 | Ty::U32 => 4,
        Ty::Array(element, count) => scaled(*count, counted(structs, element)),
        Ty::Struct(number) => match structs.get(*number as usize) {
            None => 0,
            Some(found) => struct_size(found),
        },
    }
}

/// How many bytes a type has, where these structs are the program's. `None` where no `u32` counts them.
pub fn size_of(structs: &[StructType], ty: &Ty) -> Option<u32>
    ensures value { IfSome result (λ n. n ≡ size_of (map struct_type_of structs.now) (type_of ty.now)) }
    ensures many { IfNone result (2 ^ 32 ≤ size_of (map struct_type_of structs.now) (type_of ty.now)) }
{
    let bytes = counted(structs, ty);
    if bytes < 0x1_0000_0000 {
        Some(bytes as u32)
    } else {
        None
    }
}
