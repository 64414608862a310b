//! The bytes of variables in external RAM.
ghost use Rattle.std.specs.Prelude.{◌≡◌, map, IfOk};
ghost use Rattle.c_types.specs.Types.{struct_type_of};
ghost use Rattle.clight_syntax.specs.Code.TypedViews.{variable_of, function_of};
ghost use Rattle.clight_layout.specs.Frames.{lies_in as lies_in_lem, room_of as room_of_lem, bytes_of as bytes_of_lem, frame_bytes};

use c_types::StructType;
use c_types::sizes::size_of;
use cerco_base::NoMemory;
use clight_syntax::typed::{Function, Home, Variable};
use std::alloc::Global;

/// Where variables lie one after the other.
#[derive(Clone, Copy)]
pub enum Area {
    /// Among the globals.
    Globals,
    /// In the frame of a function.
    Frame,
}

/// Whether a variable lies in an area.
pub fn lies_in(area: Area, home: Home) -> bool
    ensures { result ≡ lies_in_lem area home }
{
    match (area, home) {
        (Area::Globals, Home::Global(_)) | (Area::Frame, Home::Block(_)) => true,
        (Area::Globals, Home::Block(_) | Home::Scalar(_)) => false,
        (Area::Frame, Home::Global(_) | Home::Scalar(_)) => false,
    }
}

/// The bytes of a variable in an area, 0 where it doesn't lie there.
pub fn room_of(area: Area, structs: &[StructType], x: &Variable) -> Result<u32, NoMemory>
    ensures { IfOk result (λ n. n ≡ room_of_lem area (map struct_type_of structs.now) (variable_of x.now)) }
{
    if lies_in(area, x.home) {
        size_of(structs, &x.ty).ok_or(NoMemory)
    } else {
        Ok(0)
    }
}

/// The bytes of these variables in an area.
pub fn bytes_of(area: Area, structs: &[StructType], variables: &[Variable]) -> Result<u32, NoMemory>
    ensures { IfOk result (λ n. n ≡ bytes_of_lem area (map struct_type_of structs.now) (map variable_of variables.now)) }
{
    let mut bytes = 0u32;
    for x in variables {
        let room = room_of(area, structs, x)?;
        bytes = bytes.checked_add(room).ok_or(NoMemory)?;
    }
    Ok(bytes)
}

// The bytes of the frame of a function.
fn frame_size(
    structs: &[StructType],
    variables: &[Variable],
    function: &Function<()>,
) -> Result<u32, NoMemory>
    ensures { IfOk result (λ n. n ≡ frame_bytes (map struct_type_of structs.now) (map variable_of variables.now) (function_of function.now)) }
{
    bytes_of(Area::Frame, structs, function.own_variables(variables))
}

/// The bytes of the frames of these functions.
pub fn frame_sizes(
    alloc: Global,
    structs: &[StructType],
    variables: &[Variable],
    functions: &[Function<()>],
) -> Result<Vec<u32>, NoMemory>
    ensures { IfOk result (λ sizes. sizes.items ≡ map (frame_bytes (map struct_type_of structs.now) (map variable_of variables.now)) (map function_of functions.now)) }
{
    let mut sizes = Vec::new(alloc);
    for function in functions {
        sizes.push(frame_size(structs, variables, function)?)?;
    }
    Ok(sizes)
}
