//! The addresses of variables.
ghost use Rattle.std.specs.Prelude.{◌≡◌, ◌≤◌, ◌++◌, length, take, drop, map, OnOk, if◌then◌else◌};
ghost use Rattle.clight_layout.specs.declared.sizes.Area.TheVariants.{Frame};
ghost use Rattle.c_types.specs.Types.{struct_type_of};
ghost use Rattle.clight_syntax.specs.Code.TypedViews.{variable_of, function_of};
ghost use Rattle.clight_layout.specs.Frames.{lies_in as lies_in_lem, at_address, placed, with_frame as with_frame_lem, with_frames as with_frames_lem};

use crate::sizes::{Area, lies_in, room_of};
use c_types::StructType;
use cerco_base::NoMemory;
use clight_syntax::typed::{Function, Variable};

// Gives a variable its address, if it lies in the area.
fn set_address(area: Area, at: u32, x: &mut Variable) -> Result<(), NoMemory>
    ensures { OnOk result (variable_of x.new ≡ (if lies_in_lem area x.old.home then at_address at (variable_of x.old) else variable_of x.old)) }
{
    if lies_in(area, x.home) {
        if at > u16::MAX as u32 {
            return Err(NoMemory);
        }
        x.address = at as u16;
    }
    Ok(())
}

/// Places the variables of an area from an address on, one after the other. Want of memory where an address has more than two bytes.
pub fn place(
    area: Area,
    structs: &[StructType],
    from: u32,
    variables: &mut [Variable],
) -> Result<(), NoMemory>
    ensures { OnOk result (map variable_of variables.new ≡ placed area (map struct_type_of structs.now) from (map variable_of variables.old)) }
{
    let mut at = from;
    for x in variables.iter_mut() {
        let room = room_of(area, structs, x)?;
        set_address(area, at, x)?;
        at = at.checked_add(room).ok_or(NoMemory)?;
    }
    Ok(())
}

// Places the first so many of these variables, as the frame of their function.
fn place_front(
    structs: &[StructType],
    count: usize,
    from: u16,
    variables: &mut [Variable],
) -> Result<(), NoMemory>
    requires { count ≤ length variables.old }
    ensures { OnOk result (map variable_of variables.new ≡ placed Frame (map struct_type_of structs.now) from (map variable_of (take count variables.old)) ++ map variable_of (drop count variables.old)) }
{
    place(Area::Frame, structs, from as u32, &mut variables[..count])?;
    Ok(())
}

// Places the frame of a function whose variables begin at this number.
fn place_from(
    structs: &[StructType],
    first: usize,
    count: usize,
    from: u16,
    variables: &mut [Variable],
) -> Result<(), NoMemory>
    requires first { first ≤ length variables.old }
    requires count { count ≤ length (drop first variables.old) }
    ensures { OnOk result (map variable_of variables.new ≡ map variable_of (take first variables.old)
        ++ (placed Frame (map struct_type_of structs.now) from (map variable_of (take count (drop first variables.old))) ++ map variable_of (drop count (drop first variables.old)))) }
{
    place_front(structs, count, from, &mut variables[first..])?;
    Ok(())
}

// Places the frame of a function.
fn place_frame(
    structs: &[StructType],
    function: &Function<()>,
    from: u16,
    variables: &mut [Variable],
) -> Result<(), NoMemory>
    ensures { OnOk result (map variable_of variables.new ≡ with_frame_lem (map struct_type_of structs.now) (function_of function.now) from (map variable_of variables.old)) }
{
    let first = (function.first_variable as usize).min(variables.len());
    let count = function.own_count().min(variables.len() - first);
    place_from(structs, first, count, from, variables)?;
    Ok(())
}

/// Places the frames of functions, each from its address on.
pub fn place_frames(
    structs: &[StructType],
    functions: &[Function<()>],
    starts: &[u16],
    variables: &mut [Variable],
) -> Result<(), NoMemory>
    ensures { OnOk result (map variable_of variables.new ≡ with_frames_lem (map struct_type_of structs.now) (map function_of functions.now) starts.now (map variable_of variables.old)) }
{
    for (i, function) in functions.iter().enumerate() {
        match starts.get(i) {
            Some(from) => place_frame(structs, function, *from, variables)?,
            None => return Ok(()),
        }
    }
    Ok(())
}
