//! Values in boxes.
ghost use Rattle.std.specs.Prelude.{◌≡◌, IfOk};
ghost use Rattle.clight_types.specs.Code.Boxes.{in_optional_box};

use cerco_base::NoMemory;
use std::alloc::Global;

/// A value in a box.
pub fn boxed<T: Drop>(alloc: Global, x: T) -> Result<Box<T>, NoMemory>
    ensures { IfOk result (λ b. b.value ≡ x) }
{
    Ok(Box::new(alloc, x)?)
}

/// What a box holds, if there is one.
pub fn unboxed<T>(x: Option<Box<T>>) -> Option<T>
    ensures { result ≡ in_optional_box x }
{
    match x {
        None => None,
        Some(x) => Some(Box::into_inner(x)),
    }
}
