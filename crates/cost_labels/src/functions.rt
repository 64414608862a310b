//! The labels of functions.
ghost use Rattle.std.specs.Prelude.{◌≡◌, ◌++◌, ◌∷◌, map, IfOk};
ghost use Rattle.std.specs.List.{flat_map};
ghost use Rattle.clight_syntax.specs.Code.TypedViews.{function_of, stmts_of};
ghost use Rattle.clight_syntax.specs.Labelling.{function_without, function_points, stmts_without, stmts_points, point};
ghost use Rattle.clight_syntax.specs.declared.points.Piece.TheVariants as P;

use crate::marker::Marker;
use crate::parts::Part;
use crate::statements::label_stmts;
use cerco_base::{Label, NoMemory};
use clight_syntax::typed::{Function, Stmt};
use std::alloc::Global;

// Gives the start of a function, after the place of its `{`, and its statements their labels.
fn label_start(
    alloc: Global,
    at: u32,
    body: Vec<Stmt<()>>,
    marker: &mut Marker,
) -> Result<(Label, Vec<Stmt<Label>>), NoMemory>
    ensures alone { IfOk result (λ r. stmts_without (stmts_of r.1.items) ≡ stmts_of body.items) }
    ensures points { IfOk result (λ r. marker.new.points ≡ marker.old.points ++ point at (P.After r.0) ∷ stmts_points (stmts_of r.1.items)) }
{
    let label = marker.give(at, Part::After)?;
    let body = label_stmts(alloc, body, marker)?;
    Ok((label, body))
}

// Gives a function its labels.
fn label_function(
    alloc: Global,
    function: Function<()>,
    marker: &mut Marker,
) -> Result<Function<Label>, NoMemory>
    ensures alone { IfOk result (λ f. function_without (function_of f) ≡ function_of function) }
    ensures points { IfOk result (λ f. marker.new.points ≡ marker.old.points ++ function_points (function_of f)) }
{
    let Function {
        header,
        result: ty,
        first_variable,
        parameters,
        left,
        label: (),
        locals,
        body,
        right,
    } = function;
    let (label, body) = label_start(alloc, left.to, body, marker)?;
    Ok(Function {
        header,
        result: ty,
        first_variable,
        parameters,
        left,
        label,
        locals,
        body,
        right,
    })
}

/// Gives the functions their labels.
pub fn label_functions(
    alloc: Global,
    functions: Vec<Function<()>>,
    marker: &mut Marker,
) -> Result<Vec<Function<Label>>, NoMemory>
    ensures alone { IfOk result (λ fs. map function_without (map function_of fs.items) ≡ map function_of functions.items) }
    ensures points { IfOk result (λ fs. marker.new.points ≡ marker.old.points ++ flat_map function_points (map function_of fs.items)) }
{
    let mut labelled = Vec::new(alloc);
    for function in functions {
        labelled.push(label_function(alloc, function, marker)?)?;
    }
    Ok(labelled)
}
