//! Cost labels: where they stand in a program, the annotations that pass them, and the program without them.
#![tactic(auto)]

ghost use Rattle.std.specs.Prelude.{◌≡◌, ◌∷◌, ℕ, map, IfOk};
ghost use Rattle.std.specs.List.{flat_map};
ghost use Rattle.cerco_base.specs.declared.events.Label.{Label};
ghost use Rattle.clight_syntax.specs.Annotations.{AreInOrder, AreNumberedInOrder, BeginWithStart, labels_in};
ghost use Rattle.clight_syntax.specs.TypedSpans.{AreAscending, code_spans};
ghost use Rattle.clight_syntax.specs.TypedTrees.{TypedProgram as TypedTree};
ghost use Rattle.clight_syntax.specs.declared.points.Piece.TheVariants as P;
ghost use Rattle.clight_syntax.specs.Code.TypedViews.{function_of, program_of, labelled_of};
ghost use Rattle.clight_syntax.specs.Labelling.{IsLabelled, without_labels, function_without, function_points, point, points_of};

mod boxes;
mod conditions;
mod copies;
mod declarations;
mod functions;
mod marker;
mod parts;
mod places;
mod statements;
mod unlabelled;

use crate::declarations::{copy_items, copy_struct_types, copy_variables};
use crate::functions::label_functions;
use crate::marker::Marker;
use crate::unlabelled::functions_alone;
use cerco_base::{Label, NoMemory};
use clight_syntax::typed::{Function, TypedProgram};
use clight_syntax::{Labelled, Piece, Points, Typed};
use std::alloc::Global;

// Gives the functions of a program their cost labels, and the annotations that pass them.
fn label_all(
    alloc: Global,
    functions: Vec<Function<()>>,
) -> Result<(Vec<Function<Label>>, Points), NoMemory>
    ensures alone { IfOk result (λ r. map function_without (map function_of r.0.items) ≡ map function_of functions.items) }
    ensures points { IfOk result (λ r. r.1 ≡ point 0 P.Start ∷ flat_map function_points (map function_of r.0.items)) }
    ensures numbered { IfOk result (λ r. AreNumberedInOrder (labels_in r.1)) }
{
    let mut marker = Marker::new(alloc);
    marker.add(0, Piece::Start)?;
    let functions = label_functions(alloc, functions, &mut marker)?;
    let Marker { points, count: _ } = marker;
    Ok((functions, points))
}

// Gives a program its cost labels, and the annotations that pass them.
fn give_labels(alloc: Global, typed: Typed) -> Result<Labelled, NoMemory>
    ensures labelled { IfOk result (λ r. IsLabelled (program_of typed) (labelled_of r)) }
    ensures points { IfOk result (λ r. r.points ≡ points_of (labelled_of r)) }
{
    let TypedProgram {
        names,
        items,
        span,
        structs,
        variables,
        functions,
        main,
        frames,
        data_bytes,
        calls,
    } = typed;
    let (functions, points) = label_all(alloc, functions)?;
    Ok(Labelled {
        program: TypedProgram {
            names,
            items,
            span,
            structs,
            variables,
            functions,
            main,
            frames,
            data_bytes,
            calls,
        },
        points,
    })
}

/// Gives a program its cost labels, and the annotations that pass them.
///
/// # Errors
///
/// Out of memory, also where the program has more labels than a `Label` can name. The program is dropped then.
pub fn label(alloc: Global, typed: Typed) -> Result<Labelled, NoMemory>
    // Without its labels it is the program that was handed in, and its labels are 0, 1, 2 and so on by their place in the
    // annotated text.
    ensures labelled { IfOk result (λ r. IsLabelled (program_of typed) (labelled_of r)) }

    // No other program is so.
    ensures once { IfOk result (λ r. (other : TypedTree Label) → IsLabelled (program_of typed) other → other ≡ labelled_of r) }

    // The annotations are those of the program, in the order of the annotated text.
    ensures points { IfOk result (λ r. r.points ≡ points_of (labelled_of r)) }

    // They stand in the order of the source where its tokens do.
    ensures ordered { IfOk result (λ r. (size : ℕ) → AreAscending 0 (code_spans (program_of typed)) size → AreInOrder size r.points) }

    // The first one, and no other, declares the cost variable.
    ensures begins { IfOk result (λ r. BeginWithStart r.points) }
{
    let labelled = give_labels(alloc, typed)?;
    Ok(labelled)
}

/// A copy of a program without its labels.
///
/// # Errors
///
/// Out of memory.
pub fn unlabel(alloc: Global, labelled: &Labelled) -> Result<Typed, NoMemory>
    ensures { IfOk result (λ r. program_of r ≡ without_labels (labelled_of labelled.now)) }
{
    let program = &labelled.program;
    let names = program.names.duplicate()?;
    let calls = program.calls.duplicate()?;
    let frames = program.frames.clone()?;
    let items = copy_items(alloc, program.items.as_slice())?;
    let structs = copy_struct_types(alloc, program.structs.as_slice())?;
    let variables = copy_variables(alloc, program.variables.as_slice())?;
    let functions = functions_alone(alloc, program.functions.as_slice())?;
    Ok(TypedProgram {
        names,
        items,
        span: program.span,
        structs,
        variables,
        functions,
        main: program.main,
        frames,
        data_bytes: program.data_bytes,
        calls,
    })
}

/// The program that is left when labels are given and taken away again: the same.
///
/// # Errors
///
/// Out of memory, as of `label` and `unlabel`.
pub fn label_and_unlabel(alloc: Global, typed: Typed) -> Result<Typed, NoMemory>
    ensures { IfOk result (λ r. program_of r ≡ program_of typed) }
{
    let labelled = label(alloc, typed)?;
    unlabel(alloc, &labelled)
}
