//! The typed head of a `for`, and the variable that takes a call's result (ISO/IEC 9899:1999, 6.5.2.2 and 6.8.5.3).
ghost use Rattle.std.specs.Prelude.{◌≡◌};
ghost use Rattle.std.specs.Option.{option_map};
ghost use Rattle.c_types.specs.Types.{type_of};
ghost use Rattle.clight_source.specs.Code.Views.{expr_of as source_of, assignment_of as assignment_source_of, for_head_of as for_source_of};
ghost use Rattle.clight_syntax.specs.Code.TypedViews.{assignment_of, cond_of};
ghost use Rattle.clight_types.specs.Code.Boxes.{in_optional_box};
ghost use Rattle.clight_typing.specs.Code.HeldTrees.{for_head_in};
ghost use Rattle.clight_typing.specs.Code.HeldBody.{body_for};
ghost use Rattle.clight_typing.specs.Code.HeldScopes.{scope_of, signature_for};
ghost use Rattle.clight_types.specs.Outcomes.{Gives};
ghost use Rattle.clight_typing.specs.Statements.{takes_result as takes_result_lem};
ghost use Rattle.clight_typing.specs.TypedStatements.{optional, typed_assignment as typed_assignment_lem, typed_for as typed_for_lem, typed_target as typed_target_lem};
ghost use Rattle.clight_types.specs.TypedExpressions.{typed_condition as typed_condition_lem};

use crate::scope::{Meaning, Scope, Signature};
use crate::statements::Body;
use cerco_base::{Fault, TypeKind};
use clight_source::tree::{self, CallTarget};
use clight_syntax::typed::{Assignment, ForHead, ResultTarget};
use clight_syntax::{Cond, Ty};
use clight_types::assignable::is_result_assignable;
use clight_types::boxes::{boxed, unboxed};
use clight_types::judged::refused;

impl Scope {
    /// An assignment, if there is one. Refused at its first node without a type.
    fn optional_assignment(
        &self,
        x: &Option<tree::Assignment>,
    ) -> Result<Option<Box<Assignment>>, Fault>
        ensures { Gives (λ r. option_map assignment_of (in_optional_box r)) result (optional (typed_assignment_lem (scope_of self.now)) (option_map assignment_source_of x.now)) }
    {
        match x {
            Some(assignment) => {
                let typed = self.typed_assignment(assignment)?;
                Ok(Some(boxed(self.alloc, typed)?))
            }
            None => Ok(None),
        }
    }

    /// A condition, if there is one. Refused at its first node without a type.
    fn optional_condition(&self, x: &Option<tree::Expr>) -> Result<Option<Box<Cond<()>>>, Fault>
        ensures { Gives (λ r. option_map cond_of (in_optional_box r)) result (optional (typed_condition_lem (scope_of self.now)) (option_map source_of x.now)) }
    {
        match x {
            Some(condition) => {
                let typed = self.typed_condition(condition)?;
                Ok(Some(typed))
            }
            None => Ok(None),
        }
    }

    /// `for (first; condition; step)`. Refused at its first node without a type.
    pub fn typed_for(&self, x: &tree::ForHead) -> Result<Box<ForHead<()>>, Fault>
        ensures { Gives for_head_in result (typed_for_lem (scope_of self.now) (for_source_of x.now)) }
    {
        let first = self.optional_assignment(&x.first)?;
        let condition = self.optional_condition(&x.condition)?;
        let step = self.optional_assignment(&x.step)?;
        let head = ForHead {
            keyword: x.keyword,
            left: x.left,
            first: unboxed(first),
            first_semicolon: x.first_semicolon,
            condition: unboxed(condition),
            second_semicolon: x.second_semicolon,
            step: unboxed(step),
            right: x.right,
        };
        Ok(boxed(self.alloc, head)?)
    }
}

impl Body<'_> {
    /// Whether a variable of this type takes the result of a call.
    fn takes_result(&self, signature: &Signature, variable: u32, ty: &Ty) -> bool
        ensures { result ≡ takes_result_lem (body_for self.now) (signature_for signature.now) variable (type_of ty.now) }
    {
        self.is_own(variable) && ty.is_scalar() && is_result_assignable(&signature.result, ty)
    }

    /// The variable that takes a call's result. Refused with `Call` where it can't.
    pub fn typed_target(&self, signature: &Signature, x: CallTarget) -> Result<ResultTarget, Fault>
        ensures { Gives (λ y. y) result (typed_target_lem (body_for self.now) (signature_for signature.now) x) }
    {
        match self.scope.look_up(x.name.number) {
            Some(Meaning::Object(variable, ty)) => {
                if !self.takes_result(signature, *variable, ty) {
                    return Err(refused(x.equals.from, TypeKind::Call));
                }
                Ok(ResultTarget {
                    variable: *variable,
                    target: x,
                })
            }
            _ => Err(refused(x.equals.from, TypeKind::Call)),
        }
    }
}
