//! The typed trees of calls, or the first node of one that has no type (ISO/IEC 9899:1999, 6.5.2.2).
ghost use Rattle.std.specs.Prelude.{◌≡◌, map};
ghost use Rattle.std.specs.Option.{option_map};
ghost use Rattle.clight_source.specs.Code.Views.{earlier_argument_of as earlier_source_of, arguments_of as arguments_source_of, call_of as call_source_of};
ghost use Rattle.clight_syntax.specs.Code.TypedViews.{earlier_argument_of, arguments_of, call_of};
ghost use Rattle.clight_typing.specs.Code.HeldBody.{body_for};
ghost use Rattle.clight_typing.specs.Code.HeldScopes.{scope_of, signature_for};
ghost use Rattle.clight_types.specs.Outcomes.{Gives};
ghost use Rattle.clight_typing.specs.TypedStatements.{optional, typed_earlier as typed_earlier_lem, typed_arguments as typed_arguments_lem, typed_target as typed_target_lem, call_place as call_place_lem, call_of as call_of_lem, typed_call as typed_call_lem};

use crate::scope::{Meaning, Scope, Signature};
use crate::statements::Body;
use cerco_base::{Fault, TypeKind};
use clight_source::tree::{self, CallTarget};
use clight_syntax::typed::{Arguments, Call, EarlierArgument, ResultTarget};
use clight_types::assignable::are_assignable;
use clight_types::boxes::boxed;
use clight_types::judged::refused;

impl Scope {
    /// The arguments before the last one. Refused at the first node without a type.
    fn typed_earlier(&self, xs: &[tree::EarlierArgument]) -> Result<Vec<EarlierArgument>, Fault>
        ensures { Gives (λ r. map earlier_argument_of r.items) result (typed_earlier_lem (scope_of self.now) (map earlier_source_of xs.now)) }
    {
        let mut typed = Vec::new(self.alloc);
        for x in xs {
            let value = self.typed_value(&x.value)?;
            typed.push(EarlierArgument {
                value: Box::into_inner(value),
                comma: x.comma,
            })?;
        }
        Ok(typed)
    }

    /// The arguments of a call. Refused at the first node without a type.
    fn typed_arguments(&self, x: &tree::Arguments) -> Result<Arguments, Fault>
        ensures { Gives arguments_of result (typed_arguments_lem (scope_of self.now) (arguments_source_of x.now)) }
    {
        match x {
            tree::Arguments::Nothing => Ok(Arguments::Nothing),
            tree::Arguments::Listed(earlier, last) => {
                let others = self.typed_earlier(earlier)?;
                let e = self.typed_value(last)?;
                Ok(Arguments::Listed(others, Box::into_inner(e)))
            }
        }
    }
}

/// The place of a call: the `=` behind its target, or its first token where it has none.
fn call_place(x: &tree::Call) -> u32
    ensures { result ≡ call_place_lem (call_source_of x.now) }
{
    match x.target {
        None => x.function.span.from,
        Some(target) => target.equals.from,
    }
}

impl Body<'_> {
    /// The variable that takes a call's result, if the call has one. Refused with `Call` where it can't.
    fn optional_target(
        &self,
        signature: &Signature,
        x: Option<CallTarget>,
    ) -> Result<Option<ResultTarget>, Fault>
        ensures { Gives (λ y. y) result (optional (typed_target_lem (body_for self.now) (signature_for signature.now)) x) }
    {
        match x {
            Some(target) => {
                let typed = self.typed_target(signature, target)?;
                Ok(Some(typed))
            }
            None => Ok(None),
        }
    }

    /// A call whose arguments are typed. Refused with `Call` where its name is no function, or the function doesn't take the
    /// arguments, or the target can't take its result.
    fn call_of(&self, x: &tree::Call, arguments: Box<Arguments>) -> Result<Call, Fault>
        ensures { Gives call_of result (call_of_lem (body_for self.now) (call_source_of x.now) (arguments_of arguments.value) ((scope_of self.now.scope.now).meaning x.now.function.number)) }
    {
        match self.scope.look_up(x.function.number) {
            Some(Meaning::Code(function, signature)) => {
                if !are_assignable(&arguments, &signature.parameters) {
                    return Err(refused(call_place(x), TypeKind::Call));
                }
                let target = self.optional_target(signature, x.target)?;
                Ok(Call {
                    target,
                    function: *function,
                    name: x.function,
                    left: x.left,
                    arguments: Box::into_inner(arguments),
                    right: x.right,
                })
            }
            _ => Err(refused(call_place(x), TypeKind::Call)),
        }
    }

    /// A call. Refused at its first node without a type.
    pub fn typed_call(&self, x: &tree::Call) -> Result<Call, Fault>
        ensures { Gives call_of result (typed_call_lem (body_for self.now) (call_source_of x.now)) }
    {
        let arguments = self.scope.typed_arguments(&x.arguments)?;
        let arguments = boxed(self.scope.alloc, arguments)?;
        self.call_of(x, arguments)
    }
}
