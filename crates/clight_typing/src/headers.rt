//! The types of functions, and whether they may be declared so (ISO/IEC 9899:1999, 6.7.5.3 and 6.9.1).
ghost use Rattle.std.specs.Prelude.{◌≡◌, IfOk, map};
ghost use Rattle.std.specs.Option.{option_map};
ghost use Rattle.c_types.specs.Types.{type_of};
ghost use Rattle.clight_source.specs.Code.Views.{declared_of, parameters_of as parameters_source_of, header_of};
ghost use Rattle.clight_types.specs.Declarations.{parameters_of, signature_of as signature_of_lem, declared_type as declared_type_lem};
ghost use Rattle.clight_typing.specs.Functions.{parameter_own, has_few_parameters as has_few_parameters_lem, signature_eq, agrees as agrees_lem, is_void as is_void_lem};
ghost use Rattle.clight_typing.specs.Code.HeldOwn.{listed, own_of};
ghost use Rattle.clight_typing.specs.Code.HeldScopes.{scope_of, signature_for, meaning_for};
ghost use Rattle.clight_types.specs.Outcomes.{Gives};
ghost use Rattle.clight_typing.specs.TypedPrograms.{result_words as result_words_lem, checked_result as checked_result_lem, checked_parameter as checked_parameter_lem, checked_parameters as checked_parameters_lem, checked_types as checked_types_lem, few_parameters as few_parameters_lem, checked_prototype as checked_prototype_lem};

use crate::scope::{Meaning, Scope, Signature};
use c_types::Ty;
use cerco_base::{Fault, NoMemory, TypeKind};
use clight_source::tree::{Declared, EarlierParameter, Header, Name, Parameters};
use clight_types::declared::{declared_start, declared_type};
use clight_types::judged::{refused, words_start};
use clight_types::members::named_type;
use clight_types::parameters::{are_same_types, parameter_bytes};
use std::alloc::Global;

/// A parameter or local: its name and its type.
#[derive(Drop)]
pub struct Own {
    pub name: Name,
    pub ty: Ty,
}

/// Whether a type is `void`.
pub fn is_void(ty: &Ty) -> bool
    ensures { result ≡ is_void_lem (type_of ty.now) }
{
    match ty {
        Ty::Void => true,
        _ => false,
    }
}

impl Scope {
    /// The words of a result. Refused with `Void` or `Long` where they may not stand.
    fn result_words(&self, x: &Declared) -> Result<(), Fault>
        ensures { Gives (λ y. y) result (result_words_lem (Rattle.clight_types.specs.Declarations.named_type (scope_of self.now).structs (declared_of x.now).specifiers) (declared_of x.now).stars (declared_of x.now).specifiers) }
    {
        if !x.stars.is_empty() {
            let _words = self.object_words(x.specifiers)?;
            return Ok(());
        }
        let ty = named_type(&self.structs, x.specifiers)?;
        match ty {
            Ty::I32 | Ty::U32 => Err(refused(words_start(x.specifiers), TypeKind::Long)),
            _ => Ok(()),
        }
    }

    /// A function's result. Refused with `Void` or `Long` at its words, or with `Value` where it is a struct.
    fn checked_result(&self, x: &Declared) -> Result<(), Fault>
        ensures { Gives (λ y. y) result (checked_result_lem (scope_of self.now).structs (declared_of x.now)) }
    {
        self.result_words(x)?;
        let ty = declared_type(self.alloc, &self.structs, x)?;
        if ty.is_scalar() || is_void(&ty) {
            return Ok(());
        }
        Err(refused(declared_start(x), TypeKind::Value))
    }

    /// A parameter. Refused with `Void` or `Long` at its words, or with `Value` where it is a struct.
    fn checked_parameter(&self, x: &Declared) -> Result<(), Fault>
        ensures { Gives (λ y. y) result (checked_parameter_lem (scope_of self.now).structs (declared_of x.now)) }
    {
        let _words = self.object_words(x.specifiers)?;
        let ty = declared_type(self.alloc, &self.structs, x)?;
        if ty.is_scalar() {
            return Ok(());
        }
        Err(refused(declared_start(x), TypeKind::Value))
    }

    /// Parameters in order. Refused at the first one without a type.
    fn checked_parameters(&self, x: &Parameters) -> Result<(), Fault>
        ensures { Gives (λ y. y) result (checked_parameters_lem (scope_of self.now).structs (parameters_of (parameters_source_of x.now))) }
    {
        match x {
            Parameters::Void(_) => Ok(()),
            Parameters::Listed(earlier, last) => self.checked_listed(earlier, last),
        }
    }

    /// Parameters in order. Refused at the first one without a type.
    fn checked_listed(&self, earlier: &[EarlierParameter], last: &Declared) -> Result<(), Fault>
        ensures { Gives (λ y. y) result (checked_parameters_lem (scope_of self.now).structs (listed earlier.now last.now)) }
    {
        for x in earlier {
            self.checked_parameter(&x.parameter)?;
        }
        self.checked_parameter(last)
    }

    /// The parts of a header. Refused at the first one without a type.
    pub fn checked_types(&self, x: &Header) -> Result<(), Fault>
        ensures { Gives (λ y. y) result (checked_types_lem (scope_of self.now).structs (header_of x.now)) }
    {
        self.checked_result(&x.declared)?;
        self.checked_parameters(&x.parameters)
    }
}

impl Scope {
    /// A parameter by its name and type.
    fn own(&self, x: &Declared) -> Result<Own, NoMemory>
        ensures { IfOk result (λ r. own_of r ≡ parameter_own (scope_of self.now).structs (declared_of x.now)) }
    {
        Ok(Own {
            name: x.name,
            ty: declared_type(self.alloc, &self.structs, x)?,
        })
    }

    /// Parameters by their names and types, in order.
    fn listed_owns(
        &self,
        earlier: &[EarlierParameter],
        last: &Declared,
    ) -> Result<Vec<Own>, NoMemory>
        ensures { IfOk result (λ r. map own_of r.items ≡ map (parameter_own (scope_of self.now).structs) (listed earlier.now last.now)) }
    {
        let mut owns = Vec::new(self.alloc);
        for x in earlier {
            owns.push(self.own(&x.parameter)?)?;
        }
        owns.push(self.own(last)?)?;
        Ok(owns)
    }

    /// Parameters by their names and types, in order.
    pub fn owns(&self, x: &Parameters) -> Result<Vec<Own>, NoMemory>
        ensures { IfOk result (λ r. map own_of r.items ≡ map (parameter_own (scope_of self.now).structs) (parameters_of (parameters_source_of x.now))) }
    {
        match x {
            Parameters::Void(_) => Ok(Vec::new(self.alloc)),
            Parameters::Listed(earlier, last) => self.listed_owns(earlier, last),
        }
    }

    /// The types of the result and the parameters of a function.
    pub fn signature(&self, x: &Header) -> Result<Signature, NoMemory>
        ensures { IfOk result (λ r. signature_for r ≡ signature_of_lem (scope_of self.now).structs (header_of x.now)) }
    {
        let owns = self.owns(&x.parameters)?;
        let parameters = types_of(self.alloc, owns)?;
        let ty = declared_type(self.alloc, &self.structs, &x.declared)?;
        Ok(Signature {
            result: ty,
            parameters,
        })
    }

    /// Whether the parameters of a function have 12 bytes at most.
    pub fn has_few_parameters(&self, signature: &Signature) -> bool
        ensures { result ≡ has_few_parameters_lem (scope_of self.now).structs (signature_for signature.now) }
    {
        parameter_bytes(&self.structs, &signature.parameters) <= 12
    }

    /// A prototype. Refused at its first part without a type, or with `Params` where its parameters have more than 12 bytes.
    pub fn checked_prototype(&self, x: &Header) -> Result<(), Fault>
        ensures { Gives (λ y. y) result (checked_prototype_lem (scope_of self.now).structs (header_of x.now)) }
    {
        self.checked_types(x)?;
        let signature = self.signature(x)?;
        if self.has_few_parameters(&signature) {
            return Ok(());
        }
        Err(refused(x.declared.name.span.from, TypeKind::Params))
    }
}

/// The types of parameters, in order.
fn types_of(alloc: Global, owns: Vec<Own>) -> Result<Vec<Ty>, NoMemory>
    ensures { IfOk result (λ r. map type_of r.items ≡ map (λ own. own.type) (map own_of owns.items)) }
{
    let mut types = Vec::new(alloc);
    for own in owns {
        types.push(own.ty)?;
    }
    Ok(types)
}

/// Whether two functions have the same types.
fn is_same_signature(left: &Signature, right: &Signature) -> bool
    ensures { result ≡ signature_eq (signature_for left.now) (signature_for right.now) }
{
    left.result.is_same(&right.result) && are_same_types(&left.parameters, &right.parameters)
}

/// Whether an earlier declaration of a function, if there is one, gives it this type.
pub fn agrees(earlier: Option<&Meaning>, signature: &Signature) -> bool
    ensures { result ≡ agrees_lem (option_map (λ x. meaning_for x.now) earlier.entry) (signature_for signature.now) }
{
    match earlier {
        Some(Meaning::Code(_, found)) => is_same_signature(found, signature),
        _ => true,
    }
}
