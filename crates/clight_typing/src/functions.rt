//! The typed trees of functions (ISO/IEC 9899:1999, 6.9.1).
ghost use Rattle.std.specs.Prelude.{◌≡◌, ◌++◌, ◌+◌, [], IfOk, OnOk, length, map, nat_eq};
ghost use Rattle.std.specs.Option.{option_map};
ghost use Rattle.c_types.specs.Types.{type_of};
ghost use Rattle.clight_syntax.specs.Code.TypedViews.{function_of, stmts_of};
ghost use Rattle.clight_source.specs.Code.Views.{declared_of, header_of, parameters_of as parameters_source_of, local_of as local_source_of, stmts_of as sources_of, function_of as function_source_of};
ghost use Rattle.clight_types.specs.Declarations.{declared_type as declared_type_lem, parameters_of, signature_of};
ghost use Rattle.clight_typing.specs.Functions.{with_parameters, parameter_own, has_few_parameters, agrees as agrees_lem};
ghost use Rattle.clight_typing.specs.Code.HeldFile.{file_for, source_own};
ghost use Rattle.clight_typing.specs.Code.HeldFunction.{body_with, function_scope, taken_within, typed_parts as typed_parts_lem, parts_of, Function', with_end, typed_and_end};
ghost use Rattle.clight_typing.specs.Code.HeldOwn.{own_of};
ghost use Rattle.clight_typing.specs.Code.HeldScopes.{scope_of, file_names};
ghost use Rattle.clight_types.specs.Outcomes.{Gives};
ghost use Rattle.clight_typing.specs.Programs.{after_prototype};
ghost use Rattle.clight_types.specs.Scopes.{visible};
ghost use Rattle.clight_typing.specs.Statements.{is_among};
ghost use Rattle.clight_typing.specs.TypedPrograms.{asked as asked_lem, checked_types as checked_types_lem, typed_function as typed_function_lem};
ghost use Rattle.clight_typing.specs.TypedStatements.{typed_stmts as typed_stmts_lem};
ghost use Rattle.indexmap.specs.IndexSet.{contains};

use crate::files::{File, add_variables, number_of_all};
use crate::headers::{Own, agrees};
use crate::locals::{Variables, next_number};
use crate::scope::Scope;
use crate::statements::Body;
use crate::taken::set_of;
use c_types::Ty;
use cerco_base::{Fault, NoMemory, TypeKind};
use clight_source::tree::{self, Header, Parameters};
use clight_syntax::typed::{Function, Local, Stmt};
use clight_types::declared::declared_type;
use clight_types::judged::refused;
use indexmap::IndexSet;

/// The typed parts of a function.
#[derive(Drop)]
pub struct Parts {
    pub locals: Vec<Local>,
    pub body: Vec<Stmt<()>>,
    /// How many parameters it has.
    pub parameters: u32,
    /// The names and types of its parameters and locals.
    pub owns: Vec<Own>,
    /// Its variables whose address is taken.
    pub addressed: IndexSet<u32>,
}

/// What the header of a function says.
#[derive(Drop)]
pub struct Opening {
    /// The type of its result.
    pub result: Ty,
    /// The number of its first variable.
    pub first_variable: u32,
    /// Whether its parameters have 12 bytes at most.
    pub few: bool,
    /// Whether an earlier declaration, if there is one, gives it the same type.
    pub same: bool,
}

/// Refused with this kind where it doesn't hold.
pub fn asked(holds: bool, at: u32, kind: TypeKind) -> Result<(), Fault>
    ensures { Gives (λ y. y) result (asked_lem holds at kind) }
{
    if holds {
        return Ok(());
    }
    Err(refused(at, kind))
}

impl Scope {
    /// The statements of a function. Refused at the first node without a type.
    fn typed_body(
        &self,
        ty: &Ty,
        first_variable: u32,
        addressed: &IndexSet<u32>,
        xs: &[tree::Stmt],
    ) -> Result<Vec<Stmt<()>>, Fault>
        ensures { Gives (λ r. stmts_of r.items) result (typed_stmts_lem (body_with (scope_of self.now) (type_of ty.now) first_variable (contains nat_eq addressed.now)) (sources_of xs.now)) }
    {
        let body = Body {
            scope: self,
            result: ty,
            first_variable,
            addressed,
            in_loop: false,
        };
        body.typed_stmts(xs)
    }

    /// Declares the parameters of a function, of which the first has this number.
    fn enter(&mut self, first: u32, x: &Parameters) -> Result<Variables, NoMemory>
        ensures scope { OnOk result (scope_of self.new ≡ visible (scope_of self.old).structs (with_parameters (scope_of self.old).structs first (parameters_of (parameters_source_of x.now)) (file_names self.old))) }
        ensures names { OnOk result (file_names self.new ≡ file_names self.old) }
        ensures structs { OnOk result (self.new.structs ≡ self.old.structs) }
        ensures next { IfOk result (λ v. v.next ≡ first + length (parameters_of (parameters_source_of x.now))) }
        ensures owns { IfOk result (λ v. map own_of v.owns.items ≡ map (parameter_own (scope_of self.old).structs) (parameters_of (parameters_source_of x.now))) }
        ensures taken { IfOk result (λ v. v.taken.items ≡ []) }
    {
        self.forget_locals();
        let owns = self.owns(x)?;
        let mut variables = Variables {
            next: first,
            owns: Vec::new(self.alloc),
            taken: Vec::new(self.alloc),
        };
        self.declare_owns(&mut variables, owns)?;
        Ok(variables)
    }

    /// The locals and statements of a function, whose first variable has this number. Refused at the first node without a type.
    fn typed_parts(
        &mut self,
        first: u32,
        ty: &Ty,
        header: &Header,
        locals: Vec<tree::Local>,
        body: &[tree::Stmt],
    ) -> Result<Parts, Fault>
        ensures gives { Gives parts_of result (typed_parts_lem (scope_of self.old).structs first (file_names self.old) (type_of ty.now) (parameters_of (parameters_source_of header.now.parameters)) (map local_source_of locals.items) (sources_of body.now)) }
        ensures names { OnOk result (file_names self.new ≡ file_names self.old) }
        ensures structs { OnOk result (self.new.structs ≡ self.old.structs) }
        ensures parameters { IfOk result (λ r. r.parameters ≡ length (parameters_of (parameters_source_of header.now.parameters))) }
        ensures owns { IfOk result (λ r. map own_of r.owns.items ≡ map (parameter_own (scope_of self.old).structs) (parameters_of (parameters_source_of header.now.parameters)) ++ map (source_own (scope_of self.old).structs) (map local_source_of locals.items)) }
        ensures addressed { IfOk result (λ r. contains nat_eq r.addressed ≡ is_among (taken_within (scope_of self.old).structs first (file_names self.old) (parameters_of (parameters_source_of header.now.parameters)) (map local_source_of locals.items) (sources_of body.now))) }
    {
        let mut variables = self.enter(first, &header.parameters)?;
        let parameters = number_of_all(variables.owns.len())?;
        let locals = self.typed_locals(&mut variables, locals)?;
        self.add_stmts(body, &mut variables.taken)?;
        let addressed = set_of(self.alloc, &variables.taken)?;
        let body = self.typed_body(ty, first, &addressed, body)?;
        Ok(Parts {
            locals,
            body,
            parameters,
            owns: variables.owns,
            addressed,
        })
    }
}

impl File {
    /// The header of a function, which is declared by it. Refused at its first part without a type.
    fn open(&mut self, x: &Header) -> Result<Opening, Fault>
        ensures gives { Gives (λ o. tt) result (checked_types_lem (file_for self.old).structs (header_of x.now)) }
        ensures after { OnOk result (file_for self.new ≡ after_prototype (file_for self.old) (header_of x.now)) }
        ensures result_type { IfOk result (λ o. type_of o.result ≡ declared_type_lem (file_for self.old).structs (declared_of x.now.declared)) }
        ensures first { IfOk result (λ o. o.first_variable ≡ length (file_for self.old).variables) }
        ensures few { IfOk result (λ o. o.few ≡ has_few_parameters (file_for self.old).structs (signature_of (file_for self.old).structs (header_of x.now))) }
        ensures same { IfOk result (λ o. o.same ≡ agrees_lem ((file_for self.old).names x.now.declared.name.number) (signature_of (file_for self.old).structs (header_of x.now))) }
    {
        self.scope.checked_types(x)?;
        let signature = self.scope.signature(x)?;
        let few = self.scope.has_few_parameters(&signature);
        let same = agrees(self.scope.file.get(&x.declared.name.number), &signature);
        let first_variable = number_of_all(self.variables.len())?;
        let result = declared_type(self.scope.alloc, &self.scope.structs, &x.declared)?;
        self.declare_function(x)?;
        Ok(Opening {
            result,
            first_variable,
            few,
            same,
        })
    }

    /// A function. Refused at its first node without a type.
    pub fn typed_function(&mut self, f: tree::Function) -> Result<Function<()>, Fault>
        ensures { Gives (λ g. with_end (function_of g) (file_for self.new)) result (typed_and_end (file_for self.old) (function_source_of f)) }
    {
        let tree::Function {
            header,
            left,
            locals,
            body,
            right,
        } = f;
        let opening = self.open(&header)?;
        let first_variable = opening.first_variable;
        let parts = self
            .scope
            .typed_parts(first_variable, &opening.result, &header, locals, &body)?;
        let Parts {
            locals,
            body,
            parameters,
            owns,
            addressed,
        } = parts;
        asked(
            opening.few,
            header.declared.name.span.from,
            TypeKind::Params,
        )?;
        asked(
            opening.same,
            header.declared.name.span.from,
            TypeKind::Prototype,
        )?;
        add_variables(&mut self.variables, &addressed, first_variable, owns)?;
        self.functions = next_number(self.functions)?;
        Ok(Function {
            header,
            result: opening.result,
            first_variable,
            parameters,
            left,
            label: (),
            locals,
            body,
            right,
        })
    }
}
