//! A run, step by step, with what is left to do as a list of work.
ghost use Rattle.std.specs.Prelude.{◌≡◌, ℕ, ◌∷◌, IfOk, MatchOption, Ok, OnOk, Result, if◌then◌else◌, List, MatchResult, map, option_copied, option_map, slice_get};
ghost use Rattle.c_types.specs.Conversions.{unsigned_char};
ghost use Rattle.cerco_base.specs.Events.{next_reading};
ghost use Rattle.c_types.specs.Types.{type_of};
ghost use Rattle.clight_syntax.specs.TypedTrees.{type_at};
ghost use Rattle.clight_syntax.specs.Code.TypedViews.{assignment_of, call_of, cond_of, expr_of, function_of, program_of, stmt_of};
ghost use Rattle.clight_meaning.specs.Expressions as x;
ghost use Rattle.clight_meaning.specs.Meaning as e;
ghost use Rattle.clight_meaning.specs.Code.Evaluation as n;
ghost use Rattle.clight_values.specs.Memory.{State as HeldState};
ghost use Rattle.clight_meaning.specs.Code.Holding.{condition_held, Does, Enters, Pops, Pushes, work_held, works_held, way_held};
ghost use Rattle.clight_meaning.specs.Code.Turns.{Tells, rest_held};
ghost use Rattle.clight_values.specs.Code.Views.{Makes};
ghost use Rattle.clight_meaning.specs.Code.Views.{frame_held, state_held};
ghost use Rattle.cerco_base.specs.declared.events.FaultKind.{FaultKind};

use crate::calls::Missing;
use crate::state::{Frame, State, type_at};
use crate::statements::{converted_to, initial_of};
use crate::turn::Turn;
use c_types::{IntegerType, Ty};
use cerco_base::{Event, FaultKind, Label, NoMemory, Port};
use clight_syntax::typed::{
    Assignment, Call, Cond, Expr, ForHead, Function, ResultTarget, Stmt, Test, TypedProgram,
};
use clight_values::integer::low_byte;
use clight_values::lookup::item_at;
use clight_values::value::Value;
use std::alloc::Global;

/// How a statement is left, but by its end.
#[derive(Clone, Copy)]
pub(crate) enum Way {
    Break,
    Continue,
    Return(Value),
}

/// What is to be done with a statement.
#[derive(Clone, Copy)]
pub(crate) enum Task {
    Run,
    /// What comes after the body of this loop.
    Turn,
    /// The outcome of its condition is waited for.
    Choose,
}

/// What is to be done with a condition.
#[derive(Clone, Copy)]
pub(crate) enum Part {
    Check,
    /// It is the right operand of `&&`. The labels behind the left one, where that is true and where it is false.
    AndThen(Label, Label),
    /// The same of `||`.
    OrElse(Label, Label),
}

/// A part of what is left to do.
#[derive(Drop)]
pub(crate) enum Work<'a> {
    Statement(Task, &'a Stmt<Label>),
    /// What is left of a block.
    All(&'a [Stmt<Label>]),
    Condition(Part, &'a Cond<Label>),
    Outcome(bool),
    Negation,
    /// A label that is due.
    Pass(Label),
    /// The caller: the target and the type of the result, the label behind the call, and its frame.
    Caller(Option<ResultTarget>, &'a Ty, Label, Frame<'a>),
    /// A result that the running call takes.
    Take(Option<ResultTarget>, &'a Ty, Value),
    Leave(Way),
    /// A fault that was met.
    Faulty(FaultKind),
}

/// A run.
#[derive(Drop)]
pub(crate) struct Running<'a> {
    pub(crate) alloc: Global,
    pub(crate) program: &'a TypedProgram<Label>,
    pub(crate) state: State<'a>,
    /// What is left to do, the newest last.
    pub(crate) work: Vec<Work<'a>>,
}

impl<'a> Running<'a> {
    /// Puts some work before all other.
    #[tactic(auto, using(crate::proofs::Stacks::work_laws))]
    pub(crate) fn push(&mut self, work: Work<'a>) -> Result<(), NoMemory>
        ensures { OnOk result (Pushes (work_held work.entry) self.old self.new) }
    {
        self.work.push(work)?;
        Ok(())
    }

    /// Takes the first work away.
    #[tactic(auto, using(crate::proofs::Stacks::work_laws))]
    fn pop(&mut self) -> Option<Work<'a>>
        ensures { Pops result self.old self.new }
    {
        self.work.pop()
    }

    /// A fault is met. It is met again from then on.
    fn fault(&mut self, kind: FaultKind) -> Result<Option<Turn>, NoMemory>
        ensures { IfOk result (λ t. Does (n.Fails kind) t self.old self.new) }
    {
        self.push(Work::Faulty(kind))?;
        Ok(Some(Turn::Fault(kind)))
    }

    /// The run is over.
    #[tactic(auto, using(crate::proofs::Stacks::work_laws))]
    fn end(&mut self) -> Option<Turn>
        ensures { Does n.Ends result self.old self.new }
    {
        self.work.clear();
        Some(Turn::Ended)
    }

    /// Nothing is seen, unless there was a fault.
    fn quietly(&mut self, done: Result<(), FaultKind>) -> Result<Option<Turn>, NoMemory>
        ensures { (made : Result HeldState FaultKind) → Makes made (state_held self.old.state) done → IfOk result (λ t. Does (n.quietly (works_held self.old.work.items) made) t self.old self.new) }
    {
        match done {
            Err(kind) => self.fault(kind),
            Ok(()) => Ok(None),
        }
    }

    /// Waits for the outcome of the condition of a statement.
    fn choose(
        &mut self,
        s: &'a Stmt<Label>,
        condition: &'a Cond<Label>,
    ) -> Result<Option<Turn>, NoMemory>
        ensures { IfOk result (λ t. Does (n.Silent (n.Check (cond_of condition.now) ∷ n.Wait (n.Chooser (stmt_of s.now)) ∷ works_held self.old.work.items) (state_held self.old.state)) t self.old self.new) }
    {
        self.push(Work::Statement(Task::Choose, s))?;
        self.push(Work::Condition(Part::Check, condition))?;
        Ok(None)
    }

    /// The body of a loop begins.
    fn enter_body(&mut self, s: &'a Stmt<Label>, body: &'a Stmt<Label>) -> Result<(), NoMemory>
        ensures { OnOk result (Enters (stmt_of s.now) (stmt_of body.now) self.old self.new) }
    {
        self.push(Work::Statement(Task::Turn, s))?;
        self.push(Work::Statement(Task::Run, body))?;
        Ok(())
    }
}

impl<'a> Running<'a> {
    /// Runs an assignment.
    fn assign(&mut self, assignment: &'a Assignment) -> Result<Option<Turn>, NoMemory>
        ensures { IfOk result (λ t. Does (n.quietly (works_held self.old.work.items) (e.assigned (program_of self.old.program.now) (assignment_of assignment.now) (state_held self.old.state))) t self.old self.new) }
    {
        match self.state.assign(self.program, assignment) {
            Err(kind) => self.fault(kind),
            Ok(()) => Ok(None),
        }
    }

    /// Reads the port into a place.
    fn read(&mut self, target: &'a Expr) -> Result<Option<Turn>, NoMemory>
        ensures { IfOk result (λ t. Does (n.after_read (next_reading (state_held self.old.state).script) (works_held self.old.work.items) (e.assigned_to (type_at (expr_of target.now)) (x.position (program_of self.old.program.now) (expr_of target.now) (e.after_reading (state_held self.old.state))) unsigned_char (Ok (Value.Integer (next_reading (state_held self.old.state).script))) (e.after_reading (state_held self.old.state)))) t self.old self.new) }
    {
        let byte = self.state.read();
        let position = self.state.position(self.program, target);
        let from = Ty::U8;
        let value = Ok(Value::Integer(u32::from(byte)));
        let event = Some(Turn::Event(Event::Read(Port::P1, byte)));
        match self
            .state
            .assign_to(type_at(target), position, &from, value)
        {
            Err(kind) => {
                self.push(Work::Faulty(kind))?;
                Ok(event)
            }
            Ok(()) => Ok(event),
        }
    }

    /// Gives a result back.
    fn give_back(&mut self, expression: &'a Expr) -> Result<Option<Turn>, NoMemory>
        ensures { IfOk result (λ t. Does (n.given_back (works_held self.old.work.items) (state_held self.old.state) (e.converted_answer (type_at (expr_of expression.now)) (state_held self.old.state).frame.result (x.value (program_of self.old.program.now) (expr_of expression.now) (state_held self.old.state)))) t self.old self.new) }
    {
        let value = self.state.value(self.program, expression);
        match converted_to(type_at(expression), self.state.frame.result, value) {
            Err(kind) => self.fault(kind),
            Ok(value) => {
                self.push(Work::Leave(Way::Return(value)))?;
                Ok(None)
            }
        }
    }

    /// Checks a condition.
    fn check(&mut self, condition: &'a Cond<Label>) -> Result<Option<Turn>, NoMemory>
        ensures { IfOk result (λ t. Does (n.checked (program_of self.old.program.now) (cond_of condition.now) (works_held self.old.work.items) (state_held self.old.state)) t self.old self.new) }
    {
        match condition {
            Cond::Value(expression) => self.check_value(expression),
            Cond::Parenthesis(_, inner, _) => {
                self.push(Work::Condition(Part::Check, inner))?;
                Ok(None)
            }
            Cond::Not(_, inner) => {
                self.push(Work::Negation)?;
                self.push(Work::Condition(Part::Check, inner))?;
                Ok(None)
            }
            Cond::Both(left, _, on_true, on_false, right) => {
                self.push(Work::Condition(Part::AndThen(*on_true, *on_false), right))?;
                self.push(Work::Condition(Part::Check, left))?;
                Ok(None)
            }
            Cond::Either(left, _, on_true, on_false, right) => {
                self.push(Work::Condition(Part::OrElse(*on_true, *on_false), right))?;
                self.push(Work::Condition(Part::Check, left))?;
                Ok(None)
            }
        }
    }

    fn check_value(&mut self, expression: &'a Expr) -> Result<Option<Turn>, NoMemory>
        ensures { IfOk result (λ t. Does (n.outcome_of (works_held self.old.work.items) (state_held self.old.state) (e.truth_of (state_held self.old.state).memory (x.value (program_of self.old.program.now) (expr_of expression.now) (state_held self.old.state)))) t self.old self.new) }
    {
        match self.state.value(self.program, expression) {
            Err(kind) => self.fault(kind),
            Ok(value) => match self.state.memory.is_true(value) {
                Err(kind) => self.fault(kind),
                Ok(b) => {
                    self.push(Work::Outcome(b))?;
                    Ok(None)
                }
            },
        }
    }
}

impl<'a> Running<'a> {
    /// Calls a function with these arguments.
    #[tactic(auto, using(crate::proofs::Stacks::work_laws))]
    fn begin(
        &mut self,
        function: &'a Function<Label>,
        arguments: Vec<Value>,
        target: Option<ResultTarget>,
        back: Label,
    ) -> Result<Option<Turn>, NoMemory>
        ensures { IfOk result (λ t. Does (n.begun (function_of function.now) (n.Caller target (type_of function.now.result) back (state_held self.old.state).frame ∷ works_held self.old.work.items) (e.prepared (program_of self.old.program.now) (function_of function.now) (e.entered (program_of self.old.program.now) (function_of function.now) arguments.items (state_held self.old.state)))) t self.old self.new) }
    {
        let frame = self
            .state
            .enter(self.alloc, self.program, function, arguments)?;
        self.push(Work::Caller(target, &function.result, back, frame))?;
        let event = Some(Turn::Event(Event::Label(function.label)));
        match self.state.prepare(self.program, function) {
            Err(kind) => {
                self.push(Work::Faulty(kind))?;
                Ok(event)
            }
            Ok(()) => {
                self.push(Work::All(function.body.as_slice()))?;
                Ok(event)
            }
        }
    }

    /// A turn of a `for` begins.
    fn turn_for(
        &mut self,
        s: &'a Stmt<Label>,
        condition: &'a Option<Cond<Label>>,
        label: Label,
        body: &'a Stmt<Label>,
    ) -> Result<Option<Turn>, NoMemory>
        ensures { IfOk result (λ t. Does (n.for_turned (option_map cond_of condition.now) label (stmt_of body.now) (stmt_of s.now) (works_held self.old.work.items) (state_held self.old.state)) t self.old self.new) }
    {
        match condition {
            Some(condition) => self.choose(s, condition),
            None => {
                self.enter_body(s, body)?;
                Ok(Some(Turn::Event(Event::Label(label))))
            }
        }
    }

    /// An assignment of the head of a `for`, and then a turn.
    fn begin_for(
        &mut self,
        s: &'a Stmt<Label>,
        assignment: &'a Option<Assignment>,
        condition: &'a Option<Cond<Label>>,
        label: Label,
        body: &'a Stmt<Label>,
    ) -> Result<Option<Turn>, NoMemory>
        ensures { IfOk result (λ t. Does (n.for_begun (option_map cond_of condition.now) label (stmt_of body.now) (stmt_of s.now) (works_held self.old.work.items) (e.assigned_if_any (program_of self.old.program.now) (option_map assignment_of assignment.now) (state_held self.old.state))) t self.old self.new) }
    {
        match self.state.assign_if_any(self.program, assignment) {
            Err(kind) => self.fault(kind),
            Ok(()) => self.turn_for(s, condition, label, body),
        }
    }

    /// What comes after the body of a loop.
    fn turn(&mut self, s: &'a Stmt<Label>) -> Result<Option<Turn>, NoMemory>
        ensures { IfOk result (λ t. Does (n.turned (program_of self.old.program.now) (stmt_of s.now) (works_held self.old.work.items) (state_held self.old.state)) t self.old self.new) }
    {
        match s {
            Stmt::While(test, _, _, _) => self.choose(s, &test.condition),
            Stmt::Do(_, _, test, _, _, _) => self.choose(s, &test.condition),
            Stmt::For(head, label, body, _) => {
                self.begin_for(s, &head.step, &head.condition, *label, body)
            }
            _ => Ok(None),
        }
    }

    /// A loop is left by `break`.
    fn break_loop(&mut self, s: &'a Stmt<Label>) -> Option<Turn>
        ensures { Does (n.broken (stmt_of s.now) (works_held self.old.work.items) (state_held self.old.state)) result self.old self.new }
    {
        match s {
            Stmt::While(_, _, _, after) => Some(Turn::Event(Event::Label(*after))),
            Stmt::Do(_, _, _, _, _, after) => Some(Turn::Event(Event::Label(*after))),
            Stmt::For(_, _, _, after) => Some(Turn::Event(Event::Label(*after))),
            _ => None,
        }
    }

    /// The outcome of the condition of a statement is known.
    fn chosen(&mut self, s: &'a Stmt<Label>, outcome: bool) -> Result<Option<Turn>, NoMemory>
        ensures { IfOk result (λ t. Does (n.chosen (stmt_of s.now) outcome (works_held self.old.work.items) (state_held self.old.state)) t self.old self.new) }
    {
        match s {
            Stmt::If(_, one, arm, other) => {
                if !outcome {
                    return Ok(Some(Turn::Event(Event::Label(*other))));
                }
                self.push(Work::Statement(Task::Run, arm))?;
                Ok(Some(Turn::Event(Event::Label(*one))))
            }
            Stmt::IfElse(_, one, arm, _, other, otherwise) => {
                if !outcome {
                    self.push(Work::Statement(Task::Run, otherwise))?;
                    return Ok(Some(Turn::Event(Event::Label(*other))));
                }
                self.push(Work::Statement(Task::Run, arm))?;
                Ok(Some(Turn::Event(Event::Label(*one))))
            }
            Stmt::While(_, label, body, after) => self.looped(s, body, outcome, *label, *after),
            Stmt::Do(_, body, _, label, _, after) => {
                self.looped(s, body, outcome, *label, *after)
            }
            Stmt::For(_, label, body, after) => self.looped(s, body, outcome, *label, *after),
            _ => Ok(self.end()),
        }
    }

    /// A loop goes on with its body, or is over.
    fn looped(
        &mut self,
        s: &'a Stmt<Label>,
        body: &'a Stmt<Label>,
        outcome: bool,
        label: Label,
        after: Label,
    ) -> Result<Option<Turn>, NoMemory>
        ensures { IfOk result (λ t. Does (if outcome then n.Says (Event.Label label) (n.Run (stmt_of body.now) ∷ n.Turn' (stmt_of s.now) ∷ works_held self.old.work.items) (state_held self.old.state) else n.Says (Event.Label after) (works_held self.old.work.items) (state_held self.old.state)) t self.old self.new) }
    {
        if !outcome {
            return Ok(Some(Turn::Event(Event::Label(after))));
        }
        self.enter_body(s, body)?;
        Ok(Some(Turn::Event(Event::Label(label))))
    }
}

/// The byte that a value gives to a port.
fn port_byte(from: &Ty, value: Result<Value, FaultKind>) -> Result<u8, FaultKind>
    ensures { MatchResult result (λ byte. e.converted_answer (type_of from.now) unsigned_char value ≡ Ok (Value.Integer byte)) (λ kind. (ws : List n.Work) (st : HeldState) → n.written ws st (e.converted_answer (type_of from.now) unsigned_char value) ≡ n.Fails kind) }
{
    match value {
        Err(kind) => Err(kind),
        Ok(value) => match IntegerType::of(from) {
            None => Err(FaultKind::Outside),
            Some(source) => match value {
                Value::Integer(bits) => Ok(low_byte(source, bits)),
                _ => Err(FaultKind::Outside),
            },
        },
    }
}

impl<'a> Running<'a> {
    /// Writes a value to the port.
    fn write(&mut self, expression: &'a Expr) -> Result<Option<Turn>, NoMemory>
        ensures { IfOk result (λ t. Does (n.written (works_held self.old.work.items) (state_held self.old.state) (e.converted_answer (type_at (expr_of expression.now)) unsigned_char (x.value (program_of self.old.program.now) (expr_of expression.now) (state_held self.old.state)))) t self.old self.new) }
    {
        let value = self.state.value(self.program, expression);
        match port_byte(type_at(expression), value) {
            Err(kind) => self.fault(kind),
            Ok(byte) => Ok(Some(Turn::Event(Event::Write(Port::P1, byte)))),
        }
    }

    /// The function with this number, if there is one.
    pub(crate) fn function(&self, number: u32) -> Option<&'a Function<Label>>
        ensures { option_map (λ f. function_of f) (option_copied result) ≡ slice_get (program_of self.now.program.now).functions number }
    {
        item_at(self.program.functions.as_slice(), number as usize)
    }

    /// Calls a function.
    fn call(&mut self, call: &'a Call, back: Label) -> Result<Option<Turn>, NoMemory>
        ensures { IfOk result (λ t. Does (n.called (program_of self.old.program.now) (call_of call.now) back (works_held self.old.work.items) (state_held self.old.state) (e.argument_values (program_of self.old.program.now) (e.argument_list (call_of call.now).arguments) (e.first_parameter (program_of self.old.program.now) call.now.function) (state_held self.old.state))) t self.old self.new) }
    {
        let first = match self.function(call.function) {
            None => 0,
            Some(function) => function.first_variable,
        };
        let arguments = self
            .state
            .argument_values(self.alloc, self.program, &call.arguments, first);
        match arguments {
            Err(Missing::Memory) => Err(NoMemory),
            Err(Missing::Fault(kind)) => self.fault(kind),
            Ok(arguments) => match self.function(call.function) {
                None => Ok(self.end()),
                Some(function) => self.begin(function, arguments, call.target, back),
            },
        }
    }

    /// Runs a statement.
    #[tactic(auto, using(crate::proofs::Stacks::block_laws))]
    fn run(&mut self, s: &'a Stmt<Label>) -> Result<Option<Turn>, NoMemory>
        ensures { IfOk result (λ t. Does (n.ran (program_of self.old.program.now) (stmt_of s.now) (works_held self.old.work.items) (state_held self.old.state)) t self.old self.new) }
    {
        match s {
            Stmt::Empty(_) => Ok(None),
            Stmt::Block(_, statements, _) => {
                self.push(Work::All(statements.as_slice()))?;
                Ok(None)
            }
            Stmt::Assign(assignment, _) => self.assign(assignment),
            Stmt::ReadPort(target, _, _, _) => self.read(target),
            Stmt::WritePort(_, _, value, _) => self.write(value),
            Stmt::Call(call, _, back) => self.call(call, *back),
            Stmt::If(test, _, _, _) => self.choose(s, &test.condition),
            Stmt::IfElse(test, _, _, _, _, _) => self.choose(s, &test.condition),
            Stmt::While(test, _, _, _) => self.choose(s, &test.condition),
            Stmt::Do(_, body, _, _, _, _) => {
                self.enter_body(s, body)?;
                Ok(None)
            }
            Stmt::For(head, label, body, _) => {
                self.begin_for(s, &head.first, &head.condition, *label, body)
            }
            Stmt::Break(_, _) => self.leave(Way::Break),
            Stmt::Continue(_, _) => self.leave(Way::Continue),
            Stmt::Return(_, None, _) => {
                let value = initial_of(self.state.frame.result);
                self.leave(Way::Return(value))
            }
            Stmt::Return(_, Some(value), _) => self.give_back(value),
        }
    }

    /// The statements around are left.
    fn leave(&mut self, way: Way) -> Result<Option<Turn>, NoMemory>
        ensures { IfOk result (λ t. Does (n.Silent (n.Leave (way_held way) ∷ works_held self.old.work.items) (state_held self.old.state)) t self.old self.new) }
    {
        self.push(Work::Leave(way))?;
        Ok(None)
    }

    /// Runs what is left of a block.
    fn run_all(&mut self, statements: &'a [Stmt<Label>]) -> Result<Option<Turn>, NoMemory>
        ensures { IfOk result (λ t. Does (n.stepped (program_of self.old.program.now) (n.All (map stmt_of statements.now) ∷ works_held self.old.work.items) (state_held self.old.state)) t self.old self.new) }
    {
        match statements {
            [] => Ok(None),
            [s, rest @ ..] => {
                self.push(Work::All(rest))?;
                self.run(s)
            }
        }
    }

    /// An outcome comes to what waits for it.
    fn come_out(&mut self, outcome: bool) -> Result<Option<Turn>, NoMemory>
        ensures { IfOk result (λ t. Does (n.stepped (program_of self.old.program.now) (n.Outcome' outcome ∷ works_held self.old.work.items) (state_held self.old.state)) t self.old self.new) }
    {
        match self.pop() {
            None => Ok(self.end()),
            Some(Work::Statement(task, s)) => match task {
                Task::Choose => self.chosen(s, outcome),
                Task::Run => Ok(self.end()),
                Task::Turn => Ok(self.end()),
            },
            Some(Work::Condition(part, condition)) => self.operand(part, condition, outcome),
            Some(Work::Negation) => self.known(!outcome),
            Some(Work::All(_)) => Ok(self.end()),
            Some(Work::Outcome(_)) => Ok(self.end()),
            Some(Work::Pass(_)) => Ok(self.end()),
            Some(Work::Caller(_, _, _, _)) => Ok(self.end()),
            Some(Work::Take(_, _, _)) => Ok(self.end()),
            Some(Work::Leave(_)) => Ok(self.end()),
            Some(Work::Faulty(_)) => Ok(self.end()),
        }
    }

    /// The outcome of a condition is known.
    fn known(&mut self, outcome: bool) -> Result<Option<Turn>, NoMemory>
        ensures { IfOk result (λ t. Does (n.Silent (n.Outcome' outcome ∷ works_held self.old.work.items) (state_held self.old.state)) t self.old self.new) }
    {
        self.push(Work::Outcome(outcome))?;
        Ok(None)
    }

    /// The outcome of a left operand is known.
    fn operand(
        &mut self,
        part: Part,
        right: &'a Cond<Label>,
        outcome: bool,
    ) -> Result<Option<Turn>, NoMemory>
        ensures { IfOk result (λ t. Does (n.comes_out outcome (condition_held part (cond_of right.now)) (works_held self.old.work.items) (state_held self.old.state)) t self.old self.new) }
    {
        match part {
            Part::Check => Ok(self.end()),
            Part::AndThen(on_true, on_false) => {
                if outcome {
                    self.push(Work::Condition(Part::Check, right))?;
                    Ok(Some(Turn::Event(Event::Label(on_true))))
                } else {
                    self.push(Work::Outcome(false))?;
                    Ok(Some(Turn::Event(Event::Label(on_false))))
                }
            }
            Part::OrElse(on_true, on_false) => {
                if outcome {
                    self.push(Work::Outcome(true))?;
                    Ok(Some(Turn::Event(Event::Label(on_true))))
                } else {
                    self.push(Work::Condition(Part::Check, right))?;
                    Ok(Some(Turn::Event(Event::Label(on_false))))
                }
            }
        }
    }
}

impl<'a> Running<'a> {
    /// A call is over, and its caller is to take its result.
    fn come_back(
        &mut self,
        target: Option<ResultTarget>,
        ty: &'a Ty,
        back: Label,
        frame: Frame<'a>,
        value: Value,
    ) -> Result<Option<Turn>, NoMemory>
        ensures { IfOk result (λ t. Does (n.Says (Event.Label back) (n.Take target (type_of ty.now) value ∷ works_held self.old.work.items) (e.returned (frame_held frame.entry) (state_held self.old.state))) t self.old self.new) }
    {
        self.state.come_back(frame);
        self.push(Work::Take(target, ty, value))?;
        Ok(Some(Turn::Event(Event::Label(back))))
    }

    /// The result with which a call is left.
    fn result_of(&self, way: Way) -> Value
        ensures { result ≡ n.result_of (way_held way) (state_held self.now.state) }
    {
        match way {
            Way::Return(value) => value,
            Way::Break => initial_of(self.state.frame.result),
            Way::Continue => initial_of(self.state.frame.result),
        }
    }

    /// A statement is left, and the work behind it too, up to a loop or a caller.
    fn leave_by(&mut self, way: Way) -> Result<Option<Turn>, NoMemory>
        ensures { IfOk result (λ t. Does (n.stepped (program_of self.old.program.now) (n.Leave (way_held way) ∷ works_held self.old.work.items) (state_held self.old.state)) t self.old self.new) }
    {
        match self.pop() {
            None => Ok(self.end()),
            Some(Work::Statement(task, s)) => match task {
                Task::Turn => self.leave_loop(way, s),
                Task::Run => self.leave(way),
                Task::Choose => self.leave(way),
            },
            Some(Work::Caller(target, ty, back, frame)) => {
                let value = self.result_of(way);
                self.come_back(target, ty, back, frame, value)
            }
            Some(Work::Condition(part, _)) => match part {
                Part::Check => self.leave(way),
                Part::AndThen(_, _) => self.leave(way),
                Part::OrElse(_, _) => self.leave(way),
            },
            Some(Work::All(_)) => self.leave(way),
            Some(Work::Outcome(_)) => self.leave(way),
            Some(Work::Negation) => self.leave(way),
            Some(Work::Pass(_)) => self.leave(way),
            Some(Work::Take(_, _, _)) => self.leave(way),
            Some(Work::Leave(_)) => self.leave(way),
            Some(Work::Faulty(_)) => self.leave(way),
        }
    }

    /// The body of a loop is left.
    fn leave_loop(&mut self, way: Way, s: &'a Stmt<Label>) -> Result<Option<Turn>, NoMemory>
        ensures { IfOk result (λ t. Does (n.left_loop (program_of self.old.program.now) (way_held way) (stmt_of s.now) (works_held self.old.work.items) (state_held self.old.state)) t self.old self.new) }
    {
        match way {
            Way::Break => Ok(self.break_loop(s)),
            Way::Continue => self.turn(s),
            Way::Return(_) => self.leave(way),
        }
    }

    /// Gives a result to its target.
    fn take(
        &mut self,
        target: Option<ResultTarget>,
        ty: &'a Ty,
        value: Value,
    ) -> Result<Option<Turn>, NoMemory>
        ensures { IfOk result (λ t. Does (n.quietly (works_held self.old.work.items) (e.taken (program_of self.old.program.now) target (type_of ty.now) value (state_held self.old.state))) t self.old self.new) }
    {
        match self.state.take_result(self.program, target, ty, value) {
            Err(kind) => self.fault(kind),
            Ok(()) => Ok(None),
        }
    }

    /// Does the first work.
    fn step(&mut self) -> Result<Option<Turn>, NoMemory>
        ensures { IfOk result (λ t. Does (n.stepped (program_of self.old.program.now) (works_held self.old.work.items) (state_held self.old.state)) t self.old self.new) }
    {
        match self.pop() {
            None => Ok(self.end()),
            Some(Work::Statement(task, s)) => match task {
                Task::Run => self.run(s),
                Task::Turn => self.turn(s),
                Task::Choose => Ok(None),
            },
            Some(Work::All(statements)) => self.run_all(statements),
            Some(Work::Condition(part, condition)) => match part {
                Part::Check => self.check(condition),
                Part::AndThen(_, _) => Ok(None),
                Part::OrElse(_, _) => Ok(None),
            },
            Some(Work::Outcome(outcome)) => self.come_out(outcome),
            Some(Work::Negation) => Ok(None),
            Some(Work::Pass(label)) => Ok(Some(Turn::Event(Event::Label(label)))),
            Some(Work::Caller(target, ty, back, frame)) => {
                let value = initial_of(self.state.frame.result);
                self.come_back(target, ty, back, frame, value)
            }
            Some(Work::Take(target, ty, value)) => self.take(target, ty, value),
            Some(Work::Leave(way)) => self.leave_by(way),
            Some(Work::Faulty(kind)) => self.fault(kind),
        }
    }

    /// The next event of the run, its end, or its fault.
    pub(crate) fn next(&mut self) -> Result<Turn, NoMemory>
        ensures { IfOk result (λ t. Tells t (rest_held self.old) (rest_held self.new)) }
    {
        'unseen: loop {
            let answer = self.step()?;
            match answer {
                Some(turn) => return Ok(turn),
                None => {}
            }
        }
    }
}
