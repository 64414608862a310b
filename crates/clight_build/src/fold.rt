//! The fold.

ghost use Rattle.std.specs.Prelude.{◌≡◌, OnOk};
ghost use Rattle.clight_source.specs.Code.Views.{stmt_of};
ghost use Rattle.clight_source.specs.Trees as t;
ghost use Rattle.clight_build.specs.Code.Stacks as s;
ghost use Rattle.clight_build.specs.Code.Views.{stacks_of};

use crate::expressions::{binary, cast, index, one_argument, parenthesis, prefix, select};
use crate::stacks::{
    Stacks, put_arguments, put_condition, put_expr, put_list, put_optional, put_stmt,
};
use crate::statements::{
    assign, assignment, block, call, condition, do_statement, for_statement, if_else, if_statement,
    one_statement, read_port, return_value, while_statement, write_port,
};
use cerco_base::NoMemory;
use clight_nodes::nodes::Node;
use clight_source::span::Span;
use clight_source::tree::{Arguments, Call, CallTarget, Expr, Name, Stmt};
use std::alloc::Global;

// `target = function();`
fn call_alone(
    target: Option<CallTarget>,
    function: Name,
    left: Span,
    right: Span,
    semicolon: Span,
) -> Stmt
    ensures { stmt_of result ≡ t.CallOf (s.make_call target function left t.NoArguments right) semicolon }
{
    let call = Call {
        target,
        function,
        left,
        arguments: Arguments::Nothing,
        right,
    };
    Stmt::Call(call, semicolon)
}

// A node of an expression more.
fn add_expression(alloc: Global, x: &mut Stacks, node: Node) -> Result<(), NoMemory>
    ensures { OnOk result (stacks_of x.new ≡ s.add_expression node (stacks_of x.old)) }
{
    match node {
        Node::Name(name) => put_expr(alloc, &mut x.exprs, Expr::Name(name)),
        Node::Number(number, at) => put_expr(alloc, &mut x.exprs, Expr::Number(number, at)),
        Node::Parenthesis(left, right) => parenthesis(alloc, &mut x.exprs, left, right),
        Node::Binary(operator, at) => binary(alloc, &mut x.exprs, operator, at),
        Node::Prefix(operator, at) => prefix(alloc, &mut x.exprs, operator, at),
        Node::Cast(left, specifiers, right) => cast(alloc, &mut x.exprs, left, specifiers, right),
        Node::Index(left, right) => index(alloc, &mut x.exprs, left, right),
        Node::Select(operator, at, member) => select(alloc, &mut x.exprs, operator, at, member),
        _ => Ok(()),
    }
}

// A node of a simple statement more.
fn add_simple(alloc: Global, x: &mut Stacks, node: Node) -> Result<(), NoMemory>
    ensures { OnOk result (stacks_of x.new ≡ s.add_simple node (stacks_of x.old)) }
{
    match node {
        Node::Empty(at) => put_stmt(alloc, &mut x.stmts, Stmt::Empty(at)),
        Node::Assign(equals, at) => assign(alloc, &mut x.exprs, &mut x.stmts, equals, at),
        Node::ReadPort(equals, port, at) => {
            read_port(alloc, &mut x.exprs, &mut x.stmts, equals, port, at)
        }
        Node::WritePort(port, equals, at) => {
            write_port(alloc, &mut x.exprs, &mut x.stmts, port, equals, at)
        }
        Node::CallAlone(target, function, left, right, at) => put_stmt(
            alloc,
            &mut x.stmts,
            call_alone(target, function, left, right, at),
        ),
        Node::Call(target, function, left, right, at) => call(
            alloc,
            &mut x.exprs,
            &mut x.arguments,
            &mut x.stmts,
            target,
            function,
            left,
            right,
            at,
        ),
        Node::Break(keyword, at) => put_stmt(alloc, &mut x.stmts, Stmt::Break(keyword, at)),
        Node::Continue(keyword, at) => put_stmt(alloc, &mut x.stmts, Stmt::Continue(keyword, at)),
        Node::Return(keyword, at) => put_stmt(alloc, &mut x.stmts, Stmt::Return(keyword, None, at)),
        Node::ReturnValue(keyword, at) => {
            return_value(alloc, &mut x.exprs, &mut x.stmts, keyword, at)
        }
        _ => add_expression(alloc, x, node),
    }
}

// A node of a list or of the head of a `for` more.
#[tactic(auto, using(crate::proofs::Pushes::pushes))]
fn add_part(alloc: Global, x: &mut Stacks, node: Node) -> Result<(), NoMemory>
    ensures { OnOk result (stacks_of x.new ≡ s.add_part node (stacks_of x.old)) }
{
    match node {
        Node::NoArguments => put_arguments(&mut x.arguments, Vec::new(alloc)),
        Node::Argument(comma) => one_argument(&mut x.exprs, &mut x.arguments, comma),
        Node::NoStatements => put_list(&mut x.lists, Vec::new(alloc)),
        Node::Then => one_statement(&mut x.stmts, &mut x.lists),
        Node::NoAssignment => put_optional(&mut x.assignments, None),
        Node::Assignment(equals) => assignment(alloc, &mut x.exprs, &mut x.assignments, equals),
        Node::NoCondition => put_condition(&mut x.conditions, None),
        Node::Condition => condition(&mut x.exprs, &mut x.conditions),
        _ => add_simple(alloc, x, node),
    }
}

/// One node more.
pub fn add(alloc: Global, x: &mut Stacks, node: Node) -> Result<(), NoMemory>
    ensures { OnOk result (stacks_of x.new ≡ s.add node (stacks_of x.old)) }
{
    match node {
        Node::Block(left, right) => block(alloc, &mut x.lists, &mut x.stmts, left, right),
        Node::If(keyword, left, right) => {
            if_statement(alloc, &mut x.exprs, &mut x.stmts, keyword, left, right)
        }
        Node::IfElse(keyword, left, right, at) => {
            if_else(alloc, &mut x.exprs, &mut x.stmts, keyword, left, right, at)
        }
        Node::While(keyword, left, right) => {
            while_statement(alloc, &mut x.exprs, &mut x.stmts, keyword, left, right)
        }
        Node::Do(keyword, inner, left, right, at) => do_statement(
            alloc,
            &mut x.exprs,
            &mut x.stmts,
            keyword,
            inner,
            left,
            right,
            at,
        ),
        Node::For(middle, right) => for_statement(
            alloc,
            &mut x.assignments,
            &mut x.conditions,
            &mut x.stmts,
            middle,
            right,
        ),
        _ => add_part(alloc, x, node),
    }
}
