//! How deep expressions are.
ghost use Rattle.std.specs.Prelude.{◌≡◌, ◌<◌, ◌^◌};
ghost use Rattle.clight_source.specs.Code.Views.{expr_of};
ghost use Rattle.clight_source.specs.Depth.{size};
ghost use Rattle.clight_source.specs.Depth.{depth as depth_of};

use crate::tree::Expr;

/// The depth of an expression: 0 for a name or a number, and for every other form, parentheses included, one more than the
/// greatest depth of its parts.
#[tactic(auto, using(crate::proofs::Depths::depth_below_size))]
pub fn depth(e: &Expr) -> u32
    requires { size (expr_of e.now) < 2 ^ 32 }
    ensures { result ≡ depth_of (expr_of e.now) }
{
    match e {
        Expr::Name(_) | Expr::Number(_, _) => 0,
        Expr::Parenthesis(_, part, _) => 1 + depth(part),
        Expr::Binary(left, _, _, right) => 1 + depth(left).max(depth(right)),
        Expr::Prefix(_, _, operand) => 1 + depth(operand),
        Expr::Cast(_, _, _, operand) => 1 + depth(operand),
        Expr::Index(base, _, index, _) => 1 + depth(base).max(depth(index)),
        Expr::Member(base, _, _, _) => 1 + depth(base),
    }
}
