//! Expressions, made of what is read.

ghost use Rattle.std.specs.Prelude.{◌≡◌, ◌∷◌, [], ◌<◌, ◌≤◌, ◌+◌, ◌-◌, ◌^◌, max, IfOk, IsTrue, None, Some};
ghost use Rattle.ligo_syntax.specs.Depth.{deepest, if_there, type_depth, expr_depth, arm_depth};
ghost use Rattle.ligo_syntax.specs.AtomTrees.{paren_expr, list_expr};
ghost use Rattle.ligo_syntax.specs.ExprTrees.{applied, negated, maybe_binary, operator_of, tuple_expr, if_expr, let_expr, match_expr};

use crate::expr::{Arm, Expr, ExprForm, Operator};
use crate::expr_depths::{deepest_arm, deepest_expr, depth_of_expr, depth_of_type};
use crate::leaf_nodes::expr_node;
use crate::lists::listed;
use crate::pattern::Pattern;
use crate::room::greater;
use crate::type_expr::TypeExpr;
use ligo_tokens::Kind;
use sqlite_items::Items;
use std::alloc::{AllocError, Global};

/// `()`
pub(crate) fn unit_expr(alloc: Global, at: u32) -> Result<Expr, AllocError>
    ensures { IfOk result (λ e. e ≡ paren_expr (at, None)) }
{
    expr_node(alloc, at, 1, ExprForm::Unit)
}

/// An expression in brackets, with its type if it is told.
pub(crate) fn paren_expr(
    alloc: Global,
    at: u32,
    inner: Expr,
    of: Option<TypeExpr>,
) -> Result<Expr, AllocError>
    requires inner_fits { inner.depth < 2 ^ 32 - 1 }
    requires type_fits { if_there type_depth of < 2 ^ 32 - 1 }
    ensures { IfOk result (λ e. e ≡ paren_expr (at, Some (inner, of))) }
{
    let depth = greater(inner.depth, depth_of_type(&of)) + 1;
    match of {
        None => expr_node(alloc, at, depth, ExprForm::Brackets(inner)),
        Some(of) => expr_node(alloc, at, depth, ExprForm::Annotated(inner, of)),
    }
}

/// `[]`
pub(crate) fn empty_list(alloc: Global, at: u32) -> Result<Expr, AllocError>
    ensures { IfOk result (λ e. e ≡ list_expr (at, None)) }
{
    expr_node(alloc, at, 1, ExprForm::List(Items::new(alloc)))
}

pub(crate) fn list_expr(alloc: Global, at: u32, items: Items<Expr>) -> Result<Expr, AllocError>
    requires { deepest expr_depth items < 2 ^ 32 - 1 }
    ensures { IfOk result (λ e. e ≡ list_expr (at, Some items)) }
{
    let depth = deepest_expr(items.as_slice()) + 1;
    expr_node(alloc, at, depth, ExprForm::List(items))
}

/// A function with its arguments.
pub(crate) fn applied(alloc: Global, head: Expr, more: Items<Expr>) -> Result<Expr, AllocError>
    requires head_fits { head.depth < 2 ^ 32 - 1 }
    requires more_fit { deepest expr_depth more < 2 ^ 32 - 1 }
    ensures made { IfOk result (λ e. e ≡ applied (head, more)) }
    ensures depth { IfOk result (λ e. e.depth ≤ 1 + max head.depth (deepest expr_depth more)) }
{
    if more.is_empty() {
        return Ok(head);
    }
    let at = head.at;
    let depth = greater(head.depth, deepest_expr(more.as_slice())) + 1;
    expr_node(alloc, at, depth, ExprForm::Apply(head, more))
}

pub(crate) fn negated(alloc: Global, at: u32, of: Expr) -> Result<Expr, AllocError>
    requires { of.depth < 2 ^ 32 - 1 }
    ensures { IfOk result (λ e. e ≡ negated (at, of)) }
{
    let depth = of.depth + 1;
    expr_node(alloc, at, depth, ExprForm::Negate(of))
}

/// An operator between two expressions.
pub(crate) fn binary(
    alloc: Global,
    operator: Operator,
    left: Expr,
    right: Expr,
) -> Result<Expr, AllocError>
    requires left_fits { left.depth < 2 ^ 32 - 1 }
    requires right_fits { right.depth < 2 ^ 32 - 1 }
    ensures { IfOk result (λ e. e ≡ maybe_binary operator (left, Some right)) }
{
    let at = left.at;
    let depth = greater(left.depth, right.depth) + 1;
    expr_node(alloc, at, depth, ExprForm::Binary(operator, left, right))
}

/// The operator that a token writes.
pub(crate) fn operator_of(kind: Kind) -> Operator
    ensures { result ≡ operator_of kind }
{
    match kind {
        Kind::Or => Operator::Or,
        Kind::And => Operator::And,
        Kind::Equals => Operator::Equal,
        Kind::Differs => Operator::Unequal,
        Kind::Less => Operator::Less,
        Kind::Greater => Operator::Greater,
        Kind::AtMost => Operator::AtMost,
        Kind::AtLeast => Operator::AtLeast,
        Kind::Caret => Operator::Join,
        Kind::Cons => Operator::Cons,
        Kind::Plus => Operator::Add,
        Kind::Minus => Operator::Subtract,
        Kind::Star => Operator::Multiply,
        Kind::Slash => Operator::Divide,
        _ => Operator::Modulo,
    }
}

pub(crate) fn tuple_expr(alloc: Global, first: Expr, more: Items<Expr>) -> Result<Expr, AllocError>
    requires first_fits { first.depth < 2 ^ 32 - 1 }
    requires more_fit { deepest expr_depth more < 2 ^ 32 - 1 }
    ensures made { IfOk result (λ e. e ≡ tuple_expr (first, more)) }
    ensures depth { IfOk result (λ e. e.depth ≤ 1 + max first.depth (deepest expr_depth more)) }
{
    if more.is_empty() {
        return Ok(first);
    }
    let at = first.at;
    let depth = greater(first.depth, deepest_expr(more.as_slice())) + 1;
    expr_node(
        alloc,
        at,
        depth,
        ExprForm::Tuple(listed(alloc, first, more)?),
    )
}

pub(crate) fn if_expr(
    alloc: Global,
    at: u32,
    test: Expr,
    yes: Expr,
    other: Option<Expr>,
) -> Result<Expr, AllocError>
    requires test_fits { test.depth < 2 ^ 32 - 1 }
    requires yes_fits { yes.depth < 2 ^ 32 - 1 }
    requires other_fits { if_there expr_depth other < 2 ^ 32 - 1 }
    ensures { IfOk result (λ e. e ≡ if_expr (at, (test, (yes, other)))) }
{
    let depth = greater(test.depth, greater(yes.depth, depth_of_expr(&other))) + 1;
    expr_node(alloc, at, depth, ExprForm::If(test, yes, other))
}

pub(crate) fn let_expr(
    alloc: Global,
    at: u32,
    pattern: Pattern,
    of: Option<TypeExpr>,
    value: Expr,
    body: Expr,
) -> Result<Expr, AllocError>
    requires pattern_fits { pattern.depth < 2 ^ 32 - 1 }
    requires type_fits { if_there type_depth of < 2 ^ 32 - 1 }
    requires value_fits { value.depth < 2 ^ 32 - 1 }
    requires body_fits { body.depth < 2 ^ 32 - 1 }
    ensures { IfOk result (λ e. e ≡ let_expr (at, (pattern, (of, (value, body))))) }
{
    let inner = greater(depth_of_type(&of), greater(value.depth, body.depth));
    let depth = greater(pattern.depth, inner) + 1;
    expr_node(alloc, at, depth, ExprForm::Let(pattern, of, value, body))
}

pub(crate) fn match_expr(
    alloc: Global,
    at: u32,
    head: Expr,
    first: Arm,
    more: Items<Arm>,
) -> Result<Expr, AllocError>
    requires head_fits { head.depth < 2 ^ 32 - 1 }
    requires arms_fit { deepest arm_depth (first ∷ more) < 2 ^ 32 - 1 }
    ensures { IfOk result (λ e. e ≡ match_expr (at, (head, (None, (first, more))))) }
{
    let arms = listed(alloc, first, more)?;
    let depth = greater(head.depth, deepest_arm(arms.as_slice())) + 1;
    expr_node(alloc, at, depth, ExprForm::Match(head, arms))
}
