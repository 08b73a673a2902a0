//! How deep the parts of an expression are.

ghost use Rattle.std.specs.Prelude.{◌≡◌, ◌<◌, ◌^◌};
ghost use Rattle.ligo_syntax.specs.Depth.{deepest, if_there, type_depth, expr_depth, field_depth, arm_pattern_depth, arm_depth};

use crate::expr::{Arm, ArmForm, ArmPattern, Expr, ValueField};
use crate::room::greater;
use crate::type_expr::TypeExpr;

/// Of what may be left out.
pub(crate) fn depth_of_type(of: &Option<TypeExpr>) -> u32
    ensures { result ≡ if_there type_depth of.now }
{
    match of {
        None => 0,
        Some(of) => of.depth,
    }
}

/// Of what may be left out.
pub(crate) fn depth_of_expr(of: &Option<Expr>) -> u32
    ensures { result ≡ if_there expr_depth of.now }
{
    match of {
        None => 0,
        Some(of) => of.depth,
    }
}

pub(crate) fn deepest_expr(exprs: &[Expr]) -> u32
    ensures { result ≡ deepest expr_depth exprs.now }
{
    let mut found = 0;
    for one in exprs {
        found = greater(found, one.depth);
    }
    found
}

pub(crate) fn deepest_field(fields: &[ValueField]) -> u32
    ensures { result ≡ deepest field_depth fields.now }
{
    let mut found = 0;
    for one in fields {
        found = greater(found, one.value.depth);
    }
    found
}

/// How deep an arm is.
fn depth_of_arm(arm: &Arm) -> u32
    requires { arm_depth arm.now < 2 ^ 32 }
    ensures { result ≡ arm_depth arm.now }
{
    greater(depth_of_arm_pattern(&arm.pattern), arm.body.depth) + 1
}

fn depth_of_arm_pattern(pattern: &ArmPattern) -> u32
    requires { arm_pattern_depth pattern.now < 2 ^ 32 }
    ensures { result ≡ arm_pattern_depth pattern.now }
{
    match &pattern.form {
        ArmForm::Constructor(_, Some(part)) => part.depth + 1,
        ArmForm::Constructor(_, None) | ArmForm::Any | ArmForm::Nil | ArmForm::Cons(_, _) => 1,
    }
}

pub(crate) fn deepest_arm(arms: &[Arm]) -> u32
    requires { deepest arm_depth arms.now < 2 ^ 32 }
    ensures { result ≡ deepest arm_depth arms.now }
{
    let mut found = 0;
    for one in arms {
        found = greater(found, depth_of_arm(one));
    }
    found
}
