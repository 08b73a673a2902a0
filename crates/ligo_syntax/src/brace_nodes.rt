//! What stands in braces, made of what is read.

ghost use Rattle.std.specs.Prelude.{◌≡◌, ◌∷◌, ◌<◌, ◌≤◌, ◌+◌, ◌-◌, ◌^◌, max, IfOk, IsTrue, Some};
ghost use Rattle.ligo_syntax.specs.Depth.{deepest, field_depth};
ghost use Rattle.ligo_syntax.specs.ProgramTrees.{is_there};
ghost use Rattle.ligo_syntax.specs.AtomReading.{name_alone};
ghost use Rattle.ligo_syntax.specs.AtomTrees.{brace_expr, record_inside, with_inside};

use crate::expr::{Expr, ExprForm, ValueField};
use crate::expr_depths::deepest_field;
use crate::lists::listed;
use crate::name::Name;
use crate::room::greater;
use sqlite_items::{Boxed, Items};
use std::alloc::{AllocError, Global};

/// What stands in braces, and how deep its deepest part is.
#[derive(Debug, Drop)]
pub(crate) struct Inside {
    pub(crate) depth: u32,
    pub(crate) form: Boxed<ExprForm>,
}

/// A record of these fields.
pub(crate) fn record_inside(
    alloc: Global,
    first: ValueField,
    more: Items<ValueField>,
) -> Result<Inside, AllocError>
    ensures { IfOk result (λ i. record_inside (first ∷ more) ≡ (i.depth, i.form)) }
{
    let fields = listed(alloc, first, more)?;
    let depth = deepest_field(fields.as_slice());
    let form = Boxed::new(alloc, ExprForm::Record(fields))?;
    Ok(Inside { depth, form })
}

/// Another record, with these fields in the place of its own.
pub(crate) fn with_inside(
    alloc: Global,
    of: Expr,
    first: ValueField,
    more: Items<ValueField>,
) -> Result<Inside, AllocError>
    ensures { IfOk result (λ i. with_inside (of, (first, more)) ≡ (i.depth, i.form)) }
{
    let fields = listed(alloc, first, more)?;
    let depth = greater(of.depth, deepest_field(fields.as_slice()));
    let form = Boxed::new(alloc, ExprForm::With(of, fields))?;
    Ok(Inside { depth, form })
}

/// What stands in braces, with its place.
pub(crate) fn brace_expr(at: u32, inside: Inside) -> Expr
    requires { inside.depth < 2 ^ 32 - 1 }
    ensures { result ≡ brace_expr (at, (inside.depth, inside.form)) }
{
    Expr {
        at,
        depth: inside.depth + 1,
        form: inside.form,
    }
}

/// Whether an expression is a name alone.
pub(crate) fn is_name(e: &Expr) -> bool
    ensures { result ≡ is_there (name_alone e.now) }
{
    matches!(e.form.get(), ExprForm::Name(_))
}

/// The name that an expression is.
pub(crate) fn into_name(e: Expr) -> Name
    requires { IsTrue (is_there (name_alone e)) }
    ensures word { name_alone e ≡ Some result.word }
    ensures place { result.at ≡ e.at }
{
    let at = e.at;
    match e.form.into_inner() {
        ExprForm::Name(word) => Name { at, word },
        _ => unreachable!(),
    }
}
