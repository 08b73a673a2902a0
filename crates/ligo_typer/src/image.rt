//! The image of a source type: the type of Michelson that stands for it.

ghost use Rattle.std.specs.Prelude.{◌≡◌, IfOk, map};
ghost use Rattle.value_core.specs.declared.ty.Ty.TheVariants as image;
ghost use Rattle.ligo_typer.specs.Image.{case_image, field_image, right_comb, ty_image};

use crate::source_type::SrcTy;
use sqlite_items::{Boxed, Items};
use std::alloc::Global;
use value_core::{NoMemory, Ty};

/// The type that stands for the source type (docs/LANGUAGE.md, "Images").
#[cycle(imaging)]
pub fn ty_image(alloc: Global, t: &SrcTy) -> Result<Ty, NoMemory>
    ensures { IfOk result (λ i. i ≡ ty_image t.now) }
{
    match t {
        SrcTy::Int => Ok(Ty::Int),
        SrcTy::Nat => Ok(Ty::Nat),
        SrcTy::Tez => Ok(Ty::Mutez),
        SrcTy::Text => Ok(Ty::Text),
        SrcTy::Bytes => Ok(Ty::Bytes),
        SrcTy::Bool => Ok(Ty::Bool),
        SrcTy::Unit => Ok(Ty::Unit),
        SrcTy::Addr => Ok(Ty::Addr),
        SrcTy::Time => Ok(Ty::Time),
        SrcTy::Operation => Ok(Ty::Operation),
        SrcTy::Option(t) => Ok(Ty::Option(boxed_image(alloc, t)?)),
        SrcTy::List(t) => Ok(Ty::List(boxed_image(alloc, t)?)),
        SrcTy::Contract(t) => Ok(Ty::Contract(boxed_image(alloc, t)?)),
        SrcTy::Map(k, v) => Ok(Ty::Map(boxed_image(alloc, k)?, boxed_image(alloc, v)?)),
        SrcTy::BigMap(k, v) => Ok(Ty::BigMap(boxed_image(alloc, k)?, boxed_image(alloc, v)?)),
        SrcTy::Tuple(parts) => pairs(alloc, part_images(alloc, parts.as_slice())?),
        SrcTy::Record(fields) => pairs(alloc, field_images(alloc, fields.as_slice())?),
        SrcTy::Variant(cases) => choices(alloc, case_images(alloc, cases.as_slice())?),
    }
}

#[cycle(imaging)]
fn boxed_image(alloc: Global, t: &Boxed<SrcTy>) -> Result<Boxed<Ty>, NoMemory>
    ensures { IfOk result (λ i. i ≡ ty_image t.now) }
{
    Boxed::new(alloc, ty_image(alloc, t.get())?)
}

#[cycle(imaging)]
fn part_images(alloc: Global, parts: &[SrcTy]) -> Result<Items<Ty>, NoMemory>
    ensures { IfOk result (λ made. made ≡ map ty_image parts.now) }
{
    let mut made = Items::new(alloc);
    for part in parts {
        made.push(ty_image(alloc, part)?)?;
    }
    Ok(made)
}

#[cycle(imaging)]
fn field_images(alloc: Global, fields: &[(Items<u8>, SrcTy)]) -> Result<Items<Ty>, NoMemory>
    ensures { IfOk result (λ made. made ≡ map field_image fields.now) }
{
    let mut made = Items::new(alloc);
    for field in fields {
        made.push(ty_image(alloc, &field.1)?)?;
    }
    Ok(made)
}

#[cycle(imaging)]
fn case_images(alloc: Global, cases: &[(Items<u8>, Option<SrcTy>)]) -> Result<Items<Ty>, NoMemory>
    ensures { IfOk result (λ made. made ≡ map case_image cases.now) }
{
    let mut made = Items::new(alloc);
    for case in cases {
        match &case.1 {
            Some(part) => made.push(ty_image(alloc, part)?)?,
            None => made.push(Ty::Unit)?,
        }
    }
    Ok(made)
}

/// The types in pairs, joined from the right.
fn pairs(alloc: Global, mut parts: Items<Ty>) -> Result<Ty, NoMemory>
    ensures { IfOk result (λ i. i ≡ right_comb image.Pair parts) }
{
    let Some(last) = parts.pop() else {
        return Ok(Ty::Unit);
    };
    let mut whole = Boxed::new(alloc, last)?;
    while let Some(first) = parts.pop() {
        let first = Boxed::new(alloc, first)?;
        whole = Boxed::new(alloc, Ty::Pair(first, whole))?;
    }
    Ok(whole.into_inner())
}

/// The types as choices, joined from the right.
fn choices(alloc: Global, mut parts: Items<Ty>) -> Result<Ty, NoMemory>
    ensures { IfOk result (λ i. i ≡ right_comb image.Or parts) }
{
    let Some(last) = parts.pop() else {
        return Ok(Ty::Unit);
    };
    let mut whole = Boxed::new(alloc, last)?;
    while let Some(first) = parts.pop() {
        let first = Boxed::new(alloc, first)?;
        whole = Boxed::new(alloc, Ty::Or(first, whole))?;
    }
    Ok(whole.into_inner())
}
