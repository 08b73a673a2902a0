//! The types of CameLIGO: which programs are typed, with the type of every expression, and why others
//! aren't (docs/LANGUAGE.md, "Typing").
//!
//! - `laws`: a program has one typing, or faults in one declaration.
//! - `source_type`: the types of source values. Begin here.
//! - `image`: the types of Michelson that stand for them. `limits`: how large they may be.
//! - `builtin`, `libraries`: what the language itself declares.
//! - `operators`: what operators give. `patterns`: whether patterns fit a type.
//! - `typed_program`, `typed_expr`, `typed_pattern`: typed programs.
//! - `fault`: why a program isn't typed, and where that is told.
//!
//! `specs/Programs.antt` says which programs are typed, and `specs/Forms.antt` how each form of an
//! expression is.
#![tactic(auto)]

mod builtin;
mod fault;
mod image;
mod laws;
mod libraries;
mod limits;
mod operators;
mod patterns;
mod source_type;
mod typed_expr;
mod typed_pattern;
mod typed_program;

pub use builtin::Builtin;
pub use fault::{LigoFault, LigoKind, LigoRefusal};
pub use image::ty_image;
pub use laws::{
    expressions_have_one_typing, faults_have_one_declaration, programs_have_one_typing,
};
pub use source_type::SrcTy;
pub use typed_expr::{TypedArm, TypedEntry, TypedExpr, TypedField, TypedForm};
pub use typed_pattern::{TypedChoice, TypedPattern};
pub use typed_program::{TypedDecl, TypedParam, TypedProgram};
pub use value_core::NoMemory;
