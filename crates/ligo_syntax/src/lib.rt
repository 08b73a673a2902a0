//! The grammar of CameLIGO: tokens to trees, with exact faults (docs/LANGUAGE.md, "Grammar").
//!
//! A program is declarations of types and values. `specs/Grammar.antt` and the files that it names have
//! one definition for each production, made of the few signs of `specs/Rules.antt`; they know no order
//! of reading.
//!
//! - `parser`: bytes to programs, or the fault.
//! - `program`, `expr`, `pattern`, `type_expr`: the tree, each node with its offset. Begin here.
//! - `laws`: a text has one tree, its fault one place, and greed loses no text.
//! - `fault`: why bytes are no program, and where that is told.
//! - `tokens`: what stands in front.
//! - `program_reader`, `decl_reader`, `definition_reader`, `param_reader`: one function for each rule,
//!   as below.
//! - `type_reader`, `pattern_reader`, `arm_reader`: the same of types and patterns.
//! - `level_reader`: expressions by their levels. `whole_reader`, `condition_reader`, `atom_reader`,
//!   `brace_reader`, `leaf_reader`: the rules of each, from the outside in.
//! - `type_nodes`, `pattern_nodes`, `expr_nodes`, `brace_nodes`, `leaf_nodes`: trees, made of what
//!   is read.
#![tactic(auto)]

mod arm_reader;
mod atom_reader;
mod brace_nodes;
mod brace_reader;
mod condition_reader;
mod decl_reader;
mod definition_reader;
mod expr;
mod expr_depths;
mod expr_nodes;
mod fault;
mod laws;
mod leaf_nodes;
mod leaf_reader;
mod level;
mod level_reader;
mod lists;
mod name;
mod param_reader;
mod parser;
mod pattern;
mod pattern_nodes;
mod pattern_reader;
mod program;
mod program_reader;
mod room;
mod tokens;
mod type_expr;
mod type_nodes;
mod type_reader;
mod whole_reader;

pub use expr::{Arm, ArmForm, ArmPattern, Expr, ExprForm, Literal, Operator, ValueField};
pub use fault::{Expected, SyntaxFault, SyntaxRefusal};
pub use laws::{faults_have_one_place, greed_loses_no_text, texts_have_one_tree};
pub use name::Name;
pub use parser::parse;
pub use pattern::{Pattern, PatternForm};
pub use program::{
    Attribute, Decl, Definition, Param, ParamForm, Program, TypeCase, TypeDecl, TypeField,
    ValueDecl,
};
pub use type_expr::{TypeExpr, TypeForm};
pub use value_core::NoMemory;

#[cfg(test)]
mod tests;
