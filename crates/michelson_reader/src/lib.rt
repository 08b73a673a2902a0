//! Scripts of contracts as texts: read with exact faults, and printed.
//!
//! A script is the types of parameter and storage, the names of the entries, and a code. Data at a
//! type is read and printed too; `data_nodes` does that.
//!
//! - `laws`: what is true of the texts of scripts.
//! - `script`: `read_script`. Begin here. `parameter` reads the parameter's type with the names,
//!   `types` a type, `code` an instruction, and `pushed` the data that one pushes.
//! - `words`, `type_words`, `code_words`, `plain_forms`, `entries`: what a word is written for, and
//!   what annotations name.
//! - `type_texts`: `read_type` and `print_type`, for a type by itself.
//! - `printer`: `print_script`. `nodes`, `type_nodes`, `parameter_nodes` and `code_nodes` build the
//!   nodes that are printed.
//! - `fault`: why bytes are no script, and where that is told.
//!
//! The grammar (`specs/Code.antt`) and the printer take the table of forms of `michelson_code`,
//! which also says which scripts are read again as they are printed. Which fault is told is said by
//! where it stands (`specs/FirstFault.antt`); `specs/*Faults.antt` read from the left. Recursion goes as deep as nodes are nested.
#![tactic(auto)]

mod code;
mod code_nodes;
mod code_words;
mod entries;
mod fault;
mod laws;
mod nodes;
mod parameter;
mod parameter_nodes;
mod plain_forms;
mod printer;
#[cfg(test)]
mod printer_tests;
mod pushed;
mod script;
#[cfg(test)]
mod tests;
mod type_nodes;
#[cfg(test)]
mod type_tests;
mod type_texts;
mod type_words;
mod types;
mod words;

pub use data_nodes::{DataFault, DataKind, DataRefusal, print_data, read_data, read_storage};
pub use fault::ReadFault;
pub use laws::{
    a_text_spells_one_script, a_word_is_known_by_the_tables, bytes_are_a_script_or_have_one_fault,
    the_first_fault_of_a_script_is_told, two_scripts_never_share_a_text,
};
pub use printer::print_script;
pub use script::read_script;
pub use type_texts::{print_type, read_type};
