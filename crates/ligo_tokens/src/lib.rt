//! The tokens of CameLIGO.
//!
//! Names, words, numerals, byte literals, strings and signs stand between blanks and comments.
//! Tokens are the longest runs and needn't be parted. What begins no token is one that can stand
//! nowhere, and the last of its text.
//!
//! - `laws`: bytes are laid out as tokens in one way.
//! - `token`: what a token is, and what it says. Begin here.
//! - `lexer`: bytes to tokens. `gap`: what parts them. `runs`, `numerals`, `literals`: their parts.
//!
//! `specs/Layout.antt` says which bytes are gaps and where tokens begin, `specs/Lexing.antt` which
//! token stands in front.
#![tactic(auto)]

mod gap;
mod laws;
mod lexer;
mod literals;
mod numerals;
mod runs;
mod token;

pub use laws::bytes_are_laid_out_in_one_way;
pub use lexer::tokens;
pub use token::{Kind, Says, Token};
pub use value_core::NoMemory;

#[cfg(test)]
mod tests;
