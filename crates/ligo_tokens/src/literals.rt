//! What strings in quotes and byte literals say, as tokens of CameLIGO.

ghost use Rattle.std.specs.Prelude.{◌≡◌};
ghost use Rattle.ligo_tokens.specs.Lexing.{bytes_says, text_says};

use crate::token::Says;
use micheline_text::Ending;
use value_core::{Blob, Text};

/// A text of these bytes, where the string has its end and they are one.
pub(crate) fn text_says(ending: Ending, said: Vec<u8>) -> Option<Says>
    ensures { result ≡ text_says ending said.items }
{
    match (ending, Text::new(said)) {
        (Ending::Closed, Some(text)) => Some(Says::Text(text)),
        _ => None,
    }
}

pub(crate) fn bytes_says(bytes: Option<Blob>) -> Option<Says>
    ensures { result ≡ bytes_says bytes }
{
    match bytes {
        Some(blob) => Some(Says::Bytes(blob)),
        None => None,
    }
}
