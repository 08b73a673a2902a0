//! Names of entries among annotations.

ghost use Rattle.std.specs.Prelude.{◌≡◌};
ghost use Rattle.std.specs.Option.{option_copied};
ghost use Rattle.michelson_reader.specs.CodeFaults.{entry};
ghost use Rattle.michelson_reader.specs.Entries.{entry_in, name_in};
ghost use Rattle.micheline_text.specs.Told.{AnswersUnlessFull};
ghost use Rattle.michelson_reader.specs.Answers.{read_fault};
ghost use Rattle.michelson_reader.specs.Returned.{as_names};

use crate::fault::ReadFault;
use sqlite_items::Items;
use value_core::Name;

/// The name of an entry that annotations give, or that there is none; nothing where they aren't
/// fit: two names, or bytes behind `%` that are no name.
pub(crate) fn entry_in(notes: &[Items<u8>]) -> Option<Option<Name>>
    ensures { result ≡ entry_in notes.now }
{
    let mut found = None;
    for note in notes {
        if let Some(bytes) = name_in(note.as_slice()) {
            if found.is_some() {
                return None;
            }
            found = Some(Name::new(bytes)?);
        }
    }
    Some(found)
}

/// What stands behind the `%` of an annotation that begins with it.
fn name_in(note: &[u8]) -> Option<&[u8]>
    ensures { as_names (option_copied result) ≡ name_in note.now }
{
    match note {
        [b'%', name @ ..] => Some(name),
        _ => None,
    }
}

/// The name of an entry for the instruction at this offset, or that there is none.
pub(crate) fn entry(at: usize, notes: &[Items<u8>]) -> Result<Option<Name>, ReadFault>
    ensures { AnswersUnlessFull read_fault (λ e. e) result (entry at notes.now) }
{
    entry_in(notes).ok_or(ReadFault::Arity(at))
}
