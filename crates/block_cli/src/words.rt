//! The words of the command line.
ghost use Rattle.std.specs.Prelude.{◌≡◌, ◌≤◌, map, string_bytes};
ghost use Rattle.std.specs.Option.{option_map};
ghost use Rattle.block_cli.specs.Numbers.{number_of, workers_of, most_number};
ghost use Rattle.block_cli.specs.Commands.{check_of, command_of, genesis_of, show_of, validate_of};
ghost use Rattle.block_cli.specs.Inside.{begins_otherwise, command_in};

use crate::command::Command;
use edge_io::Workers;

/// Whether a word begins with a sign, or with a zero that isn't all of it.
fn begins_otherwise(word: &str) -> bool
    ensures { result ≡ begins_otherwise word.now }
{
    let bytes = word.as_bytes();
    !bytes.is_empty() && (bytes[0] == b'+' || (bytes[0] == b'0' && bytes.len() > 1))
}

/// The number that a word spells in digits, without a leading zero.
fn number_of(word: &str) -> Option<u64>
    ensures { result ≡ number_of 0 most_number word.now }
{
    if begins_otherwise(word) {
        return None;
    }
    word.parse().ok()
}

/// The number of workers that a word spells.
fn workers_of(word: &str) -> Option<Workers>
    ensures { result ≡ workers_of word.now }
{
    Workers::new(number_of(word)?)
}

/// The words behind `validate`.
fn validate_of(words: &[String]) -> Option<Command<'_>>
    ensures { option_map command_in result ≡ validate_of (map string_bytes words.now) }
{
    let [state, block, next, workers] = words else {
        return None;
    };
    if state.is_empty() || block.is_empty() || next.is_empty() || block.as_str() == next.as_str() {
        return None;
    }
    Some(Command::Validate {
        state: state.as_str(),
        block: block.as_str(),
        next: next.as_str(),
        workers: workers_of(workers.as_str())?,
    })
}

/// The words behind `check`.
fn check_of(words: &[String]) -> Option<Command<'_>>
    ensures { option_map command_in result ≡ check_of (map string_bytes words.now) }
{
    let [code] = words else {
        return None;
    };
    if code.is_empty() {
        return None;
    }
    Some(Command::Check {
        code: code.as_str(),
    })
}

/// The words behind `genesis`.
fn genesis_of(words: &[String]) -> Option<Command<'_>>
    ensures { option_map command_in result ≡ genesis_of (map string_bytes words.now) }
{
    let [text, state] = words else {
        return None;
    };
    if text.is_empty() || state.is_empty() {
        return None;
    }
    Some(Command::Genesis {
        text: text.as_str(),
        state: state.as_str(),
    })
}

/// The words behind `show`.
fn show_of(words: &[String]) -> Option<Command<'_>>
    ensures { option_map command_in result ≡ show_of (map string_bytes words.now) }
{
    let [state] = words else {
        return None;
    };
    if state.is_empty() {
        return None;
    }
    Some(Command::Show {
        state: state.as_str(),
    })
}

/// The command that the words ask for.
#[tactic(auto, unfolding(crate::specs::Commands::command_of))]
pub fn command_of(words: &[String]) -> Option<Command<'_>>
    ensures { option_map command_in result ≡ command_of (map string_bytes words.now) }
{
    let (verb, words) = words.split_first()?;
    match verb.as_str() {
        "validate" => validate_of(words),
        "check" => check_of(words),
        "genesis" => genesis_of(words),
        "show" => show_of(words),
        _ => None,
    }
}
