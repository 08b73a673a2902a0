//! Printing to a sink that may take less than it is given.
ghost use Rattle.std.specs.Prelude.{◌≡◌, ◌++◌, length};
ghost use Rattle.block_cli.specs.Inside.{PrintsOn};

use edge_io::{Failed, Sink};

/// Prints a text.
pub fn print<K: Sink>(out: &mut K, text: &[u8]) -> Result<(), Failed>
    ensures { PrintsOn (K.seen out.old) text.now result (K.seen out.new) }
{
    let mut rest = text;
    while !rest.is_empty() {
        let n = out.write(rest)?;
        let (_, after) = rest.split_at(n);
        rest = after;
    }
    Ok(())
}

/// Prints two texts, one after the other.
fn print_two<K: Sink>(out: &mut K, a: &[u8], b: &[u8]) -> Result<(), Failed>
    ensures { PrintsOn (K.seen out.old) (a.now ++ b.now) result (K.seen out.new) }
{
    match print(out, a) {
        Err(e) => Err(e),
        Ok(()) => print(out, b),
    }
}

/// Prints three texts, one after another.
pub fn print_three<K: Sink>(out: &mut K, a: &[u8], b: &[u8], c: &[u8]) -> Result<(), Failed>
    ensures { PrintsOn (K.seen out.old) (a.now ++ b.now ++ c.now) result (K.seen out.new) }
{
    match print_two(out, a, b) {
        Err(e) => Err(e),
        Ok(()) => print(out, c),
    }
}
