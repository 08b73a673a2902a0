//! Bytes are below 256.

ghost use Rattle.std.specs.Prelude.{IsTrue};
ghost use Rattle.value_core.specs.Lawful.{are_bytes};

/// Each byte is below 256.
pub fn bytes_are_small(bytes: &[u8])
    ensures { IsTrue (are_bytes bytes.now) }
{}
