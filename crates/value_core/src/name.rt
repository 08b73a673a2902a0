//! Names of entrypoints.

ghost use Rattle.std.specs.Prelude.{◌≡◌, ◌≤◌, IsTrue, SomeIff, length};
ghost use Rattle.std.specs.List.{list_all};
ghost use Rattle.value_core.specs.Leaves.{is_name, is_word_byte};
ghost use Rattle.value_core.specs.Padding.{padded};

use std::cmp::Ordering;
use std::marker::Model;

/// From 1 to 31 letters, digits and underscores.
#[derive(Clone, Copy, Debug)]
pub struct Name {
    bytes: [u8; 31],
    len: u8,
}

impl Model for Name {
    ghost use Rattle.std.specs.Prelude.{List, ℕ, length, take};
    ghost use Rattle.std.proofs.Common.{sym};
    ghost use Rattle.value_core.specs.Padding.{IsHeld, length-held, padded};

    ghost Value = { List ℕ };

    ghost view = { λ n. take n.len n.bytes };

    ghost inverse = { λ l. record { bytes = padded l; len = length l } };

    ghost inverse_ok = { λ n h i. record { bytes = sym h.1 i; len = length-held n.bytes n.len h i } };

    ghost invariant = { λ n. IsHeld n.bytes n.len };
}

fn is_word_byte(b: u8) -> bool
    ensures { result ≡ is_word_byte b }
{
    b.is_ascii_alphanumeric() || b == b'_'
}

fn is_name(b: &[u8]) -> bool
    ensures { result ≡ is_name b.now }
{
    !b.is_empty() && b.len() <= 31 && are_word_bytes(b)
}

fn are_word_bytes(b: &[u8]) -> bool
    ensures { result ≡ list_all is_word_byte b.now }
{
    b.iter().all(|byte| is_word_byte(*byte))
}

fn padded(b: &[u8]) -> [u8; 31]
    requires { length b.now ≤ 31 }
    ensures { result ≡ padded b.now }
{
    let mut bytes = [0; 31];
    bytes[..b.len()].copy_from_slice(b);
    bytes
}

impl Name {
    /// The name of these bytes, where they are one.
    pub fn new(b: &[u8]) -> Option<Name>
        ensures { SomeIff result (IsTrue (is_name b.now)) b.now }
    {
        if is_name(b) {
            Some(Name {
                bytes: padded(b),
                len: b.len() as u8,
            })
        } else {
            None
        }
    }

    /// The bytes of the name.
    pub fn bytes(&self) -> &[u8]
        ensures value { result.now ≡ self.now }
        ensures name { IsTrue (is_name self.now) }
    {
        &self.bytes[..self.len as usize]
    }
}

impl PartialEq for Name {
    ghost use Rattle.std.specs.Prelude.{nat_eq};
    ghost use Rattle.std.specs.Cmp.Rules.{comparing};
    ghost use Rattle.std.specs.Cmp.Lexicographic.{pointwise};
    ghost use Rattle.std.proofs.Common.{rules};

    ghost eq = { pointwise nat_eq };

    ghost laws = { Prim.search (comparing, rules) };

    fn eq(&self, other: &Name) -> bool {
        self.bytes() == other.bytes()
    }
}

impl Eq for Name {
    ghost use Rattle.std.specs.Cmp.Rules.{comparing};
    ghost use Rattle.std.proofs.Common.{rules};

    ghost laws = { Prim.search (comparing, rules) };
}

impl PartialOrd for Name {
    ghost use Rattle.std.specs.Prelude.{Some};
    ghost use Rattle.std.specs.Ordering.{nat_cmp};
    ghost use Rattle.std.specs.Cmp.{po};
    ghost use Rattle.std.specs.Cmp.Lexicographic.{nat_list_cmp_total, slice_cmp};
    ghost use Rattle.value_core.specs.BytesOrder.{bytes_tie};

    ghost partial_cmp = { λ a b. Some (slice_cmp nat_cmp a b) };

    ghost laws = { po nat_list_cmp_total bytes_tie };

    fn partial_cmp(&self, other: &Name) -> Option<Ordering> {
        Some(self.cmp(other))
    }
}

/// Names go by their bytes, so that one goes behind those that begin it.
impl Ord for Name {
    ghost use Rattle.std.specs.Prelude.{refl};
    ghost use Rattle.std.specs.Ordering.{nat_cmp};
    ghost use Rattle.std.specs.Cmp.Lexicographic.{nat_list_cmp_total, slice_cmp};
    ghost use Rattle.value_core.specs.BytesOrder.{bytes_tie};

    ghost cmp = { slice_cmp nat_cmp };

    ghost total = { nat_list_cmp_total };

    ghost matches_partial_cmp = { λ a b. refl };

    ghost matches_eq = { bytes_tie };

    fn cmp(&self, other: &Name) -> Ordering {
        self.bytes().cmp(other.bytes())
    }
}
