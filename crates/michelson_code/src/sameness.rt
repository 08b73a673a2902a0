//! Whether two instructions, or two codes, are equal.

ghost use Rattle.std.specs.Prelude.{◌≡◌, ◌↔◌, IsTrue};
ghost use Rattle.michelson_code.specs.Shown.{HaveSameWord, operand_shown, operands_shown, shown};

use crate::instr::Instr;
use crate::table::{Form, Operand, Operands, form_of};

impl Instr {
    /// Whether the instructions are equal.
    #[cycle(sameness)]
    pub fn same(&self, other: &Instr) -> bool
        ensures { IsTrue result ↔ (self.now ≡ other.now) }
    {
        let a = form_of(self);
        let b = form_of(other);
        have_same_word(&a, &b) && same_operands(a.operands, b.operands)
    }
}

/// Whether the codes are equal.
#[cycle(sameness)]
pub fn same_code(a: &[Instr], b: &[Instr]) -> bool
    ensures { IsTrue result ↔ (a.now ≡ b.now) }
{
    if a.len() != b.len() {
        return false;
    }
    for i in 0..a.len() {
        if !a[i].same(&b[i]) {
            return false;
        }
    }
    true
}

/// Whether the words are equal, and the names of entries are.
fn have_same_word(a: &Form<'_>, b: &Form<'_>) -> bool
    ensures { IsTrue result ↔ HaveSameWord (shown a.now) (shown b.now) }
{
    a.word == b.word && a.entry == b.entry
}

#[cycle(sameness)]
fn same_operands(a: Operands<'_>, b: Operands<'_>) -> bool
    ensures { IsTrue result ↔ (operands_shown a.entry ≡ operands_shown b.entry) }
{
    match (a, b) {
        (Operands::None, Operands::None) => true,
        (Operands::One(x), Operands::One(y)) => same_operand(x, y),
        (Operands::Two(w, x), Operands::Two(y, z)) => same_operand(w, y) && same_operand(x, z),
        _ => false,
    }
}

#[cycle(sameness)]
fn same_operand(a: Operand<'_>, b: Operand<'_>) -> bool
    ensures { IsTrue result ↔ (operand_shown a.entry ≡ operand_shown b.entry) }
{
    match (a, b) {
        (
            Operand::Number {
                least: x,
                number: m,
            },
            Operand::Number {
                least: y,
                number: n,
            },
        ) => { x == y && m == n }
        (Operand::Type(s), Operand::Type(t)) => s.same(t),
        (Operand::Data(s, v), Operand::Data(t, w)) => s.same(t) && v.same(w),
        (Operand::Code(c), Operand::Code(d)) => same_code(c, d),
        _ => false,
    }
}
