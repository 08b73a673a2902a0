//! How an operation ended.

ghost use Rattle.std.specs.Prelude.{◌≡◌, ◌↔◌, IfOk, IsTrue};

use michelson_code::Why;
use std::alloc::Global;
use value_core::NoMemory;

/// The end of an operation, and what it was charged.
#[derive(Debug, Drop)]
pub struct Receipt {
    /// Why it failed; none where it was applied.
    pub end: Option<Why>,
    /// The sum of the costs that were charged.
    pub gas: u32,
}

impl Receipt {
    /// An equal receipt.
    pub fn copy(&self, alloc: Global) -> Result<Receipt, NoMemory>
        ensures { IfOk result (λ receipt. receipt ≡ self.now) }
    {
        let end = copy_end(alloc, &self.end)?;
        Ok(Receipt { end, gas: self.gas })
    }

    /// Whether the receipts are equal.
    pub fn same(&self, other: &Receipt) -> bool
        ensures { IsTrue result ↔ (self.now ≡ other.now) }
    {
        same_end(&self.end, &other.end) && self.gas == other.gas
    }
}

fn copy_end(alloc: Global, end: &Option<Why>) -> Result<Option<Why>, NoMemory>
    ensures { IfOk result (λ copied. copied ≡ end.now) }
{
    match end {
        None => Ok(None),
        Some(why) => Ok(Some(why.copy(alloc)?)),
    }
}

fn same_end(a: &Option<Why>, b: &Option<Why>) -> bool
    ensures { IsTrue result ↔ (a.now ≡ b.now) }
{
    match (a, b) {
        (None, None) => true,
        (Some(x), Some(y)) => x.same(y),
        _ => false,
    }
}
