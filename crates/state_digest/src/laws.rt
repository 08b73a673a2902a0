//! What is true of digests that are kept.

ghost use Rattle.std.specs.Prelude.{◌≡◌, ℕ, false, List};
ghost use Rattle.cell_names.specs.declared.cell.Cell.{Cell};
ghost use Rattle.cell_names.specs.Contents.{Contents};
ghost use Rattle.ledger_state.specs.Ledger.{Ledger};
ghost use Rattle.state_digest.specs.declared.digests.Digests.{Digests};
ghost use Rattle.state_digest.specs.Digest.{bucket_digest};
ghost use Rattle.state_digest.specs.Digests.{AreDigestsOf, AreStates, AreUpdated, DifferAtMostIn, is_touched, last_state};

/// Any list of updates from a state's digests ends with those of the last state, so with its
/// `root`: each update finds what it asks.
pub fn updates_end_with_the_last_state()
    ensures { (s : Ledger) (updates : List (Ledger × List Cell)) (d e : Digests)
        → AreDigestsOf s d → AreStates s updates → AreUpdated d updates e
        → AreDigestsOf (last_state s updates) e }
{}

/// A bucket of which no cell was touched keeps its digest.
pub fn an_untouched_bucket_keeps_its_digest()
    ensures { (touched : List Cell) (old new : Contents) (k : ℕ)
        → DifferAtMostIn touched old new → is_touched touched k ≡ false
        → bucket_digest k old ≡ bucket_digest k new }
{}

/// Digests of one state agree in all of which `root` is made.
pub fn digests_of_one_state_agree()
    ensures book { (s : Ledger) (d e : Digests) → AreDigestsOf s d → AreDigestsOf s e
        → d.book ≡ e.book }
    ensures buckets { (s : Ledger) (d e : Digests) → AreDigestsOf s d → AreDigestsOf s e
        → d.buckets.items ≡ e.buckets.items }
{}
