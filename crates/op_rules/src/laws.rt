//! What is true of operations, whoever runs them.

ghost use Rattle.std.specs.Prelude.{◌≡◌, ◌↔◌, ◌++◌, ◌∷◌, [], IsTrue, List, ℕ, map, true};
ghost use Rattle.std.specs.FinMap.{get};
ghost use Rattle.std.specs.List.{AllByRecursion};
ghost use Rattle.value_core.specs.declared.ty.Ty.{Ty};
ghost use Rattle.value_core.specs.declared.val.Val.{Val};
ghost use Rattle.michelson_code.specs.declared.script.Script.{Script};
ghost use Rattle.michelson_code.specs.declared.why.Why.{Why};
ghost use Rattle.michelson_rules.specs.declared.ask.Budget.{Budget};
ghost use Rattle.michelson_rules.specs.declared.ask.Env.{Env};
ghost use Rattle.michelson_rules.specs.Metered.{script_outcome};
ghost use Rattle.michelson_rules.specs.World.{World};
ghost use Rattle.cell_names.specs.declared.access.Access.{Access};
ghost use Rattle.cell_names.specs.declared.cell.Cell.TheVariants as cell;
ghost use Rattle.cell_names.specs.declared.head.Head.{Head};
ghost use Rattle.cell_names.specs.Conditions.{Seen};
ghost use Rattle.cell_names.specs.Contents.{Contents};
ghost use Rattle.cell_names.specs.Supply.{supply};
ghost use Rattle.code_book.specs.Books.{Contracts, IsBook};
ghost use Rattle.code_book.specs.Fits.{fits_access};
ghost use Rattle.code_book.specs.Ownership.{IsBookOf};
ghost use Rattle.join_schedule.specs.Cover.{Cover};
ghost use Rattle.op_rules.specs.declared.op.Op.{Op};
ghost use Rattle.op_rules.specs.declared.transfer.Transfer.{Transfer};
ghost use Rattle.op_rules.specs.Alike.{AgreeWhereSeen, AnswerAlike, IsSame, MayBeSwapped, NeverConflict, left_by};
ghost use Rattle.op_rules.specs.Course.{Course, Failed, footprint_of};
ghost use Rattle.op_rules.specs.Orders.{Entry, IsOrderOf, KeepsConflicts, Respects, RunsTo, entries_in, numbered};
ghost use Rattle.op_rules.specs.Laws.{ChangesAreTouched, GetsReplies};
ghost use Rattle.op_rules.specs.Ledgers.{AreLedgerCells, MakesFit};
ghost use Rattle.op_rules.specs.Operations.{IsLawful};
ghost use Rattle.op_rules.specs.Replies.{AreLawful, BeginWith, Gives};
ghost use Rattle.op_rules.specs.Runs.{ChangesAreInFootprints, IsOfNone, IsOfOne, IsOneAfterTheOther, TellsOfEach};
ghost use Rattle.op_rules.specs.SameType.{is_same_type};
ghost use Rattle.op_rules.specs.Serial.{cells_after, run_all, serial};
ghost use Rattle.op_rules.specs.SerialRule.{transfers};
ghost use Rattle.op_rules.specs.Worlds.{map_at};

/// The test of two types, level by level, tells whether they are equal.
pub fn same_types_are_equal()
    ensures { (s t : Ty) → IsTrue (is_same_type s t) ↔ (s ≡ t) }
{}

/// A big map of a contract has at each key what the cell of that entry has.
pub fn a_big_map_has_what_its_cells_have()
    ensures { (m : Contents) (self : List ℕ) (place : ℕ) (key : Val)
        → get (map_at m self place) key ≡ get m (cell.Entry self place key) }
{}

/// What a script comes to in a world, it comes to in each that answers its questions alike.
pub fn worlds_that_answer_alike_run_alike()
    ensures { (s : Script) (env : Env) (w v : World) (left : Budget) (param storage : Val)
        → AnswerAlike w v (script_outcome s env w left param storage)
        → script_outcome s env v left param storage ≡ script_outcome s env w left param storage }
{}

/// On a ledger that gives its accesses the same replies an operation makes the same accesses,
/// spends as much, and ends alike.
pub fn an_operation_turns_on_its_replies()
    ensures { (book : Contracts) (head : Head) (op : Op) (m n : Contents)
        → Gives (serial book head op m).course.past n
        → IsSame (serial book head op m) (serial book head op n) }
{}

/// On a ledger with the same in each cell that it reads or owns an operation makes the same accesses,
/// spends as much, and ends alike; what its credits find doesn't matter.
pub fn an_operation_turns_on_what_it_sees()
    ensures { (book : Contracts) (head : Head) (op : Op) (m n : Contents)
        → AgreeWhereSeen (footprint_of (serial book head op m).course.past) m n
        → IsSame (serial book head op m) (serial book head op n) }
{}

/// Two operations that follow one another and whose footprints don't conflict may be swapped.
pub fn neighbours_that_never_conflict_may_be_swapped()
    ensures { (book : Contracts) (head : Head) (a b : Op) (m : Contents)
        → NeverConflict (footprint_of (serial book head a m).course.past)
        (footprint_of (serial book head b (left_by book head a m)).course.past)
        → MayBeSwapped book head a b m }
{}

/// Another order of operations, in which those that conflict stand as they stood, gives each the same
/// receipt and the same footprint, and leaves the same cells.
pub fn orders_that_keep_conflicts_have_one_run()
    ensures { (book : Contracts) (head : Head) (m n : Contents) (entries others : List Entry)
        → KeepsConflicts entries others → RunsTo book head m entries n
        → RunsTo book head m others n }
{}

/// Where joins order all conflicts of a block's footprints, each order of its operations that respects the
/// joins gives each the same receipt and the same footprint, and leaves the same cells.
pub fn orders_that_respect_joins_have_one_run()
    ensures { (book : Contracts) (head : Head) (m n : Contents) (joins : List (List ℕ))
        (entries : List Entry) (others : List (ℕ × Entry))
        → Cover joins (map (λ e. e.footprint) entries)
        → IsOrderOf (numbered 0 entries) others → Respects joins others
        → RunsTo book head m entries n → RunsTo book head m (entries_in others) n }
{}

/// Transfers only add accesses to those so far.
pub fn transfers_only_add_accesses()
    ensures { (book : Contracts) (head : Head) (source : List ℕ) (calls : ℕ) (ts : List Transfer)
        (m : Contents) (course : Course)
        → BeginWith course.past (transfers book head source calls ts m course).course.past }
{}

/// The accesses of an operation get their replies on the cells on which it runs, and where it is
/// applied the cells are what its accesses leave.
pub fn an_operation_is_its_accesses()
    ensures { (book : Contracts) (head : Head) (op : Op) (opening : Contents)
        → GetsReplies opening (serial book head op opening) }
{}

/// An operation that fails leaves each cell as it was.
pub fn a_failed_operation_changes_nothing()
    ensures { (book : Contracts) (head : Head) (op : Op) (opening : Contents) (why : Why)
        → (serial book head op opening).end ≡ Failed why
        → cells_after opening (serial book head op opening) ≡ opening }
{}

/// An operation makes no money and loses none.
pub fn an_operation_keeps_the_supply()
    ensures { (book : Contracts) (head : Head) (op : Op) (opening : Contents)
        → supply (cells_after opening (serial book head op opening)) ≡ supply opening }
{}

/// A cell that an operation changes stands in its footprint, credited or owned.
pub fn a_changed_cell_is_in_the_footprint()
    ensures { (book : Contracts) (head : Head) (op : Op) (opening : Contents)
        → ChangesAreTouched opening (serial book head op opening) }
{}

/// A run goes on where it was cut, with what the operations before left: so a run is its operations,
/// one after another.
pub fn a_run_goes_on_where_it_was_cut()
    ensures none { (book : Contracts) (head : Head) (opening : Contents)
        → IsOfNone opening (run_all book head [] opening) }
    ensures one { (book : Contracts) (head : Head) (op : Op) (opening : Contents)
        → IsOfOne opening op (serial book head op opening) (run_all book head (op ∷ []) opening) }
    ensures cut { (book : Contracts) (head : Head) (ops others : List Op) (opening : Contents)
        → IsOneAfterTheOther (run_all book head ops opening)
        (run_all book head others (run_all book head ops opening).cells)
        (run_all book head (ops ++ others) opening) }
{}

/// A run tells a receipt and a footprint of each operation.
pub fn a_run_tells_of_each_operation()
    ensures { (book : Contracts) (head : Head) (ops : List Op) (opening : Contents)
        → TellsOfEach ops (run_all book head ops opening) }
{}

/// A run makes no money and loses none.
pub fn a_run_keeps_the_supply()
    ensures { (book : Contracts) (head : Head) (ops : List Op) (opening : Contents)
        → supply (run_all book head ops opening).cells ≡ supply opening }
{}

/// A cell that a run changes stands in the footprint of some operation, credited or owned.
pub fn a_cell_that_a_run_changes_is_in_a_footprint()
    ensures { (book : Contracts) (head : Head) (ops : List Op) (opening : Contents)
        → ChangesAreInFootprints opening (run_all book head ops opening) }
{}

/// On lawful cells of a book an operation makes fit accesses alone: what it writes has the types of
/// its cell, who is credited may have money, and no credit is above what is in flight. Where it is
/// applied nothing is left in flight.
pub fn an_operation_makes_fit_accesses()
    ensures { (book : Contracts) (head : Head) (op : Op) (opening : Contents) → IsBook book
        → IsLawful op → AreLawful book opening 0 → MakesFit book (serial book head op opening) }
{}

/// Of the cells of a ledger an operation leaves the cells of a ledger, of the same book.
pub fn an_operation_leaves_a_lawful_ledger()
    ensures { (book : Contracts) (head : Head) (op : Op) (opening : Contents) → IsBook book
        → IsLawful op → AreLedgerCells book opening
        → AreLedgerCells book (cells_after opening (serial book head op opening)) }
{}

/// Of the cells of a ledger a run of operations leaves the cells of a ledger, of the same book.
pub fn a_run_leaves_a_lawful_ledger()
    ensures { (book : Contracts) (head : Head) (ops : List Op) (opening : Contents) → IsBook book
        → AllByRecursion IsLawful ops → AreLedgerCells book opening
        → AreLedgerCells book (run_all book head ops opening).cells }
{}

/// A book is that of each store that has the cells of a ledger and allows the accesses that fit.
pub fn a_ledger_is_its_books()
    ensures { (book : Contracts) (seen : Seen) → AreLedgerCells book seen.cells → seen.flight ≡ 0
        → ((a : Access) → fits_access book a ≡ true → seen.fits a ≡ true) → IsBookOf book seen }
{}
