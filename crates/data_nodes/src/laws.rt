//! What is true of faults: each law is a clause.

ghost use Rattle.std.specs.Prelude.{◌≡◌, ◌↔◌, Err, None};
ghost use Rattle.value_core.specs.declared.ty.Ty.{Ty};
ghost use Rattle.value_core.specs.declared.val.Val.{Val};
ghost use Rattle.micheline_text.specs.declared.node.Node.{Node};
ghost use Rattle.data_nodes.specs.declared.fault.DataFault.{DataFault};
ghost use Rattle.data_nodes.specs.Data.{IsData};
ghost use Rattle.data_nodes.specs.Faults.{storage_read};
ghost use Rattle.data_nodes.specs.FirstFault.{IsDataFault, IsFirstFault, OfType, Place, IsFaultAt};

/// What a reader from the left comes upon is the fault that stands before all others. A node has
/// one such fault at most, and data has none.
pub fn the_first_fault_is_told()
    ensures told { (t : Ty) (n : Node) (f : DataFault) →
        (storage_read t n ≡ Err f) ↔ IsFirstFault t n f }
    ensures one { (t : Ty) (n : Node) (f g : DataFault) →
        IsFirstFault t n f → IsFirstFault t n g → f ≡ g }
    ensures one_of_data { (t : Ty) (n : Node) (f g : DataFault) →
        IsDataFault t n f → IsDataFault t n g → f ≡ g }
    ensures none { (t : Ty) (n : Node) (v : Val) → IsData t n v →
        (p : Place) (f : DataFault) → IsFaultAt p (OfType t None) n f → ⊥ }
{}
