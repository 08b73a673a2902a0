//! Values and types are built of their parts, and of nothing else.

ghost use Rattle.std.specs.Prelude.{Bool, IsTrue};
ghost use Rattle.std.specs.List.{list_all};
ghost use Rattle.value_core.specs.Layer.{parts_of};
ghost use Rattle.value_core.specs.TypeLevels.{types_in};
ghost use Rattle.value_core.specs.declared.ty.Ty.{Ty};
ghost use Rattle.value_core.specs.declared.ty.Ty.TheViews.{out-Ty};
ghost use Rattle.value_core.specs.declared.val.Val.{Val};
ghost use Rattle.value_core.specs.declared.val.Val.TheViews.{out-Val};

/// A test that each value passes whose parts pass it is passed by every value; and so of types.
pub fn what_passes_with_its_parts_always_passes()
    ensures values { (test : Val → Bool) →
        ((v : Val) → IsTrue (list_all test (parts_of (out-Val v))) → IsTrue (test v)) →
        (v : Val) → IsTrue (test v) }
    ensures types { (test : Ty → Bool) →
        ((t : Ty) → IsTrue (list_all test (types_in (out-Ty t))) → IsTrue (test t)) →
        (t : Ty) → IsTrue (test t) }
{}
