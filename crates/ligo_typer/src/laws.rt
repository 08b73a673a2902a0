//! What is true of all programs.

ghost use Rattle.std.specs.Prelude.{◌≡◌, List};
ghost use Rattle.ligo_syntax.specs.declared.program.Decl.{Decl};
ghost use Rattle.ligo_syntax.specs.declared.program.Program.{Program};
ghost use Rattle.ligo_typer.specs.declared.fault.LigoFault.{LigoFault};
ghost use Rattle.ligo_typer.specs.declared.typed_expr.TypedExpr.{TypedExpr};
ghost use Rattle.ligo_typer.specs.declared.typed_program.TypedProgram.{TypedProgram};
ghost use Rattle.ligo_typer.specs.Entries.{Above};
ghost use Rattle.ligo_typer.specs.Plans.{Part};
ghost use Rattle.ligo_typer.specs.Programs.{BreaksIn, IsProgramFault, IsTypedProgram, Stands};
ghost use Rattle.ligo_typer.specs.Scopes.{Known};
ghost use Rattle.ligo_typer.specs.Typing.{IsFaulty, IsTyped};

/// An expression at its place is one typed expression at most, and breaks no rule where it is one.
pub fn expressions_have_one_typing()
    ensures one { (known : Known) (p : Part) (x y : TypedExpr) → IsTyped known p x → IsTyped known p y → x ≡ y }
    ensures either { (known : Known) (p : Part) (x : TypedExpr) (f : LigoFault) →
        IsTyped known p x → IsFaulty known p f → ⊥ }
{}

/// A program is one typed program at most, and has no fault where it is one.
pub fn programs_have_one_typing()
    ensures one { (p : Program) (t u : TypedProgram) → IsTypedProgram p t → IsTypedProgram p u → t ≡ u }
    ensures either { (p : Program) (t : TypedProgram) (f : LigoFault) →
        IsTypedProgram p t → IsProgramFault p f → ⊥ }
{}

/// All faults that declarations of a program have are in one of them.
pub fn faults_have_one_declaration()
    ensures { (p : Program) (before other : List Decl) (d e : Decl) (a b : Above) (f g : LigoFault) →
        Stands p before d a → BreaksIn a d f → Stands p other e b → BreaksIn b e g → before ≡ other }
{}
