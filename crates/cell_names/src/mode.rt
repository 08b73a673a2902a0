//! The modes in which an operation touches a cell.

ghost use Rattle.std.specs.Prelude.{◌≡◌};
ghost use Rattle.cell_names.specs.Modes.{conflicts, joined};

/// How an operation touches a cell.
#[derive(Clone, Copy, Debug, PartialEq, Eq)]
pub enum Mode {
    /// It reads the cell.
    Read,
    /// It adds to a balance, and learns nothing of it.
    Credit,
    /// It reads and changes the cell.
    Own,
}

/// Whether two operations must not hold one cell in these modes.
pub fn conflict(a: Mode, b: Mode) -> bool
    ensures { result ≡ conflicts a b }
{
    !matches!(
        (a, b),
        (Mode::Read, Mode::Read) | (Mode::Credit, Mode::Credit)
    )
}

/// The one mode that stands for two touches of a cell by one operation.
pub fn join(a: Mode, b: Mode) -> Mode
    ensures { result ≡ joined a b }
{
    if a == b { a } else { Mode::Own }
}
