//! How a request is answered.

use cell_names::Mode;

/// What a ticket is told that asks for a cell.
#[derive(Clone, Copy, Debug, PartialEq, Eq)]
pub enum Asked {
    /// No other ticket holds the cell in a mode that conflicts.
    Granted,
    /// The least ticket that holds the cell in a mode that conflicts, and that mode.
    Held { by: u32, mode: Mode },
}
