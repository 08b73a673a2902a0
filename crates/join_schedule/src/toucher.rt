//! For each cell the operations that touched it so far, and the first that one more is apart from.

ghost use Rattle.std.specs.Prelude.{◌≡◌, ◌++◌, IsTrue, OnOk, Some};
ghost use Rattle.std.specs.Option.{option_map};
ghost use Rattle.cell_names.specs.declared.cell.Cell.{Cell};
ghost use Rattle.cell_names.specs.Footprints.{ascends, mode_of};
ghost use Rattle.join_schedule.specs.Sets.{is_marked};
ghost use Rattle.join_schedule.specs.Touchers.{touches_at, noted_at, one_touch, is_apart, least_with, least_apart, sooner, first_apart};

use cell_names::{Cell, Mode, NoMemory, conflict};
use std::alloc::Global;
use std::collections::BTreeMap;

/// The touches of each cell, in the order of operations.
pub type Touchers = BTreeMap<Cell, Vec<(u32, Mode)>>;

/// Notes the touches of one more operation.
pub fn note(
    alloc: Global,
    touchers: &mut Touchers,
    op: u32,
    touches: &[(Cell, Mode)],
) -> Result<(), NoMemory>
    requires { IsTrue (ascends touches.now) }
    ensures { OnOk result ((c : Cell) → touches_at touchers.new c
        ≡ touches_at touchers.old c ++ one_touch op (mode_of touches.now c)) }
{
    for touch in touches {
        note_one(alloc, touchers, &touch.0, (op, touch.1))?;
    }
    Ok(())
}

fn note_one(
    alloc: Global,
    touchers: &mut Touchers,
    cell: &Cell,
    touch: (u32, Mode),
) -> Result<(), NoMemory>
    ensures { OnOk result ((c : Cell) → touches_at touchers.new c
        ≡ touches_at touchers.old c ++ noted_at c cell.now touch) }
{
    let mut touches = touchers.remove(cell).unwrap_or(Vec::new(alloc));
    touches.push(touch)?;
    touchers.insert(cell.copy(alloc)?, touches)?;
    Ok(())
}

/// The least operation that touched one of these cells, conflicts there and isn't marked in the
/// row, with the first such cell.
pub fn first_among<'a>(
    row: &[bool],
    touchers: &Touchers,
    touches: &'a [(Cell, Mode)],
) -> Option<(u32, &'a Cell)>
    ensures { option_map (λ x. (x.0, x.1.now)) result
        ≡ first_apart row.now (touches_at touchers.now) touches.now }
{
    let mut first: Option<(u32, &Cell)> = None;
    for touch in touches {
        let here = least_among(row, touch.1, touches_of(touchers, &touch.0));
        first = sooner_of(first, here, &touch.0);
    }
    first
}

fn sooner_of<'a>(
    first: Option<(u32, &'a Cell)>,
    here: Option<u32>,
    cell: &'a Cell,
) -> Option<(u32, &'a Cell)>
    ensures { option_map (λ x. (x.0, x.1.now)) result
        ≡ sooner (option_map (λ x. (x.0, x.1.now)) first.entry)
        (option_map (λ i. (i, cell.now)) here) }
{
    match (first, here) {
        (Some(known), Some(op)) => {
            if known.0 <= op {
                Some(known)
            } else {
                Some((op, cell))
            }
        }
        (None, Some(op)) => Some((op, cell)),
        (known, None) => known,
    }
}

fn touches_of<'a>(touchers: &'a Touchers, cell: &Cell) -> &'a [(u32, Mode)]
    ensures { result.now ≡ touches_at touchers.now cell.now }
{
    match touchers.get(cell) {
        Some(touches) => touches.as_slice(),
        None => &[],
    }
}

fn least_among(row: &[bool], mode: Mode, touches: &[(u32, Mode)]) -> Option<u32>
    ensures { result ≡ least_apart row.now mode touches.now }
{
    let mut least: Option<u32> = None;
    for touch in touches {
        if apart(row, mode, *touch) {
            least = Some(lesser(touch.0, least));
        }
    }
    least
}

fn lesser(op: u32, known: Option<u32>) -> u32
    ensures { Some result ≡ least_with op known }
{
    match known {
        Some(known) => op.min(known),
        None => op,
    }
}

fn apart(row: &[bool], mode: Mode, touch: (u32, Mode)) -> bool
    ensures { result ≡ is_apart row.now mode touch }
{
    conflict(touch.1, mode) && !is_set(row, touch.0)
}

fn is_set(row: &[bool], op: u32) -> bool
    ensures { result ≡ is_marked row.now op }
{
    match row.get(op as usize) {
        Some(mark) => *mark,
        None => false,
    }
}
