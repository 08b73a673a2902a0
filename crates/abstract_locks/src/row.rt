//! The tickets that have a place at one cell.

ghost use Rattle.std.specs.Prelude.{◌≡◌, ◌↔◌, ◌==◌, ℕ, [], IsTrue, IsSome, None, Some, OnOk, OnErr, if◌then◌else◌};
ghost use Rattle.std.specs.Ordering.{nat_cmp};
ghost use Rattle.std.specs.FinMap.{is_sorted};
ghost use Rattle.value_core.specs.Places.{StandsAt};
ghost use Rattle.cell_names.specs.Footprints.{further};
ghost use Rattle.abstract_locks.specs.Holders.{AreApart, IsFree, Answers, asked};
ghost use Rattle.abstract_locks.specs.Tables.{place_in, mode_at, holders_in};
ghost use Rattle.abstract_locks.specs.Rows.{answer_in, told};

use crate::asked::Asked;
use cell_names::{Mode, NoMemory, conflict, join};
use std::alloc::Global;
use std::marker::Model;

/// The tickets that have a place at one cell, each with the mode in which it holds the cell. Where
/// a place has no mode, room is reserved and nothing held.
#[derive(Debug, Drop)]
pub struct Row {
    places: Vec<(u32, Option<Mode>)>,
}

impl Model for Row {
    ghost use Rattle.std.specs.Prelude.{List, Option, ℕ};
    ghost use Rattle.cell_names.specs.declared.mode.Mode.{Mode};

    ghost Value = { List (ℕ × Option Mode) };

    ghost use Rattle.abstract_locks.specs.Rows.{IsRow};

    ghost view = { λ r. r.places.items };

    ghost invariant = { λ r. IsRow r.places.items };
}

impl Row {
    /// A row with no place. It takes no memory.
    pub fn new(alloc: Global) -> Row
        ensures { result ≡ [] }
    {
        Row {
            places: Vec::new(alloc),
        }
    }

    /// Whether no ticket has a place.
    pub fn is_empty(&self) -> bool
        ensures { IsTrue result ↔ (self.now ≡ []) }
    {
        self.places.is_empty()
    }

    /// What stands at the ticket's place, if it has one.
    pub fn at(&self, ticket: u32) -> Option<Option<Mode>>
        ensures { result ≡ place_in self.now ticket }
    {
        match place(self.places.as_slice(), ticket) {
            Ok(i) => Some(self.places[i].1),
            Err(_) => None,
        }
    }

    /// How the ticket is answered that asks for one more mode.
    pub fn answer(&self, ticket: u32, m: Mode) -> Asked
        ensures answer { Answers (holders_in self.now) ticket m result }
        ensures apart { AreApart (holders_in self.now) }
    {
        let asked = further(mode_at(self.at(ticket)), m);
        first_against(self.places.as_slice(), ticket, asked)
    }

    /// Makes a place for a ticket that has none.
    pub fn add(&mut self, ticket: u32) -> Result<(), NoMemory>
        requires { place_in self.old ticket ≡ None }
        ensures added { OnOk result ((n : ℕ) → place_in self.new n
            ≡ (if n == ticket then Some None else place_in self.old n)) }
        ensures unchanged { OnErr result (self.new ≡ self.old) }
    {
        match place(self.places.as_slice(), ticket) {
            Ok(_) => Ok(()),
            Err(i) => {
                self.places.insert(i, (ticket, None))?;
                Ok(())
            }
        }
    }

    /// Joins the mode to what the ticket holds. It takes no memory.
    pub fn hold(&mut self, ticket: u32, m: Mode)
        requires place { IsSome (place_in self.old ticket) }
        requires free { IsFree (holders_in self.old) ticket m }
        ensures { (n : ℕ) → place_in self.new n ≡ (if n == ticket
            then Some (Some (asked (holders_in self.old) ticket m)) else place_in self.old n) }
    {
        if let Ok(i) = place(self.places.as_slice(), ticket) {
            let held = self.places[i].1;
            self.places[i].1 = Some(further(held, m));
        }
    }

    /// Takes the ticket's place away, if it has one. It takes no memory.
    pub fn leave(&mut self, ticket: u32)
        ensures { (n : ℕ) → place_in self.new n
            ≡ (if n == ticket then None else place_in self.old n) }
    {
        if let Ok(i) = place(self.places.as_slice(), ticket) {
            let _ = self.places.remove(i);
        }
    }
}

/// The mode at a place, if there is one.
fn mode_at(place: Option<Option<Mode>>) -> Option<Mode>
    ensures { result ≡ mode_at place }
{
    match place {
        Some(mode) => mode,
        None => None,
    }
}

/// The mode in which a ticket holds that is to hold in one more.
fn further(held: Option<Mode>, m: Mode) -> Mode
    ensures { result ≡ further held m }
{
    match held {
        Some(held) => join(held, m),
        None => m,
    }
}

/// The first ticket but this one that holds in any mode decides, since the others hold in the same.
fn first_against(places: &[(u32, Option<Mode>)], ticket: u32, m: Mode) -> Asked
    ensures { result ≡ answer_in places.now ticket m }
{
    for place in places {
        if place.0 != ticket {
            if let Some(held) = place.1 {
                return tell(place.0, held, m);
            }
        }
    }
    Asked::Granted
}

fn tell(by: u32, held: Mode, m: Mode) -> Asked
    ensures { result ≡ told by held m }
{
    if conflict(held, m) {
        Asked::Held { by, mode: held }
    } else {
        Asked::Granted
    }
}

/// Where the ticket stands, or else where it would stand.
fn place(places: &[(u32, Option<Mode>)], ticket: u32) -> Result<usize, usize>
    requires { IsTrue (is_sorted nat_cmp places.now) }
    ensures { StandsAt (λ place. place.0) nat_cmp places.now ticket result }
{
    places.binary_search_by(|place| place.0.cmp(&ticket))
}
