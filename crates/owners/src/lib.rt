// W-211 of document 02, for the line display: a table of the owners of the global numbers 0 to 319, filled from a map and kept
// beside it, and the lookup of a number with both. A lookup holds the map to its rules and the whole table to the map, each time.
#![tactic(auto)]

ghost use Rattle.std.specs.Prelude.{◌≡◌};
ghost use Rattle.owners.specs.Table.{table_of, empty_table};
ghost use Rattle.owners.specs.Lookups.{filling_of, owner_by, lookup_of};

use lines::{Map, Owner, Route};
use std::array;
use words::Refusal;

// How many global numbers the table has, from 0 on.
pub const NUMBERS: usize = 320;

// The owners of the numbers 0 to 319.
#[derive(Clone, Copy, PartialEq, Eq)]
pub struct OwnerTable {
    pub entries: [Owner; NUMBERS],
}

// What comes of filling a table: the map's table and nothing to refuse, or the refusal and a table in which nobody owns a number.
// It is no Result, since a table stands beside the refusal too, which FillRefuses promises and a lookup may be asked with (FilledIsTaken).
#[derive(Clone, Copy)]
pub struct Filling {
    pub verdict: Result<(), Refusal>,
    pub table: OwnerTable,
}

// A table in which nobody owns a number.
fn empty_table() -> OwnerTable
    ensures { result ≡ empty_table }
{
    OwnerTable {
        entries: [Owner::Nobody; NUMBERS],
    }
}

// The owner of each number, by the map.
fn table_of(map: Map) -> OwnerTable
    ensures { result ≡ table_of map }
{
    OwnerTable {
        entries: array::from_fn(|i| map.owner(i as u32)),
    }
}

// Whose a number is: by the table as far as it goes, and by the map above it.
fn owner_by(map: Map, table: OwnerTable, number: u32) -> Owner
    ensures { result ≡ owner_by map table number }
{
    match table.entries.get(number as usize) {
        Some(owner) => *owner,
        None => map.owner(number),
    }
}

// The table that a map fills in.
pub fn fill(map: Map) -> Filling
    ensures { result ≡ filling_of map }
{
    if map.keeps_rules() {
        return Filling {
            verdict: Ok(()),
            table: table_of(map),
        };
    }
    Filling {
        verdict: Err(words::refuse(61, 0)),
        table: empty_table(),
    }
}

// Whose a number is and where it arrives, with the map's table beside the map: 61 for a map that breaks a rule, then 63 for a table
// that this map does not fill in.
pub fn look_up(map: Map, table: OwnerTable, number: u32) -> Result<(Owner, Route), Refusal>
    ensures { result ≡ lookup_of map table number }
{
    if !map.keeps_rules() {
        return Err(words::refuse(61, 0));
    }
    if table != table_of(map) {
        return Err(words::refuse(63, 0));
    }
    let owner = owner_by(map, table, number);
    Ok((owner, map.arrival_of(owner)))
}
