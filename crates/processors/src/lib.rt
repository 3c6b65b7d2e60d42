// The processors of a MADT, given by its own bytes and by where its enabled CORE stand, which the walk has noted: the list of their
// numbers, and refusal 39 (document 01, "What comes back" and "Refusals in order"). Their IDs are read from the table again
// whenever they are asked for; no copy of them is kept.
#![tactic(auto)]

ghost use Rattle.std.specs.Prelude.{◌≡◌, take};
ghost use Rattle.processors.specs.Again.{processor_at};

use madt::Offsets;

mod entries; // the one way that either list is filled
pub mod bytes; // the same list as bytes, for the C entry
pub mod list; // UID and physical ID of each enabled CORE
pub mod repeats; // 39: an enabled CORE that repeats an ID of an earlier one

// A processor by its UID and its physical ID.
#[derive(Clone, Copy)]
pub struct Processor {
    pub uid: u32,
    pub id: u32,
}

// Where a CORE says its UID; its physical ID stands behind it.
const IDS: usize = 3;

// What is above the lower of two numbers of 32 bits that are read as one.
const ABOVE: u64 = 4294967296;

// The processor whose CORE stands at an offset. Both IDs are read in one step.
pub(crate) fn processor_at(table: &[u8], at: u16) -> Processor
    ensures { result ≡ processor_at table.now at }
{
    let ids = words::u64_at(table, usize::from(at) + IDS);
    Processor {
        uid: (ids % ABOVE) as u32,
        id: (ids / ABOVE) as u32,
    }
}

// Those that are noted in the front of a room, or all of it where there are fewer.
pub fn noted(room: &Offsets, count: usize) -> &[u16]
    ensures { result.now ≡ take count room.now }
{
    &room[..count.min(room.len())]
}
