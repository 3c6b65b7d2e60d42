// The reading: a capture in, the map, the processor list and their count out, or the first refusal of all the rules.
#![tactic(auto)]

ghost use Rattle.std.specs.Prelude.{◌≡◌, take, false, ◌∷◌, ◌++◌, IfOk};
ghost use Rattle.lines.specs.Says.{says};
ghost use Rattle.lines.specs.Rules.{too_many, map_rules};
ghost use Rattle.words.specs.Rooms.{filled};
ghost use Rattle.processors.specs.Listing.{processors, count};
ghost use Rattle.processors.specs.Repeats.{first_repeat};
ghost use Rattle.processors.specs.Again.{Standing};
ghost use Rattle.words.specs.Refusals.{unless, first_refusal};
ghost use Rattle.reading.specs.Scan.{madt_bytes, empty_map, turned_down, repeat_rule, processor_rule, madt_rules, line_rules, accepted, walk_of, scan};
ghost use Rattle.reading.specs.AsAnswered.{scan_of};
ghost use Rattle.reading.specs.Reading.{without_map, answered, reading_of, list_after};

use capture::pairs::pairs_of;
use lines::Map;
use madt::{Found, Offsets};
use tables::{Strictness, Table, Tables};
use words::{NoRoom, Refusal};

pub mod entries; // the C entries

// What all rules up to 54 leave: sound with the MADT and the map, or the refusal with an empty map. No Result: the map of a capture that
// is refused is the fixed empty one, which callers ask too, and promises/specs/Captures speaks of it.
#[derive(Clone, Copy)]
pub struct Scan {
    pub verdict: Result<(), Refusal>,
    pub madt: Table,
    pub map: Map,
}

// What is found where no rule up to 54 is broken, with how many processors are noted in the front of the room that was lent.
#[derive(Clone, Copy)]
pub(crate) struct Accepted {
    pub(crate) madt: Table,
    pub(crate) map: Map,
    pub(crate) processors: u16,
}

// The MADT's own bytes, and the offsets in them at which its enabled CORE stand. `first_repeat` and both `fill` take the two apart:
// what they promise holds of any offsets.
#[derive(Clone, Copy)]
pub(crate) struct Cores<'a> {
    pub(crate) table: &'a [u8],
    pub(crate) offsets: &'a [u16],
    ghost standing: { Standing table.now offsets.now },
}

// The answer, and the map beside it: the fixed empty one where the capture is refused. No Result: by document 01 there is a map in any
// case.
#[derive(Clone, Copy)]
pub struct Reading {
    pub answer: Result<usize, Refusal>,
    pub map: Map,
}

#[tactic(auto, unfolding(crate::specs::Scan::madt_bytes))]
pub(crate) fn madt_bytes(capture: &[u8], madt: Table) -> &[u8]
    ensures { result.now ≡ madt_bytes capture.now madt }
{
    words::part(capture, madt.place as usize, madt.length as usize)
}

#[tactic(auto, unfolding(crate::specs::Scan::empty_map, madt::specs::Contents::found_in))]
fn empty_map() -> Map
    ensures { result ≡ empty_map }
{
    Found::nothing(0).map
}

#[tactic(auto, unfolding(crate::specs::Scan::turned_down))]
fn turn_down(refusal: Refusal) -> Scan
    ensures { result ≡ turned_down refusal }
{
    let madt = Table {
        place: 0,
        length: 0,
    };
    Scan {
        verdict: Err(refusal),
        madt,
        map: empty_map(),
    }
}

// Refusal 39.
fn check_repeats(cores: Cores<'_>, base: u16) -> Result<(), Refusal>
    ensures { result ≡ repeat_rule base (first_repeat cores.entry.table.now) }
{
    match processors::repeats::first_repeat(cores.table, cores.offsets) {
        None => Ok(()),
        Some(offset) => Err(words::refuse(39, base as u32 + offset as u32)),
    }
}

// Refusals 39 to 54. The walk has noted and counted the processors, and found no kind to have too many.
#[tactic(auto, unfolding(words::specs::Refusals::first_refusal, words::specs::Refusals::unless, crate::specs::Scan::processor_rule))]
fn rules_after_walk(cores: Cores<'_>, t: Tables, found: &Found) -> Result<(), Refusal>
    requires enabled_value { found.now.enabled ≡ count cores.table.now }
    requires map_value { too_many found.now.map ≡ false }
    ensures { let table = cores.entry.table.now in
        let base = t.madt.place in
        result ≡ first_refusal (repeat_rule base (first_repeat table) ∷ processor_rule base (count table) ∷ map_rules (says found.now.map) found.now.places base t.fadt.place) }
{
    let base = t.madt.place as u32;
    let fadt = t.fadt.place as u32;
    check_repeats(cores, t.madt.place)?;
    words::rule(found.enabled == 0, 40, base)?;
    found.map.first_broken_of_lent(found.places, base, fadt)
}

// The walk of the MADT that a survey found, and what comes after it.
fn scan_tables(capture: &[u8], t: Tables, room: &mut Offsets) -> Result<Accepted, Refusal>
    ensures scan_value { let c = capture.now in
        scan_of result ≡ unless turned_down (first_refusal (madt_rules c t ++ line_rules c t)) (accepted t (walk_of c t).found.map) }
    ensures standing { IfOk result (λ a. Standing (madt_bytes capture.now a.madt) (take a.processors room.new)) }
{
    let walked = madt::walk::walk_madt(capture, t.madt, t.sci, pairs_of(capture), room);
    // No `?`: it moves what was found, and a map that is moved is a call of memcpy (`Map::copied`).
    let found = match &walked {
        Ok(found) => found,
        Err(refusal) => return Err(*refusal),
    };
    let processors = found.enabled;
    let table = madt_bytes(capture, t.madt);
    let offsets = processors::noted(room, processors as usize);
    rules_after_walk(Cores { table, offsets }, t, found)?;
    Ok(Accepted {
        madt: t.madt,
        map: found.map.copied(),
        processors,
    })
}

// All rules up to 54, and what is found where none is broken; where the processors stand is noted in a lent room.
pub(crate) fn scan_noting(
    strictness: Strictness,
    capture: &[u8],
    room: &mut Offsets,
) -> Result<Accepted, Refusal>
    ensures scan_value { scan_of result ≡ scan strictness capture.now }
    ensures standing { IfOk result (λ a. Standing (madt_bytes capture.now a.madt) (take a.processors room.new)) }
{
    let t = tables::survey_capture(strictness, capture)?;
    scan_tables(capture, t, room)
}

// All rules up to 54, and what is found where none is broken.
pub fn scan_capture(strictness: Strictness, capture: &[u8]) -> Scan
    ensures { result ≡ scan strictness capture.now }
{
    let mut room = [0u16; madt::ROOM];
    match scan_noting(strictness, capture, &mut room) {
        Err(refusal) => turn_down(refusal),
        Ok(accepted) => Scan {
            verdict: Ok(()),
            madt: accepted.madt,
            map: accepted.map,
        },
    }
}

// A refusal, with no map.
#[tactic(auto, unfolding(crate::specs::Reading::without_map))]
fn without_map(refusal: Refusal) -> Reading
    ensures { result ≡ without_map refusal }
{
    Reading {
        answer: Err(refusal),
        map: empty_map(),
    }
}

// The list filled and its count, or refusal 60.
fn answer_list(cores: Cores<'_>, map: Map, list: &mut [u32]) -> Reading
    ensures value { result ≡ answered cores.entry.table.now map list.old }
    ensures list_after { list.new ≡ filled (processors cores.entry.table.now) list.old }
{
    match processors::list::fill(cores.table, cores.offsets, list) {
        Err(NoRoom) => without_map(words::refuse(60, 0)),
        Ok(processors) => Reading {
            answer: Ok(processors),
            map,
        },
    }
}

// The reading of either strictness.
fn read_by(strictness: Strictness, capture: &[u8], list: &mut [u32]) -> Reading
    ensures value { result ≡ reading_of strictness capture.now list.old }
    ensures list_after { list.new ≡ list_after strictness capture.now list.old }
{
    let mut room = [0u16; madt::ROOM];
    match scan_noting(strictness, capture, &mut room) {
        Err(refusal) => without_map(refusal),
        Ok(accepted) => {
            let table = madt_bytes(capture, accepted.madt);
            let offsets = processors::noted(&room, accepted.processors as usize);
            answer_list(Cores { table, offsets }, accepted.map, list)
        }
    }
}

// The ordinary reading, which takes a MADT of any revision from 1 on: UID and physical ID of each enabled processor are written to
// the front of the list, in table order. A refusal leaves the list as it was.
pub fn read(capture: &[u8], list: &mut [u32]) -> Reading
    ensures value { result ≡ reading_of Strictness.Ordinary capture.now list.old }
    ensures list_after { list.new ≡ list_after Strictness.Ordinary capture.now list.old }
{
    read_by(Strictness::Ordinary, capture, list)
}

// The strict reading, which takes a MADT of revision 1 alone, and else does the same.
pub fn read_strictly(capture: &[u8], list: &mut [u32]) -> Reading
    ensures value { result ≡ reading_of Strictness.Strict capture.now list.old }
    ensures list_after { list.new ≡ list_after Strictness.Strict capture.now list.old }
{
    read_by(Strictness::Strict, capture, list)
}
