// The MADT's structures in turn, each through refusals 31 to 38, with 71 to 78 in 36's place, before the next; then 34.
ghost use Rattle.std.specs.Prelude.{◌≡◌, ℕ, ◌<◌, List, [], ◌∷◌, ◌++◌, length};
ghost use Rattle.madt.specs.Pieces.{Whole};
ghost use Rattle.words.specs.Bytes.{part_at};
ghost use Rattle.capture.specs.Pairs.{pins_of};
ghost use Rattle.madt.specs.Contents.{bridge_of};
ghost use Rattle.madt.specs.AsAnswered.{walk};
ghost use Rattle.madt.specs.Noting.{noted};

use crate::{Found, Offsets, rules, steps};
use capture::pairs;
use capture::pairs::Pairs;
use kinds::makers::Core;
use kinds::{Bio, Eio, Ht, Lio, Lpc, Msi};
use tables::Table;
use words::Refusal;

// The bridge of a structure, with as many inputs as pairs tell.
fn bridge_of(structure: &[u8], pairs: Pairs) -> Bio
    ensures { result ≡ bridge_of (pins_of pairs) structure.now }
{
    let bio = Bio::from_bytes(structure);
    bio.with_pins(pairs::pins_of(pairs, bio.node))
}

// What the structures so far make, how many CORE there are, enabled or not, and what 34 will say. It is changed where it stands: it is
// large, and a copy for every structure would cost more than all else here.
#[derive(Clone, Copy)]
struct Walk {
    base: u16,
    found: Found,
    cores: u16,
    mixed: Result<(), Refusal>,
}

impl Walk {
    ghost use Rattle.madt.specs.Taken.{held, HasRoom, Taken};

    // Before the first structure of the MADT at a place.
    fn new(base: u16, sci: u16) -> Walk
        ensures { (pins : ℕ → ℕ) → result ≡ held base sci pins [] }
    {
        Walk {
            base,
            found: Found::nothing(sci),
            cores: 0,
            mixed: Ok(()),
        }
    }

    // One structure more, at an offset: there is room for it, since 38 was asked. Where an enabled CORE stands is noted in a lent room.
    fn take(&mut self, structure: &[u8], at: u16, pairs: Pairs, offsets: &mut Offsets)
        requires { HasRoom structure.now self.old }
        ensures { (base sci : ℕ) (room : List ℕ) (all : List Whole) → Taken base sci (pins_of pairs) room all self.old offsets.old
            → Taken base sci (pins_of pairs) room (all ++ (record { at = at; bytes = structure.now } ∷ [])) self.new offsets.new }
    {
        let place = self.base as u32 + at as u32;
        match words::byte_at(structure, steps::TYPE) {
            Core::TYPE => {
                self.cores += 1;
                if Core::from_bytes(structure).is_enabled() {
                    offsets[self.found.enabled as usize] = at;
                    self.found.enabled += 1;
                }
            }
            Lio::TYPE => {
                self.found.map.lio = kinds::said_lio(Lio::from_bytes(structure));
                self.found.places.lio = place;
            }
            Ht::TYPE => {
                let both = self.found.map.ht.present | (1 <= self.found.map.eiocount);
                self.mixed = rules::or_both(self.mixed, both, place);
                self.found.map.ht = Ht::from_bytes(structure);
                self.found.places.ht = place;
            }
            Eio::TYPE => {
                self.mixed = rules::or_both(self.mixed, self.found.map.ht.present, place);
                let n = self.found.map.eiocount as usize;
                self.found.map.eios[n] = Eio::from_bytes(structure);
                self.found.places.eios[n] = place;
                self.found.map.eiocount += 1;
            }
            Msi::TYPE => {
                let n = self.found.map.msicount as usize;
                self.found.map.msis[n] = Msi::from_bytes(structure);
                self.found.places.msis[n] = place;
                self.found.map.msicount += 1;
            }
            Bio::TYPE => {
                let n = self.found.map.biocount as usize;
                self.found.map.bios[n] = bridge_of(structure, pairs);
                self.found.places.bios[n] = place;
                self.found.map.biocount += 1;
            }
            Lpc::TYPE => {
                self.found.map.lpc = Lpc::from_bytes(structure);
                self.found.places.lpc = place;
            }
            0..=16 | 24..=255 => {}
        }
    }
}

// The structures of the MADT with some bytes, which stands at a place. The step is counted by hand: no iterator gives structures whose
// own bytes tell how far it is to the next.
fn walk_table(
    table: &[u8],
    base: u16,
    sci: u16,
    pairs: Pairs,
    offsets: &mut Offsets,
) -> Result<Found, Refusal>
    requires { length table.now < 65536 }
    ensures value { result ≡ walk table.now base sci (pins_of pairs) }
    ensures offsets_after { offsets.new ≡ noted table.now base offsets.old }
{
    let mut walk = Walk::new(base, sci);
    let mut at: usize = steps::FIRST;
    while at < table.len() {
        let place = base as u32 + at as u32;
        let Some(size) = steps::size_at(table, at) else {
            return Err(words::refuse(31, place));
        };
        let structure = words::part(table, at, size);
        rules::check(structure, place, walk.cores, &walk.found.map)?;
        walk.take(structure, at as u16, pairs, offsets);
        at += size;
    }
    walk.mixed?;
    Ok(Found {
        map: walk.found.map.copied(),
        places: walk.found.places,
        enabled: walk.found.enabled,
    })
}

// Refusals 31 to 38, 71 to 78 and 34 of the MADT of a capture, or the map with an SCI number and with what pairs tell of its bridges,
// the places of its structures, and the number of processors. Where these stand in the MADT is noted in the front of a lent room;
// a refusal leaves there what was noted before it.
pub fn walk_madt(
    capture: &[u8],
    madt: Table,
    sci: u16,
    pairs: Pairs,
    offsets: &mut Offsets,
) -> Result<Found, Refusal>
    ensures value { result ≡ walk (part_at capture.now madt.place madt.length) madt.place sci (pins_of pairs) }
    ensures offsets_after { offsets.new ≡ noted (part_at capture.now madt.place madt.length) madt.place offsets.old }
{
    let table = words::part(capture, madt.place as usize, madt.length as usize);
    walk_table(table, madt.place, sci, pairs, offsets)
}
