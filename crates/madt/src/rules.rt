// The refusals of one structure, given by its own bytes: 32, 33, 35, 71 to 78, 37 and 38, in this order; and 34, which comes after all
// structures.
ghost use Rattle.std.specs.Prelude.{◌≡◌, ℕ, List, Err};
ghost use Rattle.words.specs.Bytes.{byte_at};
ghost use Rattle.words.specs.Refusals.{rule, unless, first_refusal};
ghost use Rattle.madt.specs.Pieces.{Whole};
ghost use Rattle.madt.specs.Rules.{length_of, refused_by, structure_rules};
ghost use Rattle.madt.specs.Contents.{how_many, MadeBy};

use crate::steps;
use kinds::makers::Core;
use kinds::{Bio, Eio, Ht, Lio, Lpc, Msi, ranges};
use lines::Map;
use words::Refusal;

// Where every structure says its length and its version, and the version.
const LENGTH: usize = 1;

const VERSION: usize = 2;

const KNOWN_VERSION: u8 = 1;

// "At most 256 CORE, 1 LIO, 4 EIO, 4 BIO, 4 MSI, 1 LPC."
const MOST_CORES: u16 = 256;

const MOST_EIOS: u8 = 4;

const MOST_BIOS: u8 = 4;

const MOST_MSIS: u8 = 4;

// The length that a structure of its kind has; none for a type that is passed over.
fn length_of(structure: &[u8]) -> Option<u8>
    ensures { result ≡ length_of structure.now }
{
    match words::byte_at(structure, steps::TYPE) {
        Core::TYPE => Some(Core::LENGTH),
        Lio::TYPE => Some(Lio::LENGTH),
        Ht::TYPE => Some(Ht::LENGTH),
        Eio::TYPE => Some(Eio::LENGTH),
        Msi::TYPE => Some(Msi::LENGTH),
        Bio::TYPE => Some(Bio::LENGTH),
        Lpc::TYPE => Some(Lpc::LENGTH),
        0..=16 | 24..=255 => None,
    }
}

// The number of the first rule that a structure breaks, behind those that made a map and so many CORE. Types other than 17 to 23 are
// passed over, their version unread. A rule goes by its number in the documents, which is what a refusal carries.
fn first_broken(structure: &[u8], cores: u16, map: &Map) -> Option<u8>
    ensures { let s = structure.now in
        ((place : ℕ) (pins : ℕ → ℕ) (all : List Whole) → MadeBy pins all cores map.now
        → refused_by result place ≡ first_refusal (structure_rules place (how_many (byte_at s 0) all) s)) }
{
    if words::byte_at(structure, LENGTH) != length_of(structure)? {
        return Some(32);
    }
    if words::byte_at(structure, VERSION) != KNOWN_VERSION {
        return Some(33);
    }
    match words::byte_at(structure, steps::TYPE) {
        Core::TYPE => {
            let flags = Core::from_bytes(structure).reserved_flags().then_some(35);
            flags.or((MOST_CORES <= cores).then_some(38))
        }
        Lio::TYPE => {
            let lio = Lio::from_bytes(structure);
            let masks = ranges::bit_in_both(lio).then_some(37);
            ranges::lio_field(lio)
                .or(masks)
                .or(map.lio.present.then_some(38))
        }
        Ht::TYPE => ranges::ht_field(Ht::from_bytes(structure)),
        Eio::TYPE => {
            let field = ranges::eio_field(Eio::from_bytes(structure));
            field.or((MOST_EIOS <= map.eiocount).then_some(38))
        }
        Msi::TYPE => {
            let field = ranges::msi_field(Msi::from_bytes(structure));
            field.or((MOST_MSIS <= map.msicount).then_some(38))
        }
        Bio::TYPE => {
            let field = ranges::bio_field(Bio::from_bytes(structure));
            field.or((MOST_BIOS <= map.biocount).then_some(38))
        }
        Lpc::TYPE => {
            let field = ranges::lpc_field(Lpc::from_bytes(structure));
            field.or(map.lpc.present.then_some(38))
        }
        0..=16 | 24..=255 => None,
    }
}

// The refusals of a structure at a place, behind those that made a map and so many CORE.
pub(crate) fn check(structure: &[u8], place: u32, cores: u16, map: &Map) -> Result<(), Refusal>
    ensures { let s = structure.now in
        ((pins : ℕ → ℕ) (all : List Whole) → MadeBy pins all cores map.now → result ≡ first_refusal (structure_rules place (how_many (byte_at s 0) all) s)) }
{
    match first_broken(structure, cores, map) {
        Some(number) => Err(words::refuse(number, place)),
        None => Ok(()),
    }
}

// 34: what the structures so far say, or whether the one at a place gives the board both kinds or a second HT.
#[tactic(auto, unfolding(words::specs::Refusals::unless))]
pub(crate) fn or_both(sofar: Result<(), Refusal>, both: bool, place: u32) -> Result<(), Refusal>
    ensures { result ≡ unless Err sofar (rule both 34 place) }
{
    sofar?;
    words::rule(both, 34, place)
}
