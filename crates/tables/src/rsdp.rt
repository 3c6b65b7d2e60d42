// The RSDP: refusals 11 to 14, and where it says the XSDT's address.
ghost use Rattle.std.specs.Prelude.{◌≡◌};
ghost use Rattle.words.specs.Refusals.{first_refusal};
ghost use Rattle.tables.specs.Rsdp.{wrong_signature, wrong_revision, wrong_length, wrong_sums, rsdp_rules};

use crate::headers;
use words::Refusal;

// Its size, and where its fields stand.
const SIZE: usize = 36;

const FIRST_PART: usize = 20;

const REVISION: usize = 15;

const LENGTH: usize = 20;

pub(crate) const XSDT_FIELD: u32 = 24;

// The signature, as a little-endian number.
const RSD_PTR: u64 = 0x2052545020445352;

// Refusal 11.
fn wrong_signature(capture: &[u8], place: u16) -> bool
    ensures { result ≡ wrong_signature capture.now place }
{
    !(words::u64_at(capture, place as usize) == RSD_PTR)
}

// Refusal 12.
fn wrong_revision(capture: &[u8], place: u16) -> bool
    ensures { result ≡ wrong_revision capture.now place }
{
    !(words::byte_at(capture, place as usize + REVISION) == 2)
}

// Refusal 13.
fn wrong_length(capture: &[u8], place: u16) -> bool
    ensures { result ≡ wrong_length capture.now place }
{
    !(words::u32_at(capture, place as usize + LENGTH) == SIZE as u32)
}

// Refusal 14: the first 20 bytes have a sum, and all 36.
fn wrong_sums(capture: &[u8], place: u16) -> bool
    ensures { result ≡ wrong_sums capture.now place }
{
    !(headers::sum_at(capture, place, FIRST_PART) == 0)
        | !(headers::sum_at(capture, place, SIZE) == 0)
}

// Refusals 11 to 14.
#[tactic(auto, unfolding(crate::specs::Rsdp::rsdp_rules, words::specs::Refusals::unless, words::specs::Refusals::first_refusal))]
pub(crate) fn rsdp_rules(capture: &[u8], place: u16) -> Result<(), Refusal>
    ensures { result ≡ first_refusal (rsdp_rules capture.now place) }
{
    words::rule(wrong_signature(capture, place), 11, place as u32)?;
    words::rule(wrong_revision(capture, place), 12, place as u32)?;
    words::rule(wrong_length(capture, place), 13, place as u32)?;
    words::rule(wrong_sums(capture, place), 14, place as u32)
}
