// What each structure of a map has by itself: its inputs, pins or slots, the global numbers that it owns, and what it claims.
#![tactic(auto)]

ghost use Rattle.std.specs.Prelude.{◌≡◌, ℕ, not, eqb};
ghost use Rattle.words.specs.Lists.{every};
ghost use Rattle.clashes.specs.declared.Claim.{Claim};
ghost use Rattle.parts.specs.Inputs.{has_bit, wired, leads, core_vector, input_for, is_named, names_unwired, has_slot, owns, has_pin, is_bridge};
ghost use Rattle.parts.specs.Claims.{lio_claim, eio_claim, bio_claim, msi_claim};

use clashes::{Claim, EVERY_HUB, NO_NODE, Run};
use kinds::{Bio, Eio, Half, Ht, Lio, Lpc, Msi};

// The inputs of the LIO.
const LIO_INPUTS: u32 = 32;

// How many vectors of the HT a byte of it is for.
const BYTE_VECTORS: u32 = 32;

// Bit i of a mask of 32 inputs.
#[tactic(auto, unfolding(crate::specs::Inputs::has_bit))]
pub fn bit(mask: u32, i: u32) -> bool
    ensures { result ≡ has_bit mask i }
{
    i < LIO_INPUTS && (mask >> i) % 2 == 1
}

// Whether a half of the LIO leads an input to a core vector.
pub fn half_leads(half: Half, vector: u32, i: u32) -> bool
    ensures { result ≡ leads half vector i }
{
    (half.cascade as u32 == vector) & bit(half.mask, i)
}

// The core vector of an input of the LIO; 0 where it is not wired. No Option: a route and a trace by the HT would only turn none into 0.
pub fn core_vector(lio: Lio, i: u32) -> u8
    ensures { result ≡ core_vector lio i }
{
    if bit(lio.low.mask, i) {
        return lio.low.cascade;
    }
    if bit(lio.high.mask, i) {
        return lio.high.cascade;
    }
    0
}

// ---- the LIO inputs that the HT's bytes name

// The LIO input that a vector of the HT goes to.
pub fn input_for(ht: Ht, vector: u32) -> u8
    ensures { result ≡ input_for ht vector }
{
    let byte = ht.bytes.get((vector / BYTE_VECTORS) as usize);
    byte.copied().unwrap_or(0)
}

// Whether no byte names an input. A function by itself, as `all_wired` is: written behind the test that asks it, the proof did not close.
fn none_names(bytes: &[u8], i: u32) -> bool
    ensures { result ≡ every (λ b. not (eqb b i)) bytes.now }
{
    bytes.iter().all(|b| *b as u32 != i)
}

// Whether the HT names an input.
#[tactic(auto, unfolding(crate::specs::Inputs::is_named))]
pub fn is_named(ht: Ht, i: u32) -> bool
    ensures { result ≡ is_named ht i }
{
    ht.present && !none_names(&ht.bytes, i)
}

// Whether an input of the LIO is wired.
pub fn is_wired(lio: Lio, i: u32) -> bool
    ensures { result ≡ wired lio i }
{
    bit(lio.low.mask, i) | bit(lio.high.mask, i)
}

// Whether every byte names a wired input.
fn all_wired(lio: Lio, bytes: &[u8]) -> bool
    ensures { result ≡ every (wired lio) bytes.now }
{
    bytes.iter().all(|b| is_wired(lio, *b as u32))
}

// Whether the HT names an input that is not wired.
#[tactic(auto, unfolding(crate::specs::Inputs::names_unwired))]
pub fn names_unwired(lio: Lio, ht: Ht) -> bool
    ensures { result ≡ names_unwired lio ht }
{
    ht.present && !all_wired(lio, &ht.bytes)
}

// ---- pins and slots

// Whether a slot is one of an MSI's.
pub fn has_slot(msi: Msi, slot: u32) -> bool
    ensures { result ≡ has_slot slot msi }
{
    (msi.start <= slot) & ((slot as u64) < (msi.start as u64) + (msi.count as u64))
}

// Whether a BIO owns a global number.
pub fn owns_number(bio: Bio, number: u32) -> bool
    ensures { result ≡ owns number bio }
{
    let base = bio.base as u32;
    (base <= number) & (number < base + bio.pins as u32)
}

// Whether a BIO has an input v, on the hub of a node.
#[tactic(auto, unfolding(crate::specs::Inputs::has_pin))]
pub fn has_pin(bio: Bio, node: u8, v: u32) -> bool
    ensures { result ≡ has_pin node v bio }
{
    (bio.node == node as u16) & (v < bio.pins as u32)
}

// Whether a BIO has the hardware ID of the LPC's bridge.
pub fn is_bridge(lpc: Lpc, bio: Bio) -> bool
    ensures { result ≡ is_bridge lpc bio }
{
    bio.node == lpc.node
}

// ---- what each structure claims

// What a structure does not claim is empty.
const NO_RUN: Run = Run { first: 0, count: 0 };

const NOTHING: Claim = Claim {
    place: 0,
    numbers: NO_RUN,
    vectors: NO_RUN,
    node: NO_NODE,
    hub: NO_NODE,
    low: 0,
    high: 0,
};

// A structure that claims something for itself.
pub trait Claimant: Copy {
    // what it claims at its place
    ghost claims: { Self → ℕ → Claim };

    fn claim(self, place: u32) -> Claim
        ensures { result ≡ claims self place };
}

// A LIO claims the core vectors of its used halves.
impl Claimant for Lio {
    ghost claims = { lio_claim };

    fn claim(self, place: u32) -> Claim {
        Claim {
            place,
            low: self.low.cascade,
            high: self.high.cascade,
            ..NOTHING
        }
    }
}

// An EIO claims its node and its core vector, and none of its extended vectors: those are its sources'.
impl Claimant for Eio {
    ghost claims = { eio_claim };

    fn claim(self, place: u32) -> Claim {
        Claim {
            place,
            node: self.node as u16,
            low: self.cascade,
            ..NOTHING
        }
    }
}

// A BIO claims the global numbers of its inputs, and their vectors of the hub of its node.
impl Claimant for Bio {
    ghost claims = { bio_claim };

    fn claim(self, place: u32) -> Claim {
        let count = self.pins as u32;
        Claim {
            place,
            numbers: Run {
                first: self.base as u32,
                count,
            },
            vectors: Run { first: 0, count },
            hub: self.node,
            ..NOTHING
        }
    }
}

// An MSI claims its slots, as vectors of every hub.
impl Claimant for Msi {
    ghost claims = { msi_claim };

    fn claim(self, place: u32) -> Claim {
        Claim {
            place,
            vectors: Run {
                first: self.start,
                count: self.count,
            },
            hub: EVERY_HUB,
            ..NOTHING
        }
    }
}
