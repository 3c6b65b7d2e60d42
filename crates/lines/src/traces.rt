// Tracing back: what arrives at a core vector with a number (document 01, "Where a line arrives"). Nothing here asks whether
// the map keeps the rules: `Map::traced` is for callers that know it, and `Map::trace`, with 61 first, for all others.
ghost use Rattle.std.specs.Prelude.{◌≡◌, true, false, not, ◌&&◌, ◌||◌, ◌<◌, find, nat_eq};
ghost use Rattle.lines.specs.Says.{says};
ghost use Rattle.parts.specs.Inputs.{leads, is_named, has_slot, has_pin};
ghost use Rattle.lines.specs.Traces.{slot_told, is_lpc_pin, pin_told, landed, hub_traced, traced};

use crate::hubs::{HT_ABOVE, HT_NODE};
use crate::routes::LIO_FIRST;
use crate::{Map, Trace};
use kinds::{Bio, Eio, Ht, Lio, Lpc, Msi};

// The first MSI that has a slot.
fn msi_with(msis: &[Msi], slot: u32) -> Option<Msi>
    ensures { result ≡ find (has_slot slot) msis.now }
{
    msis.iter().copied().find(|m| parts::has_slot(*m, slot))
}

// The slot on the hub of a node, if an MSI has it.
#[tactic(auto, using(words::proofs::Searches::first_find), unfolding(crate::specs::Traces::slot_told))]
fn slot_told(msis: &[Msi], node: u8, slot: u32) -> Trace
    ensures { result ≡ slot_told msis.now node slot }
{
    match msi_with(msis, slot) {
        Some(_) => Trace::MsiSlot(node, slot),
        None => Trace::Nothing,
    }
}

// Whether input v of a BIO is the one that the LPC lines share.
#[tactic(auto, unfolding(crate::specs::Traces::is_lpc_pin))]
fn is_lpc_pin(lpc: Lpc, bio: Bio, v: u32) -> bool
    ensures { result ≡ is_lpc_pin lpc bio v }
{
    lpc.present & (lpc.cascade as u32 == v) & parts::is_bridge(lpc, bio)
}

// What input v of a BIO is told as.
#[tactic(auto, using(words::proofs::Choices::by_tests), unfolding(crate::specs::Traces::pin_told))]
fn pin_told(lpc: Lpc, bio: Bio, v: u32) -> Trace
    requires { v < bio.pins }
    ensures { result ≡ pin_told lpc v bio }
{
    let number = (bio.base as u32) + v;
    if is_lpc_pin(lpc, bio, v) {
        return Trace::LpcCascade(number);
    }
    Trace::BioInput(number)
}

// Whether a half of the LIO leads an input to a core vector, and the HT does not name it.
fn led_by_lio(lio: Lio, ht: Ht, vector: u32, i: u32) -> bool
    ensures { result ≡ ((leads lio.low vector i || leads lio.high vector i) && not (is_named ht i)) }
{
    (parts::half_leads(lio.low, vector, i) | parts::half_leads(lio.high, vector, i))
        && !parts::is_named(ht, i)
}

impl Map {
    // The first BIO with an input on a vector of the hub of a node.
    fn bio_on(&self, node: u8, vector: u32) -> Option<Bio>
        ensures { result ≡ find (has_pin node vector) (says self.now).bios }
    {
        self.bios()
            .iter()
            .copied()
            .find(|b| parts::has_pin(*b, node, vector))
    }

    // What lands on a vector of the hub of a node.
    #[tactic(auto, using(words::proofs::Searches::by_find, parts::proofs::Inputs::pin_small), unfolding(crate::specs::Traces::landed))]
    fn landed(&self, node: u8, vector: u32) -> Trace
        ensures { result ≡ landed (says self.now) node vector }
    {
        match self.bio_on(node, vector) {
            Some(bio) => pin_told(kinds::said_lpc(self.lpc), bio, vector),
            None => slot_told(self.msis(), node, vector),
        }
    }

    // The first EIO that enters a core vector.
    fn eio_into(&self, vector: u32) -> Option<Eio>
        ensures { result ≡ find (λ e. nat_eq e.cascade vector) (says self.now).eios }
    {
        self.eios()
            .iter()
            .copied()
            .find(|e| e.cascade as u32 == vector)
    }

    // What enters a core vector by an EIO with a number, where there is no HT.
    #[tactic(auto, using(crate::proofs::Landing::eios_traced))]
    fn eio_traced(&self, vector: u32, number: u32) -> Trace
        requires { self.now.ht.present ≡ false }
        ensures { result ≡ hub_traced (says self.now) vector number }
    {
        match self.eio_into(vector) {
            Some(eio) => self.landed(eio.node, number),
            None => Trace::Nothing,
        }
    }

    // What comes by the HT to a core vector with a number, where there is one.
    fn ht_traced(&self, vector: u32, number: u32) -> Trace
        requires { self.now.ht.present ≡ true }
        ensures { result ≡ hub_traced (says self.now) vector number }
    {
        if number < HT_ABOVE {
            return Trace::Nothing;
        }
        let v = number - HT_ABOVE;
        let input = parts::input_for(kinds::said_ht(self.ht), v) as u32;
        if parts::core_vector(kinds::said_lio(self.lio), input) as u32 == vector {
            return self.landed(HT_NODE, v);
        }
        Trace::Nothing
    }

    // What arrives at a core vector with a number in a map that is known to keep the rules.
    #[tactic(auto, using(words::proofs::Choices::by_tests, kinds::proofs::Used::ht_present, parts::proofs::Inputs::leads_small), unfolding(crate::specs::Traces::traced, crate::specs::Traces::led_by_lio))]
    pub fn traced(self, vector: u32, number: u32) -> Trace
        ensures { result ≡ traced (says self) vector number }
    {
        let ht = kinds::said_ht(self.ht);
        if led_by_lio(kinds::said_lio(self.lio), ht, vector, number) {
            return Trace::LioInput(LIO_FIRST + number);
        }
        if ht.present {
            return self.ht_traced(vector, number);
        }
        self.eio_traced(vector, number)
    }
}
