// Document 01, "Where a line arrives": owners, wired inputs, and the arrival of a global number. Nothing
// here asks whether the map keeps the rules: the calls are for callers that know it, and `Map::route`, with 61 first, for
// all others.
ghost use Rattle.std.specs.Prelude.{◌≡◌, true, ◌-◌, ◌≤◌, min, find};
ghost use Rattle.parts.specs.Inputs.{owns};
ghost use Rattle.lines.specs.Says.{says};
ghost use Rattle.lines.specs.Routes.{lio_arrival, bio_owner, owner, arrival_of, arrival};

use crate::{MOST, Map, Owner, Route};
use kinds::{Bio, Eio, Lio, Msi};

// The first global number of the LIO: those below are the LPC's.
pub(crate) const LIO_FIRST: u32 = 16;

// The first global number past the LIO's 32 inputs.
const LIO_END: u32 = 48;

// Where input i of the LIO arrives, if it is wired.
#[tactic(auto, using(words::proofs::Choices::by_tests), unfolding(crate::specs::Routes::lio_arrival))]
fn lio_arrival(lio: Lio, i: u32) -> Route
    ensures { result ≡ lio_arrival lio i }
{
    if parts::is_wired(lio, i) {
        return Route::Arrives(parts::core_vector(lio, i), i);
    }
    Route::Unwired
}

// Which input of the BIO that owns it a global number is. A BIO has no more inputs than 16 bits count.
#[tactic(auto, unfolding(parts::specs::Inputs::owns))]
fn input_of(bio: Bio, number: u32) -> u16
    requires { owns number bio ≡ true }
    ensures { result ≡ number - bio.base }
{
    (number - bio.base as u32) as u16
}

// The first BIO that owns a global number.
fn bio_of(bios: &[Bio], number: u32) -> Option<Bio>
    ensures { result ≡ find (owns number) bios.now }
{
    bios.iter()
        .copied()
        .find(|b| parts::owns_number(*b, number))
}

// The input of a BIO that a global number is.
#[tactic(auto, using(words::proofs::Searches::by_find), unfolding(crate::specs::Routes::bio_owner))]
fn bio_owner(bios: &[Bio], number: u32) -> Owner
    ensures { result ≡ bio_owner bios.now number }
{
    match bio_of(bios, number) {
        Some(bio) => Owner::BioInput(bio.node, input_of(bio, number)),
        None => Owner::Nobody,
    }
}

// How many entries of its array a count uses: one past the array uses all of it.
pub fn used(count: u8) -> usize
    ensures few { result ≤ 4 }
    ensures value { result ≡ min count 4 }
{
    if count < MOST {
        count as usize
    } else {
        MOST as usize
    }
}

// The structures in use of each kind that may repeat.
impl Map {
    pub(crate) fn eios(&self) -> &[Eio]
        ensures { result.now ≡ (says self.now).eios }
    {
        &self.eios[..used(self.eiocount)]
    }

    pub(crate) fn bios(&self) -> &[Bio]
        ensures { result.now ≡ (says self.now).bios }
    {
        &self.bios[..used(self.biocount)]
    }

    pub(crate) fn msis(&self) -> &[Msi]
        ensures { result.now ≡ (says self.now).msis }
    {
        &self.msis[..used(self.msicount)]
    }
}

impl Map {
    // Whose a global number is, in a map that is known to keep the rules. Inline, as the two below: a table of owners asks it 320 times, and
    // a map that is handed on by value to a function of its own is a call of memcpy (`Map::copied`).
    #[inline(always)]
    #[tactic(auto, using(words::proofs::Choices::by_tests, kinds::proofs::Used::lpc_present), unfolding(crate::specs::Routes::owner))]
    pub fn owner(self, number: u32) -> Owner
        ensures { result ≡ owner (says self) number }
    {
        let lpc = self.lpc;
        if number < LIO_FIRST {
            if lpc.present {
                return Owner::LpcInput;
            }
            return Owner::Nobody;
        }
        if number < LIO_END {
            let i = number - LIO_FIRST;
            if parts::is_named(kinds::said_ht(self.ht), i) {
                return Owner::Nobody;
            }
            return Owner::LioInput(i);
        }
        bio_owner(self.bios(), number)
    }

    // Where a number with this owner arrives, likewise.
    #[inline(always)]
    #[tactic(auto, unfolding(crate::specs::Routes::arrival_of))]
    pub fn arrival_of(self, owner: Owner) -> Route
        ensures { result ≡ arrival_of (says self) owner }
    {
        let lpc = kinds::said_lpc(self.lpc);
        let lio = kinds::said_lio(self.lio);
        match owner {
            Owner::LpcInput => self.hub_arrival(lpc.node, lpc.cascade),
            Owner::LioInput(i) => lio_arrival(lio, i),
            Owner::BioInput(node, v) => self.hub_arrival(node, v),
            Owner::Nobody => Route::NoOwner,
        }
    }

    // Where a global number arrives, likewise.
    #[inline(always)]
    #[tactic(auto, unfolding(crate::specs::Routes::arrival))]
    pub fn arrival(self, number: u32) -> Route
        ensures { result ≡ arrival (says self) number }
    {
        self.arrival_of(self.owner(number))
    }
}
