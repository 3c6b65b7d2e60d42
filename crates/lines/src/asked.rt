// The two questions that any map may be asked, with any 32-bit numbers. 61 comes first: a map that breaks a rule gets no
// other answer.
ghost use Rattle.std.specs.Prelude.{◌≡◌};
ghost use Rattle.lines.specs.Says.{says};
ghost use Rattle.lines.specs.Rules.{eios_fit, bios_fit, msis_fit, ranges_kept, keeps_rules};
ghost use Rattle.lines.specs.Answers.{route_of, trace_of};

use crate::rules::slot_places;
use crate::{Map, Route, Trace};
use kinds::ranges::{
    bio_field, bit_in_both, eio_field, ht_field, lio_field, lpc_field, msi_field, pins_fit,
};
use kinds::{Bio, Eio, Msi};
use words::Refusal;

// 71 to 73, of every EIO.
#[tactic(auto, unfolding(crate::specs::Rules::eios_fit))]
fn eios_fit(eios: &[Eio]) -> bool
    ensures { result ≡ eios_fit eios.now }
{
    eios.iter().all(|eio| eio_field(*eio).is_none())
}

// 72, 76 and the number of inputs, of every BIO.
#[tactic(auto, unfolding(crate::specs::Rules::bios_fit))]
fn bios_fit(bios: &[Bio]) -> bool
    ensures { result ≡ bios_fit bios.now }
{
    bios.iter()
        .all(|bio| bio_field(*bio).is_none() & pins_fit(bio.pins))
}

// 74 and 75, of every MSI.
#[tactic(auto, unfolding(crate::specs::Rules::msis_fit))]
fn msis_fit(msis: &[Msi]) -> bool
    ensures { result ≡ msis_fit msis.now }
{
    msis.iter().all(|msi| msi_field(*msi).is_none())
}

impl Map {
    // 71 to 78 and the number of inputs, of every structure.
    fn ranges_kept(&self) -> bool
        ensures { result ≡ ranges_kept (says self.now) }
    {
        lio_field(kinds::said_lio(self.lio)).is_none()
            & ht_field(kinds::said_ht(self.ht)).is_none()
            & eios_fit(self.eios())
            & bios_fit(self.bios())
            & msis_fit(self.msis())
            & lpc_field(kinds::said_lpc(self.lpc)).is_none()
    }

    // Whether a map breaks none of 71 to 78, 37, 38, 34 and 40 to 54: of 40, only LIO and hubs. And each BIO has 1 to 64 inputs.
    pub fn keeps_rules(self) -> bool
        ensures { result ≡ keeps_rules self }
    {
        if self.too_many() {
            return false;
        }
        self.ranges_kept()
            & !bit_in_both(kinds::said_lio(self.lio))
            & !self.both_kinds()
            & self.first_broken(slot_places(), 0, 0).is_ok()
    }

    // Where a global number arrives.
    #[tactic(auto, using(words::proofs::Choices::by_tests), unfolding(crate::specs::Answers::route_of))]
    pub fn route(self, number: u32) -> Result<Route, Refusal>
        ensures { result ≡ route_of self number }
    {
        words::rule(!self.keeps_rules(), 61, 0)?;
        Ok(self.arrival(number))
    }

    // What arrives at a core vector with a number.
    #[tactic(auto, using(words::proofs::Choices::by_tests), unfolding(crate::specs::Answers::trace_of))]
    pub fn trace(self, vector: u32, number: u32) -> Result<Trace, Refusal>
        ensures { result ≡ trace_of self vector number }
    {
        words::rule(!self.keeps_rules(), 61, 0)?;
        Ok(self.traced(vector, number))
    }
}
