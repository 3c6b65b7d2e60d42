// The rules that a map must keep from 38 on, 34 among them, each in the documents' words, and their order: the lowest line that
// applies wins. A map comes with the places of its structures in the table; one that has none is given places of its own, since
// whether a rule is broken does not hang on them.
ghost use Rattle.std.specs.Prelude.{◌≡◌, [], ◌∷◌, ℕ, find, Err};
ghost use Rattle.words.specs.Refusals.{first_refusal};
ghost use Rattle.parts.specs.Inputs.{is_bridge};
ghost use Rattle.lines.specs.Says.{says};
ghost use Rattle.lines.specs.Rules.{too_many, both_kinds, rule40, rule43, rule44, rule45, rule54, map_rules, first_broken, slot_places};

use crate::{MOST, Map, Places, Route};
use kinds::Bio;
use words::Refusal;

// Places for a map that comes with none.
pub(crate) fn slot_places() -> Places
    ensures { result ≡ slot_places }
{
    let eios = [2, 3, 4, 5];
    let bios = [6, 7, 8, 9];
    let msis = [10, 11, 12, 13];
    Places {
        lio: 1,
        ht: 15,
        eios,
        bios,
        msis,
        lpc: 14,
    }
}

impl Map {
    // 38: one too many of its kind.
    pub(crate) fn too_many(&self) -> bool
        ensures { result ≡ too_many self.now }
    {
        (MOST < self.eiocount) | (MOST < self.biocount) | (MOST < self.msicount)
    }

    // 34: both an HT and an EIO.
    #[tactic(auto, using(kinds::proofs::Used::ht_present))]
    pub(crate) fn both_kinds(&self) -> bool
        ensures { result ≡ both_kinds (says self.now) }
    {
        self.ht.present & !self.eios().is_empty()
    }

    // 40: no LIO, or neither EIO nor HT. (No enabled CORE is the reading's.)
    #[tactic(auto, using(crate::proofs::Landing::hubs_counted, kinds::proofs::Used::lio_present, kinds::proofs::Used::ht_present))]
    fn rule_40(&self, madt: u32) -> Result<(), Refusal>
        ensures { result ≡ rule40 (says self.now) madt }
    {
        words::rule(
            !self.lio.present | (!self.ht.present & self.eios().is_empty()),
            40,
            madt,
        )
    }

    // 44: the HT names an input that is not wired.
    fn rule_44(&self, place: u32) -> Result<(), Refusal>
        ensures { result ≡ rule44 (says self.now) place }
    {
        let broken = parts::names_unwired(kinds::said_lio(self.lio), kinds::said_ht(self.ht));
        words::rule(broken, 44, place)
    }

    // The LPC's bridge: the first BIO of its node.
    fn bridge(&self) -> Option<Bio>
        ensures { result ≡ find (is_bridge self.now.lpc) (says self.now).bios }
    {
        let lpc = self.lpc;
        self.bios()
            .iter()
            .copied()
            .find(|b| parts::is_bridge(lpc, *b))
    }

    // 43: no BIO is the LPC's bridge. 44, at the HT. 45: the bridge has no input of the LPC's cascade. One search of it tells both.
    #[tactic(auto, using(crate::proofs::Bridges::absent, crate::proofs::Bridges::present), unfolding(words::specs::Refusals::unless, words::specs::Refusals::first_refusal))]
    fn lpc_rules(&self, place: u32, ht: u32) -> Result<(), Refusal>
        ensures { let said = says self.now in result ≡ first_refusal (rule43 said place ∷ rule44 said ht ∷ rule45 said place ∷ []) }
    {
        let lpc = self.lpc;
        if !lpc.present {
            return self.rule_44(ht);
        }
        let Some(bridge) = self.bridge() else {
            return Err(words::refuse(43, place));
        };
        self.rule_44(ht)?;
        words::rule(bridge.pins <= lpc.cascade, 45, place)
    }

    // 54: SCI_INT doesn't arrive.
    fn rule_54(&self, fadt: u32) -> Result<(), Refusal>
        ensures { result ≡ rule54 (says self.now) fadt }
    {
        let Route::Arrives(_, _) = self.arrival(self.sci as u32) else {
            return Err(words::refuse(54, fadt));
        };
        Ok(())
    }

    // The first broken rule from 40 on, of a map that breaks none of 41, 42 and 51 to 53.
    #[tactic(auto, unfolding(words::specs::Refusals::unless, words::specs::Refusals::first_refusal))]
    fn first_of_quiet(&self, lpc: u32, ht: u32, madt: u32, fadt: u32) -> Result<(), Refusal>
        ensures { let said = says self.now in result ≡ first_refusal (rule40 said madt ∷ rule43 said lpc ∷ rule44 said ht ∷ rule45 said lpc ∷ rule54 said fadt ∷ []) }
    {
        self.rule_40(madt)?;
        self.lpc_rules(lpc, ht)?;
        self.rule_54(fadt)
    }

    // The first broken rule from 40 on, by a search of all claims.
    #[tactic(auto, unfolding(crate::specs::Rules::map_rules, crate::specs::Rules::rules_to_45, crate::specs::Rules::rules_from_51, words::specs::Refusals::unless, words::specs::Refusals::first_refusal))]
    fn first_by_search(&self, places: Places, madt: u32, fadt: u32) -> Result<(), Refusal>
        ensures { result ≡ first_refusal (map_rules (says self.now) places madt fadt) }
    {
        self.rule_40(madt)?;
        clashes::at_later(41, self.first_clash(places, 41))?;
        clashes::at_spot(42, self.first_lone(places))?;
        self.lpc_rules(places.lpc, places.ht)?;
        clashes::at_both(51, self.first_clash(places, 51))?;
        clashes::at_both(52, self.first_clash(places, 52))?;
        clashes::at_both(53, self.first_clash(places, 53))?;
        self.rule_54(fadt)
    }

    // The first broken rule from 40 on.
    fn first_from_40(&self, places: Places, madt: u32, fadt: u32) -> Result<(), Refusal>
        ensures { result ≡ first_refusal (map_rules (says self.now) places madt fadt) }
    {
        if self.is_quiet() {
            return self.first_of_quiet(places.lpc, places.ht, madt, fadt);
        }
        self.first_by_search(places, madt, fadt)
    }

    // The first broken rule of a map from 38 on, at the place of the structure that is named, and with its partner's for 51 to 53. A
    // walk refuses 38 at the structure itself; for a map that has too many the place is the MADT's.
    pub fn first_broken(self, places: Places, madt: u32, fadt: u32) -> Result<(), Refusal>
        ensures { result ≡ first_broken self places madt fadt }
    {
        self.first_broken_of_lent(places, madt, fadt)
    }

    // The same of a map that is lent, for the reading: handed on by value, it is a call of memcpy (`Map::copied`).
    #[tactic(auto, unfolding(crate::specs::Rules::first_broken, words::specs::Refusals::unless, words::specs::Refusals::first_refusal))]
    pub fn first_broken_of_lent(&self, places: Places, madt: u32, fadt: u32) -> Result<(), Refusal>
        ensures { result ≡ first_broken self.now places madt fadt }
    {
        words::rule(self.too_many(), 38, madt)?;
        self.first_from_40(places, madt, fadt)
    }
}
