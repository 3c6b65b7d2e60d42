// The searches of 41, 42 and 51 to 53 among what all structures of a map claim. A claim is made when it is looked at: a list
// of them would take more of the stack than all the rest of a reading.
ghost use Rattle.std.specs.Prelude.{◌≡◌};
ghost use Rattle.clashes.specs.Folds.{fold};
ghost use Rattle.clashes.specs.Search.{partner, first_clash, lonelier, first_lone};
ghost use Rattle.lines.specs.Says.{says};
ghost use Rattle.lines.specs.Hubs.{nodes};
ghost use Rattle.lines.specs.Claims.{placed, claims};
ghost use Rattle.lines.specs.Steps.{ComputesOnTwo};

use crate::{Map, Places};
use clashes::{Claim, NO_NODE};
use parts::Claimant;

// Going through the claims of one kind, each structure with its place, with what is known so far.
fn fold_kind<T: Claimant, B, F: Fn(B, Claim) -> B>(
    structures: &[T],
    places: &[u32],
    sofar: B,
    step: &F,
) -> B
    requires { F.IsAlwaysCallable step.now }
    ensures { (h : B → Claim → B) → ComputesOnTwo (F.post step.now) h → result ≡ fold h sofar (placed T.claims structures.now places.now) }
{
    structures
        .iter()
        .zip(places)
        .fold(sofar, |b, (x, place)| step(b, x.claim(*place)))
}

impl Map {
    // Going through all claims: the LIO's, those of the EIO, of the BIO, and of the MSI.
    fn fold_claims<B, F: Fn(B, Claim) -> B>(&self, places: &Places, init: B, step: F) -> B
        requires { F.IsAlwaysCallable step }
        ensures { (h : B → Claim → B) → ComputesOnTwo (F.post step) h → result ≡ fold h init (claims (says self.now) places.now) }
    {
        let lio = step(init, kinds::said_lio(self.lio).claim(places.lio));
        let eios = fold_kind(self.eios(), &places.eios, lio, &step);
        let bios = fold_kind(self.bios(), &places.bios, eios, &step);
        fold_kind(self.msis(), &places.msis, bios, &step)
    }

    // The earliest structure before x that x clashes with by a rule.
    fn partner_of(&self, places: &Places, rule: u8, x: Claim) -> Option<u32>
        ensures { result ≡ partner rule x (claims (says self.now) places.now) }
    {
        self.fold_claims(places, None, |best, y| clashes::nearer_of(rule, x, best, y))
    }

    // The first structure of the table that clashes with an earlier one by a rule, and the earliest that it clashes with.
    pub(crate) fn first_clash(&self, places: Places, rule: u8) -> Option<(u32, u32)>
        ensures { result ≡ first_clash rule (claims (says self.now) places) }
    {
        self.fold_claims(&places, None, |best, x| {
            clashes::better_of(best, x.place, self.partner_of(&places, rule, x))
        })
    }

    // 42: one structure more that names a hub which is not there: the first in the table counts.
    fn lonelier_of(&self, best: Option<u32>, x: Claim) -> Option<u32>
        ensures { result ≡ lonelier (nodes (says self.now)) best x }
    {
        if (x.hub != NO_NODE) & self.no_hub_of(x.hub) {
            return clashes::sooner_of(best, x.place);
        }
        best
    }

    // The first structure of the table that names a hub which is not there.
    pub(crate) fn first_lone(&self, places: Places) -> Option<u32>
        ensures { result ≡ first_lone (nodes (says self.now)) (claims (says self.now) places) }
    {
        self.fold_claims(&places, None, |best, x| self.lonelier_of(best, x))
    }
}
