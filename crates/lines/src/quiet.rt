// A map without clashes is told by a quick test: each pair of structures that could clash is looked at once, by all rules
// together. Only where it finds something need the search say which rule is broken, and where (proofs/NoClash). A LIO or an
// EIO has nothing that a BIO or an MSI has too, so those pairs are not looked at.
ghost use Rattle.std.specs.Prelude.{◌≡◌, Bool};
ghost use Rattle.lines.specs.Says.{says};
ghost use Rattle.lines.specs.Steps.{Computes};
ghost use Rattle.lines.specs.Quiet.{far_from, still_each, quiet};

use crate::Map;
use clashes::Claim;
use parts::Claimant;

// Whether a claim is apart from that of each structure of a kind.
#[tactic(auto, unfolding(crate::specs::Quiet::far_from))]
fn far_from<T: Claimant>(x: Claim, others: &[T]) -> bool
    ensures { result ≡ far_from T.claims x others.now }
{
    others.iter().all(|y| clashes::are_apart(x, y.claim(0)))
}

// Whether each structure of a kind passes a test of its own, and is apart from those behind it.
fn still_each<T: Claimant, F: Fn(T) -> bool>(structures: &[T], alone: F) -> bool
    requires { F.IsAlwaysCallable alone }
    ensures { (test : T → Bool) → Computes (F.post alone) test → result ≡ still_each T.claims test structures.now }
{
    let mut rest = structures;
    while let Some((x, behind)) = rest.split_first() {
        if !(alone(*x) & far_from(x.claim(0), behind)) {
            return false;
        }
        rest = behind;
    }
    true
}

impl Map {
    // Whether no two structures clash by 41 or 51 to 53, and no BIO is without a hub: the EIO, with the LIO's claim; the BIO, with the
    // hubs that they stand on, which are the EIO unless there is an HT, and with the MSI whose slots land there too; the MSI.
    pub(crate) fn is_quiet(&self) -> bool
        ensures { result ≡ quiet (says self.now) }
    {
        let lio = kinds::said_lio(self.lio).claim(0);
        let eios = still_each(self.eios(), |e| clashes::are_apart(lio, e.claim(0)));
        let bios = still_each(self.bios(), |b| {
            !self.no_hub_of(b.node) & far_from(b.claim(0), self.msis())
        });
        let msis = still_each(self.msis(), |_| true);
        eios & bios & msis
    }
}
