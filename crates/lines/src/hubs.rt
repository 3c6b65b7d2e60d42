// The hubs of a map: what bridges and slots land on. A hub turns a vector of its own into a core vector and a number. It is an EIO, or
// the HT where there is one.
ghost use Rattle.std.specs.Prelude.{◌≡◌, [], ◌∷◌, map, find, nat_eq};
ghost use Rattle.clashes.specs.Rules.{is_missing};
ghost use Rattle.lines.specs.Says.{says};
ghost use Rattle.lines.specs.Hubs.{eio_hub, ht_hub, hubs, nodes};
ghost use Rattle.lines.specs.Routes.{through};

use crate::{Map, Route};
use kinds::{Eio, Ht, Lio};

// The node of the HT.
pub(crate) const HT_NODE: u8 = 0;

// How much the number of an HT vector is above it.
pub(crate) const HT_ABOVE: u32 = 256;

// The first EIO of a node. By itself, as each search of this crate is: within the `match` on it the proof did not close.
fn eio_of(eios: &[Eio], node: u16) -> Option<Eio>
    ensures { result ≡ find (λ e. nat_eq e.node node) eios.now }
{
    eios.iter().copied().find(|e| e.node as u16 == node)
}

// Where a vector of the EIO of a node arrives.
#[tactic(auto, using(crate::proofs::Landing::eios_entered))]
fn eio_arrival(eios: &[Eio], node: u16, vector: u16) -> Route
    ensures { result ≡ through (map eio_hub eios.now) node vector }
{
    match eio_of(eios, node) {
        Some(eio) => Route::Arrives(eio.cascade, vector as u32),
        None => Route::NoOwner,
    }
}

// Where a vector of the HT arrives, asked for by a node.
#[tactic(auto, using(words::proofs::Choices::by_tests), unfolding(crate::specs::Routes::through, words::specs::Lists::first))]
fn ht_arrival(lio: Lio, ht: Ht, node: u16, vector: u16) -> Route
    ensures { result ≡ through (ht_hub lio ht ∷ []) node vector }
{
    let v = vector as u32;
    if HT_NODE as u16 == node {
        let input = parts::input_for(ht, v) as u32;
        return Route::Arrives(parts::core_vector(lio, input), HT_ABOVE + v);
    }
    Route::NoOwner
}

impl Map {
    // Where a vector of the hub of a node arrives.
    #[tactic(auto, using(crate::proofs::Landing::ht_alone, crate::proofs::Landing::eios_only))]
    pub(crate) fn hub_arrival(&self, node: u16, vector: u16) -> Route
        ensures { result ≡ through (hubs (says self.now)) node vector }
    {
        let ht = kinds::said_ht(self.ht);
        if ht.present {
            return ht_arrival(kinds::said_lio(self.lio), ht, node, vector);
        }
        eio_arrival(self.eios(), node, vector)
    }
}

// Whether none of some EIO has this node.
fn no_eio_of(eios: &[Eio], node: u16) -> bool
    ensures { result ≡ is_missing node (map (λ e. e.node) eios.now) }
{
    eios.iter().map(|e| e.node as u16).all(|n| n != node)
}

impl Map {
    // 42: whether no hub has this node.
    pub(crate) fn no_hub_of(&self, node: u16) -> bool
        ensures { result ≡ is_missing node (nodes (says self.now)) }
    {
        if self.ht.present {
            return HT_NODE as u16 != node;
        }
        no_eio_of(self.eios(), node)
    }
}
