// What each controller of a map claims for itself, and which claims clash: the rules 41, 42 and 51 to 53 of document 01.
// A claim says nothing of its kind: what a structure does not claim is empty, and what is empty clashes with nothing.
// Each rule is one test of two claims, and one search finds the structure to be named and its earliest partner; its steps are
// here, and whoever has the claims goes through them. What is told of its answer is here too.
#![tactic(auto)]

ghost use Rattle.std.specs.Prelude.{◌≡◌};
ghost use Rattle.clashes.specs.Rules.{meet, repeats_node, shares_number, shares_vector, shares_core, clash};
ghost use Rattle.clashes.specs.Apart.{apart};
ghost use Rattle.clashes.specs.Search.{sooner, nearer, better};
ghost use Rattle.clashes.specs.Told.{at_later, at_both, spotted};

use words::Refusal;

// Numbers one after the other: the first, and how many. None at all is 0, 0.
#[derive(Clone, Copy)]
pub struct Run {
    pub first: u32,
    pub count: u32,
}

// What one structure claims: the node that it is the EIO of, global numbers, vectors of the hub of node `hub`, and up to two core
// vectors to enter by. Without a node `node` and `hub` are 65,535, and a hub without a node is every hub; a core vector that is not
// used is 0. No Options: so each rule is a test of two numbers, where it would be one of four cases.
#[derive(Clone, Copy)]
pub struct Claim {
    pub place: u32,
    pub numbers: Run,
    pub vectors: Run,
    pub node: u16,
    pub hub: u16,
    pub low: u8,
    pub high: u8,
}

// `node` and `hub` of a claim that names no node.
pub const NO_NODE: u16 = 65535;

// `hub` of a claim that is on every hub: it names none.
pub const EVERY_HUB: u16 = NO_NODE;

// ---- the rules, each a test of two claims

// Whether two runs have a number in common.
fn meets(a: Run, b: Run) -> bool
    ensures { result ≡ meet a b }
{
    let x = a.first as u64;
    let y = b.first as u64;
    (x < y + (b.count as u64)) & (y < x + (a.count as u64))
}

// 41: two EIO of one node.
fn repeats_node(x: Claim, y: Claim) -> bool
    ensures { result ≡ repeats_node x y }
{
    (x.node != NO_NODE) & (x.node == y.node)
}

// 51: a global number of both.
fn shares_number(x: Claim, y: Claim) -> bool
    ensures { result ≡ shares_number x y }
{
    meets(x.numbers, y.numbers)
}

// 52: a vector of both, on one hub.
fn shares_vector(x: Claim, y: Claim) -> bool
    ensures { result ≡ shares_vector x y }
{
    ((x.hub == y.hub) | (x.hub == NO_NODE) | (y.hub == NO_NODE)) & meets(x.vectors, y.vectors)
}

// 53: a core vector that both enter.
fn shares_core(x: Claim, y: Claim) -> bool
    ensures { result ≡ shares_core x y }
{
    let low = (x.low != 0) & ((x.low == y.low) | (x.low == y.high));
    let high = (x.high != 0) & ((x.high == y.low) | (x.high == y.high));
    low | high
}

// Whether two claims clash by a rule: 41, 51, 52, or else 53. A rule goes by its number in the documents, and `clash` answers for any
// number: a narrower type would ask more of callers.
fn clashing(rule: u8, x: Claim, y: Claim) -> bool
    ensures { result ≡ clash rule x y }
{
    match rule {
        41 => repeats_node(x, y),
        51 => shares_number(x, y),
        52 => shares_vector(x, y),
        _ => shares_core(x, y),
    }
}

// Whether two claims clash by none of these rules. It does not search: a map whose claims are all apart needs no search.
pub fn are_apart(x: Claim, y: Claim) -> bool
    ensures { result ≡ apart x y }
{
    let node = repeats_node(x, y);
    let number = shares_number(x, y);
    let vector = shares_vector(x, y);
    let core = shares_core(x, y);
    !(node | number | vector | core)
}

// ---- the steps of a search, by places

// The earlier of two places.
#[tactic(auto, using(crate::proofs::Sooner::least), unfolding(crate::specs::Search::sooner))]
pub fn sooner_of(best: Option<u32>, place: u32) -> Option<u32>
    ensures { result ≡ sooner best place }
{
    match best {
        Some(q) => Some(q.min(place)),
        None => Some(place),
    }
}

// One claim more as a partner of x: it must stand before x, and the earliest counts.
pub fn nearer_of(rule: u8, x: Claim, best: Option<u32>, y: Claim) -> Option<u32>
    ensures { result ≡ nearer rule x best y }
{
    if (y.place < x.place) & clashing(rule, x, y) {
        return sooner_of(best, y.place);
    }
    best
}

// One structure more that has a partner: the first in the table counts.
pub fn better_of(best: Option<(u32, u32)>, place: u32, with: Option<u32>) -> Option<(u32, u32)>
    ensures { result ≡ better best place with }
{
    let Some(q) = with else {
        return best;
    };
    match best {
        Some((o, _)) if o <= place => best,
        _ => Some((place, q)),
    }
}

// ---- what is told of a search's answer: which places are told is document 02's choice for each number, so there are three

// A clash of which the later structure is told.
#[tactic(auto, unfolding(crate::specs::Told::at_later))]
pub fn at_later(number: u8, pair: Option<(u32, u32)>) -> Result<(), Refusal>
    ensures { result ≡ at_later number pair }
{
    match pair {
        Some((later, _)) => Err(words::refuse(number, later)),
        None => Ok(()),
    }
}

// A clash of which the later structure and the earliest that it clashes with are told.
#[tactic(auto, unfolding(crate::specs::Told::at_both))]
pub fn at_both(number: u8, pair: Option<(u32, u32)>) -> Result<(), Refusal>
    ensures { result ≡ at_both number pair }
{
    match pair {
        Some((later, earliest)) => Err(words::refuse_with(number, later, earliest)),
        None => Ok(()),
    }
}

// A rule that is broken at a spot, or nowhere.
#[tactic(auto, unfolding(crate::specs::Told::spotted))]
pub fn at_spot(number: u8, spot: Option<u32>) -> Result<(), Refusal>
    ensures { result ≡ spotted number spot }
{
    match spot {
        Some(place) => Err(words::refuse(number, place)),
        None => Ok(()),
    }
}
