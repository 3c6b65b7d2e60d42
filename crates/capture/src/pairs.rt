// How many inputs bridges have (W-212 of document 02). The MADT has no field for it: a capture of version 2 carries it, in four
// pairs of bytes. Whether they are sound is refusal 7.
ghost use Rattle.std.specs.Prelude.{◌≡◌, ◌<◌};
ghost use Rattle.words.specs.Refusals.{first_refusal};
ghost use Rattle.capture.specs.Pairs.{tells_of, pair_at, pairs_of, told_of, pins_of, pair_broken, pair_rules};

use crate::WITH_PAIRS;
use words::Refusal;

// Bridges with a hardware ID have so many inputs. With number 0 the pair is empty and its ID is free.
#[derive(Clone, Copy)]
pub struct Pair {
    pub id: u8,
    pub pins: u8,
}

// The pairs of a capture.
pub const COUNT: usize = 4;

pub type Pairs = [Pair; COUNT];

// Where they begin, and the bytes of one.
const FIRST: usize = 18;

const SIZE: usize = 2;

// The most inputs that a bridge has, and how many it has where no pair tells of it.
const MOST_PINS: u8 = 64;

// Whether a pair tells of bridges with a hardware ID.
fn tells_of(pair: Pair, id: u16) -> bool
    ensures { result ≡ tells_of id pair }
{
    (pair.pins != 0) & (pair.id as u16 == id)
}

// Pair k of a capture of version 2.
fn pair_at(capture: &[u8], k: usize) -> Pair
    requires { k < 4 }
    ensures { result ≡ pair_at capture.now k }
{
    let at = FIRST + SIZE * k;
    Pair {
        id: words::byte_at(capture, at),
        pins: words::byte_at(capture, at + 1),
    }
}

// The pairs of a capture: those of version 1 are empty.
pub fn pairs_of(capture: &[u8]) -> Pairs
    ensures { result ≡ pairs_of capture.now }
{
    if crate::version_of(capture) != WITH_PAIRS {
        return [Pair { id: 0, pins: 0 }; COUNT];
    }
    std::array::from_fn(|k| pair_at(capture, k))
}

// What pairs tell of bridges with a hardware ID, if any of them does: the first that does is heard.
fn told_of(pairs: &[Pair], id: u16) -> Option<u8>
    ensures { result ≡ told_of id pairs.now }
{
    pairs
        .iter()
        .find(|pair| tells_of(**pair, id))
        .map(|pair| pair.pins)
}

// How many inputs bridges with a hardware ID have.
pub fn pins_of(pairs: Pairs, id: u16) -> u16
    ensures { result ≡ pins_of pairs id }
{
    told_of(&pairs, id).unwrap_or(MOST_PINS) as u16
}

// Refusal 7, of pair k.
fn is_broken(pairs: Pairs, k: usize) -> bool
    requires { k < 4 }
    ensures { result ≡ pair_broken pairs k }
{
    let pair = pairs[k];
    (MOST_PINS < pair.pins) | ((pair.pins != 0) & told_of(&pairs[..k], pair.id as u16).is_some())
}

// Refusal 7, pair by pair; empty ones keep it.
pub(crate) fn check(capture: &[u8]) -> Result<(), Refusal>
    ensures { result ≡ first_refusal (pair_rules capture.now) }
{
    if crate::version_of(capture) != WITH_PAIRS {
        return Ok(());
    }
    let pairs = pairs_of(capture);
    for k in 0..COUNT {
        if is_broken(pairs, k) {
            return Err(words::refuse(7, (FIRST + SIZE * k) as u32));
        }
    }
    Ok(())
}
