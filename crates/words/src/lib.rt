// The words that every other crate speaks: little-endian numbers in bytes, a part of a slice, a sum of bytes, and the
// refusal. Every function answers for any bytes and any offset; a byte past the end counts as 0.
#![tactic(auto)]

ghost use Rattle.std.specs.Prelude.{◌≡◌, ℕ, ◌+◌, ◌<◌, slice_index, Some};
ghost use Rattle.words.specs.Bytes.{byte_at, number_at, part_at, byte_sum};
ghost use Rattle.words.specs.Refusals.{refused, refused_with, rule, told};

use std::error::Error;
use std::fmt;

// Why a capture or a map is turned away: the documents' number for the rule that is broken, where in the capture, and the second
// place: of a clash, where the earliest structure stands that the one at `place` clashes with. A refusal that tells no second
// place has 0 there: W-202 of document 02 fixes that number ("all others carry 0"), so it is no Option. And a rule's number is all the
// name that the documents give it: an enum of them would only spell each number again.
#[derive(Clone, Copy, Debug, PartialEq, Eq)]
pub struct Refusal {
    pub number: u8,
    pub place: u32,
    pub second: u32,
}

// As it is told on paper: a second place of 0 is not printed.
impl fmt::Display for Refusal {
    ghost output = { λ refusal. Some (told refusal) };

    fn fmt<W: fmt::Write>(&self, f: &mut fmt::Formatter<W>) -> fmt::Result {
        write!(f, "refused {} at {}", self.number, self.place)?;
        if self.second != 0 {
            write!(f, " with {}", self.second)?;
        }
        Ok(())
    }
}

impl Error for Refusal {}

// A lent list or room that is too short for what is to be written.
#[derive(Clone, Copy, Debug, PartialEq, Eq)]
pub struct NoRoom;

// The maker of refusals that tell both places.
pub fn refuse_with(number: u8, place: u32, second: u32) -> Refusal
    ensures { result ≡ refused_with number place second }
{
    Refusal {
        number,
        place,
        second,
    }
}

// The maker of all others.
pub fn refuse(number: u8, place: u32) -> Refusal
    ensures { result ≡ refused number place }
{
    refuse_with(number, place, 0)
}

// What the rule of a number says: refused at a place if it is broken.
pub fn rule(broken: bool, number: u8, place: u32) -> Result<(), Refusal>
    ensures { result ≡ rule broken number place }
{
    if broken {
        return Err(refuse(number, place));
    }
    Ok(())
}

// The byte at an offset.
pub fn byte_at(bytes: &[u8], at: usize) -> u8
    ensures { result ≡ byte_at bytes.now at }
{
    bytes.get(at).copied().unwrap_or(0)
}

// The N bytes from an offset; those past the end count as 0. Where all of them are there, the compiler loads them in one step.
fn array_at<const N: usize>(bytes: &[u8], at: usize) -> [u8; N]
    ensures { (i : ℕ) → i < N → slice_index result i ≡ byte_at bytes.now (at + i) }
{
    if bytes.len() <= at {
        return [0; N];
    }
    let rest = &bytes[at..];
    match rest.first_chunk() {
        Some(whole) => *whole,
        None => std::array::from_fn(|i| byte_at(rest, i)),
    }
}

// The 16-bit number at an offset.
pub fn u16_at(bytes: &[u8], at: usize) -> u16
    ensures { result ≡ number_at 2 bytes.now at }
{
    u16::from_le_bytes(array_at(bytes, at))
}

// The 32-bit number at an offset.
pub fn u32_at(bytes: &[u8], at: usize) -> u32
    ensures { result ≡ number_at 4 bytes.now at }
{
    u32::from_le_bytes(array_at(bytes, at))
}

// The 64-bit number at an offset.
pub fn u64_at(bytes: &[u8], at: usize) -> u64
    ensures { result ≡ number_at 8 bytes.now at }
{
    u64::from_le_bytes(array_at(bytes, at))
}

// The `count` bytes from an offset, or as many of them as there are. By `get` and `unwrap_or` it takes more instructions, some ten for
// each structure that is walked.
pub fn part(bytes: &[u8], at: usize, count: usize) -> &[u8]
    ensures { result.now ≡ part_at bytes.now at count }
{
    if bytes.len() <= at {
        return &[];
    }
    let rest = &bytes[at..];
    if rest.len() < count {
        return rest;
    }
    &rest[..count]
}

// The sum of all bytes modulo 256. Eight bits are kept at each turn: the compiler then adds many bytes in one step.
pub fn sum(bytes: &[u8]) -> u8
    ensures { result ≡ byte_sum bytes.now }
{
    bytes.iter().fold(0u8, |acc, byte| acc.wrapping_add(*byte))
}
