// The interrupt map of a board: what it holds, the rules that it must keep, where each line arrives, and what arrives at a
// core vector with a number (document 01, "Where a line arrives" and "What comes back").
#![tactic(auto)]

ghost use Rattle.std.specs.Prelude.{◌≡◌};

use kinds::{Bio, Eio, Ht, Lio, Lpc, Msi};

mod hubs; // what bridges and slots land on: the HT, or the EIO
pub mod routes; // where a global number arrives
mod traces; // what arrives at a core vector with a number
mod quiet; // that a map breaks none of 41, 42 and 51 to 53, without a search
mod search; // where two structures clash, or one stands alone
mod rules; // 38, 34 and 40 to 54: the first rule that a map breaks
mod asked; // 61, and the two questions
pub mod codes; // answers as plain numbers
mod at_once; // the answers to a list of numbers

// "At most 1 LIO, 4 EIO, 4 BIO, 4 MSI, 1 LPC", and one HT: four of each kind that may repeat.
pub const MOST: u8 = 4;

// A map: the used fields of each structure in table order, and the SCI number. Entries from the count on are unused, and so
// is what an absent LIO, HT or LPC or an unused half holds: nothing looks at them. Arrays with a count each, and no lists: a map is handed
// on by value (document 01 fixes that), and there is no heap. `Map::eios` and its like give the entries in use.
#[derive(Clone, Copy)]
pub struct Map {
    pub lio: Lio,
    pub lpc: Lpc,
    pub sci: u16,
    pub eiocount: u8,
    pub biocount: u8,
    pub msicount: u8,
    pub ht: Ht,
    pub eios: [Eio; 4],
    pub bios: [Bio; 4],
    pub msis: [Msi; 4],
}

impl Map {
    // The same map, part by part. Copied as one, its 160 bytes are a call of memcpy, and the archive for C is to need memset alone.
    #[inline(always)]
    pub fn copied(&self) -> Map
        ensures { result ≡ self.now }
    {
        Map {
            lio: self.lio,
            lpc: self.lpc,
            sci: self.sci,
            eiocount: self.eiocount,
            biocount: self.biocount,
            msicount: self.msicount,
            ht: self.ht,
            eios: self.eios,
            bios: self.bios,
            msis: self.msis,
        }
    }
}

// The answer to a global number: it arrives at a core vector with a number, or it is unwired, or it has no owner.
#[derive(Clone, Copy, Debug, PartialEq, Eq)]
pub enum Route {
    Arrives(u8, u32),
    Unwired,
    NoOwner,
}

// The answer to a core vector and a number: nothing; the global number of a LIO input, of a BIO input, or of the input that
// the LPC lines share, which is never told as a BIO input; or the node and the slot of an MSI.
#[derive(Clone, Copy, Debug, PartialEq, Eq)]
pub enum Trace {
    Nothing,
    LioInput(u32),
    BioInput(u32),
    LpcCascade(u32),
    MsiSlot(u8, u32),
}

// Whose a global number is: the LPC's, an input of the LIO, an input of the BIO of a node, or nobody's.
#[derive(Clone, Copy, PartialEq, Eq)]
pub enum Owner {
    LpcInput,
    LioInput(u32),
    BioInput(u16, u16),
    Nobody,
}

// Where each structure of a map stands in the capture, in the same arrangement as the map. Beside the map and not in it: where its
// structures stand is no part of a map (`SameAnswers`, `PlacesDoNotMatter`).
#[derive(Clone, Copy)]
pub struct Places {
    pub lio: u32,
    pub ht: u32,
    pub eios: [u32; 4],
    pub bios: [u32; 4],
    pub msis: [u32; 4],
    pub lpc: u32,
}
