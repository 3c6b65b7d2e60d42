// The kinds of structures that a map is made of: the used fields of each, their ranges, and what of them is unused
// (document 01, "MADT structures").
#![tactic(auto)]

ghost use Rattle.std.specs.Prelude.{◌≡◌};
ghost use Rattle.kinds.specs.Used.{used_half, said_lio, said_ht, said_lpc};

pub mod ranges; // 71 to 78 and 37: the range of each field, and the first that is broken
pub mod makers; // type, length and maker of each of the seven kinds

// One half of the LIO: a bit for each input that it leads to a core vector, and the vector. With mask 0 it is unused and its
// cascade is free.
#[derive(Clone, Copy, Default)]
pub struct Half {
    pub mask: u32,
    pub cascade: u8,
}

// The processor's own controller. Bytes 13 and 15 of its structure are the low half, 14 and 19 the high half. Whether there is one is a
// flag here, of the HT and the LPC too, and no Option: callers fill a map, an absent one holds anything, and `SameAnswers` speaks of that.
#[derive(Clone, Copy, Default)]
pub struct Lio {
    pub present: bool,
    pub low: Half,
    pub high: Half,
}

// The controller of older boards: a byte for each 32 of its vectors, which names the LIO input that they go to.
#[derive(Clone, Copy, Default)]
pub struct Ht {
    pub present: bool,
    pub bytes: [u8; 8],
}

// An extended controller: the core vector that it enters by, its node, and its node map.
#[derive(Clone, Copy, Default)]
pub struct Eio {
    pub cascade: u8,
    pub node: u8,
    pub nodes: u64,
}

// A bridge: its hardware ID, which is the node of its hub, its first global number, and how many inputs it has.
#[derive(Clone, Copy, Default)]
pub struct Bio {
    pub node: u16,
    pub base: u16,
    pub pins: u16,
}

// Message slots: the first, and how many.
#[derive(Clone, Copy, Default)]
pub struct Msi {
    pub start: u32,
    pub count: u32,
}

// The sixteen lines of the LPC: the node of its bridge, and the input of the bridge that they share.
#[derive(Clone, Copy, Default)]
pub struct Lpc {
    pub present: bool,
    pub node: u16,
    pub cascade: u16,
}

// A half without what is unused in it.
pub fn used_half(half: Half) -> Half
    ensures { result ≡ used_half half }
{
    if half.mask == 0 {
        Half::default()
    } else {
        half
    }
}

// The LIO without what is unused in it.
pub fn said_lio(lio: Lio) -> Lio
    ensures { result ≡ said_lio lio }
{
    if lio.present {
        Lio {
            present: true,
            low: used_half(lio.low),
            high: used_half(lio.high),
        }
    } else {
        Lio::default()
    }
}

// The HT without what is unused in it.
pub fn said_ht(ht: Ht) -> Ht
    ensures { result ≡ said_ht ht }
{
    if ht.present { ht } else { Ht::default() }
}

// The LPC without what is unused in it.
pub fn said_lpc(lpc: Lpc) -> Lpc
    ensures { result ≡ said_lpc lpc }
{
    if lpc.present { lpc } else { Lpc::default() }
}
