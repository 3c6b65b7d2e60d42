// Document 01, "Ranges (H)": a test for each field, and for each kind of structure the first field out of its range, by the number
// that refuses it; `None` where every field is in its range.
ghost use Rattle.std.specs.Prelude.{◌≡◌};
ghost use Rattle.words.specs.Lists.{every};
ghost use Rattle.kinds.specs.Ranges.{cascade_fits, node_fits, nodes_fit, count_fits, end_fits, base_fits, pins_fit, input_fits, byte_fits, half_fits, lio_field, ht_field, eio_field, msi_field, bio_field, lpc_field, bit_in_both};

use crate::{Bio, Eio, Half, Ht, Lio, Lpc, Msi};

// The ends of the ranges.
const LINE_FIRST: u8 = 2;

const LINE_LAST: u8 = 9;

const NODE_LAST: u16 = 63;

const SLOTS_END: u64 = 256;

const BASE_FIRST: u16 = 64;

const BASE_LAST: u16 = 65472;

const PINS_MOST: u16 = 64;

const INPUT_LAST: u16 = 63;

const LIO_INPUT_LAST: u8 = 31;

// The fields by the numbers that refuse them. CASCADE is that of an EIO or of a used half of the LIO, NODE that of an EIO or the
// hardware ID of a BIO.
const CASCADE: u8 = 71;

const NODE: u8 = 72;

const NODE_MAP: u8 = 73;

const MSI_COUNT: u8 = 74;

const MSI_END: u8 = 75;

const GSI_BASE: u8 = 76;

const LPC_CASCADE: u8 = 77;

const HT_BYTE: u8 = 78;

// The cascade of an EIO or of a used half of the LIO: one of the core's hardware lines.
pub fn cascade_fits(cascade: u8) -> bool
    ensures { result ≡ cascade_fits cascade }
{
    (LINE_FIRST <= cascade) & (cascade <= LINE_LAST)
}

// The node of an EIO, or the hardware ID of a BIO.
pub fn node_fits(node: u16) -> bool
    ensures { result ≡ node_fits node }
{
    node <= NODE_LAST
}

// The node map of an EIO.
pub fn nodes_fit(nodes: u64) -> bool
    ensures { result ≡ nodes_fit nodes }
{
    nodes != 0
}

// The number of slots of an MSI.
pub fn count_fits(count: u32) -> bool
    ensures { result ≡ count_fits count }
{
    1 <= count
}

// The end of an MSI's slots.
pub fn end_fits(start: u32, count: u32) -> bool
    ensures { result ≡ end_fits start count }
{
    (start as u64) + (count as u64) <= SLOTS_END
}

// The first global number of a BIO.
pub fn base_fits(base: u16) -> bool
    ensures { result ≡ base_fits base }
{
    (BASE_FIRST <= base) & (base <= BASE_LAST)
}

// The number of inputs of a BIO.
pub fn pins_fit(pins: u16) -> bool
    ensures { result ≡ pins_fit pins }
{
    (1 <= pins) & (pins <= PINS_MOST)
}

// The input of its bridge that the LPC leads to.
pub fn input_fits(cascade: u16) -> bool
    ensures { result ≡ input_fits cascade }
{
    cascade <= INPUT_LAST
}

// A byte of the HT: it names a LIO input.
pub fn byte_fits(byte: u8) -> bool
    ensures { result ≡ byte_fits byte }
{
    byte <= LIO_INPUT_LAST
}

// All bytes of the HT.
fn bytes_fit(bytes: [u8; 8]) -> bool
    ensures { result ≡ every byte_fits bytes }
{
    bytes.iter().all(|byte| byte_fits(*byte))
}

// A half of the LIO: unused, or its cascade fits.
pub fn half_fits(half: Half) -> bool
    ensures { result ≡ half_fits half }
{
    (half.mask == 0) | cascade_fits(half.cascade)
}

// The first field of a LIO that is out of its range.
pub fn lio_field(lio: Lio) -> Option<u8>
    ensures { result ≡ lio_field lio }
{
    if half_fits(lio.low) & half_fits(lio.high) {
        None
    } else {
        Some(CASCADE)
    }
}

// The first field of an HT that is out of its range.
pub fn ht_field(ht: Ht) -> Option<u8>
    ensures { result ≡ ht_field ht }
{
    if bytes_fit(ht.bytes) {
        None
    } else {
        Some(HT_BYTE)
    }
}

// The first field of an EIO that is out of its range.
pub fn eio_field(eio: Eio) -> Option<u8>
    ensures { result ≡ eio_field eio }
{
    if !cascade_fits(eio.cascade) {
        return Some(CASCADE);
    }
    if !node_fits(eio.node as u16) {
        return Some(NODE);
    }
    if nodes_fit(eio.nodes) {
        None
    } else {
        Some(NODE_MAP)
    }
}

// The first field of an MSI that is out of its range.
pub fn msi_field(msi: Msi) -> Option<u8>
    ensures { result ≡ msi_field msi }
{
    if !count_fits(msi.count) {
        return Some(MSI_COUNT);
    }
    if end_fits(msi.start, msi.count) {
        None
    } else {
        Some(MSI_END)
    }
}

// The first field of a BIO that is out of its range.
pub fn bio_field(bio: Bio) -> Option<u8>
    ensures { result ≡ bio_field bio }
{
    if !node_fits(bio.node) {
        return Some(NODE);
    }
    if base_fits(bio.base) {
        None
    } else {
        Some(GSI_BASE)
    }
}

// The first field of an LPC that is out of its range.
pub fn lpc_field(lpc: Lpc) -> Option<u8>
    ensures { result ≡ lpc_field lpc }
{
    if input_fits(lpc.cascade) {
        None
    } else {
        Some(LPC_CASCADE)
    }
}

// 37: a bit in both LIO masks.
pub fn bit_in_both(lio: Lio) -> bool
    ensures { result ≡ bit_in_both lio }
{
    lio.low.mask & lio.high.mask != 0
}
