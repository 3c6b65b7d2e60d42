// The C entries: plain numbers and byte slices in, one number of 64 bits out. The crate reading_c exports them under these names, and
// include/yasmirand.h declares them. They give the strict reading. The map of a capture that the scan accepts keeps all rules
// (proofs/AcceptedKeepsRules), so that its answers are had without 61.
ghost use Rattle.std.specs.Prelude.{◌≡◌, take, IfOk};
ghost use Rattle.processors.specs.Image.{image};
ghost use Rattle.words.specs.Rooms.{filled};
ghost use Rattle.processors.specs.Listing.{processors};
ghost use Rattle.processors.specs.Again.{Standing};
ghost use Rattle.reading.specs.Scan.{madt_bytes, scan};
ghost use Rattle.reading.specs.AsAnswered.{scan_of};
ghost use Rattle.reading.specs.Entries.{answer_in, read_code, read_result, bytes_after, route_result, trace_result};

use crate::{Accepted, Cores};
use lines::codes;
use madt::Offsets;
use tables::Strictness;
use words::{NoRoom, Refusal};

// What every C entry begins with: the scan of the strict reading, with a room to note the processors in.
fn scan_strictly(capture: &[u8], room: &mut Offsets) -> Result<Accepted, Refusal>
    ensures scan_value { scan_of result ≡ scan Strictness.Strict capture.now }
    ensures standing { IfOk result (λ a. Standing (madt_bytes capture.now a.madt) (take a.processors room.new)) }
{
    crate::scan_noting(Strictness::Strict, capture, room)
}

// The list of bytes filled and its count, or refusal 60.
fn answer_bytes(cores: Cores<'_>, list: &mut [u8]) -> Result<usize, Refusal>
    ensures value { result ≡ answer_in cores.entry.table.now list.old }
    ensures list_after { list.new ≡ filled (image (processors cores.entry.table.now)) list.old }
{
    match processors::bytes::fill(cores.table, cores.offsets, list) {
        Err(NoRoom) => Err(words::refuse(60, 0)),
        Ok(processors) => Ok(processors),
    }
}

fn read_code(answer: Result<usize, Refusal>) -> u64
    ensures { result ≡ read_code answer }
{
    match answer {
        Ok(count) => count as u64,
        Err(refusal) => codes::refusal_code(refusal),
    }
}

// The reading: UID and physical ID of each enabled processor are written to the front of the list, in table order, each as
// four little-endian bytes. The result is their count, or refusal number × 2^48 + place; a refusal leaves the list as it was.
pub fn yasmirand_read(capture: &[u8], list: &mut [u8]) -> u64
    ensures value { result ≡ read_result capture.now list.old }
    ensures list_after { list.new ≡ bytes_after capture.now list.old }
{
    let mut room = [0u16; madt::ROOM];
    match scan_strictly(capture, &mut room) {
        Err(refusal) => codes::refusal_code(refusal),
        Ok(accepted) => {
            let table = crate::madt_bytes(capture, accepted.madt);
            let offsets = processors::noted(&room, accepted.processors as usize);
            read_code(answer_bytes(Cores { table, offsets }, list))
        }
    }
}

// Where a global number arrives: kind × 2^40 + vector × 2^32 + number, or refusal number × 2^48 + place.
pub fn yasmirand_route(capture: &[u8], number: u32) -> u64
    ensures { result ≡ route_result capture.now number }
{
    let mut room = [0u16; madt::ROOM];
    match scan_strictly(capture, &mut room) {
        Err(refusal) => codes::refusal_code(refusal),
        Ok(accepted) => codes::route_code(Ok(accepted.map.arrival(number))),
    }
}

// What arrives at a core vector with a number: kind × 2^40 + node × 2^32 + value, or refusal number × 2^48 + place. The map is handed on
// part by part, so that it takes no memcpy.
pub fn yasmirand_trace(capture: &[u8], vector: u32, number: u32) -> u64
    ensures { result ≡ trace_result capture.now vector number }
{
    let mut room = [0u16; madt::ROOM];
    match scan_strictly(capture, &mut room) {
        Err(refusal) => codes::refusal_code(refusal),
        Ok(accepted) => codes::trace_code(Ok(accepted.map.copied().traced(vector, number))),
    }
}
