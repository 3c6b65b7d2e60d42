// The static library for C: the three entries of the crate reading under their names, each with its clauses said again.
// include/yasmirand.h declares them.
#![tactic(auto)]

ghost use Rattle.std.specs.Prelude.{◌≡◌};
ghost use Rattle.reading.specs.Entries.{read_result, bytes_after, route_result, trace_result};

use reading::entries;

// The reading: UID and physical ID of each enabled processor are written to the front of the list, in table order, each as
// four little-endian bytes. The result is their count, or refusal number × 2^48 + place; a refusal leaves the list as it was.
#[unsafe(no_mangle)]
pub extern "C" fn yasmirand_read(capture: &[u8], list: &mut [u8]) -> u64
    ensures value { result ≡ read_result capture.now list.old }
    ensures list_after { list.new ≡ bytes_after capture.now list.old }
{
    entries::yasmirand_read(capture, list)
}

// Where a global number arrives: kind × 2^40 + vector × 2^32 + number, or refusal number × 2^48 + place.
#[unsafe(no_mangle)]
pub extern "C" fn yasmirand_route(capture: &[u8], number: u32) -> u64
    ensures { result ≡ route_result capture.now number }
{
    entries::yasmirand_route(capture, number)
}

// What arrives at a core vector with a number: kind × 2^40 + node × 2^32 + value, or refusal number × 2^48 + place.
#[unsafe(no_mangle)]
pub extern "C" fn yasmirand_trace(capture: &[u8], vector: u32, number: u32) -> u64
    ensures { result ≡ trace_result capture.now vector number }
{
    entries::yasmirand_trace(capture, vector, number)
}
