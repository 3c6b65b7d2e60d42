// The map on paper: reads a capture from standard input, and prints its map or its refusal. `./map` builds and runs this.
#![tactic(auto)]

use std::io;
use std::io::Read;
use text::ROOM;

// One byte more than a capture may have, so that an input that is too long is seen to be (refusal 1).
const MOST_BYTES: usize = 65537;

// Reads until the list is full or the input ends, and gives what was read. It stands in `vectors` too: no crate below both may read, and
// std's `read_exact` refuses a short input, and `read_to_end` wants a heap.
fn read_full<'a>(rt: &impl Input, list: &'a mut [u8]) -> io::Result<&'a [u8]> {
    let most = list.len() as u64;
    let count = io::copy(&mut rt.reader().take(most), &mut &mut *list)?;
    Ok(words::part(list, 0, count as usize))
}

// Where a read or a write fails, nothing more is printed, and the program ends with an error. ROOM bytes are room enough for every text.
// Both rooms are fixed: the project has no heap.
fn main(rt: HostRuntime) -> io::Result<()> {
    let mut input = [0u8; MOST_BYTES];
    let capture = read_full(&rt, &mut input)?;
    let mut room = [0u8; ROOM];
    if let Ok(length) = text::write_text(capture, &mut room) {
        rt.write_all(words::part(&room, 0, length))?;
    }
    Ok(())
}
