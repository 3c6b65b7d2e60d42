// Asks the questions that come on standard input, and prints one line for each answer. boards/cases.py writes the questions
// beside the answers that the documents fix; the gate compares.
#![tactic(auto)]

use asked::{Head, Question};
use std::io;
use std::io::Read;

mod asked; // a question: its head, what may be asked, and the answers
mod listed; // the questions about a list of numbers
mod lookups; // those of them that are about the owner table
mod told; // what is printed

// One byte more than a capture may have.
const MOST_BYTES: usize = 65537;

// After so many it ends in any case.
const MOST_QUESTIONS: u32 = 100000;

// Reads until the list is full or the input ends, and gives what was read. It stands in `map` too: no crate below both may read, and
// std's `read_exact` refuses a short input, and `read_to_end` wants a heap.
pub(crate) fn read_full<'a>(rt: &impl Input, list: &'a mut [u8]) -> io::Result<&'a [u8]> {
    let most = list.len() as u64;
    let count = io::copy(&mut rt.reader().take(most), &mut &mut *list)?;
    Ok(words::part(list, 0, count as usize))
}

// Where a read or a write fails, no more questions are answered, and the program ends with an error. All rooms, here and beside, are
// fixed: the project has no heap.
fn main(rt: HostRuntime) -> io::Result<()> {
    let mut room = [0u8; MOST_BYTES];
    for _ in 0..MOST_QUESTIONS {
        let Some(head) = Head::read(&rt)? else { break };
        let Some(lent) = room.get_mut(..head.length()) else {
            break
        };
        let bytes = read_full(&rt, lent)?;
        let question = Question { head: &head, bytes };
        question.say(&rt)?;
    }
    Ok(())
}
