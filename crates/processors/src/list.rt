// The processor list: UID and physical ID of each enabled CORE, in table order, as 32-bit numbers.
ghost use Rattle.std.specs.Prelude.{◌≡◌, length};
ghost use Rattle.words.specs.Rooms.{filled};
ghost use Rattle.processors.specs.Listing.{numbers_of, filling};
ghost use Rattle.processors.specs.Spelling.{plain, plainly};
ghost use Rattle.processors.specs.Again.{processors_at};

use crate::Processor;
use crate::entries::{self, Item};
use words::NoRoom;

impl Item for u32 {
    ghost spelled = { plain };

    ghost ENTRY = { 2 };

    const ENTRY: usize = 2;

    ghost laws = { plainly };

    fn put(list: &mut [u32], n: usize, processor: Processor) {
        list[n] = processor.uid;
        list[n + 1] = processor.id;
    }
}

// The processors whose CORE stand at some offsets of a MADT, written from the list's front on; a list without room for them stays
// as it is.
pub fn fill(table: &[u8], offsets: &[u16], list: &mut [u32]) -> Result<usize, NoRoom>
    ensures result_value { let entries = numbers_of (processors_at table.now offsets.now) in
        result ≡ filling entries (length offsets.now) list.old }
    ensures list_after { let entries = numbers_of (processors_at table.now offsets.now) in
        list.new ≡ filled entries list.old }
{
    entries::fill(table, offsets, list)
}
