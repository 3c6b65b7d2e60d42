// The processor list as bytes, for the C entry: four little-endian bytes a number, otherwise as in `list`.
ghost use Rattle.std.specs.Prelude.{◌≡◌, ◌+◌, ◌≤◌, length};
ghost use Rattle.std.proofs.lemmas.List.Edits.{sets};
ghost use Rattle.words.specs.Rooms.{filled};
ghost use Rattle.processors.specs.Image.{four_bytes, image};
ghost use Rattle.processors.specs.Listing.{numbers_of, filling};
ghost use Rattle.processors.specs.Spelling.{in_bytes};
ghost use Rattle.processors.specs.Again.{processors_at};

use crate::Processor;
use crate::entries::{self, Item};
use words::NoRoom;

// How many bytes a number takes.
const NUMBER: usize = 4;

// The bytes of a number, from byte n of the list on.
fn put_number(list: &mut [u8], n: usize, number: u32)
    requires { n + 4 ≤ length list.old }
    ensures { list.new ≡ sets list.old n (four_bytes number) }
{
    list[n..n + NUMBER].copy_from_slice(&number.to_le_bytes());
}

impl Item for u8 {
    ghost spelled = { image };

    ghost ENTRY = { 8 };

    const ENTRY: usize = 8;

    ghost laws = { in_bytes };

    fn put(list: &mut [u8], n: usize, processor: Processor) {
        put_number(list, n, processor.uid);
        put_number(list, n + NUMBER, processor.id);
    }
}

// The processors whose CORE stand at some offsets of a MADT as bytes, written from the list's front on; a list without room for
// them stays as it is.
pub fn fill(table: &[u8], offsets: &[u16], list: &mut [u8]) -> Result<usize, NoRoom>
    ensures result_value { let entries = image (numbers_of (processors_at table.now offsets.now)) in
        result ≡ filling entries (length offsets.now) list.old }
    ensures list_after { let entries = image (numbers_of (processors_at table.now offsets.now)) in
        list.new ≡ filled entries list.old }
{
    entries::fill(table, offsets, list)
}
