// Filling a lent list with the entries of processors, one behind the other from its front on. What a list is made of says how an
// entry is spelled: as two numbers of 32 bits, or as their bytes. Callers know it as `list::fill` and `bytes::fill`, which
// docs/PROMISES.md names.
ghost use Rattle.std.specs.Prelude.{◌≡◌, ℕ, List, [], ◌∷◌, ◌+◌, ◌≤◌, length};
ghost use Rattle.std.proofs.lemmas.List.Edits.{sets};
ghost use Rattle.words.specs.Rooms.{filled};
ghost use Rattle.processors.specs.Listing.{numbers_of, filling};
ghost use Rattle.processors.specs.Spelling.{Spelling};
ghost use Rattle.processors.specs.Again.{processors_at};

use crate::Processor;
use words::NoRoom;

// What a processor list is made of.
pub(crate) trait Item {
    // The numbers of processors, as they are written.
    ghost spelled: { List ℕ → List Self };

    // How many items a processor takes.
    ghost ENTRY: { ℕ };

    const ENTRY: usize;

    // The entry of a processor, from item n of a list on.
    fn put(list: &mut [Self], n: usize, processor: Processor)
        requires { n + ENTRY ≤ length list.old }
        ensures { list.new ≡ sets list.old n (spelled (processor.uid ∷ processor.id ∷ [])) };

    ghost laws: { Spelling spelled ENTRY };
}

// The processors whose CORE stand at some offsets of a MADT, written from the list's front on, and their count; a list without
// room for them stays as it is. Each entry is put by its place: of what is written through `chunks_exact_mut` a proof knows the
// length alone.
pub(crate) fn fill<T: Item>(table: &[u8], offsets: &[u16], list: &mut [T]) -> Result<usize, NoRoom>
    ensures result_value { let entries = T.spelled (numbers_of (processors_at table.now offsets.now)) in
        result ≡ filling entries (length offsets.now) list.old }
    ensures list_after { let entries = T.spelled (numbers_of (processors_at table.now offsets.now)) in
        list.new ≡ filled entries list.old }
{
    if list.len() / T::ENTRY < offsets.len() {
        return Err(NoRoom);
    }
    for (k, at) in offsets.iter().enumerate() {
        T::put(list, k * T::ENTRY, crate::processor_at(table, *at));
    }
    Ok(offsets.len())
}
