// Refusal 39: the earliest enabled CORE that repeats the UID or the physical ID of an earlier enabled one. The IDs of each pair are
// read from the table again; of those before a CORE only the highest IDs are kept, since a CORE above them repeats none.
ghost use Rattle.std.specs.Prelude.{◌≡◌, ◌⊎◌, ◌<◌, ◌≤◌};
ghost use Rattle.processors.specs.Repeats.{share_id};
ghost use Rattle.processors.specs.Again.{repeat_at};

use crate::Processor;

// Every UID and every physical ID so far is below these.
#[derive(Clone, Copy)]
struct Seen {
    uids: u64,
    ids: u64,
}

// UIDs are compared with UIDs, physical IDs with physical IDs.
fn share_id(processor: Processor, other: Processor) -> bool
    ensures { result ≡ share_id processor other }
{
    (processor.uid == other.uid) | (processor.id == other.id)
}

impl Seen {
    // One processor more was seen.
    fn with(self, processor: Processor) -> Seen
        ensures { (processor.uid < result.uids) × (processor.id < result.ids) × (self.uids ≤ result.uids) × (self.ids ≤ result.ids) }
    {
        Seen {
            uids: self.uids.max(u64::from(processor.uid) + 1),
            ids: self.ids.max(u64::from(processor.id) + 1),
        }
    }

    // Where to begin to look for an earlier one that shares an ID: at the first, or, if the processor is above all that were seen,
    // at itself, which ends the search.
    fn search_from(self, processor: Processor, later: usize) -> usize
        ensures { (result ≡ 0) ⊎ ((result ≡ later) × (self.uids ≤ processor.uid) × (self.ids ≤ processor.id)) }
    {
        if self.uids <= u64::from(processor.uid) && self.ids <= u64::from(processor.id) {
            return later;
        }
        0
    }
}

// Where in the table it stands, if the enabled CORE stand at some offsets. Document 01 asks for this form: nested loops, left by a
// label at the first repeated ID.
pub fn first_repeat(table: &[u8], offsets: &[u16]) -> Option<u16>
    ensures { result ≡ repeat_at table.now offsets.now }
{
    let mut repeat = None;
    let mut seen = Seen { uids: 0, ids: 0 };
    'cores: for (later, at) in offsets.iter().enumerate() {
        let processor = crate::processor_at(table, *at);
        for before in &offsets[seen.search_from(processor, later)..later] {
            if share_id(processor, crate::processor_at(table, *before)) {
                repeat = Some(*at);
                break 'cores;
            }
        }
        seen = seen.with(processor);
    }
    repeat
}
