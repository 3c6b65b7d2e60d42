// The capture: what the bench is handed. Whether it is sound (refusals 1 to 7), where a stretch of memory stands in it,
// and whether the RSDP is there (refusal 10). Every public function answers for any bytes.
#![tactic(auto)]

ghost use Rattle.std.specs.Prelude.{◌≡◌, ◌&&◌, ◌||◌, ℕ, ◌+◌, ◌-◌, ◌^◌, ◌≤◌, ◌<◌, eqb, ltb, leb, List, length, drop, ◌++◌, Err, Ok};
ghost use Rattle.words.specs.Bytes.{number_at};
ghost use Rattle.capture.specs.Fields.{version, segment_count, rsdp_address, header_size, descriptor, descriptors_end, descriptors, segment_end, lengths};
ghost use Rattle.capture.specs.Rules.{wrong_size, wrong_mark, wrong_version, wrong_count, wrong_total, segment_rules, verdict};
ghost use Rattle.capture.specs.Pairs.{pair_rules};
ghost use Rattle.capture.specs.Presence.{run_end, presence_rules, rsdp_place, rsdp};
ghost use Rattle.capture.specs.Reach.{reached};
ghost use Rattle.words.specs.Refusals.{unless, first_refusal};

use words::Refusal;

pub mod pairs; // how many inputs bridges have, and refusal 7

// The place of an address, and how many bytes there are from there on, as far as segments touch. No Option: where nothing is there is
// no room, so that "room < size" asks of every answer alike whether a stretch is absent.
#[derive(Clone, Copy)]
pub struct Reach {
    pub place: usize,
    pub room: u64,
}

// A sound capture: no rule of 1 to 7 refuses it. It has at most 65,536 bytes, so that 16 bits hold each place in it.
#[derive(Clone, Copy)]
pub struct Sound<'a> {
    pub bytes: &'a [u8],
    pub ghost kept: { verdict bytes.now ≡ Ok tt },
}

// A segment, by its descriptor.
#[derive(Clone, Copy)]
struct Segment {
    address: u64,
    length: u32,
}

const VERSION: usize = 3;

// The versions that there are, and the size of the header of each.
const WITHOUT_PAIRS: u16 = 1;

const HEADER: u8 = 18;

const WITH_PAIRS: u16 = 2;

const HEADER_WITH_PAIRS: u8 = 26;

const SEGMENT_COUNT: usize = 5;

const TOTAL_LENGTH: usize = 6;

const RSDP_ADDRESS: usize = 10;

const DESCRIPTOR_SIZE: usize = 12;

const DESCRIPTOR_LENGTH: usize = 8;

const MOST_SEGMENTS: u8 = 16;

const MOST_BYTES: usize = 65536;

const RSDP_SIZE: u64 = 36;

// The capture's version, of 16 bits.
pub fn version_of(capture: &[u8]) -> u16
    ensures { result ≡ version capture.now }
{
    words::u16_at(capture, VERSION)
}

fn segment_count(capture: &[u8]) -> u8
    ensures { result ≡ segment_count capture.now }
{
    words::byte_at(capture, SEGMENT_COUNT)
}

// The size of the header ahead of the descriptors, by the version alone.
fn header_size(version: u16) -> u8
    ensures { result ≡ header_size version }
{
    if version == WITH_PAIRS {
        HEADER_WITH_PAIRS
    } else {
        HEADER
    }
}

// The place of the first descriptor.
fn descriptors_start(capture: &[u8]) -> usize
    ensures { result ≡ descriptor capture.now 0 }
{
    header_size(version_of(capture)) as usize
}

// The place behind the last descriptor.
fn descriptors_end(capture: &[u8]) -> usize
    ensures { result ≡ descriptors_end capture.now }
{
    descriptors_start(capture) + DESCRIPTOR_SIZE * (segment_count(capture) as usize)
}

// The descriptors, in their order. The type says that each has 12 bytes: the compiler then does not ask at each read of a number
// whether it lies inside. That all of them are there is asked of callers, here and in the three functions below that read them, and no
// type says it as `Sound` does: what bounds the sums, that each byte is below 256, a proof knows of a parameter and not of a field.
fn descriptors_of(capture: &[u8]) -> &[[u8; DESCRIPTOR_SIZE]]
    requires { descriptors_end capture.now ≤ length capture.now }
    ensures { result.now ≡ descriptors capture.now }
{
    let size = DESCRIPTOR_SIZE * (segment_count(capture) as usize);
    words::part(capture, descriptors_start(capture), size)
        .as_chunks()
        .0
}

// The segment that a descriptor tells of.
fn segment_of(descriptor: &[u8; DESCRIPTOR_SIZE]) -> Segment
    ensures { let d = descriptor.now in (result.address ≡ number_at 8 d 0) × (result.length ≡ number_at 4 d 8) }
{
    Segment {
        address: words::u64_at(descriptor, 0),
        length: words::u32_at(descriptor, DESCRIPTOR_LENGTH),
    }
}

// The lengths of all segments together.
fn lengths_of(capture: &[u8]) -> u64
    requires { descriptors_end capture.now ≤ length capture.now }
    ensures { let c = capture.now in result ≡ lengths c (segment_count c) }
{
    let mut sum: u64 = 0;
    for descriptor in descriptors_of(capture) {
        sum += segment_of(descriptor).length as u64;
    }
    sum
}

// Refusal 1.
fn wrong_size(capture: &[u8]) -> bool
    ensures { result ≡ wrong_size capture.now }
{
    (capture.len() < header_size(version_of(capture)) as usize) | (MOST_BYTES < capture.len())
}

// Refusal 2.
fn wrong_mark(capture: &[u8]) -> bool
    ensures { result ≡ wrong_mark capture.now }
{
    !((words::byte_at(capture, 0) == b'T')
        & (words::byte_at(capture, 1) == b'B')
        & (words::byte_at(capture, 2) == b'C'))
}

// Refusal 3.
fn wrong_version(capture: &[u8]) -> bool
    ensures { result ≡ wrong_version capture.now }
{
    let version = version_of(capture);
    !((version == WITHOUT_PAIRS) | (version == WITH_PAIRS))
}

// Refusal 4.
fn wrong_count(capture: &[u8]) -> bool
    ensures { result ≡ wrong_count capture.now }
{
    let n = segment_count(capture);
    (n == 0) | (MOST_SEGMENTS < n)
}

// Refusal 5. Where descriptors are missing, no length is added up.
fn wrong_total(capture: &[u8]) -> bool
    ensures { result ≡ wrong_total capture.now }
{
    let end = descriptors_end(capture) as u64;
    let length = capture.len() as u64;
    if length < end {
        return true;
    }
    let total = words::u32_at(capture, TOTAL_LENGTH) as u64;
    !(total == length) | !(end + lengths_of(capture) == length)
}

// Whether a stretch ends past 2^64. Its last byte is looked at and not its end, which may be 2^64 itself.
fn past_memory(address: u64, length: u32) -> bool
    ensures { result ≡ ltb (2 ^ 64) (address + length) }
{
    length
        .checked_sub(1)
        .is_some_and(|last| address.checked_add(last as u64).is_none())
}

// Whether an address lies before the end of a stretch.
fn before_end(address: u64, start: u64, length: u32) -> bool
    ensures { result ≡ ltb address (start + length) }
{
    address
        .checked_sub(start)
        .is_none_or(|ahead| ahead < length as u64)
}

// Refusal 6, for one segment and the one before it.
fn segment_broken(segment: Segment, before: Segment) -> bool
    ensures { let end = segment.address + segment.length in
        result ≡ (eqb segment.length 0 || ltb (2 ^ 64) end || ltb segment.address (before.address + before.length)) }
{
    (segment.length == 0)
        | past_memory(segment.address, segment.length)
        | before_end(segment.address, before.address, before.length)
}

// Refusal 6, segment by segment, where 5 is kept. Nothing ends before the first: one of no bytes at 0 stands in for it.
fn check_segments(capture: &[u8]) -> Result<(), Refusal>
    requires { descriptors_end capture.now ≤ length capture.now }
    ensures { result ≡ first_refusal (segment_rules capture.now) }
{
    let mut before = Segment {
        address: 0,
        length: 0,
    };
    for (i, descriptor) in descriptors_of(capture).iter().enumerate() {
        let segment = segment_of(descriptor);
        if segment_broken(segment, before) {
            let place = descriptors_start(capture) + DESCRIPTOR_SIZE * i;
            return Err(words::refuse(6, place as u32));
        }
        before = segment;
    }
    Ok(())
}

// Refusals 6 and 7, where 5 is kept: all segments, then all pairs.
fn check_parts(capture: &[u8]) -> Result<(), Refusal>
    requires { descriptors_end capture.now ≤ length capture.now }
    ensures { let c = capture.now in result ≡ first_refusal (segment_rules c ++ pair_rules c) }
{
    check_segments(capture)?;
    pairs::check(capture)
}

// Refusals 1 to 7: whether the capture is sound, or which rule it breaks first.
#[tactic(auto, unfolding(crate::specs::Rules::verdict, crate::specs::Rules::container_rules, words::specs::Refusals::unless, words::specs::Refusals::first_refusal))]
pub fn check(capture: &[u8]) -> Result<(), Refusal>
    ensures { result ≡ verdict capture.now }
{
    words::rule(wrong_size(capture), 1, 0)?;
    words::rule(wrong_mark(capture), 2, 0)?;
    words::rule(wrong_version(capture), 3, 0)?;
    words::rule(wrong_count(capture), 4, 0)?;
    words::rule(wrong_total(capture), 5, 0)?;
    check_parts(capture)
}

// Whether a segment has an address.
fn has_address(segment: Segment, address: u64) -> bool
    ensures { result ≡ (leb segment.address address && ltb address (segment.address + segment.length)) }
{
    address
        .checked_sub(segment.address)
        .is_some_and(|ahead| ahead < segment.length as u64)
}

// Whether a segment starts exactly at the end of the one before it, `room` bytes behind an address. The end may be 2^64, where
// none starts: differences are compared.
fn starts_at(start: u64, address: u64, room: u64) -> bool
    ensures { result ≡ eqb start (address + room) }
{
    start.checked_sub(address) == Some(room)
}

// How many bytes there are from an address of a segment on, as far as segments touch. Up to the end of that segment it is `room`; the
// descriptors are those behind its own.
fn room_of_run(later: &[[u8; DESCRIPTOR_SIZE]], address: u64, room: u64) -> u64
    requires { (length later.now < 256) × (room < 2 ^ 32) }
    ensures { (c : List ℕ) (i : ℕ) → i < segment_count c → later.now ≡ drop (i + 1) (descriptors c)
        → address + room ≡ segment_end c i → result ≡ run_end c i - address }
{
    let mut sum = room;
    for descriptor in later {
        let segment = segment_of(descriptor);
        if !starts_at(segment.address, address, sum) {
            return sum;
        }
        sum += segment.length as u64;
    }
    sum
}

// Where an address stands, and how many bytes there are from there on; no room where no segment has the address, or where the
// descriptors run past the end. In a sound capture a stretch from the address is present exactly if the room is enough: one look at
// the descriptors answers for every size.
pub fn reach_of(capture: &[u8], address: u64) -> Reach
    ensures { result ≡ reached capture.now address }
{
    let end = descriptors_end(capture);
    if capture.len() < end {
        return Reach { place: 0, room: 0 };
    }
    let descriptors = descriptors_of(capture);
    let mut place = end;
    for (i, descriptor) in descriptors.iter().enumerate() {
        let segment = segment_of(descriptor);
        if has_address(segment, address) {
            let ahead = address - segment.address;
            let later = &descriptors[i + 1..];
            return Reach {
                place: place + ahead as usize,
                room: room_of_run(later, address, (segment.length as u64) - ahead),
            };
        }
        place += segment.length as usize;
    }
    Reach { place: 0, room: 0 }
}

fn rsdp_address(capture: &[u8]) -> u64
    ensures { result ≡ rsdp_address capture.now }
{
    words::u64_at(capture, RSDP_ADDRESS)
}

impl<'a> Sound<'a> {
    // Refusals 1 to 7: the capture as one that is known to be sound.
    pub fn of(capture: &'a [u8]) -> Result<Sound<'a>, Refusal>
        ensures of_capture { (s : _) → result ≡ Ok s → s.bytes.now ≡ capture.now }
        ensures refused { (r : _) → result ≡ Err r → verdict capture.now ≡ Err r }
    {
        check(capture)?;
        Ok(Sound { bytes: capture })
    }

    // Refusal 10: the place of the RSDP.
    pub fn locate_rsdp(self) -> Result<u16, Refusal>
        ensures { let c = self.entry.bytes.now in
            result ≡ unless Err (first_refusal (presence_rules c)) (Ok (rsdp_place c)) }
    {
        let capture = self.bytes;
        let reach = reach_of(capture, rsdp_address(capture));
        if reach.room < RSDP_SIZE {
            return Err(words::refuse(10, RSDP_ADDRESS as u32));
        }
        Ok(reach.place as u16)
    }
}

// Refusals 1 to 7, then 10: the place of the RSDP.
pub fn find_rsdp(capture: &[u8]) -> Result<u16, Refusal>
    ensures { result ≡ rsdp capture.now }
{
    Sound::of(capture)?.locate_rsdp()
}
