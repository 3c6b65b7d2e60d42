// Any table, by its header: the fields that all tables have, and refusals 20 to 22. Nothing here knows what a table is for.
ghost use Rattle.std.specs.Prelude.{◌≡◌, Ok};
ghost use Rattle.words.specs.Bytes.{part_at, byte_sum};
ghost use Rattle.tables.specs.Table.{address_at, signature, table_length, revision, table_at};
ghost use Rattle.tables.specs.Whole.{table_within};

use crate::Table;
use capture::Sound;
use words::Refusal;

// A header's size, and where its length and its revision stand.
pub(crate) const HEADER_SIZE: u32 = 36;

const LENGTH: usize = 4;

const REVISION: usize = 8;

// The sum of a stretch of the capture.
pub(crate) fn sum_at(capture: &[u8], place: u16, size: usize) -> u8
    ensures { result ≡ byte_sum (part_at capture.now place size) }
{
    words::sum(words::part(capture, place as usize, size))
}

fn address_at(capture: &[u8], field: u32) -> u64
    ensures { result ≡ address_at capture.now field }
{
    words::u64_at(capture, field as usize)
}

fn length_of(capture: &[u8], place: u16) -> u32
    ensures { result ≡ table_length capture.now place }
{
    words::u32_at(capture, place as usize + LENGTH)
}

pub(crate) fn signature_of(capture: &[u8], place: u16) -> u32
    ensures { result ≡ signature capture.now place }
{
    words::u32_at(capture, place as usize)
}

pub(crate) fn revision_of(capture: &[u8], place: u16) -> u8
    ensures { result ≡ revision capture.now place }
{
    words::byte_at(capture, place as usize + REVISION)
}

// Refusals 21 and 22, of the table whose header stands at a place with so much room.
#[tactic(auto, unfolding(crate::specs::Whole::table_within, crate::specs::Whole::rules_within, crate::specs::Table::wrong_sum, words::specs::Refusals::unless, words::specs::Refusals::first_refusal))]
fn check_whole(capture: &[u8], place: u16, room: u16) -> Result<Table, Refusal>
    ensures { result ≡ table_within capture.now place room }
{
    let length = length_of(capture, place);
    words::rule(
        (length < HEADER_SIZE) | ((room as u32) < length),
        21,
        place as u32,
    )?;
    let sum = sum_at(capture, place, length as usize);
    words::rule(sum != 0, 22, place as u32)?;
    Ok(Table {
        place,
        length: length as u16,
    })
}

// Refusals 20 to 22, of the table that the address field at a place names. A sound capture is small: 16 bits hold the place and
// the room.
pub(crate) fn check_table(capture: Sound<'_>, field: u32) -> Result<Table, Refusal>
    ensures { result ≡ table_at capture.entry.bytes.now field }
{
    let reach = capture::reach_of(capture.bytes, address_at(capture.bytes, field));
    if reach.room < HEADER_SIZE as u64 {
        return Err(words::refuse(20, field));
    }
    check_whole(capture.bytes, reach.place as u16, reach.room as u16)
}
