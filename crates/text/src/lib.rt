// The map on paper: the printed text of a capture's map, or of its refusal, in a lent room of bytes (document 01, "Board A and
// its neighbours"). It is the strict reading's: W-207 of document 02 keeps the old rule for the map program.
#![tactic(auto)]

ghost use Rattle.std.specs.Prelude.{◌≡◌, ◌≤◌, length};
ghost use Rattle.words.specs.Rooms.{filled};
ghost use Rattle.reading.specs.Reading.{reading_of, list_after};
ghost use Rattle.text.specs.Text.{map_text, text_of, outcome};
ghost use Rattle.text.specs.Rooms.{lent, Fits, Wrote};

use capture::version_of;
use lines::Map;
use lines::routes::used;
use put::{Told, Writer};
use reading::Reading;
use tables::Strictness;
use words::NoRoom;

mod put; // bytes, numbers and lines
mod tell; // a line or some lines for each kind of structure

// No text is longer than this.
pub const ROOM: usize = 16384;

// The numbers of a processor list: UID and physical ID of 256 processors, the most that there can be. A fixed room: there is no heap.
const MOST_NUMBERS: usize = 512;

// The text of an accepted capture: its version, its processor list and its map. The map is no reference, as only a value's type
// says how long its arrays are.
fn put_map(to: &mut Writer<'_>, version: u16, list: &[u32], map: Map)
    requires { length list.now ≤ 512 }
    ensures wrote { Wrote (map_text version list.now map) to.old to.new }
    ensures fits { Fits 0 (map_text version list.now map) }
{
    to.version(version);
    to.cores(list);
    kinds::said_lio(map.lio).tell(to);
    kinds::said_ht(map.ht).tell(to);
    to.each(&map.eios[..used(map.eiocount)]);
    to.each(&map.bios[..used(map.biocount)]);
    to.each(&map.msis[..used(map.msicount)]);
    kinds::said_lpc(map.lpc).tell(to);
    to.sci(map.sci, map.route(map.sci as u32));
}

// The text of a capture, by its reading.
fn put_text(to: &mut Writer<'_>, capture: &[u8], reading: &Reading, list: &[u32])
    requires reading_value { reading.now ≡ reading_of Strictness.Strict capture.now lent }
    requires list_value { list.now ≡ list_after Strictness.Strict capture.now lent }
    ensures wrote { Wrote (text_of capture.now) to.old to.new }
    ensures fits { Fits 0 (text_of capture.now) }
{
    match reading.answer {
        Err(refusal) => refusal.tell(to),
        Ok(count) => put_map(to, version_of(capture), &list[..2 * count], reading.map),
    }
}

// Writes the text of a capture to the room's front, and answers its length; what lies past it stays. A room that is too short for the text stays as it
// is; one of ROOM bytes never is. The text is measured first, in a room of no byte.
pub fn write_text(capture: &[u8], room: &mut [u8]) -> Result<usize, NoRoom>
    ensures value { result ≡ outcome (text_of capture.now) room.old }
    ensures room_after { room.new ≡ filled (text_of capture.now) room.old }
    ensures capture_len_bound { length (text_of capture.now) ≤ 16384 }
{
    let mut list = [0u32; MOST_NUMBERS];
    let reading = reading::read_strictly(capture, &mut list);
    let mut measure = Writer {
        room: &mut [],
        end: 0,
    };
    put_text(&mut measure, capture, &reading, &list);
    if room.len() < measure.end {
        return Err(NoRoom);
    }
    let mut writer = Writer { room, end: 0 };
    put_text(&mut writer, capture, &reading, &list);
    Ok(measure.end)
}
