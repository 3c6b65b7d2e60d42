// The MADT's structures in turn, from offset 44 to its end: refusals 31 to 38 and 71 to 78, and the map, the places of its structures and
// the number of processors that they make (document 01, "MADT structures"). All of it is defined on the MADT's own bytes.
#![tactic(auto)]

use lines::{Map, Places};

pub mod steps; // from structure to structure
pub mod walk; // the structures in turn
mod rules; // 32 to 38 and 71 to 78 of one structure
mod nothing; // before the first structure

// Where the enabled CORE stand in the MADT: room for as many as 38 lets pass. A fixed room, as all of this project: there is no heap.
pub const ROOM: usize = 256;

pub type Offsets = [u16; ROOM];

// What was found: the map and the places of its structures, and how many processors are enabled.
#[derive(Clone, Copy)]
pub struct Found {
    pub map: Map,
    pub places: Places,
    pub enabled: u16,
}
