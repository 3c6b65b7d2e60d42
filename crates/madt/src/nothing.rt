// Before the first structure of a MADT: nothing is found.
ghost use Rattle.std.specs.Prelude.{◌≡◌, [], ℕ};
ghost use Rattle.madt.specs.Contents.{map_of, places_of, nothing};

use crate::Found;
use kinds::{Bio, Eio, Ht, Lio, Lpc, Msi};
use lines::{Map, Places};

// A map without structures: every place is unused, and holds 0.
fn no_map(sci: u16) -> Map
    ensures { (pins : ℕ → ℕ) → result ≡ map_of sci pins [] }
{
    Map {
        lio: Lio::default(),
        ht: Ht::default(),
        eiocount: 0,
        eios: [Eio::default(); 4],
        biocount: 0,
        bios: [Bio::default(); 4],
        msicount: 0,
        msis: [Msi::default(); 4],
        lpc: Lpc::default(),
        sci,
    }
}

// No places.
fn no_places() -> Places
    ensures { result ≡ places_of 0 [] }
{
    Places {
        lio: 0,
        ht: 0,
        eios: [0; 4],
        bios: [0; 4],
        msis: [0; 4],
        lpc: 0,
    }
}

impl Found {
    pub fn nothing(sci: u16) -> Found
        ensures { result ≡ nothing sci }
    {
        Found {
            map: no_map(sci),
            places: no_places(),
            enabled: 0,
        }
    }
}
