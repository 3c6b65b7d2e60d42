// A line or some lines for each kind of structure, in document 01's words.
ghost use Rattle.std.specs.Prelude.{◌≡◌};
ghost use Rattle.text.specs.Lines.{version_line, core_lines, half_line, lio_lines, ht_line, eio_line, last_of, bio_line, msi_line, lpc_line, sci_line, refusal_line};
ghost use Rattle.text.specs.Rooms.{Wrote};

use crate::put::{Told, Writer};
use kinds::{Bio, Eio, Half, Ht, Lio, Lpc, Msi};
use lines::Route;
use words::Refusal;

// A half of the LIO, if it is used.
impl Told for Half {
    ghost text = { half_line };

    fn tell(&self, to: &mut Writer<'_>) {
        if self.mask != 0 {
            to.line(b"lio", &[self.cascade as u64, self.mask as u64]);
        }
    }
}

// The LIO, its low half first.
impl Told for Lio {
    ghost text = { lio_lines };

    fn tell(&self, to: &mut Writer<'_>) {
        self.low.tell(to);
        self.high.tell(to);
    }
}

// The HT, if there is one: its eight bytes.
impl Told for Ht {
    ghost text = { ht_line };

    fn tell(&self, to: &mut Writer<'_>) {
        if self.present {
            to.line(b"ht", &self.bytes.map(|byte| byte as u64));
        }
    }
}

// An EIO.
impl Told for Eio {
    ghost text = { eio_line };

    fn tell(&self, to: &mut Writer<'_>) {
        to.line(b"eio", &[self.node as u64, self.cascade as u64, self.nodes]);
    }
}

// The last of `count` numbers in a row; of none, the one ahead of the first, or 0.
fn last_of(first: u32, count: u32) -> u64
    ensures { result ≡ last_of first count }
{
    (first as u64 + count as u64).saturating_sub(1)
}

// A bridge.
impl Told for Bio {
    ghost text = { bio_line };

    fn tell(&self, to: &mut Writer<'_>) {
        let last = last_of(self.base as u32, self.pins as u32);
        to.line(b"bio", &[self.node as u64, self.base as u64, last]);
    }
}

// Message slots.
impl Told for Msi {
    ghost text = { msi_line };

    fn tell(&self, to: &mut Writer<'_>) {
        let last = last_of(self.start, self.count);
        to.line(b"msi", &[self.start as u64, last]);
    }
}

// The LPC, if there is one: the node of its bridge, and the input of the bridge that its lines share.
impl Told for Lpc {
    ghost text = { lpc_line };

    fn tell(&self, to: &mut Writer<'_>) {
        if self.present {
            to.line(b"lpc", &[self.node as u64, self.cascade as u64]);
        }
    }
}

// A refusal by its number and its places: a second place of 0 is not printed.
impl Told for Refusal {
    ghost text = { refusal_line };

    fn tell(&self, to: &mut Writer<'_>) {
        to.phrase(b"refused", &[self.number as u64]);
        if self.second == 0 {
            to.line(b" at", &[self.place as u64]);
        } else {
            to.phrase(b" at", &[self.place as u64]);
            to.line(b" with", &[self.second as u64]);
        }
    }
}

impl Writer<'_> {
    // The capture's version.
    pub(crate) fn version(&mut self, version: u16)
        ensures { Wrote (version_line version) self.old self.new }
    {
        self.line(b"map", &[version as u64]);
    }

    // The processors of a list: UID and physical ID of each.
    pub(crate) fn cores(&mut self, list: &[u32])
        ensures { Wrote (core_lines list.now) self.old self.new }
    {
        for core in list.chunks_exact(2) {
            self.line(b"core", &[core[0] as u64, core[1] as u64]);
        }
    }

    // The SCI, where it arrives: its global number, the core vector and the number that it has there. In two steps: of what one pattern
    // for both leaves, a proof would know nothing of the route.
    pub(crate) fn sci(&mut self, sci: u16, route: Result<Route, Refusal>)
        ensures { Wrote (sci_line sci route) self.old self.new }
    {
        let Ok(route) = route else {
            return;
        };
        if let Route::Arrives(vector, number) = route {
            self.line(b"sci", &[sci as u64, vector as u64, number as u64]);
        }
    }
}
