// What is printed: answers in their words, or the refusal.
use capture::Reach;
use lines::{Owner, Route, codes};
use std::fmt::Display;
use std::{fmt, io};
use tables::Tables;

// What stands above the place of a refusal in a C result, above both values of an answer, and above its second value.
const REFUSALS: u64 = 1 << 48;

const KINDS: u64 = 1 << 40;

const HIGH: u64 = 1 << 32;

// An answer, or why there is none.
pub(crate) fn say<T: Display + Drop, E: Display + Drop>(
    rt: &impl Print,
    answer: Result<T, E>,
) -> io::Result<()> {
    match answer {
        Ok(told) => rt.print(told),
        Err(refusal) => rt.print(refusal),
    }
}

// A refusal as C is told it. A part of 64 bits may be any number, so it is no `Refusal`.
#[derive(Clone, Copy)]
pub(crate) struct CodedRefusal {
    number: u64,
    place: u64,
}

impl fmt::Display for CodedRefusal {
    fn fmt<W: fmt::Write>(&self, f: &mut fmt::Formatter<W>) -> fmt::Result {
        write!(f, "refused {} at {}", self.number, self.place)
    }
}

// What a C result says.
pub(crate) fn decoded(code: u64) -> Result<u64, CodedRefusal> {
    if code < REFUSALS {
        return Ok(code);
    }
    Err(CodedRefusal {
        number: code / REFUSALS,
        place: code % REFUSALS,
    })
}

// A C result that is no refusal: kind, high value and low value.
#[derive(Clone, Copy)]
pub(crate) struct Parts(pub(crate) u64);

impl fmt::Display for Parts {
    fn fmt<W: fmt::Write>(&self, f: &mut fmt::Formatter<W>) -> fmt::Result {
        let Parts(code) = *self;
        write!(
            f,
            "{} {} {}",
            code / KINDS,
            code % KINDS / HIGH,
            code % HIGH
        )
    }
}

// The same where it is all that is told.
#[derive(Clone, Copy)]
pub(crate) struct Whole(pub(crate) u64);

impl fmt::Display for Whole {
    fn fmt<W: fmt::Write>(&self, f: &mut fmt::Formatter<W>) -> fmt::Result {
        write!(f, "kind {}", Parts(self.0))
    }
}

// How many processors were read.
#[derive(Clone, Copy)]
pub(crate) struct Count<T>(pub(crate) T);

impl<T: Display> fmt::Display for Count<T> {
    fn fmt<W: fmt::Write>(&self, f: &mut fmt::Formatter<W>) -> fmt::Result {
        write!(f, "read {}", self.0)
    }
}

// Where the RSDP is.
#[derive(Clone, Copy)]
pub(crate) struct RsdpAt(pub(crate) u16);

impl fmt::Display for RsdpAt {
    fn fmt<W: fmt::Write>(&self, f: &mut fmt::Formatter<W>) -> fmt::Result {
        write!(f, "RSDP at {}", self.0)
    }
}

// Where an address is in a capture.
#[derive(Clone, Copy)]
pub(crate) struct Reached(pub(crate) Reach);

impl fmt::Display for Reached {
    fn fmt<W: fmt::Write>(&self, f: &mut fmt::Formatter<W>) -> fmt::Result {
        let Reached(reach) = *self;
        if reach.room == 0 {
            return f.write_str("nowhere");
        }
        write!(f, "at {}, room {}", reach.place, reach.room)
    }
}

// What a survey found.
#[derive(Clone, Copy)]
pub(crate) struct Surveyed(pub(crate) Tables);

impl fmt::Display for Surveyed {
    fn fmt<W: fmt::Write>(&self, f: &mut fmt::Formatter<W>) -> fmt::Result {
        let Tables { madt, fadt, sci } = self.0;
        write!(f, "MADT at {} of {}, ", madt.place, madt.length)?;
        write!(f, "FADT at {} of {}, SCI {sci}", fadt.place, fadt.length)
    }
}

// Whose a number is, and where it arrives.
#[derive(Clone, Copy)]
pub(crate) struct Whose(pub(crate) (Owner, Route));

impl fmt::Display for Whose {
    fn fmt<W: fmt::Write>(&self, f: &mut fmt::Formatter<W>) -> fmt::Result {
        let (owner, route) = self.0;
        match owner {
            Owner::LpcInput => f.write_str("lpc")?,
            Owner::LioInput(i) => write!(f, "lio {i}")?,
            Owner::BioInput(node, v) => write!(f, "bio {node} {v}")?,
            Owner::Nobody => f.write_str("nobody")?,
        }
        write!(f, " {}", Parts(codes::route_code(Ok(route))))
    }
}
