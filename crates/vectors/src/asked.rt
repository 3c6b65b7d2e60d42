// A question: a head of 96 bytes, and then the capture. The head: a label in 64 bytes, the kind of question (32 bits), the
// capture's length (32 bits), two numbers of 64 bits that some kinds ask about, the label's length (32 bits), and the strictness
// (32 bits), which some kinds ask with: 0 for the ordinary reading, 1 for the strict one.
//
// Where a list of numbers is asked about, they stand ahead of the capture, 32 bits each, and count in its length. The head's second number
// says how many they are. Its first one says how long the answers' list is (kind 8); or how many bytes of a first capture, whose map fills the owner
// table, stand ahead of the one whose map is asked (10); or which number is looked up, with the entries of the listed numbers changed in its table, one at
// a time (12). A map is the capture's, or the empty one, which breaks 40, where the capture is refused.
use crate::listed::About;
use crate::told::{CodedRefusal, Count, Reached, RsdpAt, Surveyed, Whole, decoded, say};
use crate::{listed, read_full};
use lines::{Map, codes};
use reading::entries;
use std::error::Error;
use std::fmt::Display;
use std::{fmt, io};
use tables::Strictness;
use words::Refusal;

const HEAD: usize = 96;

const KIND: usize = 64;

const LENGTH: usize = 68;

const FIRST: usize = 72;

const SECOND: usize = 80;

const LABEL_LENGTH: usize = 88;

const STRICTNESS: usize = 92;

// How long the lists are that a reading is lent a part of.
const MOST_NUMBERS: usize = 520;

const MOST_LIST_BYTES: usize = 2080;

// What a lent list holds before the call.
pub(crate) const UNTOUCHED: u32 = 0xA5A5A5A5;

const UNTOUCHED_BYTE: u8 = 0xA5;

// What may be asked.
#[derive(Clone, Copy)]
pub(crate) enum Kind {
    Check,
    Rsdp,
    Reach,
    Survey,
    Read,
    Route,
    Trace,
    ReadBytes,
    Listed(About),
}

// A number that no kind has.
#[derive(Clone, Copy, Debug)]
pub(crate) struct NoSuchQuestion;

impl fmt::Display for NoSuchQuestion {
    fn fmt<W: fmt::Write>(&self, f: &mut fmt::Formatter<W>) -> fmt::Result {
        f.write_str("no such question")
    }
}

impl Error for NoSuchQuestion {}

// boards/cases.py has the same numbers.
impl TryFrom<u32> for Kind {
    type Error = NoSuchQuestion;

    fn try_from(number: u32) -> Result<Kind, NoSuchQuestion> {
        match number {
            0 => Ok(Kind::Check),
            1 => Ok(Kind::Rsdp),
            2 => Ok(Kind::Reach),
            3 => Ok(Kind::Survey),
            4 => Ok(Kind::Read),
            5 => Ok(Kind::Route),
            6 => Ok(Kind::Trace),
            7 => Ok(Kind::ReadBytes),
            8 => Ok(Kind::Listed(About::RouteEach)),
            9 => Ok(Kind::Listed(About::RouteSingly)),
            10 => Ok(Kind::Listed(About::Lookup)),
            11 => Ok(Kind::Listed(About::ByMap)),
            12 => Ok(Kind::Listed(About::Changed)),
            _ => Err(NoSuchQuestion),
        }
    }
}

// A question's head, as it was read.
#[derive(Clone, Copy)]
pub(crate) struct Head([u8; HEAD]);

impl Head {
    // The next head, if there is a whole one.
    pub(crate) fn read(rt: &impl Input) -> io::Result<Option<Head>> {
        let mut head = [0u8; HEAD];
        let whole = read_full(rt, &mut head)?.len() == HEAD;
        Ok(whole.then_some(Head(head)))
    }

    // How many bytes follow.
    pub(crate) fn length(&self) -> usize {
        words::u32_at(&self.0, LENGTH) as usize
    }

    fn label(&self) -> &[u8] {
        words::part(&self.0, 0, words::u32_at(&self.0, LABEL_LENGTH) as usize)
    }

    fn kind(&self) -> Result<Kind, NoSuchQuestion> {
        Kind::try_from(words::u32_at(&self.0, KIND))
    }

    // It is no `From<u32>`: the type is another crate's.
    pub(crate) fn strictness(&self) -> Strictness {
        match words::u32_at(&self.0, STRICTNESS) {
            0 => Strictness::Ordinary,
            _ => Strictness::Strict,
        }
    }

    // The first number, where it is an address.
    fn address(&self) -> u64 {
        words::u64_at(&self.0, FIRST)
    }

    pub(crate) fn first(&self) -> u32 {
        words::u32_at(&self.0, FIRST)
    }

    pub(crate) fn second(&self) -> u32 {
        words::u32_at(&self.0, SECOND)
    }
}

// A question: its head, and what it is asked of.
#[derive(Clone, Copy)]
pub(crate) struct Question<'a> {
    pub(crate) head: &'a Head,
    pub(crate) bytes: &'a [u8],
}

impl Question<'_> {
    // The question's line: its label, whose bytes need not be text, and the answer.
    pub(crate) fn say(&self, rt: &impl Print) -> io::Result<()> {
        rt.write_all(self.head.label())?;
        print!(rt; ": ")?;
        match self.head.kind() {
            Ok(kind) => self.answer(rt, kind)?,
            Err(unknown) => print!(rt; "{unknown}")?,
        }
        println!(rt)
    }

    fn answer(&self, rt: &impl Print, kind: Kind) -> io::Result<()> {
        let head = self.head;
        let bytes = self.bytes;
        let first = head.first();
        let second = head.second();
        match kind {
            Kind::Check => say(rt, capture::check(bytes).map(|()| "sound")),
            Kind::Rsdp => say(rt, capture::find_rsdp(bytes).map(RsdpAt)),
            Kind::Reach => rt.print(Reached(capture::reach_of(bytes, head.address()))),
            Kind::Survey => {
                let survey = tables::survey_capture(head.strictness(), bytes);
                say(rt, survey.map(Surveyed))
            }
            Kind::Read => {
                let read = |lent: &mut [u32]| say(rt, self.read(lent).map(Count));
                self.lend(rt, &mut [UNTOUCHED; MOST_NUMBERS], UNTOUCHED, read)
            }
            Kind::Route => self.arrival(
                rt,
                |bytes| entries::yasmirand_route(bytes, first),
                |map| codes::route_code(map.route(first)),
            ),
            Kind::Trace => self.arrival(
                rt,
                |bytes| entries::yasmirand_trace(bytes, first, second),
                |map| codes::trace_code(map.trace(first, second)),
            ),
            Kind::ReadBytes => {
                let read = |lent: &mut [u8]| say(rt, self.read_bytes(lent).map(Count));
                self.lend(
                    rt,
                    &mut [UNTOUCHED_BYTE; MOST_LIST_BYTES],
                    UNTOUCHED_BYTE,
                    read,
                )
            }
            Kind::Listed(about) => listed::answer(rt, about, *self),
        }
    }

    // The reading that is asked for, by the call for it.
    fn read(&self, list: &mut [u32]) -> Result<usize, Refusal> {
        let reading = match self.head.strictness() {
            Strictness::Ordinary => reading::read(self.bytes, list),
            Strictness::Strict => reading::read_strictly(self.bytes, list),
        };
        reading.answer
    }

    // The reading for C.
    fn read_bytes(&self, list: &mut [u8]) -> Result<u64, CodedRefusal> {
        decoded(entries::yasmirand_read(self.bytes, list))
    }

    // Lends the first elements of a list to a reading, which says its answer, and then says each element that is not as it was.
    fn lend<T: Copy + Display + Drop + PartialEq, R: FnOnce(&mut [T]) -> io::Result<()>>(
        &self,
        rt: &impl Print,
        list: &mut [T],
        untouched: T,
        read: R,
    ) -> io::Result<()>
        requires { R.IsAlwaysCallable read }
    {
        let Some(lent) = list.get_mut(..self.head.first() as usize) else {
            return Ok(());
        };
        read(lent)?;
        for element in list.iter().filter(|element| **element != untouched) {
            print!(rt; " {element}")?;
        }
        Ok(())
    }

    // Where a number arrives, or what arrives there: the strict reading by the C entry, the ordinary one by the map that it finds.
    fn arrival<E: FnOnce(&[u8]) -> u64, M: FnOnce(Map) -> u64>(
        &self,
        rt: &impl Print,
        entry: E,
        by_map: M,
    ) -> io::Result<()>
        requires entry { E.IsAlwaysCallable entry }
        requires by_map { M.IsAlwaysCallable by_map }
    {
        let code = match self.head.strictness() {
            Strictness::Strict => entry(self.bytes),
            Strictness::Ordinary => {
                let found = reading::scan_capture(Strictness::Ordinary, self.bytes);
                match found.verdict {
                    Err(refusal) => codes::refusal_code(refusal),
                    Ok(()) => by_map(found.map),
                }
            }
        };
        say(rt, decoded(code).map(Whole))
    }
}
