// The questions about a list of numbers, which stand ahead of the capture.
use crate::asked::{Head, Question, UNTOUCHED};
use crate::lookups;
use crate::told::{Parts, say};
use lines::{Map, codes};
use std::{array, io};

// How many numbers may be asked about in a list, how long the list for their answers may be, and how many bytes a number takes.
const MOST_ASKED: usize = 400;

const MOST_ANSWERS: usize = 1203;

const NUMBER: usize = 4;

// What may be asked about a list.
#[derive(Clone, Copy)]
pub(crate) enum About {
    RouteEach,
    RouteSingly,
    Lookup,
    ByMap,
    Changed,
}

// A question about some numbers.
#[derive(Clone, Copy)]
pub(crate) struct Listed<'a> {
    head: &'a Head,
    pub(crate) numbers: &'a [u32],
    pub(crate) behind: &'a [u8],
}

impl Listed<'_> {
    pub(crate) fn first(&self) -> u32 {
        self.head.first()
    }

    pub(crate) fn map_of(&self, capture: &[u8]) -> Map {
        reading::scan_capture(self.head.strictness(), capture).map
    }

    // The map of the capture that stands behind the numbers.
    pub(crate) fn map(&self) -> Map {
        self.map_of(self.behind)
    }

    // The numbers asked about at once: every number of the answers' list, or a dash where it is as it was.
    fn route_each(&self, rt: &impl Print) -> io::Result<()> {
        let mut room = [UNTOUCHED; MOST_ANSWERS];
        let Some(answers) = room.get_mut(..self.first() as usize) else {
            return Ok(());
        };
        let answered = self.map().route_each(self.numbers, answers);
        say(rt, answered.map(|()| "answered"))?;
        for answer in answers.iter() {
            match *answer {
                UNTOUCHED => rt.write_all(b" -")?, // a list may be all dashes, and a text is written faster than it is formatted
                number => print!(rt; " {number}")?,
            }
        }
        Ok(())
    }

    // The same numbers asked about one by one, of a map that keeps the rules.
    fn route_singly(&self, rt: &impl Print) -> io::Result<()> {
        let map = self.map();
        print!(rt; "answered")?;
        for number in self.numbers {
            print!(rt; " {}", Parts(codes::route_code(map.route(*number))))?;
        }
        Ok(())
    }
}

// Nothing is said where the numbers are too many.
pub(crate) fn answer(rt: &impl Print, about: About, question: Question<'_>) -> io::Result<()> {
    let Question { head, bytes } = question;
    let numbers: [u32; MOST_ASKED] = array::from_fn(|i| words::u32_at(bytes, NUMBER * i));
    let Some(numbers) = numbers.get(..head.second() as usize) else {
        return Ok(());
    };
    let behind = words::part(bytes, NUMBER * numbers.len(), bytes.len());
    let listed = Listed {
        head,
        numbers,
        behind,
    };
    match about {
        About::RouteEach => listed.route_each(rt),
        About::RouteSingly => listed.route_singly(rt),
        About::Lookup => lookups::look_up_each(rt, listed),
        About::ByMap => lookups::ask_map(rt, listed),
        About::Changed => lookups::change(rt, listed),
    }
}
