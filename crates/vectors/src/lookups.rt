// The questions about the owner table: numbers looked up with a table and a map, asked of the map alone, and looked up with a table in which
// one entry was changed.
use crate::listed::Listed;
use crate::told::{Whose, say};
use lines::{Map, Owner, Route};
use owners::{Filling, OwnerTable};
use std::io;
use words::Refusal;

// What is told of each number.
fn say_each<W: Fn(u32) -> Result<(Owner, Route), Refusal>>(
    rt: &impl Print,
    numbers: &[u32],
    whose: W,
) -> io::Result<()>
    requires { W.IsAlwaysCallable whose }
{
    for number in numbers {
        print!(rt; " ")?;
        say(rt, whose(*number).map(Whose))?;
    }
    Ok(())
}

// The numbers looked up with the map of a capture, and with the table that the map of the capture ahead of it fills in.
pub(crate) fn look_up_each(rt: &impl Print, listed: Listed<'_>) -> io::Result<()> {
    let both = listed.behind;
    let first = listed.first() as usize;
    let Filling { verdict, table } = owners::fill(listed.map_of(words::part(both, 0, first)));
    let map = listed.map_of(words::part(both, first, both.len()));
    say(rt, verdict.map(|()| "filled"))?;
    say_each(
        rt,
        listed.numbers,
        |number| owners::look_up(map, table, number),
    )
}

// Whose a number is by the map, and where it arrives.
fn by_map(map: Map, number: u32) -> Result<(Owner, Route), Refusal> {
    let route = map.route(number)?;
    Ok((map.owner(number), route))
}

// The numbers asked of the map alone.
pub(crate) fn ask_map(rt: &impl Print, listed: Listed<'_>) -> io::Result<()> {
    let map = listed.map();
    print!(rt; "asked")?;
    say_each(rt, listed.numbers, |number| by_map(map, number))
}

// Another owner: the input beside it, or nobody, or the LPC in nobody's place.
fn another(owner: Owner) -> Owner {
    match owner {
        Owner::LpcInput => Owner::Nobody,
        Owner::LioInput(i) => Owner::LioInput(i ^ 1),
        Owner::BioInput(node, v) => Owner::BioInput(node, v ^ 1),
        Owner::Nobody => Owner::LpcInput,
    }
}

// The table with another owner for one of its numbers.
fn changed(mut table: OwnerTable, number: u32) -> OwnerTable {
    if let Some(owner) = table.entries.get_mut(number as usize) {
        *owner = another(*owner);
    }
    table
}

// A number looked up with each of some entries of the map's own table changed, one at a time.
pub(crate) fn change(rt: &impl Print, listed: Listed<'_>) -> io::Result<()> {
    let map = listed.map();
    let Filling { verdict, table } = owners::fill(map);
    say(rt, verdict.map(|()| "filled"))?;
    say_each(rt, listed.numbers, |number| {
        owners::look_up(map, changed(table, number), listed.first())
    })
}
