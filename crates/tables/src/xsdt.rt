// The XSDT: refusals 23 to 25, its entries, and the tables that they name.
ghost use Rattle.std.specs.Prelude.{◌≡◌, ◌-◌, Err, Ok};
ghost use Rattle.words.specs.Refusals.{unless, first_refusal};
ghost use Rattle.tables.specs.Xsdt.{not_xsdt, wrong_xsdt_revision, wrong_body, entry_count, xsdt_rules, entry_field, entry_rules};
ghost use Rattle.tables.specs.Survey.{apic, facp};
ghost use Rattle.tables.specs.Naming.{named, not_named, one_more};

use crate::{Named, Table, headers};
use capture::Sound;
use words::Refusal;

// An entry is an address of 64 bits; 32 entries are the most.
const ADDRESS_SIZE: u32 = 8;

const MOST_ENTRIES: u16 = 32;

// The signatures, as little-endian numbers.
const XSDT: u32 = 0x54445358;

const APIC: u32 = 0x43495041;

const FACP: u32 = 0x50434146;

// Refusal 23.
fn not_xsdt(capture: &[u8], xsdt: Table) -> bool
    ensures { result ≡ not_xsdt capture.now xsdt }
{
    !(headers::signature_of(capture, xsdt.place) == XSDT)
}

// Refusal 24.
fn wrong_xsdt_revision(capture: &[u8], xsdt: Table) -> bool
    ensures { result ≡ wrong_xsdt_revision capture.now xsdt }
{
    !(headers::revision_of(capture, xsdt.place) == 1)
}

// The bytes behind a table's header.
fn body_size(table: Table) -> u16
    ensures { result ≡ table.length - 36 }
{
    table.length.saturating_sub(headers::HEADER_SIZE as u16)
}

fn entry_count(xsdt: Table) -> u16
    ensures { result ≡ entry_count xsdt }
{
    body_size(xsdt) / ADDRESS_SIZE as u16
}

// Refusal 25.
fn wrong_body(xsdt: Table) -> bool
    ensures { result ≡ wrong_body xsdt }
{
    !(body_size(xsdt) % ADDRESS_SIZE as u16 == 0) | (MOST_ENTRIES < entry_count(xsdt))
}

// Refusals 23 to 25.
#[tactic(auto, unfolding(crate::specs::Xsdt::xsdt_rules, words::specs::Refusals::unless, words::specs::Refusals::first_refusal))]
pub(crate) fn xsdt_rules(capture: &[u8], xsdt: Table) -> Result<(), Refusal>
    ensures { result ≡ first_refusal (xsdt_rules capture.now xsdt) }
{
    words::rule(not_xsdt(capture, xsdt), 23, xsdt.place as u32)?;
    words::rule(wrong_xsdt_revision(capture, xsdt), 24, xsdt.place as u32)?;
    words::rule(wrong_body(xsdt), 25, xsdt.place as u32)
}

// The place of an entry's address field.
pub(crate) fn entry_field(xsdt: Table, entry: u16) -> u32
    ensures { result ≡ entry_field xsdt entry }
{
    (xsdt.place as u32) + headers::HEADER_SIZE + ADDRESS_SIZE * (entry as u32)
}

// What is known of a signature before any entry was looked at.
#[tactic(auto, unfolding(crate::specs::Naming::not_named))]
fn not_named() -> Named
    ensures { result ≡ not_named }
{
    Named {
        first: None,
        second: None,
    }
}

// And after one entry more, whose table has the signature or not.
fn noted(known: Named, signed: bool, table: Table, entry: u16) -> Named
    ensures { result ≡ one_more known signed table entry }
{
    match (signed, known.first, known.second) {
        (true, None, _) => Named {
            first: Some(table),
            second: None,
        },
        (true, Some(_), None) => Named {
            first: known.first,
            second: Some(entry),
        },
        _ => known,
    }
}

// The finder, and refusals 20 to 22 of the entries in turn: each entry's table is located and summed once.
pub(crate) fn find_names(capture: Sound<'_>, xsdt: Table) -> Result<(Named, Named), Refusal>
    ensures { let c = capture.entry.bytes.now in
        result ≡ unless Err (first_refusal (entry_rules c xsdt)) (Ok (named c xsdt apic, named c xsdt facp)) }
{
    let mut madt = not_named();
    let mut fadt = not_named();
    for entry in 0..entry_count(xsdt) {
        let table = headers::check_table(capture, entry_field(xsdt, entry))?;
        let letters = headers::signature_of(capture.bytes, table.place);
        madt = noted(madt, letters == APIC, table, entry);
        fadt = noted(fadt, letters == FACP, table, entry);
    }
    Ok((madt, fadt))
}
