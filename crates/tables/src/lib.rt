// From the RSDP to the MADT, the FADT and the SCI number: refusals 10 to 30. The checker of a table, the finder by signature
// and the stepper over structures are written for any table. Every public function answers for any bytes.
#![tactic(auto)]

ghost use Rattle.std.specs.Prelude.{◌≡◌, ◌++◌, Err, Ok};
ghost use Rattle.words.specs.Refusals.{unless, first_refusal};
ghost use Rattle.tables.specs.Rsdp.{rsdp_rules, xsdt_field};
ghost use Rattle.tables.specs.Table.{table_rules, table_named};
ghost use Rattle.tables.specs.Xsdt.{xsdt_rules, entry_rules};
ghost use Rattle.tables.specs.Survey.{apic, facp, earlier, second_rule, name_rules, wrong_madt_revision, wrong_flags, body_rules, sci_number, with_sci, madt_of, fadt_of, tables_from, survey};
ghost use Rattle.tables.specs.Naming.{named};
ghost use Rattle.tables.specs.Structures.{step_at};

use capture::Sound;
use words::Refusal;

mod headers; // any table: 20 to 22
mod rsdp; // 11 to 14
mod xsdt; // 23 to 25, and what the entries name

// A table inside a sound capture, which has at most 65,536 bytes: 16 bits hold its place and its length.
#[derive(Clone, Copy)]
pub struct Table {
    pub place: u16,
    pub length: u16,
}

// What the XSDT's entries say of a signature: the table of the first entry that names one with it, and the second such entry, by its
// number.
#[derive(Clone, Copy)]
pub struct Named {
    pub first: Option<Table>,
    pub second: Option<u16>,
}

// What the layers above read from.
#[derive(Clone, Copy)]
pub struct Tables {
    pub madt: Table,
    pub fadt: Table,
    pub sci: u16,
}

// Which revisions of the MADT a reading takes (29): the ordinary one any of 1 or more, the strict one 1 alone.
#[derive(Clone, Copy)]
pub enum Strictness {
    Ordinary,
    Strict,
}

// What stands at an offset of a table of structures. An enum of its own: that it is broken is no refusal yet, since it has no place here.
#[derive(Clone, Copy)]
pub enum Step {
    End,
    Structure(u8),
    Broken,
}

// Where MADT and FADT have what is read here, and how long they are at least.
const MADT_FLAGS: usize = 40;

const MADT_LEAST: u16 = 44;

const FADT_SCI: usize = 46;

const FADT_LEAST: u16 = 48;

// The earlier of two entries.
fn earlier_of(entry: Option<u16>, other: Option<u16>) -> Option<u16>
    ensures { result ≡ earlier entry other }
{
    match (entry, other) {
        (Some(e), Some(o)) => Some(if e <= o { e } else { o }),
        _ => entry.or(other),
    }
}

// Refusal 27.
#[tactic(auto, unfolding(crate::specs::Survey::second_rule))]
fn second_rule(xsdt: Table, second: Option<u16>) -> Result<(), Refusal>
    ensures { result ≡ second_rule xsdt second }
{
    match second {
        None => Ok(()),
        Some(entry) => Err(words::refuse(27, xsdt::entry_field(xsdt, entry))),
    }
}

// Refusal 29.
fn wrong_madt_revision(strictness: Strictness, revision: u8) -> bool
    ensures { result ≡ wrong_madt_revision strictness revision }
{
    match strictness {
        Strictness::Ordinary => revision == 0,
        Strictness::Strict => !(revision == 1),
    }
}

// Refusal 30.
fn wrong_flags(capture: &[u8], madt: Table) -> bool
    ensures { result ≡ wrong_flags capture.now madt }
{
    !(words::u32_at(capture, madt.place as usize + MADT_FLAGS) == 0)
}

// Refusals 28 to 30.
#[tactic(auto, unfolding(crate::specs::Survey::body_rules, crate::specs::Survey::length_rules, crate::specs::Survey::madt_field_rules, words::specs::Refusals::unless, words::specs::Refusals::first_refusal))]
fn body_rules(
    strictness: Strictness,
    capture: &[u8],
    madt: Table,
    fadt: Table,
) -> Result<(), Refusal>
    ensures { result ≡ first_refusal (body_rules strictness capture.now madt fadt) }
{
    words::rule(madt.length < MADT_LEAST, 28, madt.place as u32)?;
    words::rule(fadt.length < FADT_LEAST, 28, fadt.place as u32)?;
    let revision = headers::revision_of(capture, madt.place);
    words::rule(
        wrong_madt_revision(strictness, revision),
        29,
        madt.place as u32,
    )?;
    words::rule(wrong_flags(capture, madt), 30, madt.place as u32)
}

fn sci_number(capture: &[u8], fadt: Table) -> u16
    ensures { result ≡ sci_number capture.now fadt }
{
    words::u16_at(capture, fadt.place as usize + FADT_SCI)
}

// Refusals 28 to 30, and what is found.
#[tactic(auto, unfolding(crate::specs::Survey::with_sci, words::specs::Refusals::unless))]
fn survey_tables(
    strictness: Strictness,
    capture: &[u8],
    madt: Table,
    fadt: Table,
) -> Result<Tables, Refusal>
    ensures { let c = capture.now in
        result ≡ unless Err (first_refusal (body_rules strictness c madt fadt)) (Ok (with_sci c madt fadt)) }
{
    body_rules(strictness, capture, madt, fadt)?;
    Ok(Tables {
        madt,
        fadt,
        sci: sci_number(capture, fadt),
    })
}

// Refusals 26 and 27, and what comes after.
fn survey_names(
    strictness: Strictness,
    capture: &[u8],
    xsdt: Table,
    madt: Named,
    fadt: Named,
) -> Result<Tables, Refusal>
    requires madt_value { madt ≡ named capture.now xsdt apic }
    requires fadt_value { fadt ≡ named capture.now xsdt facp }
    ensures { let c = capture.now in
        let rules = name_rules c xsdt ++ body_rules strictness c (madt_of c xsdt) (fadt_of c xsdt) in
        result ≡ unless Err (first_refusal rules) (Ok (tables_from c xsdt)) }
{
    let (Some(first_madt), Some(first_fadt)) = (madt.first, fadt.first) else {
        return Err(words::refuse(26, xsdt.place as u32));
    };
    second_rule(xsdt, earlier_of(madt.second, fadt.second))?;
    survey_tables(strictness, capture, first_madt, first_fadt)
}

// Refusals 23 to 25, those of the entries, and what comes after.
fn survey_xsdt(strictness: Strictness, capture: Sound<'_>, xsdt: Table) -> Result<Tables, Refusal>
    ensures { let c = capture.entry.bytes.now in
        let rules = xsdt_rules c xsdt ++ (entry_rules c xsdt ++ (name_rules c xsdt ++ body_rules strictness c (madt_of c xsdt) (fadt_of c xsdt))) in
        result ≡ unless Err (first_refusal rules) (Ok (tables_from c xsdt)) }
{
    xsdt::xsdt_rules(capture.bytes, xsdt)?;
    let (madt, fadt) = xsdt::find_names(capture, xsdt)?;
    survey_names(strictness, capture.bytes, xsdt, madt, fadt)
}

// Refusals 11 to 14, the XSDT's 20 to 22, and what comes after.
fn survey_rsdp(strictness: Strictness, capture: Sound<'_>, place: u16) -> Result<Tables, Refusal>
    ensures { let c = capture.entry.bytes.now in
        let xsdt = table_named c (xsdt_field place) in
        let rules =
        rsdp_rules c place
        ++ (table_rules c (xsdt_field place)
        ++ (xsdt_rules c xsdt
        ++ (entry_rules c xsdt ++ (name_rules c xsdt ++ body_rules strictness c (madt_of c xsdt) (fadt_of c xsdt))))) in
        result ≡ unless Err (first_refusal rules) (Ok (tables_from c xsdt)) }
{
    rsdp::rsdp_rules(capture.bytes, place)?;
    let xsdt = headers::check_table(capture, place as u32 + rsdp::XSDT_FIELD)?;
    survey_xsdt(strictness, capture, xsdt)
}

// Refusals 1 to 30: MADT, FADT and SCI number of a capture, or the first rule that it breaks.
pub fn survey_capture(strictness: Strictness, capture: &[u8]) -> Result<Tables, Refusal>
    ensures { result ≡ survey strictness capture.now }
{
    let sound = Sound::of(capture)?;
    let place = sound.locate_rsdp()?;
    survey_rsdp(strictness, sound, place)
}

// What stands at an offset of a table of structures that say their own length: the stepper for the MADT and its like.
pub fn step_from(table: &[u8], at: usize) -> Step
    ensures { result ≡ step_at table.now at }
{
    if table.len() <= at {
        return Step::End;
    }
    if table.len() - at < 2 {
        return Step::Broken;
    }
    let length = words::byte_at(table, at + 1);
    if length < 2 {
        return Step::Broken;
    }
    if table.len() - at < length as usize {
        return Step::Broken;
    }
    Step::Structure(length)
}
