// From structure to structure of a table: what every loop over a table's structures goes by.
ghost use Rattle.std.specs.Prelude.{◌≡◌, ◌-◌, ◌≤◌, length, IfSome};
ghost use Rattle.tables.specs.Structures.{step_at};
ghost use Rattle.madt.specs.Sizes.{size_of};

use tables::Step;

// Where a structure says its type.
pub const TYPE: usize = 0;

// Where the structures of the MADT begin.
pub const FIRST: usize = 44;

// The length of the structure at an offset; none where it breaks 31, and at the table's end.
#[tactic(auto, unfolding(crate::specs::Sizes::size_of))]
pub fn size_at(table: &[u8], at: usize) -> Option<usize>
    ensures value { result ≡ size_of (step_at table.now at) }
    ensures upper_bound { IfSome result (λ size. size ≤ length table.now - at) }
{
    match tables::step_from(table, at) {
        Step::Structure(size) => Some(size as usize),
        Step::Broken => None,
        Step::End => None,
    }
}
