//! Counts how many records covering a range would add, as the first round of `memblock_add_range`
//! does.
ghost use Rattle.std.specs.Prelude.{◌≡◌, ◌&&◌, ◌||◌, not, if◌then◌else◌};
ghost use Rattle.address_runs.specs.Runs.{value_at};
ghost use Rattle.memblock_model.specs.Tables.{uncovered_run_count};
ghost use Rattle.memblock_ranges.specs.Tables.{AreRecords};

use crate::record::Record;
use bm_base::Range;
use run_edits::{Rows, first_ending_above, skip_ended, value_and_end};

/// Counts the pieces of the range that the table doesn't cover. Each piece is as long as possible.
pub fn count_pieces<T: Rows<Record>>(table: &T, range: &Range) -> u64
    requires { AreRecords (T.list table.now) }
    ensures { result ≡ uncovered_run_count range.now (value_at (T.list table.now)) }
{
    let until = range.end();
    let mut from = range.base;
    let mut read = first_ending_above(table, from);
    let (first, mut next) = value_and_end(table, read, from);
    let mut bare = first.is_none();
    let mut count = 0;
    while from < until {
        let to = next.min(until);
        read = skip_ended(table, read, to);
        let (there, after) = value_and_end(table, read, to);
        count += ends_piece(bare, there.is_none(), to < until);
        from = to;
        bare = there.is_none();
        next = after;
    }
    count
}

/// Returns 1 if an uncovered piece of the range ends between two neighbouring bytes, else 0. `here`
/// says that the first byte isn't covered, `there` that the second isn't, and `inside` that the
/// second is in the range.
fn ends_piece(here: bool, there: bool, inside: bool) -> u64
    ensures { result ≡ (if here && not (inside && there) then 1 else 0) }
{
    if here && !(inside && there) { 1 } else { 0 }
}
