//! Tests whether a table has room for an edit. An edit that removes or changes labels may split a
//! record at each end of its range, so it adds at most two records. An edit that covers a range
//! adds at most one record for each piece of the range that isn't covered yet (the count in
//! `memblock_add_range`).
ghost use Rattle.std.specs.Prelude.{◌≡◌, ◌+◌, nat_lt, length};
ghost use Rattle.memblock_ranges.specs.Tables.{table_in, records_in, room_in};
ghost use Rattle.memblock_grow.specs.NewRecords.{new_records_in_table, RangeEndsBelow2To64};

use bm_base::Range;
use memblock_model::Which;
use memblock_ranges::Tables;
use run_edits::range_end_fits;

/// The greatest number of records that an edit may add to a table.
#[derive(Clone, Copy, Debug, PartialEq, Eq)]
pub enum MaxNewRecords {
    /// For adding this range: one record for each piece of the range that the table doesn't cover.
    PiecesOf(Range),
    /// For removing or changing a range: two, since the edit may split a record at each end of the
    /// range.
    Two,
}

/// Tests whether the table has too little room for `more` records in addition to those that it has.
pub fn lacks_room(tables: &Tables, which: Which, more: &MaxNewRecords) -> bool
    ensures full { result ≡
        nat_lt (room_in which tables.now) (length (records_in which tables.now)
        + new_records_in_table more.now (table_in which tables.now)) }
    ensures within { RangeEndsBelow2To64 more.now }
{
    let head = tables.head(which);
    let free = head.room - head.count;
    match more {
        MaxNewRecords::PiecesOf(range) => {
            range_end_fits(range);
            free < tables.pieces(which, *range)
        }
        MaxNewRecords::Two => free < 2,
    }
}
