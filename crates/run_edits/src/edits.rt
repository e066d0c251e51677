//! The sweep that carries out every edit.
//!
//! The sweep visits the records that meet or touch the range, in ascending order. It reads at one
//! index and writes at another, and reads a record before overwriting its slot. Records above the
//! range are moved once. The kernel has a loop for each kind of edit (`memblock_add_range` and
//! others) and merges neighbours afterwards.

ghost use Rattle.std.specs.Prelude.{◌≡◌, ◌≢◌, ◌+◌, ◌-◌, ◌^◌, ◌<◌, ◌≤◌, ℕ, Bool, true, Option, Some, None, ◌++◌, length, take, drop, is_some};
ghost use Rattle.address_runs.specs.Runs.{DecidesEquality, AreRuns, IsRunsOf, value_at};
ghost use Rattle.address_runs.specs.Edits.{change_range, IsEmptyFrom};
ghost use Rattle.address_runs.specs.Sweep.{FirstEndsAtOrPast, IsBuiltTo, IsRestFrom, HasValueBetween};
ghost use Rattle.run_edits.specs.Records.{run_or_none, EndBelow, AddsNoRunEnd};
ghost use Rattle.run_edits.specs.Ends.{HasRoomToEdit};

use crate::change::Change;
use crate::laws::range_end_fits;
use crate::reading::{first_ending_from, peek, skip_ended, value_and_end};
use crate::slots::{Rows, Slots};
use address_runs::{ValuedRange, agree};
use bm_base::Range;

/// The state of a sweep, which rewrites the table in place from the lowest address up. The first
/// `write` records are finished, and those from index `read` on are still to be read. The current
/// run began at address `start`, has the value `value` and isn't written yet.
#[derive(Clone, Copy)]
struct Sweep<V> {
    write: u64,
    read: u64,
    start: u64,
    value: Option<V>,
}

/// Returns the state of a sweep that starts at address `at`. The records that end below `at` are
/// finished. A record that begins below `at` and ends at or above it is the current run.
fn begin<S: ValuedRange, T: Rows<S>>(table: &T, at: u64) -> Sweep<S::Value>
    requires { AreRuns (T.list table.now) }
    ensures built { (g : ℕ → Option S.Value) →
        ((x : ℕ) → x < at → g x ≡ value_at (T.list table.now) x) →
        IsBuiltTo g at (take result.write (T.list table.now)) result.start result.value }
    ensures rest { IsRestFrom (value_at (T.list table.now)) at
        (drop result.read (T.list table.now)) }
    ensures order { result.write ≤ result.read }
    ensures within { result.read ≤ length (T.list table.now) }
{
    let write = first_ending_from(table, at);
    let read = skip_ended(table, write, at);
    let (start, value) = stretch_at(table, write, at);
    Sweep {
        write,
        read,
        start,
        value,
    }
}

/// Returns the start and the value of the run that ends at or goes on past address `at`: those of
/// the record at index `first`, if that record begins below `at`, else `at` and `None`. `first`
/// must be the index of the first record that ends at or above `at`.
fn stretch_at<S: ValuedRange, T: Rows<S>>(table: &T, first: u64, at: u64) -> (u64, Option<S::Value>)
    requires runs { AreRuns (T.list table.now) }
    requires before { EndBelow at (take first (T.list table.now)) }
    requires from { FirstEndsAtOrPast at (drop first (T.list table.now)) }
    ensures { (g : ℕ → Option S.Value) → ((x : ℕ) → x < at → g x ≡ value_at (T.list table.now) x) →
        IsBuiltTo g at (take first (T.list table.now)) result.0 result.1 }
{
    match peek(table, first) {
        Some(record) if record.range().base < at => (record.range().base, Some(record.value())),
        _ => (at, None),
    }
}

/// Writes a record of the addresses from `start` up to `until`, without `until`, and of `value` at
/// index `write`. Writes nothing if `until` isn't above `start`, or if `value` is `None`.
///
/// The records before index `write` and those from index `read` on are kept; the slots between them
/// are free. If there is no free slot, the record is inserted. Returns the indices `write` and
/// `read` for the next call: `write` is one more if the record was written, and `read` if it was
/// inserted.
pub fn write_run<S: ValuedRange, T: Slots<S>>(
    table: &mut T,
    write: u64,
    read: u64,
    start: u64,
    until: u64,
    value: Option<S::Value>,
) -> (u64, u64)
    requires order { write ≤ read }
    requires within { read ≤ length (T.list table.old) }
    requires room { write ≡ read → start < until → is_some value ≡ true →
        length (T.list table.old) < T.room table.old }
    ensures written { take result.0 (T.list table.new)
        ≡ take write (T.list table.old) ++ run_or_none start until value }
    ensures rest { drop result.1 (T.list table.new) ≡ drop read (T.list table.old) }
    ensures order { result.0 ≤ result.1 }
    ensures within { result.1 ≤ length (T.list table.new) }
    ensures keeps { T.keeps table.old table.new }
{
    let Some(value) = value else {
        return (write, read);
    };
    let Some(range) = Range::between(start, until) else {
        return (write, read);
    };
    if write < read {
        table.put(write, S::of(range, value));
        (write + 1, read)
    } else {
        table.insert(write, S::of(range, value));
        (write + 1, read + 1)
    }
}

/// Continues the sweep with `value` from address `from` on. If the current run has another value,
/// it is written up to `from`, and a new run begins there.
fn advance<S: ValuedRange, T: Slots<S>>(
    table: &mut T,
    sweep: Sweep<S::Value>,
    from: u64,
    value: Option<S::Value>,
) -> Sweep<S::Value>
    requires order { sweep.write ≤ sweep.read }
    requires within { sweep.read ≤ length (T.list table.old) }
    requires room { sweep.write ≡ sweep.read → sweep.start < from → is_some sweep.value ≡ true →
        sweep.value ≢ value → length (T.list table.old) < T.room table.old }
    ensures built { (g : ℕ → Option S.Value) (until : ℕ) →
        IsBuiltTo g from (take sweep.write (T.list table.old)) sweep.start sweep.value →
        g from ≡ value → from ≤ until → HasValueBetween g from until value →
        IsBuiltTo g until (take result.write (T.list table.new)) result.start result.value }
    ensures rest { drop result.read (T.list table.new) ≡ drop sweep.read (T.list table.old) }
    ensures value { result.value ≡ value }
    ensures order { result.write ≤ result.read }
    ensures within { result.read ≤ length (T.list table.new) }
    ensures keeps { T.keeps table.old table.new }
{
    if agree::<S>(sweep.value, value) {
        return sweep;
    }
    let (write, read) = write_run(
        table,
        sweep.write,
        sweep.read,
        sweep.start,
        from,
        sweep.value,
    );
    Sweep {
        write,
        read,
        start: from,
        value,
    }
}

/// Applies a change to each address of the range. The table then holds the runs of the new values.
///
/// The range must not be empty. The table must have room during the whole sweep: for each address,
/// the new runs whose last address is below it and the old runs whose last address is at or above
/// it must together fit into the table.
pub fn edit_range<S: ValuedRange, T: Slots<S>, C: Change<S::Value>>(
    table: &mut T,
    range: &Range,
    change: C,
)
    requires some { 0 < range.now.size }
    requires runs { AreRuns (T.list table.old) }
    requires within { IsEmptyFrom (2 ^ 64) (value_at (T.list table.old)) }
    requires room { (same : S.Value → S.Value → Bool) × DecidesEquality same
        × HasRoomToEdit same (value_at (T.list table.old))
        (change_range (C.makes change) range.now (value_at (T.list table.old))) (T.room table.old) }
    ensures list { IsRunsOf (change_range (C.makes change) range.now (value_at (T.list table.old)))
        (T.list table.new) }
    ensures keeps { T.keeps table.old table.new }
{
    let until = range.end();
    let mut from = range.base;
    let mut sweep = begin(table, from);
    while from < until {
        let (here, next) = value_and_end(table, sweep.read, from);
        let to = next.min(until);
        sweep.read = skip_ended(table, sweep.read, to);
        sweep = advance(table, sweep, from, change.apply(here));
        from = to;
    }
    let (here, end) = value_and_end(table, sweep.read, until);
    sweep.read = skip_ended(table, sweep.read, end);
    sweep = advance(table, sweep, until, here);
    let (write, read) = write_run(
        table,
        sweep.write,
        sweep.read,
        sweep.start,
        end,
        sweep.value,
    );
    table.close(write, read - write);
}

/// Applies a change to each address of the range. The table then holds the runs of the new values.
///
/// The change must leave addresses that carry nothing as they are, or give the same to all
/// addresses; so it can't be a [`crate::Cover`]. The range must not be empty, and the table must
/// have room for two more records.
pub fn edit_without_cover<S: ValuedRange, T: Slots<S>, C: Change<S::Value>>(
    table: &mut T,
    range: &Range,
    change: C,
)
    requires some { 0 < range.now.size }
    requires runs { AreRuns (T.list table.old) }
    requires within { IsEmptyFrom (2 ^ 64) (value_at (T.list table.old)) }
    requires change { AddsNoRunEnd (C.makes change) }
    requires tells { (same : S.Value → S.Value → Bool) × DecidesEquality same }
    requires room { length (T.list table.old) + 2 ≤ T.room table.old }
    ensures list { IsRunsOf (change_range (C.makes change) range.now (value_at (T.list table.old)))
        (T.list table.new) }
    ensures within { IsEmptyFrom (2 ^ 64) (value_at (T.list table.new)) }
    ensures few { length (T.list table.new) ≤ length (T.list table.old) + 2 }
    ensures keeps { T.keeps table.old table.new }
{
    range_end_fits(range);
    edit_range(table, range, change);
}
