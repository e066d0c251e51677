//! Reads a table of runs: which record contains an address, what the address carries, and which is
//! the next address that carries something else.

ghost use Rattle.std.specs.Prelude.{◌≡◌, ◌+◌, ◌-◌, ◌^◌, ◌<◌, ◌≤◌, ℕ, Option, Some, None, [], ◌∷◌, length, take, drop, IsTrue, ◌↔◌, MatchOption};
ghost use Rattle.bm_base.specs.Range.{end_of};
ghost use Rattle.address_runs.specs.Runs.{AreRuns, value_at};
ghost use Rattle.address_runs.specs.Sweep.{IsRestFrom, StartAtOrPast, FirstEndsPast, FirstEndsAtOrPast, HasValueBetween};
ghost use Rattle.run_edits.specs.Records.{EndBelow, IsNotInsideRun};

use crate::slots::Rows;
use address_runs::{ValuedRange, agree};
use bm_base::Range;

/// Returns the record at index `i`, or `None` if the table has no more than `i` records.
pub(crate) fn peek<S: ValuedRange, T: Rows<S>>(table: &T, i: u64) -> Option<S>
    ensures record { MatchOption result (drop i (T.list table.now) ≡ [])
        (λ r. drop i (T.list table.now) ≡ S.run r ∷ drop (i + 1) (T.list table.now)) }
    ensures within { MatchOption result (length (T.list table.now) ≤ i)
        (λ r. i < length (T.list table.now)) }
    ensures small { length (T.list table.now) < 2 ^ 64 }
{
    if i < table.count() {
        Some(table.get(i))
    } else {
        None
    }
}

/// Returns the index of the first record that ends at or above the address, or the number of
/// records if there is no such record. This is a binary search.
pub(crate) fn first_ending_from<S: ValuedRange, T: Rows<S>>(table: &T, at: u64) -> u64
    requires { AreRuns (T.list table.now) }
    ensures before { EndBelow at (take result (T.list table.now)) }
    ensures from { FirstEndsAtOrPast at (drop result (T.list table.now)) }
    ensures within { result ≤ length (T.list table.now) }
{
    let mut low = 0;
    let mut high = table.count();
    while low < high {
        let middle = low + (high - low) / 2;
        if table.get(middle).range().end() < at {
            low = middle + 1;
        } else {
            high = middle;
        }
    }
    low
}

/// Returns `read`, or `read + 1` if the record at index `read` ends at or below the address.
pub fn skip_ended<S: ValuedRange, T: Rows<S>>(table: &T, read: u64, at: u64) -> u64
    ensures rest { (f : ℕ → Option S.Value) (before : ℕ) →
        IsRestFrom f before (drop read (T.list table.now)) →
        before ≤ at → FirstEndsAtOrPast at (drop read (T.list table.now)) →
        IsRestFrom f at (drop result (T.list table.now)) }
    ensures starts { (f : ℕ → Option S.Value) (before : ℕ) →
        IsRestFrom f before (drop read (T.list table.now)) →
        FirstEndsAtOrPast at (drop read (T.list table.now)) →
        IsNotInsideRun at (drop read (T.list table.now)) →
        StartAtOrPast at (drop result (T.list table.now)) }
    ensures order { read ≤ result }
    ensures within { read ≤ length (T.list table.now) → result ≤ length (T.list table.now) }
{
    match peek(table, read) {
        Some(record) if record.range().end() <= at => read + 1,
        _ => read,
    }
}

/// Returns what the address `from` carries, and the first address above it that carries something
/// else (2^64 - 1 if there is no record at index `read`). `read` must be the index of the first
/// record that ends above `from`.
pub fn value_and_end<S: ValuedRange, T: Rows<S>>(
    table: &T,
    read: u64,
    from: u64,
) -> (Option<S::Value>, u64)
    ensures value { (f : ℕ → Option S.Value) → IsRestFrom f from (drop read (T.list table.now)) →
        result.0 ≡ f from }
    ensures stays { (f : ℕ → Option S.Value) → IsRestFrom f from (drop read (T.list table.now)) →
        HasValueBetween f from result.1 (f from) }
    ensures another { (f : ℕ → Option S.Value) → IsRestFrom f from (drop read (T.list table.now)) →
        f result.1 ≡ f from → f from ≡ None }
    ensures after { FirstEndsPast from (drop read (T.list table.now)) → from < 2 ^ 64 - 1 →
        from < result.1 }
    ensures forward { FirstEndsPast from (drop read (T.list table.now)) → from < 2 ^ 64 →
        from ≤ result.1 }
    ensures ends { FirstEndsPast from (drop read (T.list table.now)) →
        FirstEndsAtOrPast result.1 (drop read (T.list table.now)) }
    ensures uncut { IsNotInsideRun result.1 (drop read (T.list table.now)) }
{
    let Some(record) = peek(table, read) else {
        return (None, u64::MAX);
    };
    let range = record.range();
    if from < range.base {
        (None, range.base)
    } else {
        (Some(record.value()), range.end())
    }
}

/// Returns the index of the first record that ends above the address, or the number of records if
/// there is no such record.
pub fn first_ending_above<S: ValuedRange, T: Rows<S>>(table: &T, at: u64) -> u64
    requires { AreRuns (T.list table.now) }
    ensures rest { IsRestFrom (value_at (T.list table.now)) at (drop result (T.list table.now)) }
    ensures within { result ≤ length (T.list table.now) }
{
    let first = first_ending_from(table, at);
    skip_ended(table, first, at)
}

/// Returns what the address `x` carries, or `None` if it carries nothing.
pub fn value_at<S: ValuedRange, T: Rows<S>>(table: &T, x: u64) -> Option<S::Value>
    requires { AreRuns (T.list table.now) }
    ensures { result ≡ value_at (T.list table.now) x }
{
    let read = first_ending_above(table, x);
    value_and_end(table, read, x).0
}

/// Returns whether each address of the range carries `value`. An empty range gives true.
pub fn has_value_throughout<S: ValuedRange, T: Rows<S>>(
    table: &T,
    range: &Range,
    value: S::Value,
) -> bool
    requires { AreRuns (T.list table.now) }
    ensures { IsTrue result ↔ ((x : ℕ) → range.now.base ≤ x → x < end_of range.now →
        value_at (T.list table.now) x ≡ Some value) }
{
    if range.size == 0 {
        return true;
    }
    let read = first_ending_above(table, range.base);
    let (here, next) = value_and_end(table, read, range.base);
    agree::<S>(here, Some(value)) && range.end() <= next
}
