//! Finds runs of unclaimed memory one at a time: the next run below an address, or from an address
//! on. A run is a range of unclaimed memory with one label, as long as possible. To get the run
//! after it, call again with its start (downward) or its end (upward). Each call takes two binary
//! searches, and a step for each record that it passes.
ghost use Rattle.std.specs.Prelude.{◌≡◌, ◌-◌, ◌≤◌, MatchOption, IfSome, None};
ghost use Rattle.address_runs.specs.Runs.{run_end, value_at};
ghost use Rattle.address_runs.specs.Edits.{IsEmptyFrom};
ghost use Rattle.address_runs.specs.Sweep.{HasValueBetween};
ghost use Rattle.memblock_find.specs.Walk.{IsWalkUpAt};
ghost use Rattle.memblock_find.specs.Unclaimed.{unclaimed_in_walk, unclaimed_memory, unclaimed_in_tables, IsRunBelow, IsRunFrom};

use crate::cursor::{Cursor, RecordReaders, record_readers};
use crate::down::start_walk_down;
use crate::up::start_walk_up;
use bm_base::Range;
use memblock_model::Label;
use memblock_ranges::{Tables, node_field};
use std::marker::Model;

/// A range of unclaimed memory that has one label. Contracts see it as a run: a range of addresses
/// with that label.
#[derive(Clone, Copy, Debug, PartialEq, Eq)]
pub struct FreeRange {
    /// The addresses of the range.
    pub range: Range,
    /// The node, or 1,024 for none (`MAX_NUMNODES`).
    pub node: u32,
    /// Whether the range is mirrored (`MEMBLOCK_MIRROR`).
    pub mirror: bool,
}

impl Model for FreeRange {
    ghost use Rattle.std.specs.Prelude.{◌+◌, ◌^◌, ◌<◌, ◌≤◌};
    ghost use Rattle.address_runs.specs.Runs.{RunOf};
    ghost use Rattle.memblock_model.specs.Labels.{LabelView};
    ghost use Rattle.memblock_ranges.specs.Encoding.{node_of_field, node_field};

    ghost Value = { RunOf LabelView };

    ghost view = { λ r.
        record {
          base = r.range.base;
          size = r.range.size;
          value
              = record { node = node_of_field r.node; mirror = r.mirror };
        } };

    ghost invariant = { λ r. (r.range.base + r.range.size < 2 ^ 64) × (r.node ≤ 1024) };

    ghost inverse = { λ r.
        record {
          range = record { base = r.base; size = r.size };
          node = node_field r.value;
          mirror
              = r.value.mirror;
        } };
}

impl FreeRange {
    /// Returns the range from `from` to just below `until`, with this label.
    fn between(from: u64, until: u64, label: Label) -> FreeRange
        requires { from ≤ until }
        ensures { result ≡ record { base = from; size = until - from; value = label } }
    {
        FreeRange {
            range: Range {
                base: from,
                size: until - from,
            },
            node: node_field(label),
            mirror: label.has_mirror_flag(),
        }
    }
}

/// Returns the highest run of unclaimed memory (with one label) that begins below the address
/// `below`, or `None` if no address below it is unclaimed memory (`__next_mem_range_rev`). A run
/// that continues above `below` is cut to end at `below`.
pub fn prev_free(tables: &Tables, below: u64) -> Option<FreeRange>
    ensures { MatchOption result (HasValueBetween (unclaimed_in_tables tables.now) 0 below None)
        (IsRunBelow (unclaimed_in_tables tables.now) below) }
{
    prev_free_in_readers(&record_readers(tables), below)
}

/// Returns the highest run of unclaimed memory that begins below the address `below`, or `None` if
/// no address below it is unclaimed memory. A run that continues above `below` is cut to end at
/// `below`. `lists` has the records of both tables.
fn prev_free_in_readers(lists: &RecordReaders<'_>, below: u64) -> Option<FreeRange>
    ensures { MatchOption result (HasValueBetween
        (unclaimed_memory (value_at lists.now.memory) (value_at lists.now.reserved)) 0 below None)
        (IsRunBelow
        (unclaimed_memory (value_at lists.now.memory) (value_at lists.now.reserved)) below) }
{
    let mut cursor = start_walk_down(lists, below);
    while cursor.at > 0 {
        if let Some(label) = cursor.unclaimed_label() {
            return Some(FreeRange::between(cursor.bottom(), cursor.at, label));
        }
        cursor = cursor.down(lists);
    }
    None
}

/// Returns the lowest run of unclaimed memory (with one label) that ends past `from`, or `None` if
/// no address from `from` on is unclaimed memory (`__next_mem_range`). A run that begins below
/// `from` is cut to begin at `from`.
pub fn next_free(tables: &Tables, from: u64) -> Option<FreeRange>
    ensures { MatchOption result (IsEmptyFrom from (unclaimed_in_tables tables.now))
        (IsRunFrom (unclaimed_in_tables tables.now) from) }
{
    next_free_in_readers(&record_readers(tables), from)
}

/// Returns the lowest run of unclaimed memory that ends past `from`, or `None` if no address from
/// `from` on is unclaimed memory. A run that begins below `from` is cut to begin at `from`. `lists`
/// has the records of both tables.
fn next_free_in_readers(lists: &RecordReaders<'_>, from: u64) -> Option<FreeRange>
    ensures { MatchOption result (IsEmptyFrom from
        (unclaimed_memory (value_at lists.now.memory) (value_at lists.now.reserved)))
        (IsRunFrom
        (unclaimed_memory (value_at lists.now.memory) (value_at lists.now.reserved)) from) }
{
    find_run_up(lists, start_walk_up(lists, from)).run
}

/// The first run of unclaimed memory that a walk up has found, or `None`, and the position of the
/// walk after it.
#[derive(Clone, Copy)]
struct FoundRun {
    run: Option<FreeRange>,
    cursor: Cursor,
}

/// Walks up to the end of the first run of unclaimed memory, or to the highest address if there is
/// none. Returns the run and the walk's position after it.
fn find_run_up(lists: &RecordReaders<'_>, from: Cursor) -> FoundRun
    requires { IsWalkUpAt lists.now.memory lists.now.reserved from }
    ensures run { MatchOption result.run (IsEmptyFrom from.at
        (unclaimed_memory (value_at lists.now.memory) (value_at lists.now.reserved)))
        (IsRunFrom
        (unclaimed_memory (value_at lists.now.memory) (value_at lists.now.reserved)) from.at) }
    ensures at { IfSome result.run (λ r. result.cursor.at ≡ run_end r) }
    ensures order { from.at ≤ result.cursor.at }
    ensures up { IsWalkUpAt lists.now.memory lists.now.reserved result.cursor }
{
    let mut cursor = from;
    while cursor.at < u64::MAX {
        let next = cursor.up(lists);
        if let Some(label) = cursor.unclaimed_label() {
            let run = Some(FreeRange::between(cursor.at, next.at, label));
            return FoundRun { run, cursor: next };
        }
        cursor = next;
    }
    FoundRun { run: None, cursor }
}

/// A walk up over the runs of unclaimed memory, which returns one after another. Each step reads
/// only the records that the walk passes. Contracts see the records of both tables, and the address
/// that the walk has reached.
#[derive(Drop)]
pub struct FreeRuns<'a> {
    lists: RecordReaders<'a>,
    cursor: Cursor,
}

impl<'a> Model for FreeRuns<'a> {
    ghost use Rattle.memblock_find.specs.Unclaimed.{FreeRunsView};
    ghost use Rattle.memblock_find.specs.Walk.{IsWalkUpAt};

    ghost Value = { FreeRunsView };

    ghost view = { λ w.
        record { memory = w.lists.memory; reserved = w.lists.reserved; at = w.cursor.at } };

    ghost invariant = { λ w. IsWalkUpAt w.lists.memory w.lists.reserved w.cursor };
}

impl FreeRuns<'_> {
    /// Returns a walk up that starts at address `at`.
    pub fn from(tables: &Tables, at: u64) -> FreeRuns<'_>
        ensures { result
            ≡ record {
              memory = tables.now.memory.records;
              reserved
                  = tables.now.reserved.records;
              at = at;
            } }
    {
        let lists = record_readers(tables);
        let cursor = start_walk_up(&lists, at);
        FreeRuns { lists, cursor }
    }

    /// Returns the next run of unclaimed memory, or `None` if there is none from the walk's address
    /// on. The result is what [`next_free`] returns for that address. The walk then continues at
    /// the run's end.
    pub fn next_run(&mut self) -> Option<FreeRange>
        ensures run { MatchOption result (IsEmptyFrom self.old.at (unclaimed_in_walk self.old))
            (IsRunFrom (unclaimed_in_walk self.old) self.old.at) }
        ensures at { IfSome result (λ r. self.new.at ≡ run_end r) }
        ensures order { self.old.at ≤ self.new.at }
        ensures memory { self.new.memory ≡ self.old.memory }
        ensures reserved { self.new.reserved ≡ self.old.reserved }
    {
        let rise = find_run_up(&self.lists, self.cursor);
        self.cursor = rise.cursor;
        rise.run
    }
}
