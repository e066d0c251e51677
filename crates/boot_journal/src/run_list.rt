//! A list of runs that grows cheaply at both ends.
//!
//! Top-down allocations claim one range below the other, so a new run comes before almost all
//! others. Ascending claims come after all others. For both cases the list has room before its
//! first run and after its last one. Inserting or removing a run moves whichever part of the list
//! is shorter. A reallocation leaves room at each end for half as many runs as the list has.

ghost use Rattle.std.specs.Prelude.{◌≡◌, ℕ, ◌+◌, ◌-◌, ◌<◌, ◌≤◌, [], ◌∷◌, ◌++◌, IsTrue, false, OnOk, OnErr, drop, length, take, vec_len, vec_capacity};

use bm_base::{Memory, Range};
use memblock_model::{Owner, OwnerRun};
use run_edits::{Rows, Slots};
use std::alloc::Global;
use std::marker::Model;

/// The runs of bytes with one owner, in ascending order.
#[derive(Debug, Drop)]
pub struct RunList {
    /// The runs, from index `front` on.
    records: Vec<OwnerRun>,
    /// The number of unused `records` before the first run.
    front: usize,
}

impl Model for RunList {
    ghost use Rattle.std.specs.Prelude.{◌≤◌, drop, vec_len, vec_capacity};
    ghost use Rattle.boot_journal.specs.RunList.{RunListView};

    ghost Value = { RunListView };

    ghost view = { λ r.
        record { items = drop r.front r.records.items; room = vec_capacity r.records } };

    ghost invariant = { λ r. r.front ≤ vec_len r.records };
}

impl RunList {
    /// Returns a list without runs.
    pub fn new(alloc: Global) -> RunList
        ensures { result.items ≡ [] }
    {
        RunList {
            records: Vec::new(alloc),
            front: 0,
        }
    }

    /// Returns the runs, in ascending order.
    pub fn as_slice(&self) -> &[OwnerRun]
        ensures { result.now ≡ self.now.items }
    {
        &self.records[self.front..]
    }

    /// Makes room for `more` additional runs at each end of the list, so that inserting them
    /// doesn't allocate. Allocates only if the list lacks this room.
    ///
    /// # Errors
    ///
    /// - `Memory`: the program ran out of memory; the list is unchanged.
    pub fn ensure_run_room(&mut self, more: u64) -> Result<(), Memory>
        ensures items { self.new.items ≡ self.old.items }
        ensures room { OnOk result (length self.old.items + more ≤ self.new.room) }
        ensures err { OnErr result (self.new ≡ self.old) }
    {
        let more = more as usize;
        let after = self.records.capacity() - self.records.len();
        if more <= self.front && more <= after {
            return Ok(());
        }
        self.reserve_both_ends(more)
    }

    /// Moves the runs to new memory with room at both ends: for `more` runs and half the list's
    /// length, before the first run and again after the last one.
    ///
    /// # Errors
    ///
    /// - `Memory`: the program ran out of memory; the list is unchanged.
    fn reserve_both_ends(&mut self, more: usize) -> Result<(), Memory>
        ensures items { self.new.items ≡ self.old.items }
        ensures room { OnOk result (length self.old.items + more ≤ self.new.room) }
        ensures err { OnErr result (self.new ≡ self.old) }
    {
        let count = self.records.len() - self.front;
        let Some(room) = more.checked_add(count / 2) else {
            return Err(Memory);
        };
        let unused = OwnerRun {
            range: Range { base: 0, size: 0 },
            owner: Owner::Kernel,
        };
        let mut records = Vec::new(*self.records.allocator());
        records.resize(room, unused)?;
        records.extend_from_slice(self.as_slice())?;
        records.reserve(room)?;
        self.records = records;
        self.front = room;
        Ok(())
    }
}

impl Rows<OwnerRun> for RunList {
    ghost list = { λ r. r.items };

    fn count(&self) -> u64 {
        (self.records.len() - self.front) as u64
    }

    fn get(&self, i: u64) -> OwnerRun {
        self.records[self.front + i as usize]
    }
}

/// The room of the list is all the memory that it has, before its first run and after its last
/// one.
impl Slots<OwnerRun> for RunList {
    ghost room = { λ r. r.room };

    ghost keeps = { λ r s. (m : ℕ) → m ≤ r.room → m ≤ s.room };

    fn put(&mut self, i: u64, item: OwnerRun) {
        let at = self.front + i as usize;
        self.records[at] = item;
    }

    fn insert(&mut self, i: u64, item: OwnerRun) {
        let i = i as usize;
        let count = self.records.len() - self.front;
        let after = self.records.capacity() - self.records.len();
        if moves_lower_runs(i, count, self.front, after) {
            insert_low(&mut self.records, self.front, i, item);
            self.front -= 1;
        } else {
            let _ = Vec::insert(&mut self.records, self.front + i, item);
        }
    }

    fn close(&mut self, i: u64, n: u64) {
        let (i, n) = (i as usize, n as usize);
        let after = self.records.len() - self.front - i - n;
        if n == 0 {
            return;
        }
        if i < after {
            self.records
                .copy_within(self.front..self.front + i, self.front + n);
            self.front += n;
        } else {
            close_high(&mut self.records, self.front + i, n);
        }
    }

    ghost keeps_itself = { λ s m few. few };

    ghost keeps_on = { λ s t u first second m few. second m (first m few) };

    ghost keeps_room = { λ s t kept. kept };
}

/// Tests whether inserting a run at index `i`, of `count` runs, should move the runs before it
/// down, instead of moving those after it up. There is room for `front` runs before the first run,
/// and for `after` runs after the last one. The answer is true if there is no room after the last
/// run, or if there is room before the first run and fewer runs are before index `i` than after it.
fn moves_lower_runs(i: usize, count: usize, front: usize, after: usize) -> bool
    requires within { i ≤ count }
    requires room { 0 < front + after }
    ensures low { IsTrue result → 0 < front }
    ensures high { result ≡ false → 0 < after }
{
    after == 0 || (front > 0 && i < count - i)
}

/// Inserts a run at index `i`, counted from `front`, by moving the runs before it down by one,
/// into the room before the first run.
fn insert_low(records: &mut Vec<OwnerRun>, front: usize, i: usize, run: OwnerRun)
    requires some { 0 < front }
    requires within { front + i ≤ vec_len records.old }
    ensures items { drop (front - 1) records.new.items
        ≡ take i (drop front records.old.items) ++ run ∷ drop i (drop front records.old.items) }
    ensures len { vec_len records.new ≡ vec_len records.old }
    ensures capacity { vec_capacity records.new ≡ vec_capacity records.old }
{
    records.copy_within(front..front + i, front - 1);
    records[front - 1 + i] = run;
}

/// Removes the `n` runs from index `i` on, by moving the runs after them down.
fn close_high(records: &mut Vec<OwnerRun>, i: usize, n: usize)
    requires { i + n ≤ vec_len records.old }
    ensures items { records.new.items ≡ take i records.old.items ++ drop (i + n) records.old.items }
    ensures capacity { vec_capacity records.new ≡ vec_capacity records.old }
{
    let count = records.len();
    records.copy_within(i + n..count, i);
    records.truncate(count - n);
}
