//! Traits by which the sweep reads and changes a table.
//!
//! The journal keeps its runs in a `Vec`. memblock keeps its tables in the memory that they
//! describe. Both implement [`Rows`] to read records, and [`Slots`] to change them.

ghost use Rattle.std.specs.Prelude.{◌≡◌, ◌+◌, ◌^◌, ◌<◌, ◌≤◌, ℕ, List, ◌∷◌, ◌++◌, length, get_or, take, drop, set, map, vec_capacity};
ghost use Rattle.address_runs.specs.Runs.{RunOf};

use address_runs::ValuedRange;

/// A sequence of records that can be read.
pub trait Rows<S: ValuedRange> {
    // the records as runs, in order
    ghost list: { Self → List (RunOf S.Value) };

    /// Returns the number of records.
    fn count(&self) -> u64
        ensures { result ≡ length (list self.now) };

    /// Returns the record at index `i`, which must be below the number of records.
    fn get(&self, i: u64) -> S
        requires { i < length (list self.now) }
        ensures { S.run result ≡ get_or (list self.now) i (S.run result) };
}

/// A sequence of records that can be changed, with room for a fixed number of records. No call
/// allocates.
pub trait Slots<S: ValuedRange>: Rows<S> {
    // the number of records that there is room for
    ghost room: { Self → ℕ };

    // what stays the same, apart from the records, between the table before and after a call
    ghost keeps: { Self → Self → Type 0 };

    /// Overwrites the record at index `i`, which must be below the number of records.
    fn put(&mut self, i: u64, item: S)
        requires { i < length (Self.list self.old) }
        ensures list { Self.list self.new ≡ set (Self.list self.old) i (S.run item) }
        ensures keeps { keeps self.old self.new };

    /// Inserts a record at index `i`. The records from index `i` on move up by one place. There
    /// must be room for one more record.
    fn insert(&mut self, i: u64, item: S)
        requires within { i ≤ length (Self.list self.old) }
        requires room { length (Self.list self.old) < room self.old }
        ensures list { Self.list self.new
            ≡ take i (Self.list self.old) ++ S.run item ∷ drop i (Self.list self.old) }
        ensures small { length (Self.list self.new) < 2 ^ 64 }
        ensures keeps { keeps self.old self.new };

    /// Removes the `n` records from index `i` on. The records after them move down by `n` places.
    fn close(&mut self, i: u64, n: u64)
        requires { i + n ≤ length (Self.list self.old) }
        ensures list { Self.list self.new
            ≡ take i (Self.list self.old) ++ drop (i + n) (Self.list self.old) }
        ensures keeps { keeps self.old self.new };

    ghost keeps_itself: { (s : Self) → keeps s s };

    ghost keeps_on: { (s t u : Self) → keeps s t → keeps t u → keeps s u };

    ghost keeps_room: { (s t : Self) → keeps s t → (m : ℕ) → m ≤ room s → m ≤ room t };
}

impl<S: ValuedRange> Rows<S> for Vec<S> {
    ghost list = { λ v. map S.run v.items };

    fn count(&self) -> u64 {
        self.len() as u64
    }

    fn get(&self, i: u64) -> S {
        self[i as usize]
    }
}

/// The room of a `Vec` is its capacity.
impl<S: ValuedRange> Slots<S> for Vec<S> {
    ghost room = { λ v. vec_capacity v };

    ghost keeps = { λ v w. (m : ℕ) → m ≤ vec_capacity v → m ≤ vec_capacity w };

    fn put(&mut self, i: u64, item: S) {
        self[i as usize] = item;
    }

    fn insert(&mut self, i: u64, item: S) {
        let _ = Vec::insert(self, i as usize, item);
    }

    fn close(&mut self, i: u64, n: u64) {
        if n == 0 {
            return;
        }
        let (i, n) = (i as usize, n as usize);
        let count = self.len();
        self.copy_within(i + n..count, i);
        self.truncate(count - n);
    }

    ghost keeps_itself = { λ s m few. few };

    ghost keeps_on = { λ s t u first second m few. second m (first m few) };

    ghost keeps_room = { λ s t kept. kept };
}
