//! The traits of records from which lists of runs are made.
//!
//! A [`ValuedRange`] has a range and a value, as `struct e820_entry` and `struct memblock_region`
//! do. An [`Overlay`] also decides which value holds if two records cover an address, for example
//! the greater type of memory.

ghost use Rattle.std.specs.Prelude.{◌≡◌, ◌↔◌, Option, None, IsTrue};
ghost use Rattle.address_runs.specs.Runs.{RunOf};

use bm_base::Range;

/// A record of a range of addresses and one value, which all of these addresses have.
pub trait ValuedRange: Copy {
    /// The type of the values.
    type Value: Copy;

    // the record as a run, as contracts see it
    ghost run: { Self → RunOf Self.Value };

    /// Makes a record of a range of addresses and the value that they have.
    fn of(range: Range, value: Self::Value) -> Self
        ensures { run result ≡ record { base = range.base; size = range.size; value = value } };

    /// Returns the range of addresses.
    fn range(&self) -> Range
        ensures base { result.base ≡ (run self.now).base }
        ensures size { result.size ≡ (run self.now).size };

    /// Returns the value that the addresses have.
    fn value(&self) -> Self::Value
        ensures { result ≡ (run self.now).value };

    /// Returns whether two values are equal.
    fn is_same(first: Self::Value, second: Self::Value) -> bool
        ensures { IsTrue result ↔ (first ≡ second) };
}

/// A record whose values can be joined if records overlap.
pub trait Overlay: ValuedRange {
    // the result of `join`, as contracts see it
    ghost join_of: { Option Self.Value → Option Self.Value → Option Self.Value };

    /// Returns the value at an address that two records of a list may cover. `first` is the value
    /// of the record that comes first in the list, `second` that of the other record. A value is
    /// `None` if its record doesn't cover the address; the other value is then returned. Joining is
    /// associative.
    fn join(first: Option<Self::Value>, second: Option<Self::Value>) -> Option<Self::Value>
        ensures { result ≡ join_of first second };

    ghost left_identity: { (v : Option Self.Value) → join_of None v ≡ v };

    ghost right_identity: { (v : Option Self.Value) → join_of v None ≡ v };

    ghost associative: { (u v w : Option Self.Value) →
        join_of (join_of u v) w ≡ join_of u (join_of v w) };
}
