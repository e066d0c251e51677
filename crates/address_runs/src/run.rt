//! A record of a range and a value, for code that needs no particular format.

ghost use Rattle.std.specs.Prelude.{◌≡◌, ◌↔◌, Option, IsTrue};
ghost use Rattle.std.specs.Option.{option_or};
ghost use Rattle.address_runs.specs.First.{first_none, first_alone, first_grouped};

use crate::stretch::{Overlay, ValuedRange};
use bm_base::Range;
use std::marker::Model;

/// A type that the values of runs may have. Two values can be compared.
pub trait RunValue: Copy {
    /// Returns whether the values are equal.
    fn is_same(first: Self, second: Self) -> bool
        ensures { IsTrue result ↔ (first ≡ second) };
}

impl RunValue for u32 {
    fn is_same(first: u32, second: u32) -> bool {
        first == second
    }
}

impl RunValue for bool {
    fn is_same(first: bool, second: bool) -> bool {
        first == second
    }
}

/// A range of addresses and the value that each of them carries. If several such records overlap,
/// the value of the first one holds.
#[derive(Clone, Copy, Debug, PartialEq, Eq)]
pub struct RunOf<V> {
    /// The addresses that have the value.
    pub range: Range,
    /// The value of each address in the range.
    pub value: V,
}

impl<V> Model for RunOf<V> {
    ghost use Rattle.std.specs.Prelude.{◌+◌, ◌^◌, ◌<◌};
    ghost use Rattle.address_runs.specs.Runs.{RunOf as AnyRun};

    ghost Value = { AnyRun V };

    ghost view = { λ r. record { base = r.range.base; size = r.range.size; value = r.value } };

    ghost invariant = { λ r. r.range.base + r.range.size < 2 ^ 64 };

    ghost inverse = { λ r. record {
      range = record { base = r.base; size = r.size };
      value = r.value;
    } };
}

impl<V: RunValue> ValuedRange for RunOf<V> {
    type Value = V;

    ghost run = { λ r. r };

    fn of(range: Range, value: V) -> RunOf<V> {
        RunOf { range, value }
    }

    fn range(&self) -> Range {
        self.range
    }

    fn value(&self) -> V {
        self.value
    }

    fn is_same(first: V, second: V) -> bool {
        V::is_same(first, second)
    }
}

impl<V: RunValue> Overlay for RunOf<V> {
    ghost join_of = { option_or };

    fn join(first: Option<V>, second: Option<V>) -> Option<V>
        ensures { result ≡ option_or first second }
    {
        first.or(second)
    }

    ghost left_identity = { first_none };

    ghost right_identity = { first_alone };

    ghost associative = { first_grouped };
}
