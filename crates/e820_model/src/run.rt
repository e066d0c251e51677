//! A run of the map. If runs overlap, the greater type holds (`e820__update_table`).

ghost use Rattle.std.specs.Prelude.{◌≡◌, ℕ, ◌+◌, ◌^◌, ◌<◌};
ghost use Rattle.address_runs.specs.Runs.{RunOf};
ghost use Rattle.e820_model.specs.Greater.{greater, greater_none, greater_alone, greater_grouped};

use address_runs::{Overlay, ValuedRange};
use bm_base::Range;
use std::marker::Model;

/// A range of addresses and its type. In a map each run is as long as possible: no run of the same
/// type touches it.
#[derive(Clone, Copy, Debug, PartialEq, Eq)]
pub struct Run {
    pub range: Range,
    /// The type (`enum e820_type`), above 0.
    pub kind: u32,
}

impl Model for Run {
    ghost use Rattle.std.specs.Prelude.{ℕ, ◌+◌, ◌^◌, ◌<◌};
    ghost use Rattle.address_runs.specs.Runs.{RunOf};

    ghost Value = { RunOf ℕ };

    ghost view = { λ r. record { base = r.range.base; size = r.range.size; value = r.kind } };

    ghost invariant = { λ r. r.range.base + r.range.size < 2 ^ 64 };

    ghost inverse = { λ r. record {
      range = record { base = r.base; size = r.size };
      kind = r.value;
    } };
}

impl ValuedRange for Run {
    type Value = u32;

    ghost run = { λ r. r };

    fn of(range: Range, kind: u32) -> Run {
        Run { range, kind }
    }

    fn range(&self) -> Range {
        self.range
    }

    fn value(&self) -> u32 {
        self.kind
    }

    fn is_same(first: u32, second: u32) -> bool {
        first == second
    }
}

/// At an address where runs overlap, the greatest type holds (`e820__update_table`).
impl Overlay for Run {
    ghost join_of = { greater };

    fn join(first: Option<u32>, second: Option<u32>) -> Option<u32>
        ensures { result ≡ greater first second }
    {
        match (first, second) {
            (Some(first), Some(second)) => Some(first.max(second)),
            (Some(kind), None) | (None, Some(kind)) => Some(kind),
            (None, None) => None,
        }
    }

    ghost left_identity = { greater_none };

    ghost right_identity = { greater_alone };

    ghost associative = { greater_grouped };
}
