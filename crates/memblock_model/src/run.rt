//! A range and its owner: an entry in the journal's list of owners.

use crate::Owner;
use address_runs::ValuedRange;
use bm_base::Range;
use std::marker::Model;

/// A range of addresses whose bytes have one owner. In a list of such runs, touching ranges of the
/// same owner are merged into one.
#[derive(Clone, Copy, Debug, PartialEq, Eq)]
pub struct OwnerRun {
    pub range: Range,
    pub owner: Owner,
}

impl Model for OwnerRun {
    ghost use Rattle.std.specs.Prelude.{◌+◌, ◌^◌, ◌<◌};
    ghost use Rattle.address_runs.specs.Runs.{RunOf};
    ghost use Rattle.memblock_model.specs.declared.owner.Owner.{Owner as AnyOwner};

    ghost Value = { RunOf AnyOwner };

    ghost view = { λ r. record { base = r.range.base; size = r.range.size; value = r.owner } };

    ghost invariant = { λ r. r.range.base + r.range.size < 2 ^ 64 };

    ghost inverse = { λ r. record {
      range = record { base = r.base; size = r.size };
      owner = r.value;
    } };
}

impl ValuedRange for OwnerRun {
    type Value = Owner;

    ghost run = { λ r. r };

    fn of(range: Range, owner: Owner) -> OwnerRun {
        OwnerRun { range, owner }
    }

    fn range(&self) -> Range {
        self.range
    }

    fn value(&self) -> Owner {
        self.owner
    }

    fn is_same(first: Owner, second: Owner) -> bool {
        first == second
    }
}
