//! The errors of calls that change memory. They are defined here, below the calls, since
//! `specs/Ends.antt` uses them. The stages above report them as a `StageStop`, and the early script
//! as an outcome of its line.

use bm_base::Memory;
use memblock_model::Which;

/// The reason why a call of memblock failed.
#[derive(Clone, Copy, Debug, PartialEq, Eq)]
pub enum Refusal {
    /// No free range fits the request in any of its searches. The stages report it as
    /// `StageStop::NoPlace`.
    NoGap,
    /// The table had to grow and no free memory was found for it (`memblock_double_array`). `room`
    /// is the number of records that it has room for, which was too small. The stages report it as
    /// `StageStop::NoTablePlace`.
    NoGapForTable { which: Which, room: u64 },
    /// This program is out of memory of its own.
    Memory,
}

impl From<Memory> for Refusal {
    ghost use Rattle.std.specs.Prelude.{◌≡◌};
    ghost use Rattle.growth_model.specs.declared.refusal.Refusal.TheVariants as refusal;

    ghost from_gives = { λ _ answer. answer ≡ refusal.Memory };

    fn from(_error: Memory) -> Refusal {
        Refusal::Memory
    }
}
