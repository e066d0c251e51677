//! Why a boot stops. [`Cause`] has every reason except out of memory. It is a type of its own,
//! because the check whether a map is accepted allocates nothing and can only stop for a cause.

ghost use Rattle.std.specs.Prelude.{◌≡◌};
ghost use Rattle.boot_model.specs.Stop.{cause_of};

use bm_base::Memory;
use e820_sanitise::MapStop;
use memblock_grow::{Refusal, StageStop, What};
use memblock_model::Which;

/// Why a boot stops, except for out of memory. The variants are numbered from 1 in this order.
#[derive(Clone, Copy, Debug, PartialEq, Eq)]
pub enum Cause {
    /// No frame of the map is usable.
    NoRam,
    /// More than 2^32 frames of the map are usable. `frames` is their number.
    TooMuchRam { frames: u64 },
    /// The map has more than 3,200 runs, the room of the kernel's table. `runs` is their number.
    MapFull { runs: u64 },
    /// No free place fits the allocation `what`, which the boot needs.
    NoPlace { what: What },
    /// A full table of memblock had to grow and no place was found for it. `room` is the number of
    /// records that it had room for.
    NoTablePlace { which: Which, room: u64 },
}

/// Why a boot stops.
#[derive(Clone, Copy, Debug, PartialEq, Eq)]
pub enum Stop {
    /// No frame of the map is usable.
    NoRam,
    /// More than 2^32 frames of the map are usable. `frames` is their number.
    TooMuchRam { frames: u64 },
    /// The map has more than 3,200 runs, the room of the kernel's table. `runs` is their number.
    MapFull { runs: u64 },
    /// No free place fits the allocation `what`, which the boot needs.
    NoPlace { what: What },
    /// A full table of memblock had to grow and no place was found for it. `room` is the number of
    /// records that it had room for.
    NoTablePlace { which: Which, room: u64 },
    /// This program is out of memory.
    Memory,
}

impl Stop {
    /// Returns the reason for the stop as a [`Cause`], or `None` if it is out of memory.
    pub fn cause(self) -> Option<Cause>
        ensures { result ≡ cause_of self }
    {
        match self {
            Stop::NoRam => Some(Cause::NoRam),
            Stop::TooMuchRam { frames } => Some(Cause::TooMuchRam { frames }),
            Stop::MapFull { runs } => Some(Cause::MapFull { runs }),
            Stop::NoPlace { what } => Some(Cause::NoPlace { what }),
            Stop::NoTablePlace { which, room } => Some(Cause::NoTablePlace { which, room }),
            Stop::Memory => None,
        }
    }
}

impl From<Cause> for Stop {
    ghost use Rattle.std.specs.Prelude.{◌≡◌};
    ghost use Rattle.boot_model.specs.Stop.{stop_of};

    ghost from_gives = { λ cause stop. stop ≡ stop_of cause };

    fn from(cause: Cause) -> Stop {
        match cause {
            Cause::NoRam => Stop::NoRam,
            Cause::TooMuchRam { frames } => Stop::TooMuchRam { frames },
            Cause::MapFull { runs } => Stop::MapFull { runs },
            Cause::NoPlace { what } => Stop::NoPlace { what },
            Cause::NoTablePlace { which, room } => Stop::NoTablePlace { which, room },
        }
    }
}

impl From<Memory> for Stop {
    ghost use Rattle.std.specs.Prelude.{◌≡◌};
    ghost use Rattle.boot_model.specs.declared.stop.Stop.TheVariants as stops;

    ghost from_gives = { λ _ stop. stop ≡ stops.Memory };

    fn from(_error: Memory) -> Stop {
        Stop::Memory
    }
}

impl From<StageStop> for Stop {
    ghost use Rattle.std.specs.Prelude.{◌≡◌, Option};
    ghost use Rattle.stage_steps.specs.Causes.{StageCause, error_of_stage_cause};
    ghost use Rattle.boot_model.specs.Stop.{cause_of_stage, stop_of_error};

    ghost from_gives = { λ stage stop. (why : Option StageCause) → stage ≡ error_of_stage_cause why
        → stop ≡ stop_of_error cause_of_stage why };

    fn from(stage: StageStop) -> Stop {
        match stage {
            StageStop::NoPlace { what } => Stop::NoPlace { what },
            StageStop::NoTablePlace { which, room } => Stop::NoTablePlace { which, room },
            StageStop::Memory => Stop::Memory,
        }
    }
}

/// The stop for a refused call of memblock: a table had to grow and no place was found for it, or
/// the program is out of memory.
impl From<Refusal> for Stop {
    ghost use Rattle.std.specs.Prelude.{◌≡◌, Option};
    ghost use Rattle.growth_model.specs.Change.{RefusedGrowth};
    ghost use Rattle.stage_steps.specs.Causes.{refusal_for};
    ghost use Rattle.boot_model.specs.Stop.{cause_of_growth, stop_of_error};

    ghost from_gives = { λ refusal stop. (why : Option RefusedGrowth) → refusal ≡ refusal_for why
        → stop ≡ stop_of_error cause_of_growth why };

    fn from(refusal: Refusal) -> Stop {
        if let Refusal::NoGapForTable { which, room } = refusal {
            Stop::NoTablePlace { which, room }
        } else {
            Stop::Memory
        }
    }
}

impl From<MapStop> for Cause {
    ghost use Rattle.std.specs.Prelude.{◌≡◌};
    ghost use Rattle.boot_model.specs.Stop.{cause_of_map};

    ghost from_gives = { λ reason cause. cause ≡ cause_of_map reason };

    fn from(reason: MapStop) -> Cause {
        match reason {
            MapStop::NoRam => Cause::NoRam,
            MapStop::TooMuchRam { frames } => Cause::TooMuchRam { frames },
        }
    }
}
