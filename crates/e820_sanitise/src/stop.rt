//! Decides whether the boot stops at its map. The decision depends only on the number of usable
//! frames.

ghost use Rattle.std.specs.Prelude.{◌≡◌};
ghost use Rattle.address_runs.specs.Runs.{AreRuns, value_at};
ghost use Rattle.e820_model.specs.Usable.{types_below};
ghost use Rattle.e820_sanitise.specs.Stop.{judge_frames};

use crate::frames::usable_frames;
use e820_model::Run;

/// The largest number of usable frames with which a boot continues; they have 16 TiB.
const MOST_RAM_FRAMES: u64 = 1 << 32;

/// The reason why a boot stops at its map.
#[derive(Clone, Copy, Debug, PartialEq, Eq)]
pub enum MapStop {
    /// No frame is usable.
    NoRam,
    /// More than 2^32 frames are usable; `frames` is their number.
    TooMuchRam { frames: u64 },
}

/// Returns why a boot stops at the map with these runs, or `None` if it continues. It stops if no
/// frame below `limit` is usable, or more than 2^32 are. `limit` is the first address that the
/// kernel can't use, in bytes; it may lie inside a frame.
pub fn judge_frames(runs: &[Run], limit: u64) -> Option<MapStop>
    requires { AreRuns runs.now }
    ensures { result ≡ judge_frames (types_below limit (value_at runs.now)) }
{
    let frames = usable_frames(runs, limit);
    if frames == 0 {
        return Some(MapStop::NoRam);
    }
    if frames > MOST_RAM_FRAMES {
        return Some(MapStop::TooMuchRam { frames });
    }
    None
}
