//! The verdict on saved reports.

ghost use Rattle.std.specs.Prelude.{◌≡◌, ◌^◌, ◌<◌, ◌↔◌, length, map, Ok, IfOk};
ghost use Rattle.std.specs.List.{All};
ghost use Rattle.audit_lines.specs.Blocks.{IsBlockLine, bytes_of_block};
ghost use Rattle.audit_lines.specs.Lines.{AscendApart};
ghost use Rattle.boot_audit.specs.Conserved.{SavedConservesMemory};
ghost use Rattle.boot_audit.specs.Verdicts.{HasFrameInSpace, verdict_on_saved};

use crate::blocks::{first_in_wrong_zone, first_misaligned};
use crate::merges::first_mergeable;
use crate::sweep::sweep;
use audit_lines::{BlockLine, MapLine};
use bm_base::{Memory, Range, Width};

/// The verdict of an audit: memory was conserved, or the first fault. Frame n has the 4096 bytes
/// from address 4096 n on. It is usable if all its bytes are memory in the report `map`, and
/// touched if any of its bytes has an owner in the report `owners`. `line` is the number of a line
/// of the report `blocks`, from 1.
#[derive(Clone, Copy, Debug, PartialEq, Eq)]
pub enum Verdict {
    /// Memory was conserved. Each usable frame is either touched or in exactly one block, and each
    /// frame of a block is usable and untouched. The address of each block is a multiple of its
    /// size, and its frames are in its zone. No block could merge with its buddy.
    Sound,
    /// The first line whose block's address isn't a multiple of the block's size.
    Misaligned { line: u32 },
    /// The first line whose block has a frame outside the zone that the line names.
    WrongZone { line: u32 },
    /// The lowest frame that is in a block but not free: it isn't usable, or it is touched.
    NotFree { frame: u64 },
    /// The lowest frame that is usable and untouched, but in no block.
    Lost { frame: u64 },
    /// The first line whose block could merge with its buddy: its order is below 10, and blocks of
    /// its node and zone cover both the block and its buddy (`__find_buddy_pfn`).
    NotMaximal { line: u32 },
}

/// The lines of the three reports of one boot. In each report the ranges of the lines ascend and
/// are disjoint.
#[derive(Debug, Drop)]
pub struct Saved {
    /// The lines of the report `map`.
    pub map: Vec<MapLine>,
    /// The ranges of the report `owners`, without the owners' names.
    pub owners: Vec<Range>,
    /// The lines of the report `blocks`.
    pub blocks: Vec<BlockLine>,
}

/// Returns the verdict on saved reports, for physical addresses of this width: `Sound`, or the
/// first fault. The kinds of faults are tried in the order of the variants of [`Verdict`]. In each
/// report the ranges of the lines must ascend and be disjoint, and there must be fewer than 2^32
/// blocks. Allocates nothing, so the result is always `Ok`. A frame number in the verdict is below
/// 2^40.
pub fn judge(saved: &Saved, width: Width) -> Result<Verdict, Memory>
    requires map_order { AscendApart (map (λ l. l.range) saved.now.map.items) }
    requires owner_order { AscendApart (map (λ r. r) saved.now.owners.items) }
    requires block_order { AscendApart (map bytes_of_block saved.now.blocks.items) }
    requires few { length saved.now.blocks.items < 2 ^ 32 }
    ensures verdict { result ≡ Ok (verdict_on_saved saved.now width) }
    ensures near { IfOk result HasFrameInSpace }
{
    if let Some(line) = first_misaligned(&saved.blocks) {
        return Ok(Verdict::Misaligned { line });
    }
    if let Some(line) = first_in_wrong_zone(&saved.blocks) {
        return Ok(Verdict::WrongZone { line });
    }
    let swept = sweep(saved, width.limit());
    if let Some(frame) = swept.not_free {
        return Ok(Verdict::NotFree { frame });
    }
    if let Some(frame) = swept.lost {
        return Ok(Verdict::Lost { frame });
    }
    match first_mergeable(&saved.blocks) {
        Some(line) => Ok(Verdict::NotMaximal { line }),
        None => Ok(Verdict::Sound),
    }
}

/// Law: the verdict is `Sound` exactly if the lines of these reports show that memory was
/// conserved.
pub fn sound_verdict_conserves_memory(saved: &Saved, width: Width)
    requires order { AscendApart (map bytes_of_block saved.now.blocks.items) }
    requires fit { All IsBlockLine saved.now.blocks.items }
    ensures { (verdict_on_saved saved.now width ≡ Verdict.Sound) ↔ SavedConservesMemory saved.now
        width }
{}
