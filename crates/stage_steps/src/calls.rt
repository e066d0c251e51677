//! Calls of memblock for the stages of a boot. If memblock refuses a call, the error says why the
//! boot stops.
ghost use Rattle.std.specs.Prelude.{◌≡◌, ℕ, ◌+◌, ◌-◌, ◌^◌, ◌<◌, ◌≤◌, false, IfOk, IsOk, Some};
ghost use Rattle.memblock_model.specs.declared.owner.Which.TheVariants as tables_of;
ghost use Rattle.growth_model.specs.Growth.{set_range_node, count_uncovered_pieces, max_records_added_by_split, is_full};
ghost use Rattle.growth_model.specs.Request.{place_for};
ghost use Rattle.growth_model.specs.Tables.{HasFirstItem};
ghost use Rattle.memblock_grow.specs.Continues.{ContinuesMemblock};
ghost use Rattle.stage_steps.specs.Causes.{error_of_stage_cause, stop_for_refusal};
ghost use Rattle.stage_steps.specs.Steps.{EndsAsStage};
ghost use Rattle.stage_steps.specs.Requests.{place_or_stop, change_or_stop};

use bm_base::Range;
use boot_journal::Owner;
use growth_model::{Refusal, Request};
use memblock_grow::{Memblock, StageStop, What};

/// Converts the error of a memblock call to the reason why the stage stops the boot. `what` is what
/// the stage tried to allocate.
pub fn stop_for_refusal(what: What, refusal: Refusal) -> StageStop
    ensures { result ≡ stop_for_refusal what refusal }
{
    match refusal {
        Refusal::NoGap => StageStop::NoPlace { what },
        Refusal::NoGapForTable { which, room } => StageStop::NoTablePlace { which, room },
        Refusal::Memory => StageStop::Memory,
    }
}

/// Allocates memory for `what`, which the boot needs, and returns its address. The size must be at
/// least 1, and the alignment a power of two. If a place fits, the reserved table has room for it
/// and the journal has room for an item, the call can't fail.
///
/// # Errors
///
/// - `NoPlace` if no place fits the request.
/// - `NoTablePlace` if a table of memblock has to grow and no place is found for it.
/// - `Memory` if this program is out of memory. A table may have grown by then, but nothing is
///   claimed for `what`.
pub fn place_or_stop(
    memblock: &mut Memblock,
    what: What,
    request: &Request,
    owner: Owner,
) -> Result<u64, StageStop>
    requires begun { HasFirstItem memblock.old.journal.items }
    requires some { 1 ≤ request.now.size }
    requires aligned { (k : ℕ) × (request.now.align ≡ 2 ^ k) }
    ensures ends { EndsAsStage (place_or_stop what request.now owner) error_of_stage_cause result
        memblock.old.journal.items memblock.new.journal.items }
    ensures inside { IfOk result (λ base. base + request.now.size < 2 ^ 64) }
    ensures ready { (place : ℕ) → place_for request.now memblock.old.journal.items ≡ Some place
        → 0 < memblock.old.journal.spare →
        is_full tables_of.Reserved (count_uncovered_pieces tables_of.Reserved
        (record { base = place; size = request.now.size }))
        memblock.old.journal.items ≡ false → IsOk result
        × (memblock.new.journal.spare ≡ memblock.old.journal.spare - 1) }
    ensures goes_on { ContinuesMemblock memblock.old memblock.new }
{
    match memblock.alloc(request, owner) {
        Ok(base) => Ok(base),
        Err(refusal) => Err(stop_for_refusal(what, refusal)),
    }
}

/// Sets the node of all memory in the range (`memblock_set_node`). The range must not be empty, and
/// the node must be below 1,024. If the memory table has room for two more records and the journal
/// has room for an item, the call can't fail.
///
/// # Errors
///
/// - `NoTablePlace` if a table of memblock has to grow and no place is found for it.
/// - `Memory` if this program is out of memory. A table may have grown by then, but no node is set.
pub fn set_node_or_stop(memblock: &mut Memblock, range: Range, node: u32) -> Result<(), StageStop>
    requires begun { HasFirstItem memblock.old.journal.items }
    requires some { 0 < range.size }
    requires node { node < 1024 }
    ensures ends { EndsAsStage (change_or_stop (set_range_node range node)) error_of_stage_cause
        result
        memblock.old.journal.items memblock.new.journal.items }
    ensures ready { 0 < memblock.old.journal.spare
        → is_full tables_of.Memory max_records_added_by_split memblock.old.journal.items ≡ false →
        IsOk result × (memblock.new.journal.spare ≡ memblock.old.journal.spare - 1) }
    ensures goes_on { ContinuesMemblock memblock.old memblock.new }
{
    match memblock.set_node(range, node) {
        Ok(()) => Ok(()),
        Err(refusal) => Err(stop_for_refusal(What::NodeData(node), refusal)),
    }
}
