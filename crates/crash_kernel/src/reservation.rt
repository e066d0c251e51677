//! Claims the crash area and its low part, or frees the area again if the low part doesn't fit.

ghost use Rattle.std.specs.Prelude.{◌≡◌, ◌≢◌, ◌<◌, ◌≤◌, ◌^◌, IfErr, Ok};
ghost use Rattle.growth_model.specs.Tables.{HasFirstItem, OverlapsNoTable};
ghost use Rattle.growth_model.specs.declared.refusal.Refusal.TheVariants as refusals;
ghost use Rattle.stage_steps.specs.Causes.{refusal_for};
ghost use Rattle.stage_steps.specs.Steps.{EndsAsStage, return_value};
ghost use Rattle.memblock_grow.specs.Continues.{ContinuesMemblock};
ghost use Rattle.boot_options.specs.Crash.{crash_option_view};
ghost use Rattle.crash_kernel.specs.declared.crash.Crash.{Crash as AnyCrash};
ghost use Rattle.crash_kernel.specs.Reservation.{reserve_low_part, reserve_crash_area, reserve_crash_area_by};

use crate::crash::Crash;
use crate::places::{low_range, main_range, needs_low_part, search_failure};
use crate::request::{request_by, total_memory};
use crate::rule::CrashRule;
use bm_base::Range;
use boot_options::CrashOption;
use growth_model::Refusal;
use memblock_grow::Memblock;
use memblock_model::Owner;

/// The size of the low part without `crashkernel=SIZE,low`, 256 MiB (`reserve_crashkernel_low`).
/// The kernel takes more if `swiotlb=` requests larger bounce buffers; this program ignores
/// `swiotlb=`.
const DEFAULT_LOW_SIZE: u64 = 1 << 28;

/// Reserves the crash area that `option` requests, and its low part if it needs one
/// (`reserve_crashkernel`). Returns the outcome, which may be that nothing fits. The kernel's
/// image must be claimed already. For `Nothing`, `NoArea` and `InUse` the call allocates nothing
/// and can't fail.
///
/// # Errors
///
/// Completed steps stay: if claiming the low part fails, the area stays claimed.
///
/// - `NoGapForTable` if a table has to grow for a claim or a free and no place is found for it.
/// - `Memory` if this program is out of memory.
pub fn reserve(memblock: &mut Memblock, option: &CrashOption) -> Result<Crash, Refusal>
    requires begun { HasFirstItem memblock.old.journal.items }
    ensures ends { EndsAsStage
        (reserve_crash_area (crash_option_view option.now)) refusal_for result
        memblock.old.journal.items memblock.new.journal.items }
    ensures idle { (crash : AnyCrash) →
        reserve_crash_area (crash_option_view option.now) memblock.old.journal.items
        ≡ return_value crash memblock.old.journal.items → result ≡ Ok crash }
    ensures found { IfErr result (λ refusal. refusal ≢ refusals.NoGap) }
    ensures goes_on { ContinuesMemblock memblock.old memblock.new }
{
    reserve_by_rule(memblock, CrashRule::ExactTotal, 0, option)
}

/// Reserves the crash area that `option` requests, and its low part if it needs one
/// (`reserve_crashkernel`). The size follows from total memory by `rule`. `added` is the number of
/// bytes that became memory before memblock trimmed it to whole frames; only the rule of Linux 6.1
/// uses it. Returns the outcome, which may be that nothing fits. The kernel's image must be claimed
/// already. For `Nothing`, `NoArea` and `InUse` the call allocates nothing and can't fail.
///
/// # Errors
///
/// Completed steps stay: if claiming the low part fails, the area stays claimed.
///
/// - `NoGapForTable` if a table has to grow for a claim or a free and no place is found for it.
/// - `Memory` if this program is out of memory.
pub fn reserve_by_rule(
    memblock: &mut Memblock,
    rule: CrashRule,
    added: u64,
    option: &CrashOption,
) -> Result<Crash, Refusal>
    requires begun { HasFirstItem memblock.old.journal.items }
    requires in_reach { added ≤ 2 ^ 52 }
    ensures ends { EndsAsStage
        (reserve_crash_area_by rule added (crash_option_view option.now)) refusal_for result
        memblock.old.journal.items memblock.new.journal.items }
    ensures idle { (crash : AnyCrash) →
        reserve_crash_area_by rule added (crash_option_view option.now) memblock.old.journal.items
        ≡ return_value crash memblock.old.journal.items → result ≡ Ok crash }
    ensures found { IfErr result (λ refusal. refusal ≢ refusals.NoGap) }
    ensures goes_on { ContinuesMemblock memblock.old memblock.new }
{
    let total = total_memory(memblock.tables());
    let Some(area) = request_by(rule, total, added, option) else {
        return Ok(Crash::Nothing);
    };
    let Some(main) = main_range(memblock, &area) else {
        return Ok(search_failure(area.placement));
    };
    memblock.claim(main, Owner::Crash)?;
    let low = option.low.unwrap_or(DEFAULT_LOW_SIZE);
    if needs_low_part(&main, low) {
        reserve_low_part(memblock, main, low)
    } else {
        Ok(Crash::At { main, low: None })
    }
}

/// Reserves a low part of `size` bytes for the area `main`, which is claimed already. Returns `At`
/// with both. If no low part fits, frees the area again and returns `LowFailed`
/// (`reserve_crashkernel_low`).
///
/// # Errors
///
/// The area stays claimed.
///
/// - `NoGapForTable` if a table has to grow for the claim or the free and no place is found for it.
/// - `Memory` if this program is out of memory.
fn reserve_low_part(memblock: &mut Memblock, main: Range, size: u64) -> Result<Crash, Refusal>
    requires begun { HasFirstItem memblock.old.journal.items }
    requires main { 0 < main.size }
    requires away { OverlapsNoTable memblock.old.kernel main memblock.old.journal.items }
    requires some { 0 < size }
    ensures ends { EndsAsStage (reserve_low_part main size) refusal_for result
        memblock.old.journal.items memblock.new.journal.items }
    ensures found { IfErr result (λ refusal. refusal ≢ refusals.NoGap) }
    ensures goes_on { ContinuesMemblock memblock.old memblock.new }
{
    match low_range(memblock, size) {
        Some(low) => {
            memblock.claim(low, Owner::CrashLow)?;
            Ok(Crash::At {
                main,
                low: Some(low),
            })
        }
        None => {
            memblock.free(main)?;
            Ok(Crash::LowFailed)
        }
    }
}
