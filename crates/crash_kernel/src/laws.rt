//! Laws of the crash area, for the later stages of a boot. A [`Crash`] says only where an area
//! lies; these laws say what it was before.

ghost use Rattle.std.specs.Prelude.{◌≡◌, ℕ, Option, List, Ok};
ghost use Rattle.bm_base.specs.Range.{RangeView};
ghost use Rattle.memblock_model.specs.declared.item.Item.{Item as AnyItem};
ghost use Rattle.memblock_model.specs.Items.{limit_of, memory_of};
ghost use Rattle.boot_options.specs.Crash.{CrashOptionView};
ghost use Rattle.stage_steps.specs.Steps.{items_after_step};
ghost use Rattle.crash_kernel.specs.declared.crash.Crash.TheVariants as crash;
ghost use Rattle.crash_kernel.specs.Reservation.{reserve_crash_area, reserve_crash_area_by};
ghost use Rattle.crash_kernel.specs.Request.{request_by};
ghost use Rattle.crash_kernel.specs.Total.{memory_bytes};
ghost use Rattle.crash_kernel.specs.declared.rule.CrashRule.{CrashRule as AnyRule};
ghost use Rattle.crash_kernel.specs.declared.rule.CrashRule.TheVariants as rules;
ghost use Rattle.crash_kernel.specs.ReservedArea.{IsAreaFor, IsCrashArea};

/// Law: reserving the crash area changes neither memory nor the limit of allocations, whatever its
/// outcome.
pub fn reserve_keeps_memory_and_limit()
    ensures memory { (asked : CrashOptionView) (items : List AnyItem) →
        memory_of (items_after_step items (reserve_crash_area asked items)) ≡ memory_of items }
    ensures limit { (asked : CrashOptionView) (items : List AnyItem) →
        limit_of (items_after_step items (reserve_crash_area asked items)) ≡ limit_of items }
{}

/// Law: a crash area that was reserved was free memory of one node before. It has the requested
/// size, and begins at a multiple of 1 MiB. It has a low part exactly if it lies at or above 4 GiB
/// and the low size isn't 0. The low part ends at or below 4 GiB, and was still free memory of one
/// node after the area was claimed.
pub fn reserved_area_was_free()
    ensures { (asked : CrashOptionView) (items : List AnyItem) (main : RangeView)
        (low : Option RangeView) →
        (reserve_crash_area asked items).answer ≡ Ok (crash.At main low)
        → IsCrashArea asked items main low }
{}

/// Law: by the rule `ExactTotal`, [`reserve_by_rule`](crate::reserve_by_rule) does exactly what
/// [`reserve`](crate::reserve) does. The number `added` plays no part in it.
pub fn own_rule_is_reserve()
    ensures { (added : ℕ) (asked : CrashOptionView) →
        reserve_crash_area_by rules.ExactTotal added asked ≡ reserve_crash_area asked }
{}

/// Law: by either rule for its size, reserving the crash area changes neither memory nor the limit
/// of allocations, whatever its outcome.
pub fn reserve_by_keeps_memory_and_limit()
    ensures memory { (rule : AnyRule) (added : ℕ) (asked : CrashOptionView) (items : List AnyItem) →
        memory_of (items_after_step items (reserve_crash_area_by rule added asked items))
        ≡ memory_of items }
    ensures limit { (rule : AnyRule) (added : ℕ) (asked : CrashOptionView) (items : List AnyItem) →
        limit_of (items_after_step items (reserve_crash_area_by rule added asked items))
        ≡ limit_of items }
{}

/// Law: by either rule for its size, a crash area that was reserved was free memory of one node
/// before. It has the size that the rule gives, and begins at a multiple of 1 MiB. It has a low
/// part exactly if it lies at or above 4 GiB and the low size isn't 0. The low part ends at or
/// below 4 GiB, and was still free memory of one node after the area was claimed.
pub fn area_by_rule_was_free()
    ensures { (rule : AnyRule) (added : ℕ) (asked : CrashOptionView) (items : List AnyItem)
        (main : RangeView) (low : Option RangeView) →
        (reserve_crash_area_by rule added asked items).answer ≡ Ok (crash.At main low)
        → IsAreaFor (request_by rule (memory_bytes (memory_of items)) added asked) asked items
        main low }
{}
