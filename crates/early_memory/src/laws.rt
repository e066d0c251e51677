//! Laws about memory after the early stages of the boot, before any node is known. A byte is memory
//! exactly if its frame is usable in the firmware's map. This also holds if a table of memblock had
//! to grow meanwhile.

ghost use Rattle.std.specs.Prelude.{◌≡◌, ℕ, ◌-◌, ◌/◌, ◌%◌, ◌<◌, ◌≤◌, true, Some, List, [], IfSome, Ok};
ghost use Rattle.std.specs.List.{All};
ghost use Rattle.address_runs.specs.Runs.{RunOf, AreRuns, IsRunsOf, value_at};
ghost use Rattle.e820_model.specs.Map.{TypeAt};
ghost use Rattle.e820_model.specs.Usable.{is_usable_frame, types_below};
ghost use Rattle.memblock_model.specs.declared.item.Item.{Item as AnyItem};
ghost use Rattle.memblock_model.specs.Items.{ItemsHaveBytes, limit_of, memory_of};
ghost use Rattle.memblock_model.specs.Labels.{LabelView};
ghost use Rattle.growth_model.specs.Requests.{carry_out_items};
ghost use Rattle.early_memory.specs.EarlyInputs.{EarlyInputs, FrameRange};
ghost use Rattle.early_memory.specs.Memory.{end_of_last_run, memory_end, mirrored_memory, usable_memory};
ghost use Rattle.early_memory.specs.FirstItems.{early_items};

use bm_base::FRAME_SIZE;

/// Law: after the early stages a byte is memory exactly if its frame is usable: all bytes of the
/// frame are RAM or the kernel's own memory in the map, below the limit of physical addresses. No
/// memory has a node. Memory is mirrored exactly if its frame is in `e.mirrors`. The limit of
/// allocations is the end of the last usable frame.
pub fn memory_is_usable_frames()
    ensures memory { (e : EarlyInputs) (map : List (RunOf ℕ)) (items : List AnyItem) → AreRuns map →
        carry_out_items (early_items e map) [] ≡ Ok items →
        (x : ℕ) →
        memory_of items x ≡ mirrored_memory e.mirrors (usable_memory e.limit (value_at map)) x }
    ensures limit { (e : EarlyInputs) (map : List (RunOf ℕ)) (items : List AnyItem) →
        carry_out_items (early_items e map) [] ≡ Ok items
        → limit_of items ≡ memory_end e.limit (value_at map) }
{}

/// Law: all memory, mirrored or not, ends at or below the end of the last usable frame. That end is
/// a multiple of the frame size, and at most the limit of physical addresses. Unless it is 0, the
/// frame right below it is usable.
pub fn memory_ends_at_last_usable_frame()
    ensures below { (limit : ℕ) (f : TypeAt) (mirrors : List FrameRange) (x : ℕ) (label : LabelView)
        →
        mirrored_memory mirrors (usable_memory limit f) x ≡ Some label → x < memory_end limit f }
    ensures reached { (limit : ℕ) (f : TypeAt) → memory_end limit f ≤ limit }
    ensures whole { (limit : ℕ) (f : TypeAt) → memory_end limit f % FRAME_SIZE ≡ 0 }
    ensures last { (limit : ℕ) (f : TypeAt) → 0 < memory_end limit f →
        is_usable_frame (types_below limit f) ((memory_end limit f - 1) / FRAME_SIZE) ≡ true }
{}

/// Law: the last run of memory (a range of bytes with the same label) ends at the end of the last
/// usable frame. That end can therefore be read from the last record of memblock's memory table.
pub fn memory_ends_with_its_last_run()
    ensures { (limit : ℕ) (f : TypeAt) (mirrors : List FrameRange) (runs : List (RunOf LabelView)) →
        IsRunsOf (mirrored_memory mirrors (usable_memory limit f)) runs
        → end_of_last_run runs ≡ memory_end limit f }
{}

/// Law: no item of `early_items` has an empty range, if the kernel's image, the initrd (if there is
/// one) and each range of mirrored frames aren't empty.
pub fn no_early_item_is_empty()
    ensures { (e : EarlyInputs) (map : List (RunOf ℕ)) → 0 < e.kernel.size
        → IfSome e.initrd (λ range. 0 < range.size) →
        All (λ r. 0 < r.count) e.mirrors → AreRuns map → ItemsHaveBytes (early_items e map) }
{}
