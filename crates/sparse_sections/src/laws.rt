//! Laws about the sections that have memory. To find them, the records of the memory table must be
//! whole frames with a node. The first law says that this is so once memory has its nodes.

ghost use Rattle.std.specs.Prelude.{◌≡◌, ℕ, ◌/◌, ◌^◌, ◌<◌, ◌≤◌, ◌==◌, Some, None, List, length, get_or, find};
ghost use Rattle.std.specs.List.{All};
ghost use Rattle.bm_base.specs.declared.width.Width.{Width as AnyWidth};
ghost use Rattle.address_runs.specs.Runs.{RunOf, IsRunsOf, value_at};
ghost use Rattle.memblock_model.specs.declared.item.Item.{Item as AnyItem};
ghost use Rattle.memblock_model.specs.declared.owner.Which.TheVariants as which;
ghost use Rattle.memblock_model.specs.Labels.{LabelView, Labels};
ghost use Rattle.memblock_model.specs.Items.{memory_of, limit_of};
ghost use Rattle.memblock_model.specs.Tables.{records_of};
ghost use Rattle.memblock_frames.specs.HeadRecords.{AreWholeFrames};
ghost use Rattle.memblock_grow.specs.declared.stop.Section.{Section as AnySection};
ghost use Rattle.stage_steps.specs.Steps.{items_after_step};
ghost use Rattle.stage_steps.specs.Nodes.{IsMemoryWithNodes};
ghost use Rattle.sparse_sections.specs.Present.{present, IsWholeFramesWithNode, HasNodeOfLowestByte, IsSectionAt, AreSectionsInOrder};
ghost use Rattle.sparse_sections.specs.Roots.{root_of, first_of_each_root, place_roots};

/// Law: once memory has its nodes, the records of the memory table are the runs of memory (ranges
/// of one label), and all of them are whole frames. They give each byte the label that the
/// journal's items give it. If memory also ends at or below 4 PiB, [`crate::present`] can find
/// sections in them.
pub fn records_are_runs_of_whole_frames()
    ensures runs { (limit : ℕ) (items : List AnyItem) → limit ≤ 2 ^ 64
        → IsMemoryWithNodes limit (memory_of items) →
        IsRunsOf (memory_of items) (records_of which.Memory items) }
    ensures told { (limit : ℕ) (items : List AnyItem) → limit ≤ 2 ^ 64
        → IsMemoryWithNodes limit (memory_of items) →
        value_at (records_of which.Memory items) ≡ memory_of items }
    ensures frames { (limit : ℕ) (f : Labels) (rs : List (RunOf LabelView)) → IsRunsOf f rs
        → IsMemoryWithNodes limit f → AreWholeFrames rs }
    ensures records { (f : Labels) (rs : List (RunOf LabelView)) → IsRunsOf f rs
        → IsMemoryWithNodes (2 ^ 52) f → All IsWholeFramesWithNode rs }
{}

/// Law: if memory is whole frames with nodes, each of its bytes below 4 PiB is in a section of the
/// list `present`. Each section of this list has memory, and its node is that of its lowest byte of
/// memory.
pub fn present_sections_are_memory()
    ensures all { (limit x : ℕ) (f : Labels) (label : LabelView) → IsMemoryWithNodes limit f → x <
        2 ^ 52
        → f x ≡ Some label →
        (i : ℕ) × IsSectionAt (present f) i (x / 0x8000000) }
    ensures each { (limit : ℕ) (f : Labels) → IsMemoryWithNodes limit f
        → All (HasNodeOfLowestByte f) (present f) }
{}

/// Law: the list `present` of sections with memory is in ascending order, and they lie below 4 PiB.
/// Once memory has its nodes, each of these sections has a node below 1,024.
pub fn present_sections_ascend()
    ensures ascend { (f : Labels) → AreSectionsInOrder (present f) }
    ensures nodes { (limit : ℕ) (f : Labels) → IsMemoryWithNodes limit f
        → All (λ s. s.node < 1024) (present f) }
{}

/// Law: if the sections are in ascending order, so are the roots (arrays of 256 sections) that are
/// placed, and each root is placed once. A root is placed for the first section that belongs to it.
/// The roots are therefore exactly those of the sections, each with the node of its lowest section.
pub fn roots_ascend()
    ensures ascend { (sections : List AnySection) → AreSectionsInOrder sections →
        (i j : ℕ) (d : AnySection) → i < j → j < length (first_of_each_root None sections) →
        root_of (get_or (first_of_each_root None sections) i d)
        < root_of (get_or (first_of_each_root None sections) j d) }
    ensures first { (sections : List AnySection) (root : ℕ) →
        find (λ s. root_of s == root) (first_of_each_root None sections)
        ≡ find (λ s. root_of s == root) sections }
{}

/// Law: placing the table of section roots and the roots changes neither memory nor the limit of
/// allocations, whether it succeeds or not.
pub fn place_roots_keeps_memory_and_limit()
    ensures memory { (width : AnyWidth) (sections : List AnySection) (items : List AnyItem) →
        memory_of (items_after_step items (place_roots width sections items)) ≡ memory_of items }
    ensures limit { (width : AnyWidth) (sections : List AnySection) (items : List AnyItem) →
        limit_of (items_after_step items (place_roots width sections items)) ≡ limit_of items }
{}
