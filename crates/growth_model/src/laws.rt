//! Laws of growth.
//!
//! `TablesAreClaimed` (`specs/Tables.antt`) says that both tables lie in claimed memory, apart from
//! each other. Each table begins at a frame boundary. All its bytes are claimed, none of them by an
//! allocation of the script. The two tables share no frame, and the kernel's image was claimed
//! first. Each change keeps this true wherever a call that makes it ends: after its last step, at a
//! refusal, or before a step because this program is out of memory. These laws need neither the
//! tables' bytes nor their records.

ghost use Rattle.std.specs.Prelude.{◌≡◌, ◌⊎◌, ℕ, ◌+◌, ◌*◌, ◌%◌, ◌^◌, ◌<◌, ◌≤◌, Bool, false, Some, None, IsSome, List, [], ◌∷◌, ◌++◌, Result, Ok, Err};
ghost use Rattle.bm_base.specs.Range.{RangeView, end_of};
ghost use Rattle.bm_base.specs.declared.range.TheConstants.{FRAME_SIZE};
ghost use Rattle.memblock_model.specs.declared.owner.Which.TheVariants as which;
ghost use Rattle.memblock_model.specs.declared.owner.Owner.{Owner};
ghost use Rattle.memblock_model.specs.declared.owner.Owner.TheVariants as owner;
ghost use Rattle.memblock_model.specs.declared.query.Query.{Query};
ghost use Rattle.memblock_model.specs.declared.item.Item.{Item};
ghost use Rattle.memblock_model.specs.declared.item.Item.TheVariants as item;
ghost use Rattle.memblock_model.specs.Items.{owner_of, limit_of};
ghost use Rattle.memblock_model.specs.Tables.{room_of, moved_to};
ghost use Rattle.memblock_model.specs.Search.{best_place};
ghost use Rattle.growth_model.specs.declared.refusal.Refusal.{Refusal};
ghost use Rattle.memblock_model.specs.declared.query.Request.{Request};
ghost use Rattle.growth_model.specs.Change.{Change, ◌>>◌ as in_turn, items_after_change, write_item};
ghost use Rattle.growth_model.specs.Growth.{round_up_to_frames, frames_for_bytes, is_full, count_uncovered_pieces, max_records_added_by_split, place_beside_range, reserved_growth, claim_range, free_range, memory_growth, add_range, set_range_node, set_range_mirror};
ghost use Rattle.growth_model.specs.Request.{place_for};
ghost use Rattle.growth_model.specs.Ends.{EndsAsChange, Allocates};
ghost use Rattle.growth_model.specs.Tables.{AreDisjoint, IsUnclaimed, TablesAreClaimed, TablesHaveRoom, IsKernelImage, HasFirstItem, OverlapsNoTable, MayClaim};
ghost use Rattle.growth_model.specs.Room.{IsInAddressSpace, DoublesRoom, HasRoomAfter};

/// Law: if each of two calls ends as its change defines, both calls together end as the two changes
/// together define. If the first call succeeds, they end as the second one does; otherwise the
/// second isn't made, and they end with the error of the first.
pub fn successive_calls_compose()
    ensures second { (result : Result (Unit {0}) Refusal) (old mid new : List Item)
        (first second : Change) →
        EndsAsChange {T = Unit {0}} (Ok tt) old mid first → EndsAsChange result mid new second
        → EndsAsChange result old new (in_turn first second) }
    ensures first { (error : Refusal) (old new : List Item) (first second : Change) →
        EndsAsChange {T = Unit {0}} (Err error) old new first
        → EndsAsChange {T = Unit {0}} (Err error) old new (in_turn first second) }
{}

/// Law: the first claim, of the kernel's image for the kernel, needs no growth. After it both
/// tables lie in claimed memory, apart from each other.
pub fn first_claim_places_tables()
    ensures alone { (kernel : RangeView) → end_of kernel ≤ 2 ^ 64 →
        claim_range kernel owner.Kernel [] ≡ write_item (item.Claim kernel owner.Kernel) [] }
    ensures placed { (kernel : RangeView) → IsKernelImage kernel
        → TablesAreClaimed kernel (item.Claim kernel owner.Kernel ∷ []) }
{}

/// Law: from the first claim on, both tables lie in claimed memory, apart from each other, after
/// each allowed claim, whether it succeeds or fails. This also holds after the free of a range that
/// overlaps no table.
pub fn claims_keep_table_places()
    ensures claimed { (kernel : RangeView) (result : Result (Unit {0}) Refusal)
        (old new : List Item) (range : RangeView) (who : Owner) →
        IsKernelImage kernel → end_of range ≤ 2 ^ 64 → (HasFirstItem old → TablesAreClaimed
        kernel old)
        → MayClaim kernel old range who →
        EndsAsChange result old new (claim_range range who) → HasFirstItem new
        → TablesAreClaimed kernel new }
    ensures freed { (kernel : RangeView) (result : Result (Unit {0}) Refusal) (old new : List Item)
        (range : RangeView) →
        TablesAreClaimed kernel old → OverlapsNoTable kernel range old
        → EndsAsChange result old new (free_range range) → TablesAreClaimed kernel new }
{}

/// Law: both tables still lie in claimed memory, apart from each other, after a call that adds
/// memory, gives it a node or makes it mirrored, whether the call succeeds or fails. This also
/// holds after a trim, a new limit and a new search direction.
pub fn memory_edits_keep_table_places()
    ensures added { (kernel : RangeView) (result : Result (Unit {0}) Refusal) (old new : List Item)
        (range : RangeView) →
        TablesAreClaimed kernel old → EndsAsChange result old new (add_range range)
        → TablesAreClaimed kernel new }
    ensures noded { (kernel : RangeView) (result : Result (Unit {0}) Refusal) (old new : List Item)
        (range : RangeView) (node : ℕ) →
        TablesAreClaimed kernel old → EndsAsChange result old new (set_range_node range node)
        → TablesAreClaimed kernel new }
    ensures mirrored { (kernel : RangeView) (result : Result (Unit {0}) Refusal)
        (old new : List Item) (range : RangeView) →
        TablesAreClaimed kernel old → EndsAsChange result old new (set_range_mirror range)
        → TablesAreClaimed kernel new }
    ensures trim { (kernel : RangeView) (items : List Item) → TablesAreClaimed kernel items
        → TablesAreClaimed kernel (items ++ item.Trim ∷ []) }
    ensures limit { (kernel : RangeView) (items : List Item) (at : ℕ)
        → TablesAreClaimed kernel items → TablesAreClaimed kernel (items ++ item.Limit at ∷ []) }
    ensures upward { (kernel : RangeView) (items : List Item) (on : Bool)
        → TablesAreClaimed kernel items →
        TablesAreClaimed kernel (items ++ item.Upward on ∷ []) }
{}

/// Law: both tables still lie in claimed memory, apart from each other, after an allocation for any
/// owner, whether it succeeds or fails.
pub fn allocations_keep_table_places()
    ensures { (kernel : RangeView) (result : Result ℕ Refusal) (old new : List Item)
        (request : Request) (who : Owner) →
        TablesAreClaimed kernel old → Allocates result old new
        (place_for request old) request.size who → TablesAreClaimed kernel new }
{}

/// Law: the range that a search finds is unclaimed and overlaps no table. The range that an
/// allocation gets was unclaimed and ends at or below the limit. A new range for the reserved table
/// begins at a frame boundary, overlaps no byte of the range `avoid`, and ends at or below the
/// limit. After a growth of the memory table, whether it succeeds or fails, that table is where it
/// was or in a new range that ends at or below the limit.
pub fn found_places_are_free()
    ensures unclaimed { (items : List Item) (query : Query) (place : ℕ)
        → best_place items query ≡ Some place →
        IsUnclaimed (owner_of items) (record { base = place; size = query.size }) }
    ensures away { (kernel : RangeView) (items : List Item) (query : Query) (place : ℕ)
        → TablesAreClaimed kernel items → best_place items query ≡ Some place →
        OverlapsNoTable kernel (record { base = place; size = query.size }) items }
    ensures allocated { (items : List Item) (request : Request) (place : ℕ)
        → place_for request items ≡ Some place →
        IsUnclaimed (owner_of items) (record { base = place; size = request.size }) }
    ensures within { (items : List Item) (request : Request) (place : ℕ)
        → place_for request items ≡ Some place →
        place + request.size ≤ limit_of items }
    ensures aligned { (avoid : RangeView) (room : ℕ) (items : List Item) (place : ℕ)
        → place_beside_range avoid room items ≡ Some place →
        place % FRAME_SIZE ≡ 0 }
    ensures beside { (avoid : RangeView) (room : ℕ) (items : List Item) (place : ℕ)
        → place_beside_range avoid room items ≡ Some place →
        AreDisjoint avoid (frames_for_bytes place (48 * room)) }
    ensures below { (avoid : RangeView) (room : ℕ) (items : List Item) (place : ℕ)
        → place_beside_range avoid room items ≡ Some place →
        place + round_up_to_frames (48 * room) ≤ limit_of items }
    ensures memory { (result : Result (Unit {0}) Refusal) (old new : List Item) (place : ℕ)
        → EndsAsChange result old new memory_growth →
        moved_to which.Memory new ≡ Some place →
        (moved_to which.Memory old ≡ Some place)
        ⊎ (place + round_up_to_frames (48 * room_of which.Memory old) ≤ limit_of old) }
{}

/// Law: a growth that isn't refused doubles its table's room, and adds at most two records: one
/// for the claim of the new place, and one for the record that freeing the old place may split.
pub fn growth_doubles_room()
    ensures reserved { (avoid : RangeView) (items : List Item) → IsInAddressSpace items
        → (reserved_growth avoid items).refused ≡ None →
        DoublesRoom which.Reserved items (items_after_change items (reserved_growth avoid items)) }
    ensures memory { (items : List Item) → IsInAddressSpace items
        → (memory_growth items).refused ≡ None →
        DoublesRoom which.Memory items (items_after_change items (memory_growth items)) }
{}

/// Law: after two growths in a row a table has room for any claim, free, added range, node or
/// mirrored range. The claim of an unclaimed range isn't refused if the reserved table has room for
/// it, or finds new memory that doesn't overlap the range.
// A range has at most one uncovered piece more than the table has records. After one growth the
// table may therefore still lack room for a few records. The second growth makes room for them.
pub fn two_growths_are_enough()
    ensures claimed { (range : RangeView) (items : List Item) → IsInAddressSpace items
        → TablesHaveRoom items → end_of range ≤ 2 ^ 64 →
        HasRoomAfter which.Reserved (count_uncovered_pieces which.Reserved range)
        (reserved_growth range) items }
    ensures freed { (range : RangeView) (items : List Item) → IsInAddressSpace items
        → TablesHaveRoom items →
        HasRoomAfter which.Reserved max_records_added_by_split (reserved_growth range) items }
    ensures added { (range : RangeView) (items : List Item) → IsInAddressSpace items
        → TablesHaveRoom items → end_of range ≤ 2 ^ 64 →
        HasRoomAfter which.Memory (count_uncovered_pieces which.Memory range) memory_growth items }
    ensures labelled { (items : List Item) → IsInAddressSpace items → TablesHaveRoom items
        → HasRoomAfter which.Memory max_records_added_by_split memory_growth items }
    ensures free { (kernel range : RangeView) (who : Owner) (items : List Item)
        → IsInAddressSpace items → TablesHaveRoom items → TablesAreClaimed kernel items →
        0 < range.size → end_of range ≤ 2 ^ 64 → IsUnclaimed (owner_of items) range →
        (is_full which.Reserved (count_uncovered_pieces which.Reserved range) items ≡ false)
        ⊎ IsSome (place_beside_range range (room_of which.Reserved items) items) →
        (claim_range range who items).refused ≡ None }
{}
