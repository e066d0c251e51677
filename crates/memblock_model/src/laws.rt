//! Laws of the definitions: empty functions whose contracts are proven facts. They are functions
//! so that an unproved law can't go unnoticed.

ghost use Rattle.std.specs.Prelude.{◌≡◌, ℕ, ◌^◌, ◌<◌, ◌≤◌, Bool, true, false, Some, None, List, [], ◌∷◌, ◌++◌};
ghost use Rattle.bm_base.specs.Range.{covers};
ghost use Rattle.address_runs.specs.Runs.{DecidesEquality, IsRunsOf};
ghost use Rattle.memblock_model.specs.declared.item.Item.{Item};
ghost use Rattle.memblock_model.specs.declared.owner.Which.{Which};
ghost use Rattle.memblock_model.specs.declared.query.Query.{Query};
ghost use Rattle.memblock_model.specs.declared.query.Mode.{Mode};
ghost use Rattle.address_runs.specs.Edits.{IsEmptyFrom};
ghost use Rattle.bm_base.specs.Frames.{frame_around};
ghost use Rattle.memblock_model.specs.Labels.{Labels};
ghost use Rattle.memblock_model.specs.Same.{same_label, same_owner};
ghost use Rattle.memblock_model.specs.Items.{trim_frames, owners_after, owner_of, memory_after, memory_of, limit_after, limit_of, upward_after, upward_of, owner_runs_of};
ghost use Rattle.memblock_model.specs.Tables.{table_of, table_after, room_of, room_after, moved_to, moved_after, records_of};
ghost use Rattle.memblock_model.specs.Search.{is_allowed_mirror, fits_in, outermost_fit, best_place_in};

/// Law: the state after a list of items and one more item follows from the state after the list and
/// from that last item alone. The state is the owner and the label of each byte, the limit of
/// allocations, and the direction of searches.
pub fn appended_item_acts_last()
    ensures owners { (items : List Item) (i : Item) →
        owner_of (items ++ i ∷ []) ≡ owners_after (owner_of items) i }
    ensures memory { (items : List Item) (i : Item) →
        memory_of (items ++ i ∷ []) ≡ memory_after (memory_of items) i }
    ensures limit { (items : List Item) (i : Item) →
        limit_of (items ++ i ∷ []) ≡ limit_after (limit_of items) i }
    ensures upward { (items : List Item) (i : Item) →
        upward_of (items ++ i ∷ []) ≡ upward_after (upward_of items) i }
{}

/// Law: a table's labels, room (in records) and address after a new item depend only on the item
/// and on the same table's labels, room and address before it. They don't depend on the owners.
pub fn tables_need_no_owners()
    ensures says { (w : Which) (items : List Item) (i : Item) →
        table_of w (items ++ i ∷ []) ≡ table_after w (table_of w items) i }
    ensures room { (w : Which) (items : List Item) (i : Item) →
        room_of w (items ++ i ∷ []) ≡ room_after w (room_of w items) i }
    ensures place { (w : Which) (items : List Item) (i : Item) →
        moved_to w (items ++ i ∷ []) ≡ moved_after w (moved_to w items) i }
{}

/// Law: `same_label` and `same_owner` are true exactly if their two arguments are equal.
pub fn tests_decide_equality()
    ensures labels { DecidesEquality same_label }
    ensures owners { DecidesEquality same_owner }
{}

/// Law: the runs of owners and the records of a table are in ascending order. They don't overlap,
/// none is empty, and equal neighbours are merged. They state the same owner or label for each
/// address as the items do. This holds if the items give no address at or above 2^64 an owner or
/// label.
pub fn lists_are_runs()
    ensures owners { (items : List Item) → IsEmptyFrom (2 ^ 64) (owner_of items) →
        IsRunsOf (owner_of items) (owner_runs_of items) }
    ensures records { (w : Which) (items : List Item) → IsEmptyFrom (2 ^ 64) (table_of w items) →
        IsRunsOf (table_of w items) (records_of w items) }
{}

/// Law: after a trim, either all bytes of a frame are memory with the same label, or none is
/// memory.
pub fn trimmed_frame_is_whole()
    ensures { (f : Labels) (x y : ℕ) → covers (frame_around x) y ≡ true →
        trim_frames f y ≡ trim_frames f x }
{}

/// Law: the address that `outermost_fit` returns fits the query, and it is the greatest address
/// that does, or the lowest if the search goes up. If it returns `None`, no address below 2^64
/// fits.
pub fn top_is_outermost()
    ensures fits { (mode : Mode) (memory reserved : Labels) (q : Query) (a : ℕ) →
        outermost_fit mode memory reserved q ≡ Some a →
        fits_in mode.mirror memory reserved q a ≡ true }
    ensures greatest { (mode : Mode) (memory reserved : Labels) (q : Query) (a b : ℕ) →
        mode.up ≡ false →
        outermost_fit mode memory reserved q ≡ Some a → b < 2 ^ 64 →
        fits_in mode.mirror memory reserved q b ≡ true → b ≤ a }
    ensures least { (mode : Mode) (memory reserved : Labels) (q : Query) (a b : ℕ) →
        mode.up ≡ true →
        outermost_fit mode memory reserved q ≡ Some a → b < 2 ^ 64 →
        fits_in mode.mirror memory reserved q b ≡ true → a ≤ b }
    ensures none { (mode : Mode) (memory reserved : Labels) (q : Query) (b : ℕ) →
        outermost_fit mode memory reserved q ≡ None → b < 2 ^ 64 →
        fits_in mode.mirror memory reserved q b ≡ false }
{}

/// Law: `best_place_in` returns the address that `outermost_fit` finds in mirrored memory or, if it
/// finds none there, the one that it finds in any memory. The query fits at that address. If
/// `best_place_in` returns `None`, the query fits at no address below 2^64.
pub fn best_is_mirrored_first()
    ensures fits { (up : Bool) (memory reserved : Labels) (q : Query) (a : ℕ) →
        best_place_in up memory reserved q ≡ Some a → fits_in false memory reserved q a ≡ true }
    ensures mirrored { (up : Bool) (memory reserved : Labels) (q : Query) (a : ℕ) →
        outermost_fit (record { mirror = true; up = up }) memory reserved q ≡ Some a →
        best_place_in up memory reserved q ≡ Some a }
    ensures other { (up : Bool) (memory reserved : Labels) (q : Query) →
        outermost_fit (record { mirror = true; up = up }) memory reserved q ≡ None →
        best_place_in up memory reserved q
        ≡ outermost_fit (record { mirror = false; up = up }) memory reserved q }
    ensures unmirrored { (up : Bool) (memory reserved : Labels) (q : Query) →
        ((x : ℕ) → is_allowed_mirror true (memory x) ≡ false) →
        best_place_in up memory reserved q
        ≡ outermost_fit (record { mirror = false; up = up }) memory reserved q }
    ensures none { (up : Bool) (memory reserved : Labels) (q : Query) (b : ℕ) →
        best_place_in up memory reserved q ≡ None → b < 2 ^ 64 →
        fits_in false memory reserved q b ≡ false }
{}
