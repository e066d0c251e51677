//! Laws for the layer above. They say how many records an edit may add. They also say that a table
//! always has the records that a list of journal items gives it, if it is edited for each item that
//! is appended to the list.
ghost use Rattle.std.specs.Prelude.{◌≡◌, ℕ, ◌+◌, ◌^◌, ◌<◌, ◌≤◌, None, List, [], ◌∷◌, ◌++◌, length};
ghost use Rattle.bm_base.specs.Range.{RangeView, end_of};
ghost use Rattle.address_runs.specs.Runs.{RunOf, value_at};
ghost use Rattle.address_runs.specs.Edits.{cover_range, uncover_range, relabel_range, IsEmptyFrom};
ghost use Rattle.memblock_model.specs.declared.owner.Which.{Which};
ghost use Rattle.memblock_model.specs.declared.item.Item.{Item};
ghost use Rattle.memblock_model.specs.Labels.{LabelView, Labels};
ghost use Rattle.memblock_model.specs.Items.{trim_frames};
ghost use Rattle.memblock_model.specs.Tables.{table_of, table_after, records_for, records_of, uncovered_run_count};
ghost use Rattle.memblock_ranges.specs.Steps.{RangeEndsInAddressSpace};

/// Law: an edit adds few records. Adding a range to a table adds at most one record for each piece
/// of the range that the table doesn't cover yet (`nr_new` in `memblock_add_range`). Removing a
/// range adds at most one. Giving a range a node or a mirror flag adds at most two
/// (`memblock_isolate_range`). Trimming adds none.
pub fn edits_add_few_records()
    ensures covered { (r : RangeView) (label : LabelView) (f : Labels) → end_of r ≤ 2 ^ 64
        → IsEmptyFrom (2 ^ 64) f →
        length (records_for (cover_range r label f))
        ≤ length (records_for f) + uncovered_run_count r f }
    ensures uncovered { (r : RangeView) (f : Labels) → IsEmptyFrom (2 ^ 64) f →
        length (records_for (uncover_range r f)) ≤ length (records_for f) + 1 }
    ensures relabelled { (r : RangeView) (change : LabelView → LabelView) (f : Labels)
        → IsEmptyFrom (2 ^ 64) f →
        length (records_for (relabel_range r change f)) ≤ length (records_for f) + 2 }
    ensures trimmed { (f : Labels) → IsEmptyFrom (2 ^ 64) f →
        length (records_for (trim_frames f)) ≤ length (records_for f) }
{}

/// Law: if a table has n records, it leaves at most n + 1 pieces of a range uncovered. If it covers
/// no byte of a range that isn't empty, the whole range is one such piece.
pub fn uncovered_pieces_are_few()
    ensures few { (r : RangeView) (f : Labels) → end_of r ≤ 2 ^ 64 → IsEmptyFrom (2 ^ 64) f →
        uncovered_run_count r f ≤ length (records_for f) + 1 }
    ensures one { (r : RangeView) (f : Labels) → end_of r ≤ 2 ^ 64 → 0 < r.size →
        ((x : ℕ) → r.base ≤ x → x < end_of r → f x ≡ None) → uncovered_run_count r f ≡ 1 }
{}

/// Law: assume that a table has the records of a list of items. If it is edited as one more item
/// says, it has the records of the list with that item. If the item doesn't change the table, it
/// has them without an edit. No record ends above 2^64 if none did before and the item's range
/// doesn't.
pub fn edited_tables_match_items()
    ensures edited { (w : Which) (items : List Item) (i : Item) (old new : List (RunOf LabelView)) →
        IsEmptyFrom (2 ^ 64) (table_of w items) → old ≡ records_of w items →
        new ≡ records_for (table_after w (value_at old) i) → new ≡ records_of w (items ++ i ∷ []) }
    ensures untouched { (w : Which) (items : List Item) (i : Item) (old : List (RunOf LabelView)) →
        old ≡ records_of w items → table_after w (table_of w items) i ≡ table_of w items →
        old ≡ records_of w (items ++ i ∷ []) }
    ensures within { (w : Which) (items : List Item) (i : Item) → RangeEndsInAddressSpace i →
        IsEmptyFrom (2 ^ 64) (table_of w items)
        → IsEmptyFrom (2 ^ 64) (table_of w (items ++ i ∷ [])) }
{}
