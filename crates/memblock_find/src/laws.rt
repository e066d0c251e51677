//! Laws of the search and of runs of unclaimed memory, on which the layers above may rest.
ghost use Rattle.std.specs.Prelude.{◌≡◌, ℕ, ◌^◌, Bool, List};
ghost use Rattle.address_runs.specs.Runs.{RunOf, value_at};
ghost use Rattle.address_runs.specs.Edits.{IsEmptyFrom};
ghost use Rattle.memblock_model.specs.declared.item.Item.{Item};
ghost use Rattle.memblock_model.specs.declared.query.Query.{Query as AnyQuery};
ghost use Rattle.memblock_model.specs.declared.owner.Which.TheVariants as which;
ghost use Rattle.memblock_model.specs.Labels.{LabelView, Labels};
ghost use Rattle.memblock_model.specs.Items.{upward_of};
ghost use Rattle.memblock_model.specs.Tables.{table_of, records_of};
ghost use Rattle.memblock_model.specs.Search.{outermost_fit, top_place, best_place_in, best_place};
ghost use Rattle.memblock_ranges.specs.Tables.{TablesView};
ghost use Rattle.memblock_find.specs.Unclaimed.{unclaimed_memory, unclaimed_in_tables, IsRunBelow, IsRunFrom};

/// Law: if the two tables have the records that a list of journal items gives them, a search of the
/// tables finds what a search defined on the items finds. Unclaimed memory is then what the items
/// make memory and leave without an owner.
pub fn searches_follow_the_items()
    ensures best { (items : List Item) (t : TablesView) (q : AnyQuery) →
        IsEmptyFrom (2 ^ 64) (table_of which.Memory items)
        → IsEmptyFrom (2 ^ 64) (table_of which.Reserved items) →
        t.memory.records ≡ records_of which.Memory items
        → t.reserved.records ≡ records_of which.Reserved items →
        best_place_in (upward_of items) (value_at t.memory.records) (value_at t.reserved.records) q
        ≡ best_place items q }
    ensures top { (items : List Item) (t : TablesView) (q : AnyQuery) (mirror : Bool) →
        IsEmptyFrom (2 ^ 64) (table_of which.Memory items)
        → IsEmptyFrom (2 ^ 64) (table_of which.Reserved items) →
        t.memory.records ≡ records_of which.Memory items
        → t.reserved.records ≡ records_of which.Reserved items →
        outermost_fit (record { mirror = mirror; up = upward_of items }) (value_at t.memory.records)
        (value_at t.reserved.records) q ≡
        top_place items q mirror }
    ensures free { (items : List Item) (t : TablesView) →
        IsEmptyFrom (2 ^ 64) (table_of which.Memory items)
        → IsEmptyFrom (2 ^ 64) (table_of which.Reserved items) →
        t.memory.records ≡ records_of which.Memory items
        → t.reserved.records ≡ records_of which.Reserved items →
        unclaimed_in_tables t
        ≡ unclaimed_memory (table_of which.Memory items) (table_of which.Reserved items) }
{}

/// Law: at most one run is the highest run of unclaimed memory below an address, and at most one is
/// the lowest from an address on.
pub fn free_runs_are_unique()
    ensures below { (f : Labels) (below : ℕ) (r s : RunOf LabelView) → IsRunBelow f below r
        → IsRunBelow f below s → r ≡ s }
    ensures from { (f : Labels) (from : ℕ) (r s : RunOf LabelView) → IsRunFrom f from r
        → IsRunFrom f from s → r ≡ s }
{}
