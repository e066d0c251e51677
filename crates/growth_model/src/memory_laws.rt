//! Laws about what growth doesn't change. A boot is described by the items that it is to write.
//! Between them the journal has the items that growth writes, and these depend on everything that
//! happened before. The laws say that growth changes neither memory, nor its labels, nor the limit.
//! Statements about memory therefore need not mention growth.

ghost use Rattle.std.specs.Prelude.{◌≡◌, ℕ, List, ◌++◌, Ok};
ghost use Rattle.bm_base.specs.Range.{RangeView};
ghost use Rattle.memblock_model.specs.declared.item.Item.{Item as AnyItem};
ghost use Rattle.memblock_model.specs.declared.owner.Owner.{Owner as AnyOwner};
ghost use Rattle.memblock_model.specs.Items.{limit_of, memory_of};
ghost use Rattle.growth_model.specs.Change.{items_after_change};
ghost use Rattle.growth_model.specs.Growth.{claim_range, free_range, memory_growth, reserved_growth};
ghost use Rattle.growth_model.specs.Requests.{StepsKeepMemory, carry_out_items, memory_items};

/// Law: if the items that change neither memory nor the limit are left out of a list, the list
/// still gives the same memory and the same limit.
pub fn memory_depends_on_memory_items()
    ensures memory { (items : List AnyItem) → memory_of items ≡ memory_of (memory_items items) }
    ensures limit { (items : List AnyItem) → limit_of items ≡ limit_of (memory_items items) }
{}

/// Law: claims, frees and growths of the tables change neither what is memory, nor its labels, nor
/// the limit. This holds after each of their steps, so even if they fail.
pub fn claims_leave_memory()
    ensures reserved { (avoid : RangeView) (items : List AnyItem) →
        StepsKeepMemory (reserved_growth avoid items).steps }
    ensures memory { (items : List AnyItem) → StepsKeepMemory (memory_growth items).steps }
    ensures claims { (range : RangeView) (who : AnyOwner) (items : List AnyItem) →
        StepsKeepMemory (claim_range range who items).steps }
    ensures frees { (range : RangeView) (items : List AnyItem)
        → StepsKeepMemory (free_range range items).steps }
    ensures claimed { (range : RangeView) (who : AnyOwner) (items : List AnyItem) →
        memory_of (items_after_change items (claim_range range who items)) ≡ memory_of items }
    ensures freed { (range : RangeView) (items : List AnyItem) →
        memory_of (items_after_change items (free_range range items)) ≡ memory_of items }
{}

/// Law: after all items of a list have been carried out, the journal's items that change memory are
/// those that it had before, followed by those of the list, in the same order. Growth adds none.
pub fn requested_items_make_memory()
    ensures { (wanted items last : List AnyItem) → carry_out_items wanted items ≡ Ok last →
        memory_items last ≡ memory_items items ++ memory_items wanted }
{}
