//! Laws of maps, on which a boot may rest. The handover needs that each byte of memory has a
//! node. By the first law, placing the maps keeps this true. The second law says what the groups
//! of sections are.

ghost use Rattle.std.specs.Prelude.{◌≡◌, List};
ghost use Rattle.memblock_model.specs.declared.item.Item.{Item as AnyItem};
ghost use Rattle.memblock_model.specs.Items.{memory_of, limit_of};
ghost use Rattle.memblock_grow.specs.declared.stop.Section.{Section as AnySection};
ghost use Rattle.stage_steps.specs.Steps.{items_after_step};
ghost use Rattle.section_maps.specs.Maps.{groups_of, place_maps};
ghost use Rattle.section_maps.specs.Stretches.{AreMaximalStretches};

/// Law: placing the maps and the usage data of sections changes neither memory nor the limit of
/// allocations, whether it succeeds or not.
pub fn place_maps_keeps_memory_and_limit()
    ensures memory { (sections : List AnySection) (items : List AnyItem) →
        memory_of (items_after_step items (place_maps sections items)) ≡ memory_of items }
    ensures limit { (sections : List AnySection) (items : List AnyItem) →
        limit_of (items_after_step items (place_maps sections items)) ≡ limit_of items }
{}

/// Law: the groups of a list of sections (`groups_of`) are the longest stretches of neighbouring
/// sections on one node, in the list's order.
pub fn groups_are_maximal_stretches()
    ensures { (sections : List AnySection) → AreMaximalStretches sections (groups_of sections) }
{}
