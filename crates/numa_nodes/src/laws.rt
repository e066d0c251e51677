//! Laws about the stage that gives memory its nodes. The stage is defined by ranges of addresses.
//! The laws say what follows for each byte of memory: it has a node, and all bytes of its frame
//! have the same one.
ghost use Rattle.std.specs.Prelude.{◌≡◌, ◌↔◌, ℕ, ◌^◌, ◌<◌, ◌≤◌, Bool, true, is_some, Option, List, length, get_or, Ok};
ghost use Rattle.std.specs.List.{Contains};
ghost use Rattle.address_runs.specs.Edits.{IsEmptyFrom};
ghost use Rattle.srat_reader.specs.Table.{SratView};
ghost use Rattle.memblock_model.specs.declared.item.Item.{Item as AnyItem};
ghost use Rattle.memblock_model.specs.Items.{memory_of, limit_of};
ghost use Rattle.memblock_model.specs.Labels.{Labels};
ghost use Rattle.stage_steps.specs.Steps.{items_after_step};
ghost use Rattle.stage_steps.specs.Nodes.{IsConstantInFrames, IsMemoryWithNodes};
ghost use Rattle.numa_nodes.specs.Assignment.{NodesView, assign_nodes, is_of_node, nodes_with_memory};

/// Law: the stage that gives memory its nodes changes neither which bytes are memory nor the limit
/// of allocations, whatever it returns.
pub fn assign_keeps_memory_and_limit()
    ensures memory { (table : Option SratView) (off : Bool) (items : List AnyItem) (x : ℕ) →
        is_some (memory_of (items_after_step items (assign_nodes table off items)) x)
        ≡ is_some (memory_of items x) }
    ensures limit { (table : Option SratView) (off : Bool) (items : List AnyItem) →
        limit_of (items_after_step items (assign_nodes table off items)) ≡ limit_of items }
{}

/// Law: if the stage that gives memory its nodes succeeds, each byte of memory has a node below
/// 1,024, and all bytes of a frame have the same label (node and mirror flag). Before the stage,
/// all bytes of a frame must have one label, and memory must end at or below the limit of
/// allocations. The nodes that the stage returns are those that have memory.
pub fn all_memory_gets_nodes()
    ensures noded { (reach : ℕ) (table : Option SratView) (off : Bool) (items : List AnyItem)
        (noded : NodesView) →
        (assign_nodes table off items).answer ≡ Ok noded → reach ≤ 2 ^ 64
        → IsConstantInFrames (memory_of items) →
        IsEmptyFrom reach (memory_of items) → IsEmptyFrom (limit_of items) (memory_of items) →
        IsMemoryWithNodes reach (memory_of (items_after_step items (assign_nodes table off
        items))) }
    ensures nodes { (table : Option SratView) (off : Bool) (items : List AnyItem)
        (noded : NodesView) →
        (assign_nodes table off items).answer ≡ Ok noded →
        noded.with_memory
        ≡ nodes_with_memory (memory_of (items_after_step items (assign_nodes table off items))) }
{}

/// Law: the list `nodes_with_memory` has a node exactly if the node is below 1,024 and some byte of
/// memory has it. The list is ascending.
pub fn listed_nodes_have_memory()
    ensures listed { (f : Labels) (n : ℕ) → Contains (nodes_with_memory f) n ↔
        ((n < 1024) × ((x : ℕ) × (x < 2 ^ 64) × (is_of_node n (f x) ≡ true))) }
    ensures ascending { (f : Labels) (i j : ℕ) → i < j → j < length (nodes_with_memory f) →
        get_or (nodes_with_memory f) i 0 < get_or (nodes_with_memory f) j 0 }
{}
