//! Both tables in one store. An edit of one table's records borrows the store and the head of that
//! table, and calls `run_edits` with a change: what happens to the label of a single address. The
//! other table is unchanged.
ghost use Rattle.std.specs.Prelude.{◌≡◌, ℕ, ◌+◌, ◌-◌, ◌*◌, ◌^◌, ◌<◌, ◌≤◌, ◌↔◌, ◌||◌, true, false, Some, [], length, get_or, OnOk, OnErr, IfOk, IsTrue};
ghost use Rattle.bm_base.specs.Range.{covers, end_of, Meet};
ghost use Rattle.phys_store.specs.Bytes.{byte_of, is_prepared_at, ArePrepared, WritesBytes, bytes_at};
ghost use Rattle.address_runs.specs.Runs.{RunOf, value_at};
ghost use Rattle.address_runs.specs.Edits.{cover_range, uncover_range, relabel_range};
ghost use Rattle.memblock_model.specs.declared.owner.Which.TheVariants as which;
ghost use Rattle.memblock_model.specs.Labels.{LabelView, with_node, with_mirror};
ghost use Rattle.memblock_model.specs.Items.{trim_frames};
ghost use Rattle.memblock_model.specs.Tables.{records_for, uncovered_run_count, built_in_place};
ghost use Rattle.memblock_ranges.specs.Encoding.{label_of, region_of, FitsRecord};
ghost use Rattle.memblock_ranges.specs.Tables.{table_in, other_table_in, records_in, room_in, bytes_of, table_range_in, head_of, OverlapsTable, IsInStore, MayBeNodeField, ArePlainRecords};

use crate::borrowed_table::{TableMut, TableRef};
use crate::changes::{SetMirror, SetNode};
use crate::head_table;
use crate::pieces::count_pieces;
use crate::record::label_of;
use crate::records::Records;
use crate::region::{Head, Heads, Region};
use crate::trim::trim;
use bm_base::{FRAME_SIZE, Memory, Range};
use memblock_model::Which;
use phys_store::Store;
use run_edits::{Cover, Uncover, edit_range, edit_without_cover, range_end_fits};
use std::alloc::Global;
use std::marker::Model;

/// The number of records that a table has room for at first (`INIT_MEMBLOCK_REGIONS`).
pub const FIRST_ROOM: u64 = 128;

/// memblock's two tables, stored in the bytes of the memory that they describe. Contracts see the
/// records, address and room of each table, and the store with the bytes.
#[derive(Debug, Drop)]
pub struct Tables {
    store: Store,
    heads: Heads,
}

impl Model for Tables {
    ghost use Rattle.memblock_ranges.specs.Tables.{TablesView, table_of_head, AreTables};

    ghost Value = { TablesView };

    ghost view = { λ t. record {
      memory = table_of_head t.store t.heads.memory;
      reserved = table_of_head t.store t.heads.reserved;
      store = t.store;
    } };

    ghost invariant = { λ t. AreTables t.store t.heads.memory t.heads.reserved };
}

impl Tables {
    /// Creates two empty tables in the last two frames of the kernel's image, and prepares their
    /// bytes. The image must be at least 8,192 bytes long.
    ///
    /// # Errors
    ///
    /// - `Memory`: the program ran out of memory.
    #[tactic(auto, using(crate::proofs::NewLaws::first_table))]
    pub fn new(alloc: Global, kernel: Range) -> Result<Tables, Memory>
        requires { 8192 ≤ kernel.size }
        ensures memory { IfOk result (λ t. t.memory
            ≡ record { records = []; place = built_in_place which.Memory kernel; room = 128 }) }
        ensures reserved { IfOk result (λ t. t.reserved
            ≡ record { records = []; place = built_in_place which.Reserved kernel; room = 128 }) }
        ensures bytes { IfOk result (λ t. (x : ℕ) → byte_of t.store x ≡ 0) }
        ensures ready { IfOk result (λ t. (x : ℕ) →
            is_prepared_at t.store x
            ≡ (covers (table_range_in which.Reserved t) x || covers (table_range_in which.Memory
            t) x)) }
    {
        let heads = Heads {
            memory: empty_built_in_head(kernel, 2),
            reserved: empty_built_in_head(kernel, 1),
        };
        let mut store = Store::new(alloc);
        store.prepare(head_table::bytes(&heads.memory))?;
        store.prepare(head_table::bytes(&heads.reserved))?;
        Ok(Tables { store, heads })
    }

    /// Returns the head of the table: its address, its room and its number of records.
    #[tactic(auto, using(crate::proofs::TableSpelling::head_is))]
    pub fn head(&self, which: Which) -> Head
        ensures head { result ≡ head_of (table_in which self.now) }
        ensures table { IsInStore (table_in which self.now) self.now.store }
        ensures apart { ¬ Meet (bytes_of self.now.memory) (bytes_of self.now.reserved) }
        ensures plain { ArePlainRecords self.now.reserved.records }
    {
        match which {
            Which::Memory => self.heads.memory,
            Which::Reserved => self.heads.reserved,
        }
    }

    /// Returns the table's record at index `i`, which is counted from 0 and must be below the
    /// table's count. Its end is below 2^64. Its node is at most 1,024, and 1,024 means that it has
    /// none.
    pub fn region(&self, which: Which, i: u64) -> Region
        requires { i < length (records_in which self.now) }
        ensures region { (r : RunOf LabelView)
            → result ≡ region_of (get_or (records_in which self.now) i r) }
        ensures fits { (r : RunOf LabelView) → FitsRecord (get_or (records_in which self.now) i r) }
    {
        match which {
            Which::Memory => head_table::region(&self.store, &self.heads.memory, i),
            Which::Reserved => head_table::region(&self.store, &self.heads.reserved, i),
        }
    }

    /// Returns a reader for the table's records. It finds the table's bytes once, so that a walk
    /// over the table is fast.
    pub fn records(&self, which: Which) -> Records<'_>
        ensures { result ≡ records_in which self.now }
    {
        match which {
            Which::Memory => head_table::records(&self.store, &self.heads.memory),
            Which::Reserved => head_table::records(&self.store, &self.heads.reserved),
        }
    }

    /// Counts the pieces of the range that the table doesn't cover. Inserting the range adds at
    /// most that many records.
    pub fn pieces(&self, which: Which, range: Range) -> u64
        ensures { result ≡ uncovered_run_count range (value_at (records_in which self.now)) }
    {
        match which {
            Which::Memory => {
                let seen = TableRef {
                    store: &self.store,
                    head: &self.heads.memory,
                };
                count_pieces(&seen, &range)
            }
            Which::Reserved => {
                let seen = TableRef {
                    store: &self.store,
                    head: &self.heads.reserved,
                };
                count_pieces(&seen, &range)
            }
        }
    }

    /// Adds to the table the bytes of the range that it doesn't cover, with this node and no flag
    /// (`memblock_add_range`). Node 1,024 means none; for the reserved table it must be 1,024. The
    /// range must not be empty, and the table must have room for as many more records as
    /// [`Tables::pieces`] returns.
    pub fn insert(&mut self, which: Which, range: Range, node: u32)
        requires some { 0 < range.size }
        requires node { MayBeNodeField which node }
        requires room { length (records_in which self.old) + uncovered_run_count range
            (value_at (records_in which self.old)) ≤ room_in which self.old }
        ensures table { table_in which self.new ≡ record (table_in which self.old) {
          records = records_for
              (cover_range range (label_of 0 node) (value_at (records_in which self.old)));
        } }
        ensures other { other_table_in which self.new ≡ other_table_in which self.old }
        ensures elsewhere { (x : ℕ) → covers (table_range_in which self.old) x ≡ false
            → byte_of self.new.store x ≡ byte_of self.old.store x }
        ensures ready { (x : ℕ)
            → is_prepared_at self.new.store x ≡ is_prepared_at self.old.store x }
    {
        range_end_fits(&range);
        let change = Cover(label_of(0, node));
        match which {
            Which::Memory => {
                let mut live = TableMut {
                    store: &mut self.store,
                    head: &mut self.heads.memory,
                };
                edit_range(&mut live, &range, change);
            }
            Which::Reserved => {
                let mut live = TableMut {
                    store: &mut self.store,
                    head: &mut self.heads.reserved,
                };
                edit_range(&mut live, &range, change);
            }
        }
    }

    /// Removes the bytes of the range from the table, which must have room for two more records
    /// (`memblock_remove_range`).
    #[tactic(auto, using(crate::proofs::EditLaws::labels_tell))]
    pub fn remove(&mut self, which: Which, range: Range)
        requires { length (records_in which self.old) + 2 ≤ room_in which self.old }
        ensures table { table_in which self.new ≡ record (table_in which self.old) {
          records = records_for (uncover_range range (value_at (records_in which self.old)));
        } }
        ensures other { other_table_in which self.new ≡ other_table_in which self.old }
        ensures elsewhere { (x : ℕ) → covers (table_range_in which self.old) x ≡ false
            → byte_of self.new.store x ≡ byte_of self.old.store x }
        ensures ready { (x : ℕ)
            → is_prepared_at self.new.store x ≡ is_prepared_at self.old.store x }
    {
        match which {
            Which::Memory => {
                let head = &mut self.heads.memory;
                let mut live = TableMut {
                    store: &mut self.store,
                    head,
                };
                if range.size == 0 {
                    return;
                }
                edit_without_cover(&mut live, &range, Uncover);
            }
            Which::Reserved => {
                let head = &mut self.heads.reserved;
                let mut live = TableMut {
                    store: &mut self.store,
                    head,
                };
                if range.size == 0 {
                    return;
                }
                edit_without_cover(&mut live, &range, Uncover);
            }
        }
    }

    /// Sets the node of all memory in the range; the memory keeps its flags (`memblock_set_node`).
    /// `node` must be below 1,024. The memory table must have room for two more records.
    #[tactic(auto, using(crate::proofs::EditLaws::labels_tell))]
    pub fn set_node(&mut self, range: Range, node: u32)
        requires node { node < 1024 }
        requires room { length self.old.memory.records + 2 ≤ self.old.memory.room }
        ensures memory { self.new.memory ≡ record self.old.memory {
          records = records_for
              (relabel_range range (with_node (Some node)) (value_at self.old.memory.records));
        } }
        ensures reserved { self.new.reserved ≡ self.old.reserved }
        ensures elsewhere { (x : ℕ) → covers (bytes_of self.old.memory) x ≡ false
            → byte_of self.new.store x ≡ byte_of self.old.store x }
        ensures ready { (x : ℕ)
            → is_prepared_at self.new.store x ≡ is_prepared_at self.old.store x }
    {
        let mut live = TableMut {
            store: &mut self.store,
            head: &mut self.heads.memory,
        };
        if range.size == 0 {
            return;
        }
        edit_without_cover(&mut live, &range, SetNode { node });
    }

    /// Marks the memory of the range as mirrored; it keeps its node (`memblock_mark_mirror`). The
    /// memory table must have room for two more records.
    #[tactic(auto, using(crate::proofs::EditLaws::labels_tell))]
    pub fn set_mirror(&mut self, range: Range)
        requires { length self.old.memory.records + 2 ≤ self.old.memory.room }
        ensures memory { self.new.memory ≡ record self.old.memory {
          records = records_for
              (relabel_range range with_mirror (value_at self.old.memory.records));
        } }
        ensures reserved { self.new.reserved ≡ self.old.reserved }
        ensures elsewhere { (x : ℕ) → covers (bytes_of self.old.memory) x ≡ false
            → byte_of self.new.store x ≡ byte_of self.old.store x }
        ensures ready { (x : ℕ)
            → is_prepared_at self.new.store x ≡ is_prepared_at self.old.store x }
    {
        let mut live = TableMut {
            store: &mut self.store,
            head: &mut self.heads.memory,
        };
        if range.size == 0 {
            return;
        }
        edit_without_cover(&mut live, &range, SetMirror);
    }

    /// Cuts memory to whole frames (`memblock_trim_memory`). A byte keeps its label if all bytes of
    /// its 4 KiB frame have the same label; otherwise it is no longer memory.
    pub fn trim(&mut self)
        ensures memory { self.new.memory ≡ record self.old.memory {
          records = records_for
              (trim_frames (value_at self.old.memory.records));
        } }
        ensures reserved { self.new.reserved ≡ self.old.reserved }
        ensures elsewhere { (x : ℕ) → covers (bytes_of self.old.memory) x ≡ false
            → byte_of self.new.store x ≡ byte_of self.old.store x }
        ensures ready { (x : ℕ)
            → is_prepared_at self.new.store x ≡ is_prepared_at self.old.store x }
    {
        let mut live = TableMut {
            store: &mut self.store,
            head: &mut self.heads.memory,
        };
        trim(&mut live);
    }

    /// Prepares each address of the range (`Store::prepare`): it can then be written without
    /// allocating memory.
    ///
    /// # Errors
    ///
    /// - `Memory`: the program ran out of memory; the store is unchanged. This error is possible
    ///   only if some address of the range wasn't prepared.
    pub fn prepare(&mut self, range: Range) -> Result<(), Memory>
        ensures memory { self.new.memory ≡ self.old.memory }
        ensures reserved { self.new.reserved ≡ self.old.reserved }
        ensures bytes { (x : ℕ) → byte_of self.new.store x ≡ byte_of self.old.store x }
        ensures ready { OnOk result ((x : ℕ) →
            is_prepared_at self.new.store x ≡ (covers range x || is_prepared_at self.old.store x)) }
        ensures err { OnErr result (self.new.store ≡ self.old.store) }
        ensures wants { OnErr result (ArePrepared self.old.store range.base range.size → ⊥) }
    {
        self.store.prepare(range)?;
        Ok(())
    }

    /// Moves the table to address `place`, with twice the room, and fills its old bytes with zeros
    /// (`memblock_double_array`). The new bytes must be prepared, and must not overlap a table.
    pub fn relocate(&mut self, which: Which, place: u64)
        requires small { place + 48 * room_in which self.old < 2 ^ 64 }
        requires prepared { ArePrepared self.old.store place (48 * room_in which self.old) }
        requires apart { ¬ OverlapsTable self.old
            (record { base = place; size = 48 * room_in which self.old }) }
        ensures table { table_in which self.new ≡ record
            (table_in which self.old) { place = place; room = 2 * room_in which self.old } }
        ensures other { other_table_in which self.new ≡ other_table_in which self.old }
        ensures left { (x : ℕ) → covers (table_range_in which self.old) x ≡ true
            → byte_of self.new.store x ≡ 0 }
        ensures elsewhere { (x : ℕ) → covers (table_range_in which self.new) x ≡ false
            → covers (table_range_in which self.old) x ≡ false →
            byte_of self.new.store x ≡ byte_of self.old.store x }
        ensures ready { (x : ℕ)
            → is_prepared_at self.new.store x ≡ is_prepared_at self.old.store x }
    {
        match which {
            Which::Memory => {
                head_table::relocate(&mut self.store, &mut self.heads.memory, place);
            }
            Which::Reserved => {
                head_table::relocate(&mut self.store, &mut self.heads.reserved, place);
            }
        }
    }

    /// Tests whether the range has a byte of either table's array.
    pub fn overlaps_table(&self, range: Range) -> bool
        ensures { IsTrue result ↔ OverlapsTable self.now range }
    {
        head_table::bytes(&self.heads.memory).overlaps(&range)
            || head_table::bytes(&self.heads.reserved).overlaps(&range)
    }

    /// Writes `byte` to each address of the range, which must be prepared and must not overlap a
    /// table.
    pub fn fill(&mut self, range: Range, byte: u8)
        requires prepared { ArePrepared self.old.store range.base range.size }
        requires apart { ¬ OverlapsTable self.old range }
        ensures memory { self.new.memory ≡ self.old.memory }
        ensures reserved { self.new.reserved ≡ self.old.reserved }
        ensures bytes { WritesBytes self.old.store self.new.store range.base range.size (λ _.
            byte) }
    {
        self.store.fill(range, byte);
    }

    /// Copies the bytes from address `at` on to `into`. They may be bytes of a table. An address
    /// that isn't prepared reads as 0. `at + into.len()` must be below 2^64.
    pub fn read(&self, at: u64, into: &mut [u8])
        requires { at + length into.old < 2 ^ 64 }
        ensures { into.new ≡ bytes_at (byte_of self.now.store) at (length into.old) }
    {
        self.store.read(at, into);
    }

    /// Takes the tables apart and returns the store and both heads. From these alone all records
    /// can be read.
    #[tactic(auto, using(crate::proofs::TableSpelling::head_is))]
    pub fn into_parts(self) -> (Store, Heads)
        ensures store { result.0 ≡ self.store }
        ensures heads { result.1
            ≡ record { memory = head_of self.memory; reserved = head_of self.reserved } }
        ensures memory { IsInStore self.memory result.0 }
        ensures reserved { IsInStore self.reserved result.0 }
        ensures plain { ArePlainRecords self.reserved.records }
    {
        let Tables { store, heads } = self;
        (store, heads)
    }
}

/// Returns the head of an empty table at the start of one of the last frames of the kernel's
/// image: `frames` frames before its end.
fn empty_built_in_head(kernel: Range, frames: u64) -> Head
    requires size { 8192 ≤ kernel.size }
    requires frames { frames ≤ 2 }
    ensures head { result
        ≡ record { place = end_of kernel - FRAME_SIZE * frames; room = 128; count = 0 } }
    ensures small { end_of kernel < 2 ^ 64 }
{
    Head {
        place: kernel.end() - FRAME_SIZE * frames,
        room: FIRST_ROOM,
        count: 0,
    }
}

// The tables are only the store and two heads: there is no other copy of a record.
#[test]
fn tables_are_bytes_and_two_heads(rt: HostRuntime) -> Result<(), std::test::Fail> {
    let kernel = Range {
        base: 0x100_0000,
        size: 0x2000,
    };
    let Tables { store, heads } = Tables::new(rt.alloc(), kernel)?;
    let Heads { memory, reserved } = heads;
    let _parts: (Store, [Head; 2]) = (store, [memory, reserved]);
    Ok(())
}
