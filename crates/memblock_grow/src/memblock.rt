//! memblock as one value: the range of the kernel's image, the journal, both tables, and the limit
//! and direction of searches (`aim`).
//!
//! Each call that changes memory calls a function that takes the parts of the memblock. This file
//! proves that the parts still fit together whether that call succeeds or fails: the tables are
//! those of the items, are encoded in their bytes, and lie in claimed memory, apart from each
//! other. This is the invariant of a `Memblock`, so callers don't have to ensure it.
//!
//! A call that allocates memory of this program may run out of memory at any step. It then stops
//! before that step, with the invariant intact.

ghost use Rattle.std.specs.Prelude.{◌≡◌, ℕ, ◌+◌, ◌-◌, ◌*◌, ◌^◌, ◌<◌, ◌≤◌, ◌↔◌, ◌||◌, false, max, Some, [], ◌++◌, length, OnOk, OnErr, IfOk, IfSome, IsOk, IsTrue};
ghost use Rattle.bm_base.specs.Range.{covers};
ghost use Rattle.address_runs.specs.Edits.{IsEmptyFrom};
ghost use Rattle.phys_store.specs.Bytes.{ArePrepared, byte_of, is_prepared_at, bytes_at};
ghost use Rattle.memblock_model.specs.declared.owner.Which.{Which as AnyWhich};
ghost use Rattle.memblock_model.specs.declared.owner.Which.TheVariants as tables_of;
ghost use Rattle.memblock_model.specs.declared.item.Item.TheVariants as item;
ghost use Rattle.memblock_model.specs.Items.{memory_of};
ghost use Rattle.memblock_model.specs.Tables.{records_of, room_of, table_place, table_bytes};
ghost use Rattle.memblock_model.specs.Search.{best_place};
ghost use Rattle.memblock_ranges.specs.Encoding.{encode_table};
ghost use Rattle.memblock_ranges.specs.Tables.{head_of, IsInStore, ArePlainRecords};
ghost use Rattle.growth_model.specs.Growth.{claim_range, free_range, add_range, set_range_node, set_range_mirror, count_uncovered_pieces, max_records_added_by_split, is_full};
ghost use Rattle.growth_model.specs.Ends.{EndsAsChange, Allocates};
ghost use Rattle.growth_model.specs.Request.{place_for};
ghost use Rattle.growth_model.specs.Tables.{TablesAreSound, IsKernelImage, HasFirstItem, OverlapsNoTable, MayClaim};
ghost use Rattle.growth_model.specs.Bytes.{table_from_items, TablesAreEncoded, byte_from_history, byte_after_fill};
ghost use Rattle.memblock_grow.specs.Continues.{AppendsItem, ContinuesMemblock};
ghost use Rattle.memblock_grow.specs.Invariant.{StayPrepared};
ghost use Rattle.memblock_grow.specs.Prepared.{Prepares, PreparesAsResult};
ghost use Rattle.memblock_grow.specs.Touch.{OverlapsTableOfItems};

use crate::places::AllocSettings;
use crate::table_laws::tables_are_in_store;
use crate::{memory, places, request, reserved};
use bm_base::{Memory, Range};
use boot_journal::{Item, Journal, Owner, Which};
use growth_model::{Refusal, Request};
use memblock_find::Query;
use memblock_ranges::{Heads, Tables};
use phys_store::Store;
use run_edits::range_end_fits;
use std::alloc::Global;
use std::marker::Model;

/// The memory of a machine at boot: the journal of what happened to it, and two tables that
/// describe what is memory and what is claimed, in the bytes of that memory (`struct memblock`).
///
/// The first claim must be that of the kernel's image. Every other call that appends an item to the
/// journal must come after it. If a call fails, the steps that it completed stay in the journal,
/// and the memblock can still be used.
#[derive(Debug, Drop)]
pub struct Memblock {
    kernel: Range,
    journal: Journal,
    tables: Tables,
    aim: AllocSettings,
}

impl Model for Memblock {
    ghost use Rattle.memblock_grow.specs.MemblockView.{MemblockView};
    ghost use Rattle.memblock_grow.specs.Invariant.{IsMemblock};

    ghost Value = { MemblockView };

    ghost view = { λ m. record { kernel = m.kernel; journal = m.journal; tables = m.tables } };

    ghost invariant = { λ m. IsMemblock m.kernel m.journal.items m.tables m.aim };
}

impl Memblock {
    /// Creates a memblock for a machine about which nothing is known except the range of the
    /// kernel's image. Both tables are empty, in the last two frames of the image, and only their
    /// bytes are prepared. The limit is 0, and searches go from the highest address down.
    ///
    /// # Errors
    ///
    /// - `Memory`: this program is out of memory.
    pub fn new(alloc: Global, kernel: Range) -> Result<Memblock, Memory>
        requires { IsKernelImage kernel }
        ensures kernel { IfOk result (λ m. m.kernel ≡ kernel) }
        ensures journal { IfOk result (λ m. m.journal ≡ record { items = []; spare = 0 }) }
        ensures bytes { IfOk result (λ m. (x : ℕ)
            → byte_of m.tables.store x ≡ byte_from_history kernel [] [] x) }
        ensures prepared { IfOk result (λ m. (x : ℕ) → is_prepared_at m.tables.store x
            ≡ (covers (table_bytes tables_of.Reserved kernel []) x
            || covers (table_bytes tables_of.Memory kernel []) x)) }
    {
        let journal = Journal::new(alloc);
        let tables = Tables::new(alloc, kernel)?;
        Ok(Memblock {
            kernel,
            journal,
            tables,
            aim: AllocSettings {
                limit: 0,
                upward: false,
            },
        })
    }

    /// Makes room in the journal for at least `n` more items. After that, `n` calls that each
    /// append one item, without a growth of a table, can't run out of memory.
    ///
    /// # Errors
    ///
    /// - `Memory`: this program is out of memory; nothing is changed. This error is possible only
    ///   if the journal had room for fewer than `n` items.
    pub fn ready(&mut self, n: u64) -> Result<(), Memory>
        ensures kernel { self.new.kernel ≡ self.old.kernel }
        ensures items { self.new.journal.items ≡ self.old.journal.items }
        ensures tables { self.new.tables ≡ self.old.tables }
        ensures enough { OnOk result (n ≤ self.new.journal.spare) }
        ensures exact { OnOk result (self.new.journal.spare ≡ max self.old.journal.spare n) }
        ensures err { OnErr result (self.new ≡ self.old) }
        ensures memory { OnErr result (self.old.journal.spare < n) }
    {
        self.journal.ready(n)
    }

    /// Claims the range for the owner (`memblock_reserve`). The reserved table may have to grow. If
    /// the table and the journal both have room, the call can't fail.
    ///
    /// The range must not be empty. The first call must claim the kernel's image for
    /// [`Owner::Kernel`]. A claim for the script ([`Owner::Script`]) must not overlap a table.
    ///
    /// # Errors
    ///
    /// Growths that were completed before the error stay; the range isn't claimed.
    ///
    /// - `NoGapForTable`: the reserved table has to grow, and no free memory is found for it.
    /// - `Memory`: this program is out of memory.
    pub fn claim(&mut self, range: Range, owner: Owner) -> Result<(), Refusal>
        requires some { 0 < range.size }
        requires may { MayClaim self.old.kernel self.old.journal.items range owner }
        ensures ends { EndsAsChange result self.old.journal.items self.new.journal.items
            (claim_range range owner) }
        ensures goes_on { ContinuesMemblock self.old self.new }
        ensures away { HasFirstItem self.old.journal.items
            → OverlapsNoTable self.old.kernel range self.old.journal.items →
            OnOk result (OverlapsNoTable self.new.kernel range self.new.journal.items) }
        ensures prepared { Prepares self.old.journal.items self.new.journal.items
            self.old.tables.store self.new.tables.store }
        ensures ready { 0 < self.old.journal.spare →
            is_full tables_of.Reserved
            (count_uncovered_pieces tables_of.Reserved range) self.old.journal.items ≡ false →
            IsOk result × (self.new.journal.spare ≡ self.old.journal.spare - 1) }
    {
        range_end_fits(&range);
        reserved::claim(&mut self.journal, &mut self.tables, self.aim, range, owner)
    }

    /// Frees the range (`memblock_phys_free`). This may split a record in two, so the reserved
    /// table may have to grow. If it has room for two more records, and the journal for an item,
    /// the call can't fail. The range must not be empty, and must not overlap a table.
    ///
    /// # Errors
    ///
    /// Growths that were completed before the error stay; the range isn't freed.
    ///
    /// - `NoGapForTable`: the reserved table has to grow, and no free memory is found for it.
    /// - `Memory`: this program is out of memory.
    pub fn free(&mut self, range: Range) -> Result<(), Refusal>
        requires some { 0 < range.size }
        requires begun { HasFirstItem self.old.journal.items }
        requires away { OverlapsNoTable self.old.kernel range self.old.journal.items }
        ensures ends { EndsAsChange result self.old.journal.items self.new.journal.items
            (free_range range) }
        ensures goes_on { ContinuesMemblock self.old self.new }
        ensures prepared { Prepares self.old.journal.items self.new.journal.items
            self.old.tables.store self.new.tables.store }
        ensures ready { 0 < self.old.journal.spare
            → is_full tables_of.Reserved max_records_added_by_split self.old.journal.items ≡ false →
            IsOk result × (self.new.journal.spare ≡ self.old.journal.spare - 1) }
    {
        reserved::free(&mut self.journal, &mut self.tables, self.aim, range)
    }

    /// Adds the range to memory, without a node; what is memory already keeps its node
    /// (`memblock_add`). The memory table may have to grow. Its new memory is then claimed, so the
    /// reserved table may have to grow too. If the memory table has room, and the journal has room
    /// for an item, the call can't fail. The range must not be empty.
    ///
    /// # Errors
    ///
    /// Growths that were completed before the error stay; the range isn't added.
    ///
    /// - `NoGapForTable`: a table has to grow, and no free memory is found for it.
    /// - `Memory`: this program is out of memory.
    pub fn add_memory(&mut self, range: Range) -> Result<(), Refusal>
        requires some { 0 < range.size }
        requires begun { HasFirstItem self.old.journal.items }
        ensures ends { EndsAsChange result self.old.journal.items self.new.journal.items
            (add_range range) }
        ensures goes_on { ContinuesMemblock self.old self.new }
        ensures prepared { PreparesAsResult result self.old.journal.items self.new.journal.items
            self.old.tables.store self.new.tables.store }
        ensures ready { 0 < self.old.journal.spare →
            is_full tables_of.Memory
            (count_uncovered_pieces tables_of.Memory range) self.old.journal.items ≡ false →
            IsOk result × (self.new.journal.spare ≡ self.old.journal.spare - 1) }
    {
        memory::add_memory(&mut self.journal, &mut self.tables, self.aim, range)
    }

    /// Gives the node, which must be below 1,024, to the memory of the range (`memblock_set_node`).
    /// This may split a record at both ends of the range, so the memory table may have to grow. If
    /// the table has room for two more records, and the journal for an item, the call can't fail.
    /// The range must not be empty.
    ///
    /// # Errors
    ///
    /// - `NoGapForTable`: a table has to grow, and no free memory is found for it.
    /// - `Memory`: this program is out of memory.
    pub fn set_node(&mut self, range: Range, node: u32) -> Result<(), Refusal>
        requires some { 0 < range.size }
        requires node { node < 1024 }
        requires begun { HasFirstItem self.old.journal.items }
        ensures ends { EndsAsChange result self.old.journal.items self.new.journal.items
            (set_range_node range node) }
        ensures goes_on { ContinuesMemblock self.old self.new }
        ensures prepared { PreparesAsResult result self.old.journal.items self.new.journal.items
            self.old.tables.store self.new.tables.store }
        ensures ready { 0 < self.old.journal.spare
            → is_full tables_of.Memory max_records_added_by_split self.old.journal.items ≡ false →
            IsOk result × (self.new.journal.spare ≡ self.old.journal.spare - 1) }
    {
        memory::set_node(&mut self.journal, &mut self.tables, self.aim, range, node)
    }

    /// Marks the memory of the range as mirrored; it keeps its nodes (`memblock_mark_mirror`). This
    /// may split a record at both ends of the range, so the memory table may have to grow. If the
    /// table has room for two more records, and the journal for an item, the call can't fail. The
    /// range must not be empty.
    ///
    /// # Errors
    ///
    /// - `NoGapForTable`: a table has to grow, and no free memory is found for it.
    /// - `Memory`: this program is out of memory.
    pub fn set_mirror(&mut self, range: Range) -> Result<(), Refusal>
        requires some { 0 < range.size }
        requires begun { HasFirstItem self.old.journal.items }
        ensures ends { EndsAsChange result self.old.journal.items self.new.journal.items
            (set_range_mirror range) }
        ensures goes_on { ContinuesMemblock self.old self.new }
        ensures prepared { PreparesAsResult result self.old.journal.items self.new.journal.items
            self.old.tables.store self.new.tables.store }
        ensures ready { 0 < self.old.journal.spare
            → is_full tables_of.Memory max_records_added_by_split self.old.journal.items ≡ false →
            IsOk result × (self.new.journal.spare ≡ self.old.journal.spare - 1) }
    {
        memory::set_mirror(&mut self.journal, &mut self.tables, self.aim, range)
    }

    /// Cuts memory to whole frames (`memblock_trim_memory`): each 4 KiB frame whose bytes aren't
    /// all memory with the same label stops being memory.
    ///
    /// # Errors
    ///
    /// - `Memory`: this program is out of memory; nothing is changed.
    pub fn trim(&mut self) -> Result<(), Memory>
        requires { HasFirstItem self.old.journal.items }
        ensures appends { AppendsItem result item.Trim self.old self.new }
        ensures goes_on { ContinuesMemblock self.old self.new }
        ensures prepared { (x : ℕ)
            → is_prepared_at self.new.tables.store x ≡ is_prepared_at self.old.tables.store x }
    {
        self.journal.push(Item::Trim)?;
        self.tables.trim();
        tables_are_in_store(&self.tables);
        Ok(())
    }

    /// Sets the limit: from now on each allocation ends at or below this address
    /// (`memblock_set_current_limit`).
    ///
    /// # Errors
    ///
    /// - `Memory`: this program is out of memory; nothing is changed.
    pub fn set_limit(&mut self, at: u64) -> Result<(), Memory>
        requires { HasFirstItem self.old.journal.items }
        ensures appends { AppendsItem result (item.Limit at) self.old self.new }
        ensures goes_on { ContinuesMemblock self.old self.new }
        ensures tables { self.new.tables ≡ self.old.tables }
    {
        self.journal.push(Item::Limit { at })?;
        self.aim.limit = at;
        Ok(())
    }

    /// Sets the direction of searches: from the lowest address up if `on` is true, else from the
    /// highest down, as in a new memblock (`memblock_set_bottom_up`).
    ///
    /// # Errors
    ///
    /// - `Memory`: this program is out of memory; nothing is changed.
    pub fn set_upward(&mut self, on: bool) -> Result<(), Memory>
        requires { HasFirstItem self.old.journal.items }
        ensures appends { AppendsItem result (item.Upward on) self.old self.new }
        ensures goes_on { ContinuesMemblock self.old self.new }
        ensures tables { self.new.tables ≡ self.old.tables }
    {
        self.journal.push(Item::Upward { on })?;
        self.aim.upward = on;
        Ok(())
    }

    /// Returns the greatest address at which the query fits, or the least if searches go upward
    /// ([`Memblock::set_upward`]). `None` means that it fits nowhere. Mirrored memory is searched
    /// first, and any memory only if the query doesn't fit there.
    ///
    /// The query fits at an address if the range of its size there is aligned, in the query's
    /// window, above the first frame, and entirely unclaimed memory of one label with the query's
    /// node. The size must be at least 1, and the alignment a power of two.
    pub fn find(&self, query: &Query) -> Option<u64>
        requires some { 1 ≤ query.now.size }
        requires aligned { (k : ℕ) × (query.now.align ≡ 2 ^ k) }
        ensures place { result ≡ best_place self.now.journal.items query.now }
        ensures away { HasFirstItem self.now.journal.items → IfSome result (λ base.
            OverlapsNoTable self.now.kernel
            (record { base = base; size = query.now.size }) self.now.journal.items) }
    {
        places::best_place_in_tables(&self.journal, &self.tables, self.aim.upward, query)
    }

    /// Finds free memory for the request, claims it for the owner, and returns its address
    /// (`memblock_alloc_range_nid`). The size must be at least 1, and the alignment a power of two.
    ///
    /// # Errors
    ///
    /// - `NoGap`: no search of the request finds free memory. Nothing is changed.
    /// - `NoGapForTable`: the reserved table has to grow, and no free memory is found for it.
    /// - `Memory`: this program is out of memory.
    pub fn alloc(&mut self, request: &Request, owner: Owner) -> Result<u64, Refusal>
        requires some { 1 ≤ request.now.size }
        requires aligned { (k : ℕ) × (request.now.align ≡ 2 ^ k) }
        requires begun { HasFirstItem self.old.journal.items }
        ensures ends { Allocates result self.old.journal.items self.new.journal.items
            (place_for request.now self.old.journal.items) request.now.size owner }
        ensures inside { IfOk result (λ base. base + request.now.size < 2 ^ 64) }
        ensures goes_on { ContinuesMemblock self.old self.new }
        ensures prepared { Prepares self.old.journal.items self.new.journal.items
            self.old.tables.store self.new.tables.store }
        ensures ready { (place : ℕ) → place_for request.now self.old.journal.items ≡ Some place
            → 0 < self.old.journal.spare →
            is_full tables_of.Reserved (count_uncovered_pieces tables_of.Reserved
            (record { base = place; size = request.now.size }))
            self.old.journal.items ≡ false → IsOk result
            × (self.new.journal.spare ≡ self.old.journal.spare - 1) }
    {
        request::allocate(
            &mut self.journal,
            &mut self.tables,
            self.aim,
            request,
            owner,
        )
    }

    /// Writes `byte` to each address of the range, which must not overlap a table. Allocates memory
    /// of this program for the addresses of the range that have none yet.
    ///
    /// # Errors
    ///
    /// - `Memory`: this program is out of memory; nothing is changed. This error is possible only
    ///   if some address of the range had no memory of this program yet.
    pub fn fill(&mut self, range: Range, byte: u8) -> Result<(), Memory>
        requires { OverlapsNoTable self.old.kernel range self.old.journal.items }
        ensures kernel { self.new.kernel ≡ self.old.kernel }
        ensures journal { self.new.journal ≡ self.old.journal }
        ensures ok { OnOk result ((x : ℕ) → byte_of self.new.tables.store x ≡
            byte_after_fill
            (record { range = range; byte = byte; at = length self.old.journal.items }) x
            (byte_of self.old.tables.store x)) }
        ensures err { OnErr result (self.new ≡ self.old) }
        ensures prepared { OnOk result ((x : ℕ) → is_prepared_at self.new.tables.store x
            ≡ (covers range x || is_prepared_at self.old.tables.store x)) }
        ensures still_ready { StayPrepared self.old.tables.store self.new.tables.store }
        ensures memory { OnErr result (ArePrepared self.old.tables.store range.base range.size
            → ⊥) }
    {
        self.tables.prepare(range)?;
        self.tables.fill(range, byte);
        Ok(())
    }

    /// Copies the bytes from address `at` on to `into`. They may be bytes of a table. An address
    /// that was never written reads as 0. `at + into.len()` must be below 2^64.
    pub fn peek(&self, at: u64, into: &mut [u8])
        requires { at + length into.old < 2 ^ 64 }
        ensures { into.new ≡ bytes_at (byte_of self.now.tables.store) at (length into.old) }
    {
        self.tables.read(at, into);
    }

    /// Tests whether the range has a byte of either table's array.
    pub fn touches_table(&self, range: Range) -> bool
        ensures touches { IsTrue result
            ↔ OverlapsTableOfItems self.now.kernel range self.now.journal.items }
        ensures away { result ≡ false
            → OverlapsNoTable self.now.kernel range self.now.journal.items }
    {
        self.tables.overlaps_table(range)
    }

    /// Returns the journal of what happened to memory.
    pub fn journal(&self) -> &Journal
        ensures journal { result.now ≡ self.now.journal }
        ensures sound { HasFirstItem self.now.journal.items
            → TablesAreSound self.now.kernel self.now.journal.items }
    {
        &self.journal
    }

    /// Returns both tables. They have the records, the address and the room that the journal's
    /// items define. No memory lies above 2^64.
    pub fn tables(&self) -> &Tables
        ensures tables { result.now ≡ self.now.tables }
        ensures memory { result.now.memory
            ≡ table_from_items tables_of.Memory self.now.kernel self.now.journal.items }
        ensures reserved { result.now.reserved
            ≡ table_from_items tables_of.Reserved self.now.kernel self.now.journal.items }
        ensures within { IsEmptyFrom (2 ^ 64) (memory_of self.now.journal.items) }
        ensures bytes { TablesAreEncoded result.now.memory result.now.reserved
            (byte_of result.now.store) }
        ensures still { ContinuesMemblock self.now self.now }
        ensures spelled { (w : AnyWhich) → bytes_at (byte_of self.now.tables.store)
            (table_place w self.now.kernel self.now.journal.items)
            (24 * room_of w self.now.journal.items)
            ≡ encode_table (records_of w self.now.journal.items)
            (room_of w self.now.journal.items) }
    {
        tables_are_in_store(&self.tables);
        &self.tables
    }

    /// Consumes the memblock and returns its parts: the bytes of memory, the heads of the two
    /// tables that are encoded in these bytes, and the journal.
    pub fn into_parts(self) -> (Store, Heads, Journal)
        ensures store { result.0 ≡ self.tables.store }
        ensures heads { result.1
            ≡ record {
              memory = head_of self.tables.memory;
              reserved = head_of
                  self.tables.reserved;
            } }
        ensures journal { result.2 ≡ self.journal }
        ensures memory { IsInStore
            (table_from_items tables_of.Memory self.kernel self.journal.items) result.0 }
        ensures reserved { IsInStore
            (table_from_items tables_of.Reserved self.kernel self.journal.items) result.0 }
        ensures plain { ArePlainRecords (records_of tables_of.Reserved self.journal.items) }
        ensures sound { HasFirstItem self.journal.items
            → TablesAreSound self.kernel self.journal.items }
    {
        let Memblock {
            kernel: _,
            journal,
            tables,
            aim: _,
        } = self;
        let (store, heads) = tables.into_parts();
        (store, heads, journal)
    }
}

// A memblock has exactly four parts: the range of the kernel's image, the journal, the tables, and
// the limit and direction of searches. It keeps nothing else about memory.
#[test]
fn memblock_is_four_parts(rt: HostRuntime) -> Result<(), std::test::Fail> {
    let image = Range {
        base: 0x100_0000,
        size: 0x2000,
    };
    let Memblock {
        kernel,
        journal,
        tables,
        aim,
    } = Memblock::new(rt.alloc(), image)?;
    let _parts: (Range, Journal, Tables, AllocSettings) = (kernel, journal, tables, aim);
    Ok(())
}

/// Law: `ContinuesMemblock` holds from a memblock to itself, as it does for a call that changes
/// nothing.
pub fn no_items_no_change(memblock: &Memblock)
    ensures { ContinuesMemblock memblock.now memblock.now }
{
    memblock.tables();
}
