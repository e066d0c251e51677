//! A table borrowed from the store, as a sequence of records. Through these types `run_edits` reads
//! and writes the table's bytes in the store. Their invariant is that the bytes are a table, as its
//! head (its address, room and count) describes it; this is true again after each step.
ghost use Rattle.std.specs.Prelude.{◌≡◌, ◌≤◌, ◌<◌, refl, get_or};
ghost use Rattle.std.proofs.Props.{props};
ghost use Rattle.phys_store.specs.Bytes.{byte_of, is_prepared_at};
ghost use Rattle.memblock_ranges.specs.Tables.{IsTable, HasTable, records_of_head};

use crate::record::{Record, decode_record, encode_record};
use crate::region::{Head, RECORD_SIZE};
use bm_base::Range;
use phys_store::Store;
use run_edits::{Rows, Slots};

/// One of memblock's two tables, borrowed for reading: the store that has its bytes, and its head
/// (its address, room and count).
#[derive(Clone, Copy)]
pub struct TableRef<'a> {
    pub store: &'a Store,
    pub head: &'a Head,
    ghost table: { IsTable (byte_of store.now) (is_prepared_at store.now) head.now.place
        head.now.room head.now.count } by { Prim.hlevel props },
}

/// One of memblock's two tables, borrowed for editing: the store that has its bytes, and its head
/// (its address, room and count).
#[derive(Drop)]
pub struct TableMut<'a> {
    pub store: &'a mut Store,
    pub head: &'a mut Head,
    ghost table: { IsTable (byte_of store.now) (is_prepared_at store.now) head.now.place
        head.now.room head.now.count } by { Prim.hlevel props },
}

/// Decodes the record at index `i`, counted from 0, of the table that `head` describes.
fn read_slot(store: &Store, head: &Head, i: u64) -> Record
    requires table { HasTable store.now head.now }
    requires used { i < head.now.count }
    ensures { result ≡ get_or (records_of_head store.now head.now) i result }
{
    decode_record(store.slice(head.place + RECORD_SIZE * i, RECORD_SIZE))
}

#[tactic(auto, using(crate::proofs::LentLaws::count_is))]
impl Rows<Record> for TableRef<'_> {
    ghost use Rattle.phys_store.specs.Bytes.{byte_of};
    ghost use Rattle.memblock_ranges.specs.Encoding.{records_at};

    ghost list = { λ l. records_at (byte_of l.store.now) l.head.now.place l.head.now.count };

    fn count(&self) -> u64 {
        self.head.count
    }

    fn get(&self, i: u64) -> Record {
        read_slot(self.store, self.head, i)
    }
}

#[tactic(auto, using(crate::proofs::LentLaws::count_is))]
impl Rows<Record> for TableMut<'_> {
    ghost use Rattle.phys_store.specs.Bytes.{byte_of};
    ghost use Rattle.memblock_ranges.specs.Encoding.{records_at};

    ghost list = { λ l. records_at (byte_of l.store.now) l.head.now.place l.head.now.count };

    fn count(&self) -> u64 {
        self.head.count
    }

    fn get(&self, i: u64) -> Record {
        read_slot(self.store, self.head, i)
    }
}

#[tactic(auto, using(crate::proofs::LentLaws::count_is))]
impl Slots<Record> for TableMut<'_> {
    ghost use Rattle.std.specs.Prelude.{◌≡◌, ◌≤◌, [], ◌∷◌, ℕ};
    ghost use Rattle.std.proofs.Common.{refl, sym, ◌∙◌, subst};
    ghost use Rattle.memblock_ranges.specs.Tables.{PartKeptByEdits, part_kept_by_edits};

    ghost room = { λ l. l.head.now.room };

    ghost keeps = { λ l m. (m.store.ghost_name ≡ l.store.ghost_name)
        × (m.head.ghost_name ≡ l.head.ghost_name)
        × (part_kept_by_edits m.store.now m.head.now ≡ part_kept_by_edits l.store.now l.head.now) };

    fn put(&mut self, i: u64, item: Record) {
        self.store
            .write(self.head.place + RECORD_SIZE * i, &encode_record(&item));
    }

    fn insert(&mut self, i: u64, item: Record) {
        let at = self.head.place + RECORD_SIZE * i;
        let rest = RECORD_SIZE * (self.head.count - i);
        self.store.move_bytes(at, at + RECORD_SIZE, rest);
        self.store.write(at, &encode_record(&item));
        self.head.count += 1;
    }

    fn close(&mut self, i: u64, n: u64) {
        if n == 0 {
            return;
        }
        let Head { place, count, .. } = *self.head;
        self.store.move_bytes(
            place + RECORD_SIZE * (i + n),
            place + RECORD_SIZE * i,
            RECORD_SIZE * (count - (i + n)),
        );
        let freed = Range {
            base: place + RECORD_SIZE * (count - n),
            size: RECORD_SIZE * n,
        };
        self.store.fill(freed, 0);
        self.head.count = count - n;
    }

    ghost keeps_itself = { λ l. (refl, refl, refl) };

    ghost keeps_on = { λ l m n first second.
        (second.0 ∙ first.0, second.1 ∙ first.1, second.2 ∙ first.2) };

    ghost keeps_room = { λ l m kept k few.
        subst (λ (o : PartKeptByEdits). k ≤ o.room) (sym kept.2) few };
}
