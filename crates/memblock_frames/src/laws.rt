//! The law that connects the bytes of memory with memblock's tables. The calls of this crate read
//! only bytes, at the addresses in the table heads. By this law, the bytes of a stored table are as
//! these calls require, and the calls return what is true of the table.

ghost use Rattle.std.specs.Prelude.{◌≡◌, ℕ, ◌*◌, ◌/◌, ◌^◌, List};
ghost use Rattle.bm_base.specs.declared.range.TheConstants.{FRAME_SIZE};
ghost use Rattle.address_runs.specs.Runs.{value_at};
ghost use Rattle.address_runs.specs.Edits.{IsEmptyFrom};
ghost use Rattle.phys_store.specs.Bytes.{ExtentView};
ghost use Rattle.memblock_ranges.specs.Tables.{TableView, IsInStore, head_of, records_of_head};
ghost use Rattle.memblock_frames.specs.Frames.{free_node_in, node_of_frame};
ghost use Rattle.memblock_frames.specs.HeadRecords.{HasRecords, AreWholeFrames};

/// Law: a table of memblock whose records are stored in the bytes of memory can be read back from
/// them, by its head (address, number of records, room). The records that are read give each frame
/// the same node as the table, and the same frames are free. Each record ends at or below a bound
/// if the table has nothing from that bound on. Each record is whole frames if the table has the
/// same value for all bytes of a frame.
pub fn stored_records_give_table_frames()
    ensures records { (t : TableView) (store : List ExtentView) → IsInStore t store
        → HasRecords store (head_of t) (2 ^ 64) }
    ensures below { (t : TableView) (store : List ExtentView) (bound : ℕ) → IsInStore t store
        → IsEmptyFrom bound (value_at t.records) →
        HasRecords store (head_of t) bound }
    ensures whole { (t : TableView) (store : List ExtentView) → IsInStore t store →
        ((x : ℕ) → value_at t.records x ≡ value_at t.records (FRAME_SIZE * (x / FRAME_SIZE))) →
        AreWholeFrames (records_of_head store (head_of t)) }
    ensures node { (t : TableView) (store : List ExtentView) (frame : ℕ) → IsInStore t store →
        node_of_frame (value_at (records_of_head store (head_of t))) frame
        ≡ node_of_frame (value_at t.records) frame }
    ensures free { (memory reserved : TableView) (store : List ExtentView) (frame : ℕ)
        → IsInStore memory store → IsInStore reserved store →
        free_node_in (value_at (records_of_head store (head_of memory)))
        (value_at (records_of_head store (head_of reserved))) frame
        ≡ free_node_in (value_at memory.records) (value_at reserved.records) frame }
{}
