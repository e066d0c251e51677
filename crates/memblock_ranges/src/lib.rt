//! Keeps memblock's two tables, in the bytes of the memory that they describe.
//!
//! `memblock.memory` records the machine's memory, with the node of each range and whether it is
//! mirrored. `memblock.reserved` records which memory is in use (`struct memblock`). Each table is
//! a sorted array of 24-byte records. No record is empty, and no two records that touch have the
//! same label. The array lies in the machine's own memory: at first in the kernel's image, later
//! wherever `memblock_double_array` moved it.
//!
//! [`Tables`] holds the bytes (a `Store`) and, for each table, a [`Head`] with its address, its
//! room and its count. There is no second copy of a record. The edits of a table follow
//! `memblock_add_range`, `memblock_remove_range`, `memblock_set_node`, `memblock_mark_mirror` and
//! `memblock_trim_memory`. [`Tables::relocate`] moves a table and doubles its room
//! (`memblock_double_array`).
//!
//! An edit requires that the table has room for the new records, and never allocates. Only
//! [`Tables::new`] and [`Tables::prepare`] allocate. The layer above decides when a table grows,
//! and where to.
//!
//! Contracts see two lists of runs of labels, with their addresses and rooms, and the store
//! (`specs/Tables.antt`). `IsInStore` connects a list with the bytes: they are the records in
//! memblock's format (`specs/Encoding.antt`), then zeros. The layer above may rely on three facts
//! about each edit. The table's records are those of the changed labels. The other table and the
//! edited table's address and room are unchanged. No byte outside the edited table changes, even
//! if the other table lies in the next frame.
//!
//! In contracts, a name means the definition in `specs/`. A law is an empty function whose
//! contract is a proven fact. The laws say how many records an edit may add, and that a table that
//! is edited item by item always has the records that the items give it.
#![tactic(auto)]

mod borrowed_table;
mod changes;
mod head_table;
mod laws;
mod pieces;
mod record;
mod records;
mod region;
mod tables;
mod trim;

pub use laws::{edited_tables_match_items, edits_add_few_records, uncovered_pieces_are_few};
pub use record::{NO_NODE, label_of, node_field, node_of_field};
pub use records::Records;
pub use region::{Head, Heads, RECORD_SIZE, Region, region_at};
pub use tables::{FIRST_ROOM, Tables};
