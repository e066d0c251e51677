//! Keeps the journal of the boot: everything that happened to memory, in order.
//!
//! Every call of memblock that changes memory (`memblock_add`, `memblock_reserve`,
//! `memblock_phys_free`, `memblock_set_node`, `memblock_trim_memory` and others) appends one
//! [`Item`]. The kernel keeps only merged records, and doesn't record for whom it reserved memory.
//! The journal says of each byte who owns it, whether it is memory, on which node, and whether it
//! is mirrored.
//!
//! [`Journal::tag_at`] computes the tag of a byte (whether it is memory, its node, and whether it
//! is mirrored) from the items. The owner of a byte is needed more often, so the journal also keeps
//! the runs of bytes with one owner, sorted. Each claim and each free updates them.
//! [`Journal::owners`] returns these runs; [`Journal::owner_at`] and [`Journal::owns`] look up a
//! byte or a range in them. All results are defined on the items alone, in `specs/Items.antt` of
//! `memblock_model`.
//!
//! The layer above may rely on two facts. A call appends its item, or runs out of memory and leaves
//! the journal unchanged. After [`Journal::ready`] has succeeded for n items, the next n items are
//! appended without allocating. Contracts see a journal as its items and the number `spare` of
//! items that it has memory for. The range of an item is never empty.
//!
//! In contracts, a name means the definition in `specs/`, here or in a crate below.
#![tactic(auto)]

mod journal;
mod owners;
mod run_list;
mod tags;

pub use journal::Journal;
pub use memblock_model::{Item, Owner, OwnerRun, Tag, Which};
