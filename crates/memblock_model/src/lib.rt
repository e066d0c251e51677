//! The model of memblock: what happens to memory, and what each byte is afterwards.
//!
//! From the final memory map to the handover to the buddy allocator the kernel keeps memory in two
//! tables, `memblock.memory` and `memblock.reserved`. Here the history of memory is the journal, a
//! list of [`Item`]s, oldest first. Everything else is a function of that list: the owner and node
//! of a byte (`specs/Items.antt`), the records, room and address of the two tables
//! (`specs/Tables.antt`), and the result of a search (`specs/Search.antt`).
//!
//! What an item does to the bytes of a range is defined in `specs/Edits.antt` of `address_runs`.
//! The code that edits a table uses the same definitions. The node and the mirror flag of a byte of
//! memory are its label (`specs/Labels.antt`). If a label is to carry more, it needs a new field,
//! its test of equality (`specs/Same.antt`) must compare the field, and an item must set it.
//!
//! [`Item`], [`Owner`], [`Label`], [`Marks`], [`Tag`], [`Which`], [`OwnerRun`], [`Query`],
//! [`Request`] and [`Mode`] are plain data. They are here because the definitions use them. A law
//! is an empty function whose contract is a proven fact. In contracts, a name means the definition
//! in `specs/`.
#![tactic(auto)]

mod item;
mod label;
mod laws;
mod owner;
mod query;
mod run;

pub use item::Item;
pub use label::{Label, MIRROR_FLAG, Marks, Tag};
pub use laws::{
    appended_item_acts_last, best_is_mirrored_first, lists_are_runs, tables_need_no_owners,
    tests_decide_equality, top_is_outermost, trimmed_frame_is_whole,
};
pub use owner::{Owner, Which};
pub use query::{Mode, Query, Request};
pub use run::OwnerRun;
