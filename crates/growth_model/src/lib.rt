//! Defines how memblock's tables change and grow: what a claim, a free, an allocation and the
//! growth of a table (`memblock_double_array`) write to the journal.
//!
//! Each table of memblock has room for a number of records. If a change may need more, the table
//! first grows to twice its room. It finds a new place by the same search as any allocation,
//! claims that place, and frees its old one. A claim may therefore write several items, and the
//! growth of one table may need the growth of the other. There may also be no place for the table.
//! Each change is therefore a function of the items so far. Its value (`ChangeEffect`) lists the
//! items that it writes, step by step, and the growth that was refused, if one was.
//!
//! - `specs/Growth.antt`: the growth of both tables, and the five changes that may need it: a
//!   claim, a free, an added range, a node for a range, and a range that becomes mirrored.
//! - `specs/Request.antt`: the searches that an allocation tries, in order.
//! - `specs/Ends.antt`: how a call that makes a change may end: as defined, or before one of its
//!   steps because this program is out of memory.
//! - `specs/Tables.antt`: what holds of the items after each call: both tables lie in claimed
//!   memory, share no frame, and have room for their records.
//! - `specs/Room.antt`: how much room a growth gives. Two growths in a row are always enough.
//! - `specs/Bytes.antt`: the byte at each address, computed from the items and the fills, and how
//!   a call changes it.
//! - `specs/Requests.antt`: lists of items that are to be written, each with the growth that it
//!   needs; and the items that change memory.
//!
//! [`Refusal`] is in this crate, below the calls that return it, because the definitions cite it.
//! The functions are laws. A law is an empty function whose contract is a proven fact. In
//! contracts, a name means the definition in `specs/`. The layers above may rest on the
//! definitions and the laws.
#![tactic(auto)]

mod byte_laws;
mod laws;
mod memory_laws;
mod refusal;

pub use byte_laws::{
    byte_effects_compose, bytes_compose_over_calls, edits_change_only_table_bytes,
    newest_fill_decides, tables_are_encoded,
};
pub use laws::{
    allocations_keep_table_places, claims_keep_table_places, first_claim_places_tables,
    found_places_are_free, growth_doubles_room, memory_edits_keep_table_places,
    successive_calls_compose, two_growths_are_enough,
};
pub use memblock_model::Request;
pub use memory_laws::{
    claims_leave_memory, memory_depends_on_memory_items, requested_items_make_memory,
};
pub use refusal::Refusal;
