//! Searches unclaimed memory, and walks over it, in memblock's two tables.
//!
//! Unclaimed memory is what `memblock.memory` covers and `memblock.reserved` doesn't. No function
//! of this crate allocates memory or changes a table.
//!
//! - [`find`] is `memblock_find_in_range_node`. It returns the greatest address at which a
//!   [`Query`] fits, or the least. A query fits at an address if the range of its size there is
//!   aligned, in the query's window, above the first frame, and entirely unclaimed memory of one
//!   label. A [`Mode`] says in which direction to search, and whether only mirrored memory is
//!   allowed.
//! - [`prev_free`] and [`next_free`] return one run of unclaimed memory, below an address or from
//!   an address on (`for_each_free_mem_range`). [`FreeRuns`] returns all runs from an address up,
//!   one after another, and searches only once.
//!
//! Contracts define the result of [`find`] by `outermost_fit` of `memblock_model`, applied to the
//! labels that the records give each address. `specs/Unclaimed.antt` defines unclaimed memory and
//! its runs. The layer above may rest on these definitions, and on the laws of `src/laws.rt`. A law
//! is an empty function whose contract is a proven fact. In contracts, a name means the definition
//! in `specs/`.
//!
//! A walk reads the records in place, and only those that it passes. A search therefore costs two
//! binary searches, and one step for each record between the end of the window at which it begins
//! and the address that it finds. A downward search for memory of a node, or for mirrored memory,
//! reads only the label of a record that it skips. It continues at the end of the next record whose
//! memory it may return. If it has passed several reserved records until then, a binary search
//! finds the next one.
#![tactic(auto)]

mod bottom;
mod cursor;
mod down;
mod free;
mod laws;
mod node;
mod search;
mod up;

pub use free::{FreeRange, FreeRuns, next_free, prev_free};
pub use laws::{free_runs_are_unique, searches_follow_the_items};
pub use memblock_model::{Mode, Query};
pub use search::find;
