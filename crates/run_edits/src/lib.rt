//! Edits of a sorted table of runs, in place.
//!
//! A table holds records, each a range of addresses and a value: ascending, none empty, no two
//! mergeable (`address_runs`). memblock's two tables are such tables, and so is the journal's
//! list of owners.
//!
//! The kernel has a function for each edit (`memblock_add_range`, `memblock_remove_range`,
//! `memblock_setclr_flag`, `memblock_set_node`, ..) and merges neighbours afterwards
//! (`memblock_merge_regions`). Here an edit is a [`Change`], which says what happens to a single
//! address: [`Cover`], [`Uncover`], [`Replace`] and others. One function carries out all of them.
//! It sweeps once over the records that meet or touch the range.
//!
//! A table may be a `Vec`, or lie in the memory that it describes. [`Rows`] reads its records;
//! [`Slots`] also writes, inserts and removes them. No function here allocates.
//!
//! After [`edit_range`] or [`edit_without_cover`] the table holds the runs of the changed values,
//! and nothing else has changed. [`edit_without_cover`] takes any change except a cover, and needs
//! room for two more records. [`edit_range`] takes any change; it needs room, at each address that
//! the sweep reaches, for the new runs below and the old runs above.
#![tactic(auto)]

mod change;
mod edits;
mod laws;
mod reading;
mod slots;

pub use change::{Change, Cover, Replace, Uncover};
pub use edits::{edit_range, edit_without_cover, write_run};
pub use laws::{edits_add_few, range_end_fits};
pub use reading::{first_ending_above, has_value_throughout, skip_ended, value_and_end, value_at};
pub use slots::{Rows, Slots};
