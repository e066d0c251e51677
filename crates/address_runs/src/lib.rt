//! Runs: maximal ranges of addresses that carry one value.
//!
//! The firmware's map, the owners of memory and its nodes each give a value to an address, or
//! none. They are kept and printed as sorted lists of runs, as `e820__update_table` and
//! `memblock_merge_regions` leave the kernel's tables. This crate is generic in the value.
//! `specs/Runs.antt` defines the runs of a function over addresses, as a relation (`IsRunsOf`)
//! and as a function (`runs_of`). `specs/Sweep.antt` is about lists that are read or built in
//! order of addresses, `specs/Edits.antt` about what an edit does to one address.
//!
//! A [`ValuedRange`] is any record of a range and a value, such as `struct e820_entry`. An
//! [`Overlay`] also says which value holds if two records cover an address. [`RunOf`] is such a
//! record for code that needs no particular format.
//!
//! [`overlay_all`] returns the runs of any list of records, which may overlap and may be in any
//! order. It takes n steps if the records are already a list of runs, and n log n steps if few of
//! them overlap.
//!
//! The laws [`runs_are_unique`] and [`runs_of_gives_the_runs`] tie relation and function
//! together: a function has exactly one list of runs, and `runs_of` returns it. A law is an empty
//! function whose contract is a proven fact.
#![tactic(auto)]

mod builder;
mod layers;
mod order;
mod run;
mod stretch;

pub use builder::agree;
pub use layers::overlay_all;
pub use order::{runs_are_unique, runs_of_gives_the_runs};
pub use run::{RunOf, RunValue};
pub use stretch::{Overlay, ValuedRange};
