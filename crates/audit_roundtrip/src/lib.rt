//! Proves that `bootaudit` reads back from a printed report exactly what `bootmem` printed it
//! from.
//!
//! The laws connect the definitions of the texts (`report_memory`, `report_stages`) with those of
//! their readers (`audit_lines`). By these laws `bootmem` and the audit of its reports can't
//! disagree on the formats. A law is an empty function whose contract is a proven fact; this crate
//! has nothing else.
//!
//! - [`map_is_read_back`], [`owners_are_read_back`], [`blocks_are_read_back`]: the text that is
//!   printed for a list of runs, owners or blocks is read back as this list.
//! - [`read_map_is_printed`], [`read_blocks_are_printed`]: if a text is accepted, it is the text
//!   that is printed for the list that was read from it.
//!
//! `specs/PrintedLines.antt` defines the line as which a run or a block is read back. The audit
//! doesn't keep the names in the report `owners`, so there is no `read_owners_are_printed`.
#![tactic(auto)]

mod laws;

pub use laws::{
    blocks_are_read_back, map_is_read_back, owners_are_read_back, read_blocks_are_printed,
    read_map_is_printed,
};
