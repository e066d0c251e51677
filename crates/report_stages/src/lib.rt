//! Writes the reports on the later stages of a boot as text: the scripts, the nodes, the crash
//! area, the sections, the zones and the free blocks.
//!
//! The crate `report_memory` has the reports on the map, the journal and the tables. The reports
//! here need the types of later stages, so they are in a crate of their own. Both crates have the
//! same structure: the definition of a line in `specs/`, which can be compared with the
//! documentation of the formats; the function that writes this line; and one call of
//! `put_indexed_lines`. Each `put_` function appends the text of one report:
//!
//! - [`put_script`], [`put_pages`]: the outcome of each line of the early script (except
//!   `sections`), and of the page script
//! - [`put_nodes`]: whether the SRAT is used, and which ranges of memory got which node
//! - [`put_crash`]: the crash area
//! - [`put_sections`]: the addresses of the data of the memory sections
//! - [`put_zones`], [`put_buddyinfo`], [`put_blocks`]: the zones and the free blocks at the
//!   handover
//! - [`put_zonelists`]: the zones in the order in which a request on a node tries them
//! - [`put_summary`]: the totals at the end of the boot
//!
//! The layer above can rely on this: a `put_` call appends exactly the text of its definition. It
//! fails only with `Memory`; the text is incomplete then, and the caller discards it. Except for
//! [`put_blocks`] and [`put_zonelists`], which also allocate lists, a call fails only if the text's
//! capacity is too small for the new text (`PutsText` of `bm_base`). The text of the blocks may
//! have millions of lines, so [`put_blocks`] allocates the room for all of them at once. In
//! contracts, a name means the definition in `specs/`.
#![tactic(auto)]

mod batches;
mod blocks;
mod crash;
mod laws;
mod lists;
mod nodes;
mod pages;
mod script;
mod sections;
mod summary;
mod words;
mod zones;

pub use blocks::put_blocks;
pub use crash::put_crash;
pub use laws::own_rule_gives_a_line_for_each_span;
pub use lists::put_zonelists;
pub use nodes::put_nodes;
pub use pages::put_pages;
pub use script::put_script;
pub use sections::put_sections;
pub use summary::{Fullness, Summary, put_summary};
pub use zones::{put_buddyinfo, put_zones};
