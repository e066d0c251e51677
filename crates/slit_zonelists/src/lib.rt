//! Computes how far nodes are from one another, and in which order a request near a node looks at
//! their zones.
//!
//! The "System Locality Information Table" of ACPI (SLIT, section 5.2.17) is a matrix of
//! distances: one byte from each domain to each. [`read_slit`] returns a [`Slit`], or the first
//! fault of the bytes. The SRAT says which domain each node is. [`SlitUse`] says whether the
//! matrix is used. If a bad cell prevents that, it names the cell (`slit_valid`).
//!
//! [`Lists`] has, for each node, the zones of all nodes in the order in which a request near that
//! node looks at them (`build_zonelists`, `node_zonelist`). That order is by distance, then by the
//! node's number, then Normal before DMA32 before DMA. [`near`] allocates from the first zone of a
//! list that has a block, and [`run_page_lines`] carries out all lines of a page script.
//!
//! - `specs/Table.antt`: the bytes.
//! - `specs/Uses.antt`: whether the matrix is used.
//! - `specs/Lists.antt`: distances and lists.
//! - `specs/Near.antt`: what a line of the script does to the page allocator.
//!
//! The layer above may rest on the laws [`zone_lists_have_each_zone_in_order`],
//! [`near_takes_from_the_first_zone`] and [`frames_stay_in_one_block_or_held`]. A law is an empty
//! function whose contract is a proven fact. In contracts, a name means the definition in
//! `specs/`, here or in a crate below.
#![tactic(auto)]

mod buckets;
mod laws;
mod lists;
mod near_request;
mod order;
mod run;
mod table;
mod uses;

pub use laws::{
    frames_stay_in_one_block_or_held, near_takes_from_the_first_zone, reported_bad_cell_is_first,
    zone_lists_have_each_zone_in_order,
};
pub use lists::Lists;
pub use near_request::near;
pub use order::ListZone;
pub use run::run_page_lines;
pub use table::{Slit, SlitFault, read_slit};
pub use uses::SlitUse;
