//! Decides which memory belongs to which NUMA node, from the ranges of the SRAT.
//!
//! The kernel reads the SRAT into blocks of memory with nodes (`numa_add_memblk`). It drops blocks
//! without memory, and joins two blocks of a node if no address between them is in a block of
//! another node (`numa_cleanup_meminfo`). It uses the table only if the blocks cover enough of
//! memory (`numa_meminfo_cover_memory`). This crate takes these steps on lists of blocks.
//!
//! [`judge_srat`] takes the ranges of memory and the content of the table, and returns a
//! [`SratNodes`]. Its [`Why`] says whether the table is used, and if not, for what reason. For a
//! table that is used, there are also the domain of each node, the runs of addresses to which the
//! blocks give a node, and the runs of memory to which they give none. The latter get the lowest
//! node that has a block.
//!
//! The definitions look at each address by itself (`specs/NodeAt.antt`). An address has a node if
//! it lies in a kept block of that node. It also has the node if it lies between two such blocks,
//! and the range from the start of the lower to the end of the upper meets no block of another
//! node. The code never iterates over addresses. It overlays the blocks as runs (`address_runs`),
//! and looks up each block in them (`run_edits`) to find out whether blocks of different nodes
//! overlap. If none do, one pass joins each run with the next if both have the same node. Memory
//! is kept as runs too, so that each block can be looked up in it.
//!
//! A law is an empty function whose contract is a proven fact. In contracts, a name means the
//! definition in `specs/`. The laws say:
//!
//! - [`address_has_one_node`]: an address has at most one node.
//! - [`one_node_a_domain`]: different domains have different nodes.
//! - [`nodes_by_first_naming`]: nodes are numbered in the order in which their domains are first
//!   named.
//! - [`least_overlap`]: the pair of overlapping blocks in [`Why::Overlap`] is the least one.
//! - [`frame_has_one_node`]: all addresses of a frame have the same node.
//! - [`kept_nodes_have_memory`]: a node has memory exactly if it has a kept block.
//! - [`runs_cover_memory`]: the runs of a table that is used cover all memory.
//!
//! The layer above passes memory as a list of ranges, in any order. It records the nodes of
//! memory, and allocates the nodes' own data.
#![tactic(auto)]

mod domains;
mod hulls;
mod kept;
mod laws;
mod memory;
mod reasons;
mod rest;

pub use kept::{KeptBlock, NodeRange};
pub use laws::{
    address_has_one_node, frame_has_one_node, kept_nodes_have_memory, least_overlap,
    nodes_by_first_naming, one_node_a_domain, runs_cover_memory,
};
pub use reasons::{MAX_BLOCKS, SratNodes, UNCOVERED_FRAMES, Why, judge_srat};
