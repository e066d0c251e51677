//! Gives memory its nodes, and places the data of each node: the stage of the boot between memory
//! and the crash area.
//!
//! The stage decides whether the firmware's table of domains (the SRAT) fits the machine's memory
//! (`numa_init`). It gives each byte of memory its node (`numa_register_memblks`), and allocates
//! the data of each node that has memory (`alloc_node_data`). `specs/Assignment.antt` defines it
//! as steps. There is one Node item for each run of addresses of one node, then one for each run
//! of memory that no block of the table covers. If the table isn't used, there is one Node item
//! that gives node 0 to all addresses below the limit. The allocations follow.
//!
//! [`assign`] carries out the stage on a memblock and returns the [`Nodes`]. It reads the memory
//! table twice: before the first step, for the ranges that the table of domains must fit; and after
//! the Node items, for the nodes that have memory.
//!
//! - `src/memory.rt`: what is read from the memory table, in one pass each, and the limit, which
//!   is read from the journal.
//! - `src/stage.rt`: the ranges that get a node, the node data, and the whole stage.
//! - `src/laws.rt`: what the stages above may rest on. No byte becomes memory or stops being
//!   memory, the limit is unchanged, and after success each byte of memory has a node.
//!
//! A law is an empty function whose contract is a proven fact. In contracts, a name means the
//! definition in `specs/`.
#![tactic(auto)]

mod laws;
mod memory;
mod stage;

pub use laws::{all_memory_gets_nodes, assign_keeps_memory_and_limit, listed_nodes_have_memory};
pub use srat_nodes::Why;
pub use stage::{Nodes, assign};
