//! Defines the stages of the boot that make several allocations in turn: how a stage is written as
//! steps, and how the call that carries it out may end.
//!
//! Node data, the crash area, section roots and section maps are each a sequence of allocations.
//! What a later allocation requests may depend on what an earlier one got, and the first refusal
//! ends the sequence. Such a stage is defined as steps (`specs/Steps.antt`). A step writes groups
//! of items (recorded changes of memblock) to the journal, each group as a whole or not at all. It
//! returns a value or fails with an error. The relation `EndsAsStage` says how a call that carries
//! out a stage ends. The call returns the stage's value or its error. If this program runs out of
//! memory, it returns `Memory`, and only some of the groups, counted from the first, are written.
//!
//! - `specs/Steps.antt`: steps, one after another, and `EndsAsStage`.
//! - `specs/Causes.antt`: why a stage stops the boot, and the error that a call returns for it.
//! - `specs/Requests.antt`: steps that make a change or an allocation, and stop the boot if it is
//!   refused; and a second step that is tried if a first one found no place.
//! - `specs/Nodes.antt` and `specs/KeepsMemory.antt`: memory after it has its nodes, and steps that
//!   don't change memory.
//!
//! The code of a stage calls [`place_or_stop`] and [`set_node_or_stop`] on a memblock. Each ends
//! as its step is defined, and keeps `ContinuesMemblock` of `memblock_grow`: the kernel's image
//! stays where it is, each byte is what the items say, and each address that the store had
//! prepared for writing is still prepared. The proof of a loop over steps uses two invariants:
//! the whole stage ends as its remaining steps end, and `ContinuesMemblock` holds from the start
//! of the stage.
//!
//! The functions of `laws` are laws. A law is an empty function whose contract is a proven fact.
//! In contracts, a name means the definition in `specs/`.
#![tactic(auto)]

mod calls;
mod laws;

pub use calls::{place_or_stop, set_node_or_stop, stop_for_refusal};
pub use laws::{allocations_leave_memory, calls_end_as_steps};
pub use memblock_grow::{Section, StageStop, What};
