//! The results of a boot: one field for each stage, and the inputs that reports need.

use bm_base::Width;
use boot_journal::Journal;
use boot_options::Options;
use buddy_handover::Buddy;
use crash_kernel::Crash;
use e820_model::Run;
use early_script::Answer;
use memblock_ranges::Heads;
use numa_nodes::Nodes;
use page_alloc::{PageAnswer, Pages};
use phys_store::Store;
use section_maps::Placed;
use slit_zonelists::Lists;
use sparse_sections::Roots;
use zone_spans::Span;

/// The results of a boot.
#[derive(Drop)]
pub struct Booted {
    /// The width of physical addresses.
    pub width: Width,
    /// The firmware's map after the edits of the command line: runs of addresses of one type, in
    /// ascending order.
    pub map: Vec<Run>,
    /// The options of the command line.
    pub options: Options,
    /// The journal: each change of memblock, oldest first, and the runs of memory that each owner
    /// has.
    pub journal: Journal,
    /// The bytes of memory that the boot wrote, with both of memblock's tables.
    pub store: Store,
    /// The addresses of memblock's two tables in `store`, and the number of their records.
    pub heads: Heads,
    /// The nodes, and whether the firmware's table of domains gave them.
    pub nodes: Nodes,
    /// The outcome for the crash area.
    pub crash: Crash,
    /// The addresses of the section roots.
    pub roots: Roots,
    /// The addresses of each section's map and usage data.
    pub placed: Vec<Placed>,
    /// The outcome of each line of the early claims, which run before memory gets its nodes.
    pub claim_answers: Vec<Answer>,
    /// The outcome of each line of the early script, except for the command `sections`.
    pub answers: Vec<Answer>,
    /// For each node and zone, the range of frames that the zone spans and the number of its memory
    /// frames.
    pub spans: Vec<Span>,
    /// The free frames that were handed over to the page allocator, each with its node.
    pub buddy: Buddy,
    /// For each node, the zones with memory, in the order in which an allocation for the node tries
    /// them.
    pub lists: Lists,
    /// The outcome of each line of the page script.
    pub page_answers: Vec<PageAnswer>,
    /// The free frames after the page script, and the frames that its IDs hold. The script runs on
    /// a copy of the frames that were handed over.
    pub after: Pages,
}

impl Booted {
    ghost use Rattle.std.specs.Prelude.{◌≡◌};
    ghost use Rattle.boot_model.specs.Boot.{booted_address_limit};
    ghost use Rattle.boot_model.specs.View.{booted_view};

    /// Returns the limit of physical addresses (`MAX_PHYSMEM_BITS`): each address is below it.
    pub fn reach(&self) -> u64
        ensures { result ≡ booted_address_limit (booted_view self.now) }
    {
        self.width.limit()
    }
}
