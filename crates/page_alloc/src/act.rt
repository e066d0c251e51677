//! The commands of a page script.

use bm_base::Zone;

/// A command of a page script. An ID is a number by which the script names the frames that one of
/// its lines allocated.
#[derive(Clone, Copy, Debug, PartialEq, Eq)]
pub enum PageAct {
    /// `pages`: allocates `2^order` frames of the node and the zone for the ID
    /// (`alloc_pages_node`).
    Pages {
        id: u32,
        /// The order, at most 10 in a script.
        order: u32,
        node: u32,
        zone: Zone,
    },
    /// `near`: allocates `2^order` frames for the ID, from the first zone in the node's zone list
    /// that has them (`get_page_from_freelist`).
    Near {
        id: u32,
        /// The order, at most 10 in a script.
        order: u32,
        node: u32,
    },
    /// `give`: frees the frames that the ID holds (`__free_pages`).
    Give {
        id: u32,
    },
}

/// A line of a page script with a command.
#[derive(Clone, Copy, Debug, PartialEq, Eq)]
pub struct PageLine {
    /// The number of the line in the script, from 1 on.
    pub number: u32,
    pub act: PageAct,
}
