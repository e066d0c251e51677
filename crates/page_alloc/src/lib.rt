//! Allocates and frees pages for IDs, after memblock has handed its free frames over to the buddy
//! lists (`memblock_free_all`). Each ID holds at most one set of `2^order` frames.
//!
//! [`Pages`] has the buddy lists (`buddy_handover`) and what was allocated from them: which ID
//! holds which frames. A request gets the first frames of the block that the lists pick
//! (`alloc_pages_node`, `__rmqueue_smallest`). Frames that an ID frees are merged with free
//! buddies (`__free_pages`, `__free_one_page`).
//!
//! [`read_pages`] reads a page script, or returns the first fault, a [`PageFault`]: that of the
//! lowest line that has one. [`Pages::run_line`] carries out one line. The layer above runs whole
//! scripts. It also carries out `near` lines, because it knows the distances between nodes; this
//! crate only reads the text of such lines.
//!
//! In contracts, a name means the definition in `specs/`:
//!
//! - `Forms.antt`: the forms of a line, in the words and numbers of the early script
//!   (`script_reader`)
//! - `Reading.antt`: the lines of a page script
//! - `Spelling.antt`: the same forms as a user writes them
//! - `Pages.antt`: what each line does to the free frames and to what the IDs hold
//! - `FramePlaces.antt`: what is always true of that state
//!
//! A law is an empty function whose contract is a proven fact. By
//! [`page_lines_are_read_as_spelled`] a line is read exactly as what its words spell. The layer
//! above proves, with `FramePlaces.antt`, that no line loses a frame. Each frame that was free at
//! first is in exactly one block, or held by exactly one ID, and no other frame is.
#![tactic(auto)]

mod act;
mod forms;
mod laws;
mod outcome;
mod pages;
mod reading;

pub use act::{PageAct, PageLine};
pub use laws::page_lines_are_read_as_spelled;
pub use outcome::{Held, PageAnswer, PageOutcome};
pub use pages::Pages;
pub use reading::{PageFault, read_pages};
