//! Reads the early script: allocations that a user adds to those of the boot, before the buddy
//! allocator takes over.
//!
//! In the kernel, drivers and architecture code call memblock between the set-up of its tables and
//! the start of the buddy allocator. The script states what these callers would do, one call per
//! line. A line claims a range that a search finds, or one at a given address
//! (`memblock_alloc_range_nid`, `memblock_reserve`). Other lines free such a range, whole or in
//! part (`memblock_phys_free`), write or read bytes, or say when the memory sections are set up
//! (`sparse_init`). The format is the program's own; no kernel reads it.
//!
//! [`read_script`] returns a list of [`Line`]s, each with an [`Act`] and the line's number. If any
//! line has a fault, it returns that of the lowest such line, a [`ScriptFault`].
//!
//! In contracts, a name means the definition in `specs/`:
//!
//! - `Lines.antt`: the lines of a script of any kind
//! - `Grammar.antt`: how a user writes a line of any kind of script
//! - `Numbers.antt`: the words of a line, and the numbers among them
//! - `Forms.antt`: the form of each command, and the order in which its faults are tested
//! - `Script.antt`: the lines of an early script
//! - `Spelling.antt`, `ScriptSpelling.antt`: the same forms as a user writes them
//!
//! A law is an empty function whose contract is a proven fact. By [`lines_of_spelling`] a line is
//! read as an act exactly if its words spell that act, and has a fault exactly if the fault is the
//! first condition that its words don't meet. [`scripts_of_spelling`] states this for whole
//! scripts.
//!
//! A page script (`page_alloc`) has other commands in the same kind of words, so one reader serves
//! both: [`read_lines`] reads a script of any kind, and [`ScriptLine`] defines a kind. Both kinds
//! read words and numbers by the same functions ([`one_word`], [`number_within`]). Early claims
//! (`boot_inputs`) have the commands of a script and its faults ([`script_fault_at`]).
//!
//! The layer above, which runs the lines, can rely on three facts. Each act meets the conditions
//! for running it (`HasBounds`). `sections` occurs at most once. The reader runs out of memory
//! only if no line has a fault.
#![tactic(auto)]

mod act;
mod fault;
mod forms;
mod laws;
mod lines;
mod script;
mod words;

pub use act::{Act, Line};
pub use fault::{ScriptFault, ScriptLineFault};
pub use forms::{GREATEST_ID, GREATEST_NODE};
pub use laws::{each_line_has_its_words, lines_of_spelling, scripts_of_spelling};
pub use lines::{LinesError, ScriptLine, read_lines};
pub use memblock_model::Request;
pub use script::{read_script, script_fault_at};
pub use words::{first_word, number_within, one_word};
