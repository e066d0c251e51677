//! Runs the early script line by line. Its lines make allocations after those of the boot itself.
//!
//! A line of the script (`script_reader`) allocates memory, claims a range, frees all or a part of
//! what an earlier line got, or writes or reads bytes. [`Live::run_line`] runs one line and returns
//! an [`Outcome`]. A line can be refused for several reasons. They are tested in a fixed order, and
//! the first that applies is the outcome. Memory changes only if none applies. A refused line
//! doesn't end the boot: its outcome is recorded, and the next line follows.
//!
//! - `specs/Effects.antt`: what each command of a line does and returns (`act_effect`), as a change
//!   of the journal's items. `specs/Lines.antt`: lines, one after another.
//! - [`Live`]: the live IDs, each with its range. Contracts see it as a list of IDs with their
//!   ranges.
//! - A line can only use an ID that still owns all bytes of its range. Another line may have
//!   claimed or freed some of these bytes. A look-up in the journal decides whether one has.
//! - [`run_script_lines`] runs lines in order. [`split_at_sections`] returns the lines before and
//!   after the line `sections`, which places the memory sections.
//!
//! The layer above may rest on these facts:
//!
//! - What a line claims, frees or fills never overlaps memblock's tables. A `reserve` of a range
//!   that overlaps a table is refused, and the script owns no byte of a table.
//! - A table moves only if a claim or a free makes it grow.
//! - If this program is out of memory during a line, some steps of its change may be written, and
//!   the IDs are unchanged.
//! - Each address that the store had prepared for writing is still prepared after a line,
//!   whatever the line returns.
//!
//! A law is an empty function whose contract is a proven fact. In contracts, a name means the
//! definition in `specs/`.
#![tactic(auto)]

mod lines;
mod live;
mod outcome;
mod steps;

pub use lines::{
    lines_keep_memory, run_script_lines, scripts_place_sections_once, split_at_sections,
};
pub use live::Live;
pub use outcome::{Answer, Outcome};
pub use script_reader::{Act, Line, ScriptFault, read_script};
