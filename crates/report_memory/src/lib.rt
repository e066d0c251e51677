//! Writes the reports on the map, the options, the journal and memblock's tables as text, in the
//! style of the files in `/sys/kernel/debug`.
//!
//! Each report consists of three things: the definition of a line in `specs/`, which can be
//! compared with the documentation of the formats; the function that writes this line; and one call
//! of [`put_indexed_lines`]. This call takes the function that writes a line; it is proved once for
//! all lists. Each `put_` function appends the text of one report:
//!
//! - [`put_map`]: the runs of the map
//! - [`put_options`]: the options of the command line
//! - [`put_journal`], [`put_owners`]: the journal, and who owns which bytes
//! - [`put_records`], [`put_tables`]: the records of one table, read from its bytes, and the heads
//!   of both
//!
//! Parts that several reports share are here once. A range is written as its first and its last
//! byte. An index is right-aligned in four columns. Each owner and each table has one name.
//! `bm_base` writes numbers.
//!
//! The layer above can rely on this: a `put_` call appends exactly the text of its definition and
//! changes nothing else. It fails only with `Memory`, and only if the text's capacity is too small
//! for the new text (`PutsText` of `bm_base`). The text is incomplete then, and the caller discards
//! it. In contracts, a name means the definition in `specs/`.
#![tactic(auto)]

mod journal;
mod lines;
mod map;
mod options;
mod owners;
mod ranges;
mod records;
mod tables;

pub use journal::{put_item, put_journal};
pub use lines::put_indexed_lines;
pub use map::put_map;
pub use options::put_options;
pub use owners::{memblock_table_name, put_owners};
pub use ranges::put_word_range;
pub use records::put_records;
pub use tables::put_tables;
