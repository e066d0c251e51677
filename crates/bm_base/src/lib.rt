//! Address ranges, frames, zones, numbers in text, and the out-of-memory error.
//!
//! A [`Range`] is a base and a size in bytes. Their sum is at most 2^64 - 1, so its end never
//! wraps. Contracts see a `Range` as a `RangeView` (`specs/Range.antt`).
//!
//! Memory is handed out in frames of [`FRAME_SIZE`] bytes (`specs/Frames.antt`). [`round_up`] and
//! [`round_down`] round to multiples of a frame or of any alignment. Each frame lies in one
//! [`Zone`]. A [`Width`] gives the limit of physical addresses: 46 or 52 bits.
//!
//! [`Memory`] means that the program itself ran out of memory. It is the only error that can
//! occur for every input. Each error type of the crates above has it as a variant. A contract
//! with `Answers` (`specs/Answers.antt`) promises the result of a definition, or that error.
//!
//! The `put_` functions append text and numbers to a report in the forms of the kernel's log.
//! They fail only if `out` has too little room and can't grow; `out` is then unchanged
//! (`specs/PutsText.antt`).
//!
//! [`read_size`] and [`read_number`] read the numbers of every text input, as the kernel's
//! `memparse` does. Values above 2^64 - 1 don't wrap: they are a [`NumFault`].
//!
//! A law is an empty function whose contract is a proven fact. In contracts, a name means the
//! definition in `specs/`, even if a function has the same name.
#![tactic(auto)]

mod memory;
mod range;
mod size;
mod text;
mod width;
mod zone;

pub use memory::{Memory, push_within_capacity};
pub use range::{FRAME_SIZE, Range, round_down, round_up};
pub use size::{NumFault, read_number, read_size, sizes_are_spelled, spelled_sizes_are_read};
pub use text::{put_dec, put_hex, put_text};
pub use width::Width;
pub use zone::{MAX_DMA_FRAME, MAX_DMA32_FRAME, MAX_NODES, Zone, zone_of};
