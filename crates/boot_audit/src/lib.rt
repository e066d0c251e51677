//! Audits saved reports: decides whether the reports `map`, `owners` and `blocks` of one boot show
//! that memory was conserved.
//!
//! A frame is *usable* if all its bytes are memory (type 1 or 128) below the limit of addresses,
//! and *touched* if one of its bytes has an owner. Memory was *conserved* if each usable frame is
//! either touched or in exactly one free block, and no other frame is in a block. Also, the
//! address of each block is a multiple of its size, its frames are in its zone, and it couldn't
//! merge with its buddy (`specs/Conserved.antt`).
//!
//! - [`judge`] gives the verdict on the lines of the reports: `Sound`, or the first fault
//!   (`specs/Verdicts.antt`).
//! - [`sound_verdict_conserves_memory`] is a law: the verdict is `Sound` exactly if memory was
//!   conserved. A law is an empty function whose contract is a proven fact.
//! - [`audit`] is the program `bootaudit` over any files, output and error output. It reads the
//!   three reports that the command line names (`audit_lines`), and writes the verdict.
//!   `audit_outcome` (`specs/Outcome.antt`) defines what it writes.
//!
//! The crates above can rely on this: `audit` writes what `audit_outcome` says, unless a file
//! can't be read, the output refuses the text, or this program is out of memory. The program
//! `bootaudit` calls `audit` with the files and streams of the operating system.
//!
//! In contracts, a name means the definition in `specs/`.
#![tactic(auto)]

mod args;
mod blocks;
mod failure;
mod fetching;
mod judgement;
mod lines;
mod merges;
mod program;
mod sweep;
mod texts;

pub use audit_lines::{BlockLine, MapLine};
pub use failure::{AuditReason, Failure, NoCause, NoVerdict, ReportFault, SavedReport};
pub use judgement::{Saved, Verdict, judge, sound_verdict_conserves_memory};
pub use program::audit;
