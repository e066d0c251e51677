//! Defines how a program that reads files and writes to outputs ends. `bootmem` and `bootaudit`
//! share this crate.
//!
//! Both programs work in the same way. They read their command line (the words after the program's
//! name), fetch the files that it names, compute a result, and write the result's text to the
//! output. This crate defines what both promise about their ends, for any types of input file `I`,
//! of file fault `F`, of cause `C` and of result.
//!
//! - [`Reason`], [`NoResult`] and [`Failure`] are the ways to fail.
//! - [`exit_status`] is the exit status of each end: 2 to 7 for failures, 0 or 8 for a result.
//! - [`Lines`] has the texts of error lines that differ between the programs. [`put_end_line`]
//!   writes to the error output the one line that says why a program failed.
//!
//! The crates above state what their calls do by two relations. `Fetches` (`specs/Fetches.antt`)
//! says how a call that fetches files may end, `WritesOutcome` (`specs/Ends.antt`) how a call that
//! writes the result may end. A `Program` (`specs/Program.antt`) says what is different for each
//! program: the order of its input files, their names, and the text and status of a result.
//!
//! In contracts, a name means the definition in `specs/`.
#![tactic(auto)]

mod failure;
mod lines;

pub use failure::{Failure, NoResult, Reason, exit_status};
pub use lines::{Lines, put_end_line, put_line};
