//! Files and outputs: what the program reads its inputs from and writes its reports to.
//!
//! [`Files`] reads whole files by name, up to a limit in bytes. [`Sink`] takes output in chunks.
//! Any call may fail. The crates above are proved for every implementation of both traits.
//!
//! The two traits have ghost members, which only contracts see: the bytes of a file, the bytes
//! that were written (each `None` if unknown), and counters of faults. A counter is a `u64` that
//! never falls and stops at 2^64 - 1. Each error raises a counter, so the counters distinguish a
//! failure outside the program from a bug in it. The one exception is [`Fetch::Memory`], which
//! raises none, since memory may run out at any time. [`Put::Memory`] has a counter of its own,
//! which no other error raises. A call may raise a counter of faults and still succeed: it may
//! have retried.
//!
//! [`MemFiles`] and [`MemSink`] hold their bytes in memory, and fail at the calls whose numbers a
//! test lists. [`RealFiles`] and [`StdSink`] use the operating system, through traits for a single
//! system call each ([`RawFiles`], [`RawReader`], [`RawWriter`]). It is proved which system calls
//! they make, and that they return `Failed` only if a system call failed or a write took no byte.
//! [`SystemFiles`] and [`SystemStream`] make these calls, in one line each. Only these lines are
//! trusted without a proof.
#![tactic(auto)]

mod joined;
mod mem_files;
mod mem_sink;
mod raw;
mod reading;
mod real_files;
mod std_sink;
mod system;
mod writing;

pub use joined::put_all;
pub use mem_files::{MemFile, MemFiles};
pub use mem_sink::MemSink;
pub use raw::{RawFiles, RawReader, RawWriter};
pub use reading::{Fetch, Files};
pub use real_files::RealFiles;
pub use std_sink::StdSink;
pub use system::{SystemFiles, SystemStream};
pub use writing::{Put, Sink};
