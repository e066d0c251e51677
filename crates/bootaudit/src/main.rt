//! `bootaudit`: checks whether the saved reports `map`, `owners` and `blocks` of one boot show
//! that memory was conserved: each usable frame is either reserved or in exactly one free block.
//!
//! It is called as `bootaudit [--la57] MAP OWNERS BLOCKS`, with the names of three files. They
//! have the form in which `bootmem` prints these reports, but any program may have written them.
//! `bootaudit` prints `sound`, or the first fault.
//!
//! [`audit`] of `boot_audit` is the whole program over any files, output and error output, and has
//! the contract. `main` calls it with the files and streams of the operating system.
//!
//! Exit statuses: 0, memory was conserved; 8, it wasn't; 2, the command line isn't accepted; 3, a
//! file couldn't be read; 4, the output failed; 5, a report has a fault; 7, out of memory. With 0
//! and 8 nothing is written to the error output, with the others one line. If `main` can't collect
//! the command line, it returns without a line: 2 for a word that isn't UTF-8, and 7 if out of
//! memory.
#![tactic(auto)]

use bm_io::{RealFiles, StdSink};
pub use boot_audit::{Saved, Verdict, audit, judge, sound_verdict_conserves_memory};
use std::env;
use std::io::ErrorKind;
use std::process::ExitCode;

fn main(rt: HostRuntime) -> ExitCode {
    let alloc = rt.alloc();
    let args = match env::args(&rt) {
        Ok(args) => args,
        Err(error) if error.kind() == ErrorKind::OutOfMemory => return ExitCode::from(7),
        Err(_) => return ExitCode::from(2),
    };
    let mut words = Vec::new(alloc);
    for word in args.skip(1) {
        if words.push(word).is_err() {
            return ExitCode::from(7);
        }
    }
    let mut files = RealFiles::new(&rt);
    let mut out = StdSink::new(rt.stdout());
    let mut err = StdSink::new(rt.stderr());
    ExitCode::from(audit(alloc, &words, &mut files, &mut out, &mut err))
}
