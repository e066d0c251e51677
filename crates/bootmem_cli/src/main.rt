//! `bootmem`: what an x86-64 Linux 6.1 kernel makes of the firmware's memory map, up to its free
//! lists of pages.
//!
//! The program reads the zero page that a boot loader passes. It also reads these files, if the
//! command line names them: the E820 extension, the kernel's command line, and three tables of the
//! firmware (SRAT, SLIT and the EFI memory map). Two kinds of script add early allocations, and
//! requests to the page allocator. From these inputs it computes the boot up to the handover to
//! the page allocator, and prints reports on the result: `bootmem [OPTION..] ZEROPAGE`. With
//! `--make N` in place of ZEROPAGE it generates a map of N entries. bootmem(1) lists the options.
//!
//! [`run`] of `program_run` is the whole program over any files, output and error output, and has
//! the contract. `main` calls it with the files and streams of the operating system.
//!
//! Exit statuses: 0, the reports were written; 2, the command line isn't accepted; 3, a file
//! couldn't be read; 4, the output failed; 5, an input has a fault; 6, the boot stops; 7, out of
//! memory. With every status but 0 one line is written to the error output. If `main` can't
//! collect the command line, it returns without a line: 2 for a word that isn't UTF-8, and 7 if
//! out of memory.
#![tactic(auto)]

use bm_io::{RealFiles, StdSink};
pub use boot_model::{Booted, Inputs, Stop, map_gives_frames, map_gives_types};
pub use boot_stages::boot;
pub use program_run::run;
use std::env;
use std::io::ErrorKind;
use std::process::ExitCode;

fn main(rt: HostRuntime) -> ExitCode {
    let alloc = rt.alloc();
    let args = match env::args(&rt) {
        Ok(args) => args,
        Err(error) if error.kind() == ErrorKind::OutOfMemory => return ExitCode::from(7),
        Err(_) => return ExitCode::from(2),
    };
    let mut words = Vec::new(alloc);
    for word in args.skip(1) {
        if words.push(word).is_err() {
            return ExitCode::from(7);
        }
    }
    let mut files = RealFiles::new(&rt);
    let mut out = StdSink::new(rt.stdout());
    let mut err = StdSink::new(rt.stderr());
    ExitCode::from(run(alloc, &words, &mut files, &mut out, &mut err))
}
