//! The programs `bootmem` and `bootmem61` over any files, output and error output.
//!
//! [`run`] reads the words after the program's name (the command line) and the files that they
//! name, boots with them, and writes the reports. `bootmem_outcome` (`specs/Outcome.antt`) defines
//! what it writes, in four steps. The command line gives what is asked for (`program_args`), and
//! the files' bytes give the inputs (`boot_inputs`). The inputs give the memory after the boot
//! (`boot_model`), and that gives the text of the reports (`debugfs_reports`). The kernel's command
//! line is one of the input files.
//!
//! The layer above can rely on this: `run` does what `bootmem_outcome` says, unless a file can't be
//! read, the output refuses the text, or this program is out of memory. If a file can't be read,
//! the counter of faults for its name rose. If the output refuses the text, the counter of faults
//! of the output rose. How a program ends, and which line it writes if it fails, is defined for any
//! program over files (`program_end`). What is special to `bootmem` is in `specs/Bootmem.antt`.
//!
//! [`run61`] is the program `bootmem61`. Its contract has the same clauses as that of `run`. Its
//! boot follows the rules of Linux 6.1 and runs early claims, and its outcome is
//! `bootmem61_outcome`.
//!
//! `bootmem_cli` and `bootmem61_cli` run them on the files and streams of the operating system.
//! [`read_boot_inputs`], [`read_boot_inputs61`] and [`reason_by_stop`] serve a caller that boots
//! without writing reports (`bootmem_c`).
//!
//! In contracts, a name means the definition in `specs/`.
#![tactic(auto)]

mod inputs;
mod lines;
mod program;
mod program61;

pub use boot_inputs::InputsReason;
pub use inputs::{read_boot_inputs, read_boot_inputs61};
pub use program::{Failure, NoReport, reason_by_stop, run};
pub use program61::run61;
