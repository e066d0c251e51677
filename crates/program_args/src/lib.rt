//! Reads the command lines of `bootmem` and `bootmem61`: the words after the program's name. The
//! kernel's command line is something else: it is one of the input files.
//!
//! Each command line is read by one command of `clap`. That of `bootmem` has eleven options with
//! one value each, two flags, and the name of the zero page. That of `bootmem61` also has
//! `--claims`, which names a file of early claims. `clap` requires none of these arguments. The
//! port of `clap` defines which words a command accepts and what value each argument gets; this
//! crate relies on that definition (`specs/Grammar.antt`).
//!
//! [`read_args`] and [`read_args61`] then check the values: the source of the e820 entries, the
//! kernel's range, the names of reports, the number of entries of a generated table, and the ranges
//! of mirrored memory. Both call `args_of` with the program's command and the names of the reports
//! that `bootmem` doesn't have. The definition of the same name (`specs/Args.antt`) gives the
//! result: [`ArgsError::Usage`] if the command line is refused. [`ArgsError::Memory`] may come
//! instead of any result, since `clap` allocates its matches.
//!
//! [`BootmemArgs`] is what an accepted command line asks for. It also gives the name of each
//! input's file (`Names`), so `read_inputs` takes it directly. [`NamesWithClaims`] gives the names
//! for `bootmem61`, which also has a file of early claims.
//!
//! The layer above can rely on this about a `BootmemArgs`:
//!
//! - The kernel's range begins at or above 1 MiB, ends at or below the limit of physical addresses,
//!   and consists of at least two whole frames.
//! - Each name in the list of reports is the name of a report that the program has.
//! - A generated table has 2 to 3000 entries.
//! - Mirrored ranges are whole frames.
//! - The e820 entries come either from a zero page or from a generated table.
//!
//! A law is an empty function whose contract is a proven fact. In contracts, a name means the
//! definition in `specs/`.
#![tactic(auto)]

mod args;
mod entries;
mod grammar;
mod kernel;
mod mirrors;
mod reader;
mod report_names;

pub use args::{BootmemArgs, NamesWithClaims};
pub use reader::{
    ArgsError, ranges_give_whole_frames, read_args, read_args61, spelled_args_are_read,
    spelled_args61_are_read,
};
