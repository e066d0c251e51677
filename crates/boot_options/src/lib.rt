//! Reads the kernel command line: the options that change the memory set-up.
//!
//! The kernel's options for memory are words of one line. `mem=` makes RAM end at an address.
//! `memmap=` adds ranges, removes them, or changes their type. `crashkernel=` requests an area for
//! a crash kernel. `numa=off` means that the SRAT isn't used. `add_efi_memmap` adds the entries of
//! the EFI map to the map.
//!
//! This crate follows `next_arg` and `parse_args` for the words and `memparse` for the numbers.
//! For the values it follows `parse_memopt` and `parse_memmap_one` of arch/x86/kernel/e820.c, and
//! `parse_crashkernel` of kernel/crash_core.c. A malformed value is a fault here; the kernel logs
//! a warning, or ignores it. Words with other names are ignored.
//!
//! [`read_options`] returns [`Options`]: the [`Edit`]s of the map in the order of the line, the
//! last value of each form of `crashkernel=`, and whether `numa=off` and `add_efi_memmap` are
//! present. Or it returns the first fault, an [`OptionFault`].
//!
//! In contracts, a name means the definition in `specs/`:
//!
//! - `Options.antt`: what each word means by itself, the first fault, and the options of the whole
//!   line (`options_of`)
//! - `MapOptions.antt`, `Crash.antt`: the values of `mem=` and `memmap=`, and of `crashkernel=`
//! - `Spelling.antt`: how each form is spelled, as a grammar
//! - `Reading.antt`, `Kept.antt`: the state of the reader in the middle of a line, for the proof
//!   alone
//!
//! A law is an empty function whose contract is a proven fact. The laws state that the reader
//! accepts exactly what the grammar spells: [`map_options_are_spelled`],
//! [`crash_forms_are_spelled`], [`words_say_what_they_spell`] and [`malformed_words_are_faults`].
//!
//! The layer above can rely on four facts. No type in an edit is 0, and no range in one is empty.
//! A plain form has at least one range, and each of its ranges ends above its start. Words are
//! numbered from 1. The reader runs out of memory only on a line without a fault that has an edit
//! or a plain form of `crashkernel=`.
#![tactic(auto)]

mod crash;
mod fault;
mod map_option;
mod options;
mod reading;

pub use crash::{CrashOption, CrashPlain, CrashRange, crash_forms_are_spelled};
pub use e820_model::Edit;
pub use fault::OptionFault;
pub use map_option::{map_options_are_spelled, read_whole_size};
pub use options::{Options, malformed_words_are_faults, read_options, words_say_what_they_spell};
