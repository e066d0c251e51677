//! `libbootmem`: the programs `bootmem` and `bootmem61` as calls from C, over bytes in memory.
//!
//! `include/bootmem.h` declares these exports of a static library:
//!
//! - [`run::bootmem_run`] runs `bootmem` (`run` of `program_run`) over words and files that the
//!   caller passes. It writes the reports as text.
//! - [`boot_values::bootmem_map`], [`boot_values::bootmem_crash`],
//!   [`boot_values::bootmem_memory`], [`boot_values::bootmem_nodes`],
//!   [`boot_values::bootmem_zones`] and [`boot_values::bootmem_blocks`] boot with the words and
//!   files that the caller passes, and return what the boot made, as values.
//! - [`run::bootmem_run_as`], [`values_by_profile::bootmem_crash_as`],
//!   [`values_by_profile::bootmem_memory_as`], [`values_by_profile::bootmem_nodes_as`],
//!   [`values_by_profile::bootmem_zones_as`] and [`values_by_profile::bootmem_blocks_as`] are the
//!   same calls by a profile, whose number they take first: 0 is `bootmem`'s own, 1 that of Linux
//!   6.1, whose program is `bootmem61`. Each call without a profile is that with number 0. The map
//!   is the same by each profile ([`profile::map_is_the_same_by_each_profile`]).
//! - [`run::bootmem_version`] returns the library's version.
//!
//! All but the last return the exit status of the program: that of the outcome, or 7 if out of
//! memory. A file is *lent* if the caller passes it. Since the files (`LentFiles`) and the outputs
//! (`TextSink`) are in memory, a file can be read exactly if it is lent, and an output never
//! refuses a text. A caller may therefore rest on this: unless memory runs out, the result depends
//! on the profile, the words and the files only.
//!
//! `crossing` and `values` have the types that are passed from and to C, `boots` and `boots61` boot
//! without writing reports. In contracts, a name means the definition in `specs/`.
#![tactic(auto)]

mod boot_values;
mod boots;
mod boots61;
mod crossing;
mod lent_files;
mod profile;
mod run;
mod text_sink;
mod values;
mod values_by_profile;
mod words;
