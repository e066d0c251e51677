//! Worked cases of the inputs (bytes, texts, files and words), of the map of memory, of the boot,
//! and of the program `bootmem`. This crate has only tests.
//!
//! The module `of_NAME` has the cases of the crate `NAME`. They call the public functions of that
//! crate and rely only on their contracts. Tests inside a crate are compiled and proved with that
//! crate. The tests here need only its contracts, so they don't slow down its proof.
#![tactic(auto)]

#[cfg(test)]
mod common;
#[cfg(test)]
mod of_address_runs;
#[cfg(test)]
mod of_bm_base;
#[cfg(test)]
mod of_bm_io;
#[cfg(test)]
mod of_boot_inputs;
#[cfg(test)]
mod of_boot_options;
#[cfg(test)]
mod of_boot_stages;
#[cfg(test)]
mod of_debugfs_reports;
#[cfg(test)]
mod of_e820_model;
#[cfg(test)]
mod of_e820_sanitise;
#[cfg(test)]
mod of_e820_table;
#[cfg(test)]
mod of_efi_map;
#[cfg(test)]
mod of_program_args;
#[cfg(test)]
mod of_program_run;
#[cfg(test)]
mod of_program_run61;
#[cfg(test)]
mod of_run_edits;
#[cfg(test)]
mod of_script_reader;
#[cfg(test)]
mod of_srat_reader;
#[cfg(test)]
mod of_text_words;
#[cfg(test)]
mod of_usable_frames;
