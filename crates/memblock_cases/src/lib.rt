//! Worked cases of memblock, of the crates below it and of those above it: the journal, bytes at
//! addresses, the tables, the search, the stages, free frames, and the texts of all of these.
//!
//! The module `of_NAME` has the cases of the crate `NAME`. They call the public functions of that
//! crate and rely only on their contracts. Tests inside a crate are proved again whenever the
//! crate is. Tests that need only its contracts are therefore here.
#![tactic(auto)]

#[cfg(test)]
mod domains;
#[cfg(test)]
mod machines;
#[cfg(test)]
mod of_boot_journal;
#[cfg(test)]
mod of_buddy_handover;
#[cfg(test)]
mod of_crash_kernel;
#[cfg(test)]
mod of_early_script;
#[cfg(test)]
mod of_memblock_find;
#[cfg(test)]
mod of_memblock_frames;
#[cfg(test)]
mod of_memblock_grow;
#[cfg(test)]
mod of_memblock_model;
#[cfg(test)]
mod of_memblock_ranges;
#[cfg(test)]
mod of_numa_nodes;
#[cfg(test)]
mod of_phys_store;
#[cfg(test)]
mod of_report_memory;
#[cfg(test)]
mod of_report_stages;
#[cfg(test)]
mod of_section_maps;
#[cfg(test)]
mod of_sparse_sections;
#[cfg(test)]
mod of_srat_nodes;
#[cfg(test)]
mod of_zone_spans;
#[cfg(test)]
mod ranges;
#[cfg(test)]
mod tables;
