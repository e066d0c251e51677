//! Reads the input files of a boot: fetches each by its name, and checks it before it fetches the
//! next.
//!
//! A boot has up to eight input files. A file without a name is skipped:
//!
//! 1. a zero page
//! 2. an E820 extension
//! 3. a command line
//! 4. the firmware's table of domains (SRAT)
//! 5. a script of early allocations
//! 6. a page script
//! 7. the firmware's table of distances between domains (SLIT)
//! 8. the EFI memory map
//!
//! [`read_inputs`] reads them in this order. It stops at the first file that can't be read
//! ([`InputsReason::Unread`]) or has a fault ([`InputsReason::Faulty`]).
//!
//! [`read_inputs_with_claims`] also reads a file of early claims, after the script. Its lines are
//! those of a script, except `sections`. They run before memory gets its nodes, and aren't part of
//! the inputs. `bootmem` has no such file.
//!
//! [`add_file`] handles each of these eight files: it looks up the name, fetches the file up to its
//! limit, and reads it into the inputs. What differs between the files is in one value per file, a
//! [`Reader`], in a module of its own. The reader says which [`Input`] the file is, how many bytes
//! it may have, and how they are read. The definition of a file is one value too, a `File` of
//! `specs/File.antt`. [`Diagnostic`] is the content of a fault's error line.
//!
//! The order of the files is a list in the code (`src/inputs.rt`) and a list in the definition
//! (`input_files` of `specs/Inputs.antt`). [`Readers`] reads any list, and the facts about a list
//! (`AreRead` of `specs/Reading.antt`) are proved once. [`Names`] gives the name of each file; the
//! layer above implements it.
//!
//! The layer above can rely on this. The result is the inputs that the caller passes, updated with
//! the values that the definition gives for the files' bytes. A file is reported unread only if the
//! number of faults counted for its name has risen. The program may run out of memory at any time;
//! [`NoInputs`] reports this separately from what is wrong with the files.
//!
//! A law is an empty function whose contract is a proven fact. In contracts, a name means the
//! definition in `specs/`, here or in a crate below.
#![tactic(auto)]

mod claims;
mod command_line;
mod efi;
mod extension;
mod fault;
mod fetching;
mod input;
mod inputs;
mod laws;
mod list;
mod pages;
mod reader;
mod script;
mod slit;
mod srat;
mod zero_page;

pub use claims::{exhaustion_is_no_claims_fault, read_claims};
pub use command_line::memory_is_no_command_line_fault;
pub use efi::exhaustion_is_no_efi_fault;
pub use extension::exhaustion_is_no_ext_fault;
pub use fault::{Diagnostic, Fault, InputsReason, Misread, NoInputs};
pub use fetching::{Names, add_file};
pub use input::Input;
pub use inputs::{read_inputs, read_inputs_with_claims};
pub use laws::{
    efi_map_needs_word_and_descriptors, exhaustion_is_no_fault_with_claims,
    exhaustion_is_no_file_fault, unnamed_claims_add_nothing,
};
pub use list::Readers;
pub use pages::exhaustion_is_no_page_script_fault;
pub use reader::Reader;
pub use script::exhaustion_is_no_script_fault;
pub use slit::exhaustion_is_no_slit_fault;
pub use srat::exhaustion_is_no_srat_fault;
