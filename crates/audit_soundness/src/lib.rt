//! Proves that the reports of every successful boot pass the audit: if `bootmem` prints them and
//! `bootaudit` reads them, the verdict is `Sound`.
//!
//! The laws connect the definition of the boot (`boot_model`), the texts of its reports
//! (`debugfs_reports`) and the verdict on lines (`boot_audit`). `conservation` proves four facts
//! of each boot, about the memory itself. The audit tests the same facts of lines that it read
//! from files (`specs/Conserved.antt` of `boot_audit`). The laws here prove the facts of the lines
//! from the facts of the boot.
//!
//! - [`booted_lines_conserve_memory`]: the lines of a boot show that memory was conserved.
//! - [`booted_reports_are_read_back`]: the printed reports are read back as these lines.
//! - [`saved_reports_are_sound`]: files that contain these reports get the verdict `Sound`.
//! - [`booted_reports_are_sound`]: files that contain the reports of the value that the function
//!   `boot` returned get the verdict `Sound`, too.
//!
//! `specs/PrintableBoots.antt` defines which boots can be printed as lines, and `specs/Saved.antt`
//! which files contain their reports. A law is a function whose contract is a proven fact: it has
//! no effect. In contracts, a name means the definition in `specs/`.
#![tactic(auto)]

mod booted;
mod laws;

pub use booted::booted_reports_are_sound;
pub use laws::{
    booted_lines_conserve_memory, booted_reports_are_read_back, saved_reports_are_sound,
};
