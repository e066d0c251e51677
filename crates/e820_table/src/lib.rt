//! Reads the firmware's E820 table from bytes: the zero page of the x86 boot protocol, and its
//! E820 extension.
//!
//! A boot loader passes the kernel one page of parameters (`struct boot_params`). The page has up
//! to 128 entries at offset 0x2D0. Further entries come in a node of the `setup_data` list
//! (`SETUP_E820_EXT`).
//!
//! - [`read_zero_page`] reads the page into a [`ZeroPage`]: its entries, and the range of the
//!   initrd, if the boot loader loaded one.
//! - [`read_ext`] reads the extension into a list of [`Entry`].
//! - [`made`] makes a table of any size up to 3,000 entries, to test and measure the layers above.
//!
//! A reader that refuses its bytes returns the first fault that they have: [`ZeroFault`] or
//! [`ExtFault`]. The layer above can rely on two facts. Every entry that a reader returns has an
//! address plus size below 2^64. The range of an initrd isn't empty, and ends at the end of a
//! frame.
//!
//! In contracts, a name means the definition in `specs/`. `ZeroPage.antt`, `Extension.antt`,
//! `Entries.antt` and `Initrd.antt` define values and faults by offsets in the whole bytes;
//! `Made.antt` defines the tables of [`made`].
#![tactic(auto)]

mod entries;
mod extension;
mod generator;
mod initrd;
mod made_input;
mod zero_page;

pub use e820_model::{Edit, Entry};
pub use extension::{ExtFault, read_ext};
pub use generator::made;
pub use made_input::Made;
pub use zero_page::{ZERO_PAGE_ENTRIES, ZeroFault, ZeroPage, read_zero_page};
