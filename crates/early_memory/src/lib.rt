//! Defines what a boot does to memory before any node is known: the journal items that it writes,
//! and the memory that results.
//!
//! The steps are those of `setup_arch`, in this order:
//!
//! 1. The kernel's image, the first 64 KiB and the initrd are claimed (`early_reserve_memory`).
//!    Until memory is known, allocations stay in the first MiB.
//! 2. If searches are to go from the lowest address up, that is set before memory is known
//!    (`memblock_set_bottom_up`).
//! 3. Each run of the map is visited once (`e820__memblock_setup`). Memory that firmware keeps for
//!    a driver is claimed. RAM and the kernel's own memory are added, as far as they lie below the
//!    limit of physical addresses.
//! 4. Memory is trimmed to whole frames (`memblock_trim_memory`), and frames that firmware mirrors
//!    are marked (`efi_find_mirror`).
//! 5. The limit of allocations is set to the end of the last usable frame
//!    (`memblock_set_current_limit`), and the first MiB is claimed (`reserve_real_mode`).
//!
//! These items depend only on the inputs (`specs/EarlyInputs.antt`). They are therefore defined as
//! one list (`specs/FirstItems.antt`). Tables may have to grow when the list is carried out
//! (`growth_model`). `specs/Memory.antt` defines the memory after it, byte by byte: the usable
//! frames, some of them mirrored. The layers above may rest on these definitions and on the laws.
//! A law is an empty function whose contract is a proven fact. In contracts, a name means the
//! definition in `specs/`.
#![tactic(auto)]

mod laws;
mod low;

pub use laws::{
    memory_ends_at_last_usable_frame, memory_ends_with_its_last_run, memory_is_usable_frames,
    no_early_item_is_empty,
};
pub use low::{ISA_END_ADDRESS, LOW_END};
