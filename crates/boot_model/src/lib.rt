//! Defines the boot: its inputs, what each stage makes of them, and what is reported at the end
//! (`setup_arch` up to `mem_init`).
//!
//! - [`Inputs`] are the values of the input files, and the place of the kernel's image.
//! - [`Extra`] is what a boot is given besides them: a [`Profile`], which has the rules in which
//!   `bootmem` and Linux 6.1 differ, and lines of early claims.
//! - [`Booted`] is what a boot makes.
//! - [`Stop`] is why a boot stops. A [`Cause`] is a stop for a reason in the inputs. The
//!   definitions know only causes; out of memory is the one stop without a cause.
//!
//! The definition of the boot (`specs/Boot.antt`) is a sequence of stages in the order of
//! `setup_arch`. Each stage adds its part to what the earlier stages made, or stops the boot. A
//! fact about the part of one stage therefore depends only on this stage and the earlier ones.
//! Laws say that no later stage changes that part.
//!
//! What is known of each input's value is a fact of the type [`Inputs`], so every function that has
//! inputs can use it. [`is_kernel`] tests the place of the kernel. [`Inputs::without_files`]
//! returns inputs without any file, to which each file adds its part. [`Inputs::reach`] returns the
//! limit of physical addresses. Mirrored ranges are whole frames, so no law about a boot has to
//! require this.
//!
//! The layers above may rest on this crate's laws: the map of a boot that isn't stopped gives each
//! address the type of its greatest claim, and says which frames are usable. At the end a byte is
//! memory exactly if its frame is usable. A law is an empty function whose contract is a proven
//! fact. In contracts, a name means the definition in `specs/`, here or in a crate below.
#![tactic(auto)]

mod booted;
mod extra;
mod inputs;
mod laws;
mod stop;

pub use booted::Booted;
pub use extra::{Extra, Profile};
pub use inputs::{Inputs, is_kernel};
pub use laws::{
    boot_has_own_profile, efi_entries_count_only_if_asked, map_gives_frames, map_gives_memory,
    map_gives_types, mirrors_are_whole_frames, no_ram_means_no_usable_frame,
};
pub use stop::{Cause, Stop};
