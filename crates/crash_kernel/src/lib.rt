//! Reserves the crash area: memory set aside for the kernel that takes over after a crash
//! (`reserve_crashkernel` in arch/x86/kernel/setup.c).
//!
//! [`reserve`] takes the parsed `crashkernel=` option of `boot_options`. The size that it requests
//! may depend on total memory. The stage searches memblock for a free range of that size and
//! claims it. An area at or above 4 GiB also gets a low part, unless the low size is 0: a second
//! range below 4 GiB, for devices that can't address more. If no range fits the low part, the area
//! is freed again. The outcome is a [`Crash`]. An area that doesn't fit never stops the boot.
//!
//! [`reserve_by_rule`] takes a [`CrashRule`] in addition: how ranges of total memory give the size. With
//! `bootmem`'s own rule it does what [`reserve`] does ([`own_rule_is_reserve`]).
//!
//! The definitions follow the kernel function:
//!
//! - `specs/Total.antt`: total memory.
//! - `specs/Request.antt`: the size and placement that are requested for that total.
//! - `specs/Places.antt`: the windows that are searched for the area and its low part.
//! - `specs/Reservation.antt`: the whole stage, step by step.
//! - `specs/ReservedArea.antt`: what is true of an area that was reserved.
//!
//! Later stages may rest on two laws. The stage changes neither memory nor the limit
//! ([`reserve_keeps_memory_and_limit`]). An area that was reserved was free memory of the requested
//! size ([`reserved_area_was_free`]). A law is an empty function whose contract is a proven fact.
//! In contracts, a name means the definition in `specs/`.
#![tactic(auto)]

mod crash;
mod laws;
mod places;
mod request;
mod reservation;
mod rule;

pub use crash::Crash;
pub use laws::{
    area_by_rule_was_free, own_rule_is_reserve, reserve_by_keeps_memory_and_limit,
    reserve_keeps_memory_and_limit, reserved_area_was_free,
};
pub use reservation::{reserve, reserve_by_rule};
pub use rule::CrashRule;
