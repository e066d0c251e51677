//! Worked cases of the page allocator after the handover, of its index of free blocks, of the zone
//! lists, and of the reports about them. This crate has only tests.
//!
//! The module `of_NAME` has the cases of the crate `NAME`. They call the public functions of that
//! crate and rely only on their contracts.
#![tactic(auto)]

#[cfg(test)]
mod of_free_areas;
#[cfg(test)]
mod of_page_alloc;
#[cfg(test)]
mod of_report_stages;
#[cfg(test)]
mod of_slit_zonelists;
