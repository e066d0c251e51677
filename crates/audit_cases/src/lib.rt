//! Worked cases of `bootaudit`, the audit of saved reports. This crate has only tests.
//!
//! `of_boot_audit` has the cases of the reader of reports and of the verdict (`judge`), `of_audit`
//! those of the whole program (`audit`). The cases call the public functions of these crates and
//! rely only on their contracts.
#![tactic(auto)]

#[cfg(test)]
mod of_audit;
#[cfg(test)]
mod of_boot_audit;
