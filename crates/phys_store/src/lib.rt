//! Holds the bytes of physical memory, as far as the boot writes them: one byte at each address, 0
//! at first.
//!
//! memblock keeps its tables in the memory that they describe, so that memory needs bytes. The
//! kernel writes them through its direct mapping, in which every address exists. The machine may
//! have many terabytes, so this program allocates memory only for the *prepared* addresses of a
//! [`Store`]. [`Store::prepare`] is the only call that allocates. Writing needs prepared addresses
//! and never allocates. Reading accepts any address; an address that isn't prepared reads as 0.
//!
//! The prepared addresses are kept as extents, each as long as possible: addresses that are
//! prepared next to each other are in one extent. A table is therefore one slice, and making or
//! closing a gap in it is one bulk move. If a range joins several extents, the largest grows in
//! place, and the others are copied into it. An extent grows downward into spare room before its
//! first byte, and upward as a `Vec` does. A byte is therefore moved only when the size of its
//! extent has nearly doubled, in whatever order the ranges are prepared.
//!
//! Contracts see two things of every address: its byte (`byte_of`) and whether it is prepared
//! (`is_prepared_at`), both defined in `specs/Bytes.antt`. Each call that writes ensures
//! `WritesBytes`: it says which bytes were written, that every other byte is unchanged, and that
//! no address has become prepared or unprepared. The layer above may rely on these definitions,
//! but not on the extents.
#![tactic(auto)]

mod extents;
mod prepare;
mod store;

pub use store::Store;
