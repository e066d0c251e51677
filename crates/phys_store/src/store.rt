//! The store as its callers see it: each address has a byte, and is prepared or not. Each method
//! makes one call to `extents` or `prepare`. The invariant of the type is that the extents don't
//! touch.
ghost use Rattle.std.specs.Prelude.{◌≡◌, ℕ, ◌+◌, ◌-◌, ◌^◌, ◌<◌, ◌≤◌, ◌↔◌, ◌||◌, nat_le, min, max, List, [], length, slice_index, IsTrue, OnOk, OnErr};
ghost use Rattle.bm_base.specs.Range.{covers};
ghost use Rattle.phys_store.specs.Bytes.{byte_of, is_prepared_at, ArePrepared, WritesBytes, bytes_at};

use crate::extents::Extent;
use crate::{extents, prepare};
use bm_base::{Memory, Range};
use std::alloc::Global;
use std::marker::Model;

/// A byte at each address, 0 at first. Some addresses are prepared: they can be written without
/// allocating memory.
#[derive(Debug, Drop)]
pub struct Store {
    extents: Vec<Extent>,
}

impl Model for Store {
    ghost use Rattle.std.specs.Prelude.{List, map};
    ghost use Rattle.phys_store.specs.Bytes.{ExtentView};

    ghost Value = { List ExtentView };

    ghost use Rattle.phys_store.specs.Extents.{extent_view, AreSortedAndApart};

    ghost view = { λ s. map extent_view s.extents.items };

    ghost invariant = { λ s. AreSortedAndApart 0 (map extent_view s.extents.items) };
}

impl Store {
    /// Returns a store in which each byte is 0 and no address is prepared.
    pub fn new(alloc: Global) -> Store
        ensures { result ≡ [] }
    {
        Store {
            extents: Vec::new(alloc),
        }
    }

    /// Prepares each address of the range: allocates memory for its byte, so that it can be
    /// written. Prepared addresses stay prepared, and no other address becomes prepared. No byte
    /// changes.
    ///
    /// # Errors
    ///
    /// - `Memory`: the program ran out of memory; the store is unchanged. This error is possible
    ///   only if some address of the range wasn't prepared.
    pub fn prepare(&mut self, range: Range) -> Result<(), Memory>
        ensures bytes { (x : ℕ) → byte_of self.new x ≡ byte_of self.old x }
        ensures ready { OnOk result ((x : ℕ) →
            is_prepared_at self.new x ≡ (covers range x || is_prepared_at self.old x)) }
        ensures err { OnErr result (self.new ≡ self.old) }
        ensures memory { OnErr result (ArePrepared self.old range.base range.size → ⊥) }
    {
        prepare::prepare(&mut self.extents, range)?;
        Ok(())
    }

    /// Tests whether each address of the range is prepared, so that writing it needs no allocation.
    pub fn is_prepared(&self, range: Range) -> bool
        ensures { IsTrue result ↔ ArePrepared self.now range.base range.size }
    {
        extents::are_prepared(&self.extents, range)
    }

    /// Returns the byte at this address, or 0 if the address isn't prepared.
    pub fn byte_at(&self, address: u64) -> u8
        ensures { result ≡ byte_of self.now address }
    {
        extents::byte_at(&self.extents, address)
    }

    /// Returns the `count` bytes from address `at` on, without copying them. They must be
    /// prepared.
    pub fn slice(&self, at: u64, count: u64) -> &[u8]
        requires { ArePrepared self.now at count }
        ensures { result.now ≡ bytes_at (byte_of self.now) at count }
    {
        extents::slice(&self.extents, at, count)
    }

    /// Writes `bytes` to the addresses from `at` on, which must be prepared.
    pub fn write(&mut self, at: u64, bytes: &[u8])
        requires { ArePrepared self.old at (length bytes.now) }
        ensures { WritesBytes self.old self.new at (length bytes.now) (slice_index bytes.now) }
    {
        extents::write(&mut self.extents, at, bytes);
    }

    /// Writes `byte` to each address of the range, which must be prepared.
    pub fn fill(&mut self, range: Range, byte: u8)
        requires { ArePrepared self.old range.base range.size }
        ensures { WritesBytes self.old self.new range.base range.size (λ _. byte) }
    {
        extents::fill(&mut self.extents, range, byte);
    }

    /// Copies the `count` bytes at address `from` to address `to`. The two ranges may overlap. All
    /// addresses of both ranges, and those between them, must be prepared.
    pub fn move_bytes(&mut self, from: u64, to: u64, count: u64)
        requires { ArePrepared self.old (min from to) (max from to - min from to + count) }
        ensures { WritesBytes self.old self.new to count (λ k. byte_of self.old (from + k)) }
    {
        extents::move_bytes(&mut self.extents, from, to, count);
    }

    /// Copies the `count` bytes at address `from` to address `to`. The two ranges must not
    /// overlap, and must be prepared.
    pub fn copy_bytes(&mut self, from: u64, to: u64, count: u64)
        requires read { ArePrepared self.old from count }
        requires written { ArePrepared self.old to count }
        requires disjoint { IsTrue (nat_le (from + count) to || nat_le (to + count) from) }
        ensures { WritesBytes self.old self.new to count (λ k. byte_of self.old (from + k)) }
    {
        extents::copy_bytes(&mut self.extents, from, to, count);
    }

    /// Copies the bytes from address `at` on to `into`. An address that isn't prepared reads as
    /// 0. `at + into.len()` must be below 2^64.
    pub fn read(&self, at: u64, into: &mut [u8])
        requires { at + length into.old < 2 ^ 64 }
        ensures { into.new ≡ bytes_at (byte_of self.now) at (length into.old) }
    {
        extents::read(&self.extents, at, into);
    }
}
