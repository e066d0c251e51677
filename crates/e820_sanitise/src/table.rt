//! The table of claims and the calls that change it. Each call is a step of the kernel's work on
//! `e820_table`. It first makes the new list of claims and then replaces the old one, so running
//! out of memory changes nothing.

ghost use Rattle.std.specs.Prelude.{◌≡◌, ◌≢◌, IfErr, IfOk, IsOk, OnErr, OnOk};
ghost use Rattle.address_runs.specs.Runs.{IsRunsOf};
ghost use Rattle.e820_model.specs.Claims.{EntriesFit, HasTypes, union_of_claims, claims_of_entries, after_edit, no_claims, settled_claims, after_bios_trim, type_of};
ghost use Rattle.e820_model.specs.declared.entry.Edit.TheVariants as edits;
ghost use Rattle.e820_model.specs.Map.{claims_of, kinds, map_of};
ghost use Rattle.bm_base.specs.Answers.{Answers};
ghost use Rattle.e820_sanitise.specs.Room.{map_if_room};

use crate::{cuts, settle};
use bm_base::Memory;
use e820_model::{E820_MAX_ENTRIES, Edit, Entry, Run};
use std::alloc::Global;
use std::marker::Model;

/// The reason why [`Table::runs`] returns no map.
#[derive(Clone, Copy, Debug, PartialEq, Eq)]
pub enum MapFault {
    /// The map has more than [`crate::E820_MAX_ENTRIES`] runs; `runs` is their number.
    MapFull { runs: u64 },
    /// The program ran out of memory.
    Memory,
}

impl From<Memory> for MapFault {
    ghost use Rattle.std.specs.Prelude.{◌≡◌};
    ghost use Rattle.e820_sanitise.specs.declared.table.MapFault.TheVariants as faults;

    ghost from_gives = { λ _ fault. fault ≡ faults.Memory };

    fn from(_error: Memory) -> MapFault {
        MapFault::Memory
    }
}

/// The firmware's table (`struct e820_table`): the types that claim each address. Contracts see it
/// as a list of ranges with types. They use only `claims_of` of that list, which says whether a
/// type claims an address.
#[derive(Drop)]
pub struct Table {
    claims: Vec<Run>,
}

impl Model for Table {
    ghost use Rattle.std.specs.Prelude.{ℕ, List};
    ghost use Rattle.address_runs.specs.Runs.{RunOf};
    ghost use Rattle.e820_model.specs.Map.{AreValidClaims};

    ghost Value = { List (RunOf ℕ) };

    ghost view = { λ table. table.claims.items };

    ghost invariant = { λ table. AreValidClaims table.claims.items };
}

impl Table {
    /// Returns an empty table, in which no type claims any address. The table keeps the allocator
    /// for later calls.
    pub fn new(alloc: Global) -> Table
        ensures { claims_of result ≡ no_claims }
    {
        Table {
            claims: Vec::new(alloc),
        }
    }

    /// Adds to the claims of each address the types of the entries that cover it
    /// (`__append_e820_table`). Each entry's address plus size must be below 2^64. An entry of size
    /// 0 or of type 0 has no effect.
    ///
    /// # Errors
    ///
    /// - `Memory`: the program ran out of memory; the table is unchanged.
    pub fn append(&mut self, entries: &[Entry]) -> Result<(), Memory>
        requires { EntriesFit entries.now }
        ensures ok { OnOk result (claims_of self.new
            ≡ union_of_claims (claims_of self.old) (claims_of_entries entries.now)) }
        ensures err { OnErr result (self.new ≡ self.old) }
    {
        let alloc = *self.claims.allocator();
        self.claims = cuts::with_entries(alloc, &self.claims, entries)?;
        Ok(())
    }

    /// Carries out an edit that an option requests (`e820__range_add`, `e820__range_remove`,
    /// `e820__range_update`). The types in the edit must be above 0.
    ///
    /// # Errors
    ///
    /// - `Memory`: the program ran out of memory; the table is unchanged. `Clear` never fails.
    pub fn edit(&mut self, edit: &Edit) -> Result<(), Memory>
        requires { HasTypes edit.now }
        ensures ok { OnOk result (claims_of self.new ≡ after_edit edit.now (claims_of self.old)) }
        ensures err { OnErr result (self.new ≡ self.old) }
        ensures clear { edit.now ≡ edits.Clear → IsOk result }
    {
        cuts::edit_claims(&mut self.claims, edit)
    }

    /// Removes all claims on each address except the greatest type (`e820__update_table`).
    ///
    /// # Errors
    ///
    /// - `Memory`: the program ran out of memory; the table is unchanged.
    pub fn settle(&mut self) -> Result<(), Memory>
        ensures ok { OnOk result (claims_of self.new ≡ settled_claims (claims_of self.old)) }
        ensures err { OnErr result (self.new ≡ self.old) }
    {
        let alloc = *self.claims.allocator();
        self.claims = settle::runs_of_claims(alloc, &self.claims)?;
        Ok(())
    }

    /// Makes RAM in the first page reserved, and removes RAM from 640 KiB to 1 MiB
    /// (`trim_bios_range`).
    ///
    /// # Errors
    ///
    /// - `Memory`: the program ran out of memory; the table is unchanged.
    pub fn trim_bios(&mut self) -> Result<(), Memory>
        ensures ok { OnOk result (claims_of self.new ≡ after_bios_trim (claims_of self.old)) }
        ensures err { OnErr result (self.new ≡ self.old) }
    {
        let alloc = *self.claims.allocator();
        self.claims = cuts::trim_bios_claims(alloc, &self.claims)?;
        Ok(())
    }

    /// Returns the type of address `x`: the greatest type that claims it, or 0 if none does.
    pub fn type_at(&self, x: u64) -> u32
        ensures { result ≡ type_of (claims_of self.now) x }
    {
        settle::type_of_claims(&self.claims, x)
    }

    /// Returns the map: the maximal ranges of addresses of one type, in ascending order.
    ///
    /// # Errors
    ///
    /// - `MapFull`: the map has more than [`E820_MAX_ENTRIES`] runs.
    /// - `Memory`: the program ran out of memory.
    pub fn runs(&self) -> Result<Vec<Run>, MapFault>
        ensures relation { IfOk result (λ runs. IsRunsOf (kinds (claims_of self.now)) runs.items) }
        ensures answers { Answers MapFault.Memory (λ runs. runs.items) result
            (map_if_room (map_of (claims_of self.now))) }
    {
        let alloc = *self.claims.allocator();
        map_if_room(settle::runs_of_claims(alloc, &self.claims)?)
    }
}

/// Returns the runs unchanged if there are at most [`E820_MAX_ENTRIES`] of them. Allocates nothing.
///
/// # Errors
///
/// - `MapFull`: there are more than [`E820_MAX_ENTRIES`] runs.
fn map_if_room(runs: Vec<Run>) -> Result<Vec<Run>, MapFault>
    ensures answers { Answers MapFault.Memory (λ runs. runs.items) result (map_if_room runs.items) }
    ensures always { IfErr result (λ fault. fault ≢ MapFault.Memory) }
{
    let count = runs.len() as u64;
    if count > E820_MAX_ENTRIES {
        return Err(MapFault::MapFull { runs: count });
    }
    Ok(runs)
}
