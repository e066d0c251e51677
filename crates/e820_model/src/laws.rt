//! Laws of the definitions: empty functions whose contracts are proven facts.

ghost use Rattle.std.specs.Prelude.{◌≡◌, ℕ, ◌^◌, ◌<◌, ◌≤◌, true, None, List, []};
ghost use Rattle.address_runs.specs.Runs.{IsRunsOf};
ghost use Rattle.e820_model.specs.Claims.{Types, Claims, after_edits, after_bios_trim, final_claims, greatest_type, zero_page_claims, settled_claims, type_of, with_extension};
ghost use Rattle.e820_model.specs.Map.{kinds, map_of};
ghost use Rattle.e820_model.specs.declared.entry.Edit.{Edit as AnyEdit};
ghost use Rattle.e820_model.specs.declared.entry.Entry.{Entry as AnyEntry};

/// Law: no type of a set exceeds the set's `greatest_type`, which is a member of the set or 0.
/// Types are below 2^32.
pub fn greatest_is_greatest()
    ensures among { (s : Types) → 0 < greatest_type s → s (greatest_type s) ≡ true }
    ensures above { (s : Types) (k : ℕ) → k < 2 ^ 32 → s k ≡ true → k ≤ greatest_type s }
{}

/// Law: keeping only the greatest claim of each address (`e820__update_table`) changes no address's
/// type. So doing this more often than the kernel does changes no types.
pub fn settling_keeps_types()
    ensures { (c : Claims) (x : ℕ) → type_of (settled_claims c) x ≡ type_of c x }
{}

/// Law: in the final map, an address is claimed by at most one type.
pub fn final_claims_are_single()
    ensures { (entries extension : List AnyEntry) (edits : List AnyEdit) (added : List AnyEntry)
        (x j k : ℕ) →
        final_claims entries extension edits added x j ≡ true →
        final_claims entries extension edits added x k ≡ true →
        j ≡ k }
{}

/// Law: if no entries of an EFI map are added, the claims of the final map are made from those
/// after the options' edits in two steps. Each address keeps only its greatest claim
/// (`e820__update_table`), and RAM is trimmed in the areas of the BIOS (`trim_bios_range`).
pub fn map_without_efi_entries()
    ensures { (entries extension : List AnyEntry) (edits : List AnyEdit) →
        final_claims entries extension edits []
        ≡ after_bios_trim
        (settled_claims (after_edits edits (with_extension extension (zero_page_claims entries)))) }
{}

/// Law: the map is the list of runs of the addresses' types, if no address at or above 2^64 has a
/// type.
pub fn map_is_runs()
    ensures { (c : Claims) → ((x : ℕ) → 2 ^ 64 ≤ x → kinds c x ≡ None) →
        IsRunsOf (kinds c) (map_of c) }
{}
