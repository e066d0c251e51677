//! Laws about the map of a boot that isn't stopped. They are about the definition of the boot, so a
//! caller may rely on them without knowing its stages. In them, a claim is a range of addresses
//! with a type, of the e820 table; it isn't a reservation of memblock.

ghost use Rattle.std.specs.Prelude.{◌≡◌, ℕ, ◌+◌, ◌*◌, ◌^◌, ◌/◌, ◌<◌, ◌≤◌, false, None, List, [], is_some, IfOk, IfSome, Ok, Err, length};
ghost use Rattle.address_runs.specs.Runs.{value_at};
ghost use Rattle.e820_model.specs.Map.{kinds};
ghost use Rattle.std.specs.List.{All};
ghost use Rattle.bm_base.specs.Each.{each_in};
ghost use Rattle.bm_base.specs.Range.{RangeView};
ghost use Rattle.bm_base.specs.Frames.{bytes_of_frame, frames_within};
ghost use Rattle.efi_map.specs.Map.{efi_of};
ghost use Rattle.e820_model.specs.Usable.{is_usable_frame, usable_frames};
ghost use Rattle.e820_model.specs.declared.entry.TheConstants.{E820_MAX_ENTRIES};
ghost use Rattle.memblock_model.specs.Items.{limit_of, memory_of};
ghost use Rattle.early_memory.specs.Memory.{memory_end};
ghost use Rattle.boot_model.specs.declared.stop.Cause.TheVariants as causes;
ghost use Rattle.boot_model.specs.Mirrors.{IsMirror};
ghost use Rattle.boot_model.specs.Boot.{InputsView, BootSoFar, boot, boot_with, claims, efi_entries, lies_in_memory, no_extra, reach, types_in_reach, whole_boot, whole_boot_with};

use bm_base::FRAME_SIZE;

/// Law: the EFI memory map adds claims to the e820 table (typed ranges of addresses) only if the
/// command line asks for it (`add_efi_memmap`) and the EFI map has descriptors. Otherwise the
/// claims are those of a boot without that map.
pub fn efi_entries_count_only_if_asked()
    ensures unasked { (inputs : InputsView) → inputs.options.add_efi ≡ false →
        claims inputs ≡ claims (record inputs { efi = None }) }
    ensures empty { (inputs : InputsView) → efi_entries inputs.efi ≡ [] →
        claims inputs ≡ claims (record inputs { efi = None }) }
{}

/// Law: the map of a boot gives each address below 2^64 the greatest type that any claim (typed
/// range) of the e820 table gives it (`e820__update_table`). The map has at most 3,200 runs.
pub fn map_gives_types()
    ensures types { (inputs : InputsView) (made : BootSoFar) (x : ℕ) → boot inputs ≡ Ok made
        → x < 2 ^ 64 →
        value_at made.map x ≡ kinds (claims inputs) x }
    ensures room { (inputs : InputsView) (made : BootSoFar) → boot inputs ≡ Ok made
        → length made.map ≤ E820_MAX_ENTRIES }
{}

/// Law: a frame below the limit of physical addresses is usable exactly if all its bytes lie in
/// runs of RAM or of the kernel's own memory in the boot's map. The number of usable frames is 1 to
/// 2^32.
pub fn map_gives_frames()
    ensures each { (inputs : InputsView) (made : BootSoFar) (frame : ℕ) → boot inputs ≡ Ok made →
        FRAME_SIZE * frame + FRAME_SIZE ≤ reach inputs →
        is_usable_frame (types_in_reach inputs) frame
        ≡ each_in (bytes_of_frame frame) (lies_in_memory made.map) }
    ensures some { (inputs : InputsView) (made : BootSoFar) → boot inputs ≡ Ok made →
        0 < usable_frames (types_in_reach inputs) }
    ensures few { (inputs : InputsView) (made : BootSoFar) → boot inputs ≡ Ok made →
        usable_frames (types_in_reach inputs) ≤ 2 ^ 32 }
{}

/// Law: at the end of a boot a byte is memory exactly if its frame is usable. Allocations are
/// limited to addresses below the end of the last usable frame.
pub fn map_gives_memory()
    ensures memory { (inputs : InputsView) (made : BootSoFar) (x : ℕ) → boot inputs ≡ Ok made →
        is_some (memory_of made.items x)
        ≡ is_usable_frame (types_in_reach inputs) (x / FRAME_SIZE) }
    ensures limit { (inputs : InputsView) (made : BootSoFar) → boot inputs ≡ Ok made →
        limit_of made.items ≡ memory_end (reach inputs) (kinds (claims inputs)) }
{}

/// Law: a boot stops with `NoRam` only if no frame is usable.
pub fn no_ram_means_no_usable_frame()
    ensures { (inputs : InputsView) → boot inputs ≡ Err causes.NoRam
        → usable_frames (types_in_reach inputs) ≡ 0 }
{}

/// Law: each mirrored range that the EFI map gives is whole frames, at least one. A range that an
/// option of the program names is cut to whole frames. If any frame is left, the result is at least
/// one whole frame too.
pub fn mirrors_are_whole_frames()
    ensures cut { (range : RangeView) → IfSome (frames_within range) IsMirror }
    ensures firmware { (bytes : List ℕ) → IfOk (efi_of bytes) (λ map. All IsMirror map.mirrors) }
{}

/// Law: a boot with `bootmem`'s own profile and without early claims makes what `boot` makes, and
/// reports what `boot` reports.
pub fn boot_has_own_profile()
    ensures made { (inputs : InputsView) → boot_with no_extra inputs ≡ boot inputs }
    ensures report { (inputs : InputsView) → whole_boot_with no_extra inputs ≡ whole_boot inputs }
{}
