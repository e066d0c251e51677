//! Laws about each frame after a boot that isn't stopped: four facts about claims and blocks, where
//! frames are after the page script, and which frames are usable by the reported map. They are
//! proved for the definition of the boot, and therefore hold for any boot that returns what the
//! definition says.

ghost use Rattle.std.specs.Prelude.{◌≡◌, ◌↔◌, ℕ, Ok};
ghost use Rattle.page_alloc.specs.Pages.{HaveValidOrders};
ghost use Rattle.boot_model.specs.Boot.{ExtraView, InputsView, BootedView, booted_address_limit, whole_boot, whole_boot_with};
ghost use Rattle.conservation.specs.Headline.{AllTouchedOrInOneBlock, BlocksAreMaximal, BlocksAreWhole, IsUsable, NoOtherInABlock};
ghost use Rattle.conservation.specs.ByMap.{IsUsableByMap};
ghost use Rattle.conservation.specs.FramePlacesAfterPages.{AllInOneBlockOrHeld, NoOtherInABlockOrHeld};

/// Law: after a boot each usable frame is either touched by a claim or in a block of the buddy
/// lists, and never both. If a claim touches the frame, the journal records the claim with its
/// owner. Otherwise the frame is in exactly one block.
pub fn usable_frames_are_touched_or_in_one_block()
    ensures own { (inputs : InputsView) (booted : BootedView) → whole_boot inputs ≡ Ok booted
        → AllTouchedOrInOneBlock inputs booted }
    ensures by_profile { (extra : ExtraView) (inputs : InputsView) (booted : BootedView) →
        whole_boot_with extra inputs ≡ Ok booted → AllTouchedOrInOneBlock inputs booted }
{}

/// Law: each frame of a block of the buddy lists is usable, and no claim touches it.
pub fn no_other_frame_is_in_a_block()
    ensures own { (inputs : InputsView) (booted : BootedView) → whole_boot inputs ≡ Ok booted
        → NoOtherInABlock inputs booted }
    ensures by_profile { (extra : ExtraView) (inputs : InputsView) (booted : BootedView) →
        whole_boot_with extra inputs ≡ Ok booted → NoOtherInABlock inputs booted }
{}

/// Law: each block has an order of at most 10, begins at a multiple of its number of frames, and
/// lies in one node and one zone.
pub fn blocks_are_whole()
    ensures own { (inputs : InputsView) (booted : BootedView) → whole_boot inputs ≡ Ok booted
        → BlocksAreWhole inputs booted }
    ensures by_profile { (extra : ExtraView) (inputs : InputsView) (booted : BootedView) →
        whole_boot_with extra inputs ≡ Ok booted → BlocksAreWhole inputs booted }
{}

/// Law: each block is as large as possible. A block of an order below 10 and its buddy together
/// can't form a block.
pub fn blocks_are_maximal()
    ensures own { (inputs : InputsView) (booted : BootedView) → whole_boot inputs ≡ Ok booted
        → BlocksAreMaximal inputs booted }
    ensures by_profile { (extra : ExtraView) (inputs : InputsView) (booted : BootedView) →
        whole_boot_with extra inputs ≡ Ok booted → BlocksAreMaximal inputs booted }
{}

/// Law: after the page script each frame that was handed over is in exactly one block, or held by
/// exactly one ID of the script, and not both. No other frame is in a block or held.
pub fn handed_frames_stay_in_one_block_or_held()
    ensures each { (inputs : InputsView) (booted : BootedView) → whole_boot inputs ≡ Ok booted
        → HaveValidOrders inputs.page_lines → AllInOneBlockOrHeld booted }
    ensures others { (inputs : InputsView) (booted : BootedView) → whole_boot inputs ≡ Ok booted
        → HaveValidOrders inputs.page_lines → NoOtherInABlockOrHeld booted }
    ensures each_by_profile { (extra : ExtraView) (inputs : InputsView) (booted : BootedView) →
        whole_boot_with extra inputs ≡ Ok booted
        → HaveValidOrders inputs.page_lines → AllInOneBlockOrHeld booted }
    ensures others_by_profile { (extra : ExtraView) (inputs : InputsView) (booted : BootedView) →
        whole_boot_with extra inputs ≡ Ok booted
        → HaveValidOrders inputs.page_lines → NoOtherInABlockOrHeld booted }
{}

/// Law: a frame is usable exactly if it lies below the limit of physical addresses and all its
/// bytes are RAM or the kernel's own memory in the map that the boot reports.
pub fn usable_frames_are_ram_below_limit()
    ensures own { (inputs : InputsView) (booted : BootedView) (frame : ℕ) →
        whole_boot inputs ≡ Ok booted →
        (IsUsable inputs frame ↔ IsUsableByMap (booted_address_limit booted) booted.map frame) }
    ensures by_profile { (extra : ExtraView) (inputs : InputsView) (booted : BootedView) (frame : ℕ)
        → whole_boot_with extra inputs ≡ Ok booted →
        (IsUsable inputs frame ↔ IsUsableByMap (booted_address_limit booted) booted.map frame) }
{}
