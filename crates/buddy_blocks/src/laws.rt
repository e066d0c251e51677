//! The laws of this crate. They say that the functions that list blocks return exactly the sets of
//! frames that are blocks by definition.

ghost use Rattle.std.specs.Prelude.{◌≡◌, ◌⊎◌, ◌↔◌, ℕ, ◌/◌, ◌^◌, ◌<◌, ◌≤◌, Some, None};
ghost use Rattle.bm_base.specs.declared.zone.Zone.{Zone as AnyZone};
ghost use Rattle.bm_base.specs.Zones.{zone_of};
ghost use Rattle.buddy_blocks.specs.declared.block.Block.{Block as AnyBlock};
ghost use Rattle.buddy_blocks.specs.Frames.{Frames, IsInSet, IsBlock, IsInBlock};
ghost use Rattle.buddy_blocks.specs.BlockList.{block_of, blocks_of, ListsBlock, AscendFrom};
ghost use Rattle.buddy_blocks.specs.PickedBlock.{IsPicked, NoneServes, picked_block};
ghost use Rattle.buddy_blocks.specs.Buddies.{RemovesFrameSet, IsBuddy, without_set, with_set};
ghost use Rattle.address_runs.specs.Edits.{IsEmptyFrom};

use crate::run::MAX_FRAMES;

/// Law: the frames of an aligned set of an order up to 10 are in one zone, since each zone ends at
/// a multiple of 1,024 frames.
pub fn sets_lie_in_one_zone()
    ensures { (order x y : ℕ) → order ≤ 10 → IsInSet order x y → zone_of y ≡ zone_of x }
{}

/// Law: `block_of` returns the only block that has the frame, and returns `None` only for a frame
/// that isn't free. `blocks_of` lists blocks and nothing else, in ascending order. It lists all
/// blocks if all free frames are below [`crate::MAX_FRAMES`].
pub fn listed_blocks_are_blocks()
    ensures block { (f : Frames) (x : ℕ) (b : AnyBlock) → block_of f x ≡ Some b
        → IsBlock f b × IsInBlock b x }
    ensures one { (f : Frames) (x : ℕ) (b : AnyBlock) → IsBlock f b → IsInBlock b x
        → block_of f x ≡ Some b }
    ensures none { (f : Frames) (x : ℕ) → block_of f x ≡ None → f x ≡ None }
    ensures sound { (f : Frames) (b : AnyBlock) → ListsBlock (blocks_of f) b → IsBlock f b }
    ensures complete { (f : Frames) (b : AnyBlock) → IsEmptyFrom MAX_FRAMES f → IsBlock f b
        → ListsBlock (blocks_of f) b }
    ensures ascending { (f : Frames) → AscendFrom 0 (blocks_of f) }
{}

/// Law: `picked_block` returns the block from which a request for `2^order` frames on a node and in
/// a zone is served (`__rmqueue_smallest`). This block has the smallest sufficient order, and it is
/// the lowest block of that order. The result is `None` exactly if no block on that node and in
/// that zone is large enough. All free frames must be below [`crate::MAX_FRAMES`].
pub fn picked_block_is_least()
    ensures picked { (f : Frames) (n : ℕ) (z : AnyZone) (order : ℕ) (b : AnyBlock)
        → IsEmptyFrom MAX_FRAMES f →
        (picked_block f n z order ≡ Some b) ↔ IsPicked f n z order b }
    ensures none { (f : Frames) (n : ℕ) (z : AnyZone) (order : ℕ) → IsEmptyFrom MAX_FRAMES f →
        (picked_block f n z order ≡ None) ↔ NoneServes f n z order }
{}

/// Law: if an aligned set of frames of a block is no longer free, the rest of the block is split
/// into buddies: one of each order from the set's order to below the block's order. All other
/// blocks are unchanged. Removing a set of frames, or adding it back, changes only the frames of
/// that set.
pub fn rest_of_block_is_buddies()
    ensures left { (f : Frames) (order x : ℕ) → RemovesFrameSet f (without_set order x f) order x }
    ensures back { (f : Frames) (order x n : ℕ) → ((y : ℕ) → IsInSet order x y → f y ≡ None) →
        RemovesFrameSet (with_set order x n f) f order x }
    ensures blocks { (f g : Frames) (order x : ℕ) (b c : AnyBlock) → RemovesFrameSet f g order x
        → IsBlock f b → IsInBlock b x →
        order ≤ b.order
        → IsBlock g c ↔ ((IsBlock f c × (IsInBlock b c.first → ⊥)) ⊎ IsBuddy b order b.order x c) }
{}
