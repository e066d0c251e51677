//! Builds machines for the cases: memblocks in which the kernel's image is claimed, and memory is
//! added.
ghost use Rattle.std.specs.Prelude.{◌<◌, IsTrue};
ghost use Rattle.growth_model.specs.Tables.{HasFirstItem, IsKernelImage};

use crate::ranges::{KERNEL, Part};
use bm_base::Range;
use memblock_grow::{Memblock, Refusal};
use memblock_model::Owner;
use std::alloc::Global;
use std::test::Fail;

/// The addresses below 128 MiB.
pub const MEMORY: Range = Range {
    base: 0,
    size: 0x800_0000,
};

/// Tests whether the journal has an item (one recorded change of memblock), which most calls of a
/// memblock require (`HasFirstItem`).
pub fn has_begun(memblock: &Memblock) -> bool
    ensures { IsTrue result → HasFirstItem memblock.now.journal.items }
{
    memblock.journal().items().len() > 0
}

/// Returns a memblock in which only the kernel's image, `kernel`, is claimed. No memory is known.
pub fn memblock_with_kernel(alloc: Global, kernel: Range) -> Result<Memblock, Refusal>
    requires image { IsKernelImage kernel }
    requires some { 0 < kernel.size }
{
    let mut memblock = Memblock::new(alloc, kernel)?;
    memblock.claim(kernel, Owner::Kernel)?;
    Ok(memblock)
}

// Adds the part to memory and sets its node. Returns false if the requirements of a memblock call
// don't hold.
fn add(memblock: &mut Memblock, part: Part) -> Result<bool, Refusal> {
    let (from, until, node) = part;
    let Some(range) = Range::between(from, until) else {
        return Ok(false);
    };
    if !has_begun(memblock) {
        return Ok(false);
    }
    memblock.add_memory(range)?;
    if node >= 1024 || !has_begun(memblock) {
        return Ok(false);
    }
    memblock.set_node(range, node)?;
    Ok(true)
}

/// Returns a memblock with the kernel's image in this range, and with this memory.
pub fn machine(alloc: Global, kernel: Range, memory: &[Part]) -> Result<Memblock, Fail>
    requires image { IsKernelImage kernel }
    requires some { 0 < kernel.size }
{
    let mut memblock = memblock_with_kernel(alloc, kernel)?;
    for part in memory {
        if !add(&mut memblock, *part)? {
            return Err("memory".into());
        }
    }
    Ok(memblock)
}

/// Sets the address at or below which allocations must end (`memblock_set_current_limit`). Fails
/// if nothing has been claimed yet.
pub fn limit(memblock: &mut Memblock, at: u64) -> Result<(), Fail> {
    if !has_begun(memblock) {
        return Err("nothing has happened".into());
    }
    memblock.set_limit(at)?;
    Ok(())
}

/// Returns a memblock with 128 MiB of memory without a node, in which the kernel's image `KERNEL`
/// is claimed and allocations must end at or below address `at`.
pub fn bare(alloc: Global, at: u64) -> Result<Memblock, Fail> {
    let mut memblock = memblock_with_kernel(alloc, KERNEL)?;
    if has_begun(&memblock) {
        memblock.add_memory(MEMORY)?;
    }
    limit(&mut memblock, at)?;
    Ok(memblock)
}
