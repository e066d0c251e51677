//! Builds a table of domains from the blocks of a case.
ghost use Rattle.std.specs.Prelude.{◌≡◌, ◌≤◌, IfOk, length};

use crate::ranges::between;
use srat_reader::{Srat, SratBlock};
use std::alloc::{AllocError, Global};

/// Returns a block of the SRAT: the addresses from `from` to below `until`, in this domain.
pub fn block(domain: u32, from: u64, until: u64) -> SratBlock
    requires { from ≤ until }
{
    SratBlock {
        domain,
        range: between(from, until),
    }
}

/// Returns a SRAT with these processors, each given by its domain, and with these blocks.
pub fn table(alloc: Global, processors: &[u32], blocks: &[SratBlock]) -> Result<Srat, AllocError>
    ensures { IfOk result (λ srat. length srat.blocks.items ≡ length blocks.now) }
{
    Ok(Srat {
        cpus: Vec::from_slice(alloc, processors)?,
        blocks: Vec::from_slice(alloc, blocks)?,
    })
}
