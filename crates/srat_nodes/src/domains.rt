//! Numbers the nodes from 0, in the order in which their domains are first named
//! (`acpi_map_pxm_to_node`). A node's number is the index of its domain in the list of domains.

ghost use Rattle.std.specs.Prelude.{◌≡◌, ℕ, ◌<◌, ◌≤◌, ◌==◌, OnOk, IfOk, IfSome, fold, length, take};
ghost use Rattle.std.specs.List.{position};
ghost use Rattle.srat_nodes.specs.Domains.{named_domains, node_of_domain};
ghost use Rattle.srat_nodes.specs.Steps.{with_domain_if_room, with_domain_of_block};

use bm_base::{MAX_NODES, Memory};
use srat_reader::SratBlock;
use std::alloc::Global;

/// Returns the proximity domains that the table names, each once. A domain's index in the list is
/// its node. The domains of processors come first, then those of memory, in the order of the table.
/// The list ends after 1,025 domains, since a table with more than [`MAX_NODES`] (1,024) isn't
/// used.
///
/// # Errors
///
/// - `Memory`: the program ran out of memory.
pub fn named_domains(
    alloc: Global,
    processors: &[u32],
    blocks: &[SratBlock],
) -> Result<Vec<u32>, Memory>
    ensures { IfOk result (λ domains.
        domains.items ≡ take 1025 (named_domains processors.now blocks.now)) }
{
    let mut domains = Vec::new(alloc);
    add_processor_domains(&mut domains, processors)?;
    add_memory_domains(&mut domains, blocks)?;
    Ok(domains)
}

/// Appends each domain of `processors` that isn't in the list yet, in their order. Appends none
/// once the list has more than `MAX_NODES` (1,024) domains.
///
/// # Errors
///
/// - `Memory`: the program ran out of memory.
fn add_processor_domains(domains: &mut Vec<u32>, processors: &[u32]) -> Result<(), Memory>
    ensures { OnOk result
        (domains.new.items ≡ fold with_domain_if_room domains.old.items processors.now) }
{
    for domain in processors {
        add_domain(domains, *domain)?;
    }
    Ok(())
}

/// Appends the domain of each memory block that isn't in the list yet, in the order of `blocks`.
/// Appends none once the list has more than `MAX_NODES` (1,024) domains.
///
/// # Errors
///
/// - `Memory`: the program ran out of memory.
fn add_memory_domains(domains: &mut Vec<u32>, blocks: &[SratBlock]) -> Result<(), Memory>
    ensures { OnOk result
        (domains.new.items ≡ fold with_domain_of_block domains.old.items blocks.now) }
{
    for block in blocks {
        add_domain(domains, block.domain)?;
    }
    Ok(())
}

/// Appends a domain, unless it is in the list already, or the list has more than [`MAX_NODES`]
/// (1,024) domains.
///
/// # Errors
///
/// - `Memory`: the program ran out of memory.
fn add_domain(domains: &mut Vec<u32>, domain: u32) -> Result<(), Memory>
    ensures { OnOk result (domains.new.items ≡ with_domain_if_room domains.old.items domain) }
{
    if domains.len() <= MAX_NODES as usize && !domains.contains(&domain) {
        domains.push(domain)?;
    }
    Ok(())
}

/// Returns the node of a proximity domain: its index in `domains`, or 0 if it isn't in the list.
/// The list must have at most 1,024 domains.
pub fn node_of_domain(domains: &[u32], domain: u32) -> u32
    requires { length domains.now ≤ 1024 }
    ensures { result ≡ node_of_domain domains.now domain }
{
    index_of_domain(domains, domain).unwrap_or(0) as u32
}

/// Returns the index of a domain in the list, or `None` if it isn't in the list.
fn index_of_domain(domains: &[u32], domain: u32) -> Option<usize>
    ensures value { result ≡ position (λ e. e == domain) domains.now }
    ensures within { IfSome result (λ place. place < length domains.now) }
{
    domains.iter().position(|named| *named == domain)
}
