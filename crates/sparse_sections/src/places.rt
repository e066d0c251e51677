//! Allocates the table of roots and each root. The kernel allocates a root when it comes to the
//! first section of it. Here the sections are a list in ascending order. The root of a section is
//! therefore already placed exactly if it is the root that was placed last.

ghost use Rattle.std.specs.Prelude.{◌≡◌, ◌≤◌, ◌<◌, ◌+◌, ℕ, None, [], IfOk, length, vec_len, vec_capacity};
ghost use Rattle.bm_base.specs.Width.{root_table_size_of};
ghost use Rattle.growth_model.specs.Tables.{HasFirstItem};
ghost use Rattle.stage_steps.specs.Causes.{error_of_stage_cause};
ghost use Rattle.stage_steps.specs.Steps.{EndsAsStage, view_of_result};
ghost use Rattle.memblock_grow.specs.Continues.{ContinuesMemblock};
ghost use Rattle.sparse_sections.specs.Roots.{root_of, is_last_root, cache_line_request, place_root, place_roots, place_each_root, roots_view};

use bm_base::{FRAME_SIZE, Memory, Width};
use boot_journal::Owner;
use growth_model::Request;
use memblock_grow::{Memblock, no_items_no_change};
use stage_steps::{Section, StageStop, What, place_or_stop};
use std::alloc::Global;

/// A root: a page with entries for 256 sections.
#[derive(Clone, Copy, Debug, PartialEq, Eq)]
pub struct RootPlace {
    /// The root's number, counted from 0: the number of its first section divided by 256.
    pub number: u32,
    /// The address of the root's first byte.
    pub place: u64,
}

/// The addresses of the table of roots and of each root.
#[derive(Debug, Drop)]
pub struct Roots {
    /// The address of the table's first byte.
    pub table: u64,
    /// The roots that have a section with memory, in ascending order.
    pub roots: Vec<RootPlace>,
}

/// The size of a root in bytes: a page.
const ROOT_SIZE: u64 = FRAME_SIZE;

/// The number of sections for which a root has entries (`SECTIONS_PER_ROOT`).
const SECTIONS_PER_ROOT: u32 = 256;

/// Returns a request for `size` bytes, aligned to a cache line (64 bytes). It prefers memory of
/// `node`, if one is given, and accepts any other.
fn cache_line_request(size: u64, node: Option<u32>) -> Request
    ensures { result ≡ cache_line_request size node }
{
    Request {
        size,
        align: 64,
        min: 0,
        max: None,
        node,
        exact: false,
    }
}

/// Returns the request for the table of roots, which has room for all roots that addresses of this
/// width can have.
fn table_request(width: Width) -> Request
    ensures { result ≡ cache_line_request (root_table_size_of width) None }
{
    cache_line_request(width.root_table(), None)
}

/// Returns the number of the root that has the section's entry: 256 sections share a root.
fn root_of(section: &Section) -> u32
    ensures { result ≡ root_of section.now }
{
    section.number / SECTIONS_PER_ROOT
}

/// Tests whether `root` is the number of the root that was placed last. `last` is that number, or
/// `None` if no root has been placed.
fn is_last_root(last: Option<u32>, root: u32) -> bool
    ensures { result ≡ is_last_root last root }
{
    match last {
        Some(number) => number == root,
        None => false,
    }
}

/// Allocates the root of the section, a page on the section's node if there is room, and appends it
/// to `roots`. The list must have room for it.
///
/// # Errors
///
/// - `NoPlace` if no place fits the root.
/// - `NoTablePlace` if a table of memblock has to grow and no place is found for it.
/// - `Memory` if this program is out of memory.
fn place_root(
    memblock: &mut Memblock,
    roots: &mut Vec<RootPlace>,
    section: &Section,
) -> Result<(), StageStop>
    requires begun { HasFirstItem memblock.old.journal.items }
    requires room { vec_len roots.old < vec_capacity roots.old }
    ensures ends { EndsAsStage (place_root roots.old.items section.now) error_of_stage_cause
        (view_of_result (λ _. roots.new.items) result)
        memblock.old.journal.items memblock.new.journal.items }
    ensures len { vec_len roots.new ≤ vec_len roots.old + 1 }
    ensures capacity { vec_capacity roots.old ≤ vec_capacity roots.new }
    ensures goes_on { ContinuesMemblock memblock.old memblock.new }
{
    let number = root_of(section);
    let request = cache_line_request(ROOT_SIZE, Some(section.node));
    let at = place_or_stop(memblock, What::Root(number), &request, Owner::Root(number))?;
    match roots.push(RootPlace { number, place: at }) {
        Ok(()) => Ok(()),
        Err(_) => unreachable!(),
    }
}

/// Returns an empty list of roots, with room for one root for each section.
///
/// # Errors
///
/// `Memory` if this program is out of memory.
fn empty_root_list(alloc: Global, sections: &[Section]) -> Result<Vec<RootPlace>, Memory>
    ensures empty { IfOk result (λ place_roots. place_roots.items ≡ []) }
    ensures room { IfOk result (λ place_roots.
        vec_len place_roots + length sections.now ≤ vec_capacity place_roots) }
{
    Ok(Vec::with_capacity(alloc, sections.len())?)
}

/// Allocates the roots of the sections and returns them, in the order of the sections. Sections of
/// the same root that follow one another share it.
///
/// # Errors
///
/// - `NoPlace` if no place fits a root.
/// - `NoTablePlace` if a table of memblock has to grow and no place is found for it.
/// - `Memory` if this program is out of memory.
fn place_each_root(
    alloc: Global,
    memblock: &mut Memblock,
    sections: &[Section],
) -> Result<Vec<RootPlace>, StageStop>
    requires { HasFirstItem memblock.old.journal.items }
    ensures ends { EndsAsStage (place_each_root sections.now) error_of_stage_cause
        (view_of_result (λ place_roots. place_roots.items) result)
        memblock.old.journal.items memblock.new.journal.items }
    ensures goes_on { ContinuesMemblock memblock.old memblock.new }
{
    no_items_no_change(memblock);
    let mut roots = empty_root_list(alloc, sections)?;
    let mut last = None;
    for section in sections {
        let root = root_of(section);
        if !is_last_root(last, root) {
            place_root(memblock, &mut roots, section)?;
            last = Some(root);
        }
    }
    Ok(roots)
}

/// Allocates the table of roots and then the root of each section (`memory_present`,
/// `sparse_index_alloc`), and returns their addresses. The table has 16 KiB, or 1 MiB if addresses
/// have 52 bits. Each root is a page, on the node of its first section if there is room. If the
/// sections are ascending, each root is placed once.
///
/// # Errors
///
/// Steps that were completed before the error stay in effect.
///
/// - `NoPlace` if no place fits the table or a root.
/// - `NoTablePlace` if a table of memblock has to grow and no place is found for it.
/// - `Memory` if this program is out of memory, for the list of roots or in a call of memblock.
pub fn place_roots(
    alloc: Global,
    memblock: &mut Memblock,
    sections: &[Section],
    width: Width,
) -> Result<Roots, StageStop>
    requires { HasFirstItem memblock.old.journal.items }
    ensures ends { EndsAsStage (place_roots width sections.now) error_of_stage_cause
        (view_of_result roots_view result)
        memblock.old.journal.items memblock.new.journal.items }
    ensures goes_on { ContinuesMemblock memblock.old memblock.new }
{
    let request = table_request(width);
    let table = place_or_stop(memblock, What::Roots, &request, Owner::Roots)?;
    let roots = place_each_root(alloc, memblock, sections)?;
    Ok(Roots { table, roots })
}
