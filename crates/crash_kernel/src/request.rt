//! The size and placement that `crashkernel=` requests (`parse_crashkernel`). They depend only on
//! the option and on total memory. Nothing here reads memblock.

ghost use Rattle.std.specs.Prelude.{◌≡◌, ◌<◌, ◌≤◌, ◌^◌, IfSome};
ghost use Rattle.std.specs.Option.{option_map};
ghost use Rattle.boot_options.specs.Crash.{crash_option_view, crash_plain_view};
ghost use Rattle.crash_kernel.specs.Request.{request_for, request_by, linux_request, linux_plain_request, high_request, plain_request, size_for_total, size_by_linux, bounded_size_for_total, is_size_form, is_refused_range, rounded_total, request_of_size, placement_for, is_in_total_range};
ghost use Rattle.address_runs.specs.Runs.{value_at};
ghost use Rattle.crash_kernel.specs.Total.{memory_bytes};

use crate::rule::CrashRule;
use boot_options::{CrashOption, CrashPlain, CrashRange};
use memblock_model::Which;
use memblock_ranges::Tables;

/// The multiple to which Linux rounds total memory up, in bytes (`SZ_128M`).
const SZ_128M: u64 = 1 << 27;

/// Where the crash area may lie.
#[derive(Clone, Copy, Debug, PartialEq, Eq)]
pub enum Placement {
    /// At exactly this physical address (`crashkernel=SIZE@BASE`).
    Fixed(u64),
    /// Between 16 MiB and 4 GiB if a free range fits between them, else between 16 MiB and 64 TiB
    /// (`crashkernel=SIZE`, or ranges of total memory).
    Automatic,
    /// Between 16 MiB and 64 TiB (`crashkernel=SIZE,high`). The area may lie below 4 GiB.
    High,
}

/// The crash area that the command line requests.
#[derive(Clone, Copy, Debug, PartialEq, Eq)]
pub struct AreaRequest {
    /// The size in bytes, above 0.
    pub size: u64,
    /// Where the crash area may lie.
    pub placement: Placement,
}

/// Returns the area that `crashkernel=` requests if the machine has `total` bytes of memory, or
/// `None` if it requests no area. The form `SIZE,high` counts only if the plain form requests
/// nothing.
#[tactic(auto, unfolding(crate::specs::Request::request_for))]
pub fn request_for(total: u64, option: &CrashOption) -> Option<AreaRequest>
    ensures area { result ≡ request_for total (crash_option_view option.now) }
    ensures some { IfSome result (λ area. 0 < area.size) }
{
    plain_request(total, &option.plain).or_else(|| high_request(option.high))
}

/// Returns the area that `crashkernel=` requests by `rule`, or `None` if it requests no area.
/// `total` is the number of bytes in the memory table. `added` is the number of bytes that were
/// added to it before it was trimmed to whole frames; only the rule of Linux 6.1 (`RoundedTotal`)
/// uses it.
#[tactic(auto, unfolding(crate::specs::Request::request_by))]
pub fn request_by(
    rule: CrashRule,
    total: u64,
    added: u64,
    option: &CrashOption,
) -> Option<AreaRequest>
    requires in_reach { added ≤ 2 ^ 52 }
    ensures area { result ≡ request_by rule total added (crash_option_view option.now) }
    ensures some { IfSome result (λ area. 0 < area.size) }
{
    match rule {
        CrashRule::ExactTotal => request_for(total, option),
        CrashRule::RoundedTotal => linux_request(rounded_total(added), option),
    }
}

/// Returns the area that `crashkernel=` requests by the rule of Linux 6.1, or `None` if it requests
/// no area. `total` is total memory in bytes, already rounded up to a multiple of 128 MiB.
#[tactic(auto, unfolding(crate::specs::Request::linux_request))]
fn linux_request(total: u64, option: &CrashOption) -> Option<AreaRequest>
    ensures area { result ≡ linux_request total (crash_option_view option.now) }
    ensures some { IfSome result (λ area. 0 < area.size) }
{
    linux_plain_request(total, &option.plain).or_else(|| high_request(option.high))
}

/// Returns the area that the plain form (`crashkernel=SIZE` or ranges of total memory) requests by
/// the rule of Linux 6.1. `total` is total memory in bytes, already rounded up to a multiple of 128
/// MiB.
fn linux_plain_request(total: u64, plain: &Option<CrashPlain>) -> Option<AreaRequest>
    ensures area { result ≡ linux_plain_request total (option_map crash_plain_view plain.now) }
    ensures some { IfSome result (λ area. 0 < area.size) }
{
    match plain {
        Some(plain) => request_of_size(
            size_by_linux(total, &plain.ranges),
            placement_for(plain.base),
        ),
        None => None,
    }
}

/// Returns the area that the plain form of the option requests: `crashkernel=SIZE[@BASE]` or
/// `crashkernel=RANGE:SIZE,..[@BASE]`. `total` is total memory in bytes.
fn plain_request(total: u64, plain: &Option<CrashPlain>) -> Option<AreaRequest>
    ensures area { result ≡ plain_request total (option_map crash_plain_view plain.now) }
    ensures some { IfSome result (λ area. 0 < area.size) }
{
    match plain {
        Some(plain) => request_of_size(
            size_for_total(total, &plain.ranges),
            placement_for(plain.base),
        ),
        None => None,
    }
}

/// Returns the area that `crashkernel=SIZE,high` requests. `high` is its size in bytes, if the form
/// is given.
fn high_request(high: Option<u64>) -> Option<AreaRequest>
    ensures area { result ≡ high_request high }
    ensures some { IfSome result (λ area. 0 < area.size) }
{
    request_of_size(high?, Placement::High)
}

/// Returns an area of `size` bytes, or `None` if `size` is 0.
fn request_of_size(size: u64, placement: Placement) -> Option<AreaRequest>
    ensures area { result ≡ request_of_size size placement }
    ensures some { IfSome result (λ area. 0 < area.size) }
{
    if size == 0 {
        return None;
    }
    Some(AreaRequest { size, placement })
}

/// Returns the placement for the `BASE` of `crashkernel=SIZE@BASE`. With base 0 the kernel picks
/// the place, as without a base.
fn placement_for(base: u64) -> Placement
    ensures { result ≡ placement_for base }
{
    if base == 0 {
        Placement::Automatic
    } else {
        Placement::Fixed(base)
    }
}

/// Returns the size, in bytes, that `crashkernel=RANGE:SIZE,..` gives for the first range that
/// contains `total`, or 0 if none does (`parse_crashkernel_mem`). The kernel first rounds total
/// memory up to 128 MiB. This function doesn't round it.
fn size_for_total(total: u64, ranges: &[CrashRange]) -> u64
    ensures { result ≡ size_for_total total ranges.now }
{
    for range in ranges {
        if is_in_total_range(total, range) {
            return range.size;
        }
    }
    0
}

/// Tests whether total memory is at least the start of the range, and below its end if it has one.
fn is_in_total_range(total: u64, range: &CrashRange) -> bool
    ensures { result ≡ is_in_total_range total range.now }
{
    range.start <= total && range.end.is_none_or(|end| total < end)
}

/// Returns total memory as Linux 6.1 counts it: `added` bytes, rounded up to a multiple of 128 MiB
/// (`parse_crashkernel_mem`).
fn rounded_total(added: u64) -> u64
    requires in_reach { added ≤ 2 ^ 52 }
    ensures { result ≡ rounded_total added }
{
    (added + (SZ_128M - 1)) / SZ_128M * SZ_128M
}

/// Returns the size, in bytes, that the plain form requests by the rule of Linux 6.1. Returns 0 if
/// it requests nothing or is refused. `total` is total memory in bytes, already rounded up.
fn size_by_linux(total: u64, ranges: &[CrashRange]) -> u64
    ensures { result ≡ size_by_linux total ranges.now }
{
    if is_size_form(ranges) {
        size_for_total(total, ranges)
    } else {
        bounded_size_for_total(total, ranges)
    }
}

/// Tests whether the form is `crashkernel=SIZE`: a single range that contains every total. The form
/// `crashkernel=0-:SIZE` is read as the same range, so the test is true for it too.
fn is_size_form(ranges: &[CrashRange]) -> bool
    ensures { result ≡ is_size_form ranges.now }
{
    ranges.len() == 1 && ranges[0].start == 0 && ranges[0].end.is_none()
}

/// Returns the size, in bytes, that `crashkernel=RANGE:SIZE,..` gives for the first range that
/// contains `total`. Returns 0 if no range does, or if Linux 6.1 refuses that range or one before
/// it (`parse_crashkernel_mem`).
fn bounded_size_for_total(total: u64, ranges: &[CrashRange]) -> u64
    ensures { result ≡ bounded_size_for_total total ranges.now }
{
    for range in ranges {
        if is_refused_range(total, range) {
            return 0;
        }
        if is_in_total_range(total, range) {
            return range.size;
        }
    }
    0
}

/// Tests whether Linux 6.1 refuses the plain form at this range: the range ends at or below its
/// start, or its size is `total` or more.
fn is_refused_range(total: u64, range: &CrashRange) -> bool
    ensures { result ≡ is_refused_range total range.now }
{
    range.end.is_some_and(|end| end <= range.start) || total <= range.size
}

/// Returns total memory: the number of bytes in the memory table, not rounded
/// (`memblock_phys_mem_size`).
pub fn total_memory(tables: &Tables) -> u64
    ensures { result ≡ memory_bytes (value_at tables.now.memory.records) }
{
    let records = tables.records(Which::Memory);
    let mut total = 0;
    for i in 0..records.count() {
        total += records.get(i).size;
    }
    total
}
