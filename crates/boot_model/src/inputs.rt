//! The inputs of a boot: one field for each input file, and the place of the kernel. What is
//! known of the fields is part of the type, so each function that gets an `Inputs` can use it.

ghost use Rattle.std.specs.Prelude.{◌≡◌, ◌^◌, ◌<◌, IfSome, length, IsTrue};
ghost use Rattle.std.specs.List.{All};
ghost use Rattle.std.proofs.Props.{props};
ghost use Rattle.e820_model.specs.Claims.{EntriesFit, HaveTypes};
ghost use Rattle.e820_table.specs.Initrd.{IsInitrd};
ghost use Rattle.early_script.specs.Lines.{PlacesSectionsOnce};
ghost use Rattle.page_alloc.specs.Pages.{HaveValidOrders};
ghost use Rattle.slit_zonelists.specs.SlitView.{IsSquare, slit_view};
ghost use Rattle.boot_model.specs.Facts.{EntriesFit-prop, HaveBounds, HaveBounds-prop, HaveTypes-prop, HaveValidOrders-prop, PlacesSectionsOnce-prop, efi_ends-prop};
ghost use Rattle.boot_model.specs.Kernel.{IsKernel, is_kernel};
ghost use Rattle.boot_model.specs.Mirrors.{IsMirror};

use arrayvec::ArrayVec;
use bm_base::{FRAME_SIZE, Range, Width};
use boot_options::{CrashOption, Options};
use e820_table::{Entry, ZeroPage};
use efi_map::EfiMap;
use page_alloc::PageLine;
use script_reader::Line;
use slit_zonelists::Slit;
use srat_reader::Srat;
use std::alloc::Global;

/// The lowest address of a kernel's image, in bytes: the end of the first MiB, which real mode
/// keeps.
const LOWEST_KERNEL: u64 = 0x10_0000;

/// The smallest size of a kernel's image, in bytes: two frames, for memblock's two tables at its
/// end.
const SMALLEST_KERNEL: u64 = 2 * FRAME_SIZE;

/// Tests whether a kernel's image may lie at `range`, in bytes. It must begin at or above 1 MiB,
/// end at or below the limit of physical addresses, and consist of at least two whole frames.
pub fn is_kernel(range: &Range, width: Width) -> bool
    ensures value { result ≡ is_kernel width range.now }
    ensures facts { IsTrue result → IsKernel width range.now }
{
    range.base >= LOWEST_KERNEL
        && range.size >= SMALLEST_KERNEL
        && range.base % FRAME_SIZE == 0
        && range.size % FRAME_SIZE == 0
        && range.end() <= width.limit()
}

/// What a boot depends on: the contents of the input files and the values of the options. It has
/// the results of reading them, which have no fault.
#[derive(Drop)]
pub struct Inputs {
    /// The zero page (`struct boot_params`): its entries, and the initrd if there is one. Each
    /// entry's address plus size is at most 2^64 - 1.
    pub zero: ZeroPage,
    /// The entries of the E820 extension, or none if there is no extension. Each entry's address
    /// plus size is at most 2^64 - 1.
    pub ext: Vec<Entry>,
    /// The options of the command line. No type in an edit is 0.
    pub options: Options,
    /// The firmware's table of domains, if there is one. It has fewer than 2^32 ranges of memory.
    pub srat: Option<Srat>,
    /// The width of physical addresses.
    pub width: Width,
    /// The place of the kernel's image.
    pub kernel: Range,
    /// The memory that is mirrored: ranges of whole frames, at least one in each.
    pub mirrors: Vec<Range>,
    /// Whether searches go from the lowest address up.
    pub upward: bool,
    /// The lines of the early script, or none if there is no script. The numbers in each line are
    /// within their bounds, and at most one line places the sections.
    pub lines: Vec<Line>,
    /// The lines of the page script, or none if there is no script. Their orders are at most 10.
    pub page_lines: Vec<PageLine>,
    /// The firmware's table of distances between domains, if there is one. The number of its cells
    /// is the square of the number of its localities.
    pub slit: Option<Slit>,
    /// The EFI memory map, if there is one. Each entry's address plus size is at most 2^64 - 1. Its
    /// mirrored ranges are whole frames, at least one in each.
    pub efi: Option<EfiMap>,
    ghost entries_end: { EntriesFit zero.entries.items } by { EntriesFit-prop zero.entries.items },
    ghost initrd_fits: { IfSome zero.initrd IsInitrd } by { Prim.hlevel props },
    ghost extension_ends: { EntriesFit ext.items } by { EntriesFit-prop ext.items },
    ghost types_fit: { HaveTypes options.edits.items } by { HaveTypes-prop options.edits.items },
    ghost few_blocks: { IfSome srat (λ t. length t.blocks.items < 2 ^ 32) } by { Prim.hlevel props },
    ghost kernel_fits: { IsKernel width kernel },
    ghost mirrors_fit: { All IsMirror mirrors.items },
    ghost bounds_fit: { HaveBounds lines.items } by { HaveBounds-prop lines.items },
    ghost placed_once: { PlacesSectionsOnce lines.items } by { PlacesSectionsOnce-prop lines.items },
    ghost orders_fit: { HaveValidOrders page_lines.items } by { HaveValidOrders-prop page_lines.items },
    ghost slit_square: { IfSome slit (λ table. IsSquare (slit_view table)) } by { Prim.hlevel props },
    ghost efi_ends: { IfSome efi (λ map. EntriesFit map.entries.items) } by { efi_ends-prop efi },
    ghost efi_mirrors_fit: { IfSome efi (λ m. All IsMirror m.mirrors.items) } by { Prim.hlevel props },
}

impl Inputs {
    ghost use Rattle.boot_model.specs.Boot.{inputs_without_files, reach};
    ghost use Rattle.boot_model.specs.View.{inputs_view};

    /// Returns inputs in which every input file is absent: only the width of addresses and the
    /// kernel's range are given. Each file that is read adds to them.
    pub fn without_files(alloc: Global, width: Width, kernel: Range) -> Inputs
        requires { IsKernel width kernel }
        ensures { inputs_view result ≡ inputs_without_files width kernel }
    {
        Inputs {
            zero: ZeroPage {
                entries: ArrayVec::new(),
                initrd: None,
            },
            ext: Vec::new(alloc),
            options: Options {
                edits: Vec::new(alloc),
                crash: CrashOption {
                    plain: None,
                    high: None,
                    low: None,
                },
                numa_off: false,
                add_efi: false,
            },
            srat: None,
            width,
            kernel,
            mirrors: Vec::new(alloc),
            upward: false,
            lines: Vec::new(alloc),
            page_lines: Vec::new(alloc),
            slit: None,
            efi: None,
        }
    }

    /// Returns the limit of physical addresses (`MAX_PHYSMEM_BITS`): each address is below it.
    pub fn reach(&self) -> u64
        ensures { result ≡ reach (inputs_view self.now) }
    {
        self.width.limit()
    }
}
