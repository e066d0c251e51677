//! The input files, in the order in which they are read.

ghost use Rattle.std.specs.Prelude.{◌≡◌};
ghost use Rattle.boot_inputs.specs.Input.{input_word};

/// An input file. The variants are in the order in which the files are read.
#[derive(Clone, Copy, Debug, PartialEq, Eq)]
pub enum Input {
    /// The zero page (`struct boot_params`).
    ZeroPage,
    /// The E820 extension (a `setup_data` node of type `SETUP_E820_EXT`).
    Extension,
    /// The command line of the kernel.
    CommandLine,
    /// The firmware's table of domains (the ACPI table SRAT).
    Srat,
    /// The early script: calls of memblock, such as allocations, that run once memory has its
    /// nodes.
    Script,
    /// The early claims: a script that runs before memory gets its nodes. `bootmem` has no such
    /// file.
    Claims,
    /// The page script: requests to the page allocator after the handover.
    Pages,
    /// The firmware's table of distances between domains (the ACPI table SLIT).
    Slit,
    /// The EFI memory map (`GetMemoryMap`).
    Efi,
}

impl Input {
    /// Returns the word for the file in an error line, such as `cmdline` in `bootmem: cmdline: open
    /// quote`.
    pub fn input_word(self) -> &'static str
        ensures { result.now ≡ input_word self }
    {
        match self {
            Input::ZeroPage => "zeropage",
            Input::Extension => "e820ext",
            Input::CommandLine => "cmdline",
            Input::Srat => "srat",
            Input::Script => "script",
            Input::Claims => "claims",
            Input::Pages => "pages",
            Input::Slit => "slit",
            Input::Efi => "efi",
        }
    }
}
