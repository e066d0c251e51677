//! An accepted command line as a value. The invariant of its type keeps the bounds of the kernel's
//! range, of the mirrored ranges, and of the number of entries of a generated table.

ghost use Rattle.std.specs.Prelude.{◌≡◌, IfSome};
ghost use Rattle.std.specs.List.{All};
ghost use Rattle.std.proofs.Props.{props};
ghost use Rattle.boot_model.specs.Kernel.{IsKernel};
ghost use Rattle.boot_model.specs.Mirrors.{IsMirror};
ghost use Rattle.program_args.specs.Entries.{IsEntryCount};
ghost use Rattle.program_args.specs.Args.{argument_of};

use crate::grammar::arg_value_in;
use bm_base::{Memory, Range, Width};
use boot_inputs::{Input, Names};
use boot_model::Inputs;
use clap::ArgMatches;
use std::alloc::Global;

/// What an accepted command line of `bootmem` or `bootmem61` asks for. File names and the list of
/// reports aren't copied: they are slices of the words. A file name is looked up in the matches
/// that `clap` found.
#[derive(Debug, Drop)]
pub struct BootmemArgs<'w> {
    /// The values that `clap` found for the arguments.
    pub(crate) matches: ArgMatches<'w>,
    /// The requested reports: names, separated by commas.
    pub list: &'w str,
    /// The width of physical addresses.
    pub(crate) width: Width,
    /// The mirrored memory: ranges of whole frames in bytes, in the order of `--mirror`.
    pub(crate) mirrors: Vec<Range>,
    /// Whether memblock's searches go from the lowest address up, instead of from the highest
    /// down.
    pub(crate) upward: bool,
    /// The range of the kernel's image, in bytes.
    pub(crate) kernel: Range,
    /// The number of entries of the generated e820 table, if `--make` asks for one instead of a
    /// zero page.
    pub made: Option<u32>,
    ghost kernel_fits: { IsKernel width kernel },
    ghost mirrors_fit: { All IsMirror mirrors.items },
    ghost made_fits: { IfSome made IsEntryCount } by { Prim.hlevel props },
}

impl BootmemArgs<'_> {
    ghost use Rattle.std.specs.Prelude.{◌≡◌, IfOk};
    ghost use Rattle.boot_model.specs.View.{inputs_view};
    ghost use Rattle.program_args.specs.View.{bootmem_args_view, program_args_view};
    ghost use Rattle.std.specs.Option.{option_map};

    /// Returns the name of the file of early claims, if `--claims` gives one. Only `bootmem61` has
    /// this option.
    pub fn claims(&self) -> Option<&str>
        ensures { option_map (λ name. name.now) result ≡ (program_args_view self.now).claims }
    {
        arg_value_in(&self.matches, "claims")
    }

    /// Returns the inputs of a boot without files: the address width, the kernel's range, the
    /// mirrored ranges and the direction of searches are those of the command line. Each file that
    /// is read then adds its part. Fails only if out of memory.
    pub fn command_line_inputs(&self, alloc: Global) -> Result<Inputs, Memory>
        ensures { IfOk result (λ inputs. inputs_view inputs ≡ (bootmem_args_view self.now).begun) }
    {
        let mut inputs = Inputs::without_files(alloc, self.width, self.kernel);
        inputs.mirrors = Vec::from_slice(alloc, &self.mirrors)?;
        inputs.upward = self.upward;
        Ok(inputs)
    }
}

impl<'w> Names for BootmemArgs<'w> {
    ghost use Rattle.program_args.specs.View.{bootmem_args_view};

    ghost named = { λ args. (bootmem_args_view args).named };

    fn of(&self, input: Input) -> Option<&str> {
        if input == Input::Claims {
            return None;
        }
        arg_value_in(&self.matches, argument_of(input))
    }
}

/// The names of the files of `bootmem61`: those of `bootmem`, and that of the early claims.
#[derive(Clone, Copy)]
pub struct NamesWithClaims<'a, 'w> {
    /// The accepted command line.
    pub args: &'a BootmemArgs<'w>,
}

impl<'a, 'w> Names for NamesWithClaims<'a, 'w> {
    ghost use Rattle.program_args.specs.Args.{named61};
    ghost use Rattle.program_args.specs.View.{program_args_view};

    ghost named = { λ names. named61 (program_args_view names.args.now) };

    fn of(&self, input: Input) -> Option<&str> {
        if input == Input::Claims {
            return self.args.claims();
        }
        self.args.of(input)
    }
}

/// Returns the name of the `clap` argument whose value is the name of the input's file.
fn argument_of(input: Input) -> &'static str
    ensures { result.now ≡ argument_of input }
{
    match input {
        Input::ZeroPage => "ZEROPAGE",
        Input::Extension => "e820ext",
        Input::CommandLine => "cmdline",
        Input::Srat => "srat",
        Input::Script => "script",
        Input::Claims => "claims",
        Input::Pages => "pages",
        Input::Slit => "slit",
        Input::Efi => "efi",
    }
}
