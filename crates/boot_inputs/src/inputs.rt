//! Reads all input files, in the order of [`Input`].

ghost use Rattle.std.specs.Prelude.{IfErr, IfOk, IfSome, IsNone, IsOk};
ghost use Rattle.boot_model.specs.Facts.{HaveBounds, HaveNoSections};
ghost use Rattle.boot_model.specs.View.{inputs_view};
ghost use Rattle.program_end.specs.Causes.{IsFileError};
ghost use Rattle.program_end.specs.Fetches.{Fetches};
ghost use Rattle.boot_inputs.specs.Input.{input_place};
ghost use Rattle.boot_inputs.specs.Inputs.{inputs_of};
ghost use Rattle.boot_inputs.specs.WithClaims.{inputs_with_claims_of, inputs_with_claims_view, with_claims};
ghost use Rattle.boot_inputs.specs.declared.input.Input.{Input as AnyInput};

use crate::claims::fetch_claims;
use crate::command_line::CommandLines;
use crate::efi::EfiMaps;
use crate::extension::Extensions;
use crate::fault::NoInputs;
use crate::fetching::Names;
use crate::list::Readers;
use crate::pages::PageScripts;
use crate::script::Scripts;
use crate::slit::Slits;
use crate::srat::Srats;
use crate::zero_page::ZeroPages;
use bm_io::Files;
use boot_model::Inputs;
use script_reader::Line;
use std::alloc::Global;

/// The readers of all files of `bootmem`, in the order in which the files are read.
pub(crate) type ReadersFromZeroPage = (ZeroPages, ReadersFromExtension);

/// The readers from that of the E820 extension to the last, in the order in which the files are
/// read.
type ReadersFromExtension = (Extensions, ReadersFromCommandLine);

/// The readers from that of the command line to the last, in the order in which the files are read.
type ReadersFromCommandLine = (CommandLines, ReadersFromSrat);

/// The readers from that of the SRAT to the last, in the order in which the files are read.
type ReadersFromSrat = (Srats, ReadersFromScript);

/// The readers from that of the early script to the last, in the order in which the files are read.
type ReadersFromScript = (Scripts, ReadersFromPages);

/// The readers from that of the page script to the last, in the order in which the files are read.
pub(crate) type ReadersFromPages = (PageScripts, ReadersFromSlit);

/// The readers from that of the SLIT to the last, in the order in which the files are read.
type ReadersFromSlit = (Slits, ReadersFromEfi);

/// The reader of the EFI memory map, which is the last.
type ReadersFromEfi = (EfiMaps, ());

/// The readers of the files before the early claims, in the order in which they are read.
pub(crate) type BeforeClaims = (
    ZeroPages,
    (Extensions, (CommandLines, (Srats, (Scripts, ())))),
);

/// Reads all input files of `bootmem` that have a name, in the order of [`Input`](crate::Input).
/// Returns the inputs `begun` with the values of the files put in. Files without a name are
/// skipped.
///
/// # Errors
///
/// - `Unread` or `Faulty`: the first file that can't be fetched, or that has a fault
/// - out of memory, at any file
pub fn read_inputs<F: Files, N: Names>(
    alloc: Global,
    files: &mut F,
    names: &N,
    begun: Inputs,
) -> Result<Inputs, NoInputs>
    ensures fetches { IfSome (F.holds files.old) (λ held.
        Fetches input_place inputs_view result
        (inputs_of held (N.named names.now) (inputs_view begun))) }
    ensures cause { IfErr result
        (IsFileError (F.faults files.old) (F.faults files.new) (N.named names.now)) }
    ensures unnamed { ((input : AnyInput) → IsNone (N.named names.now input)) → IsOk result }
{
    let mut inputs = begun;
    match ReadersFromZeroPage::add_files::<F, N>(alloc, files, names, &mut inputs) {
        Ok(()) => Ok(inputs),
        Err(error) => Err(error),
    }
}

/// Reads all input files that have a name, in the order of [`Input`](crate::Input). Returns the
/// inputs `begun` with the values of the files put in, and the lines of the early claims. Files
/// without a name are skipped; without a file of early claims there are no such lines.
///
/// # Errors
///
/// - `Unread` or `Faulty`: the first file that can't be fetched, or that has a fault
/// - out of memory, at any file
pub fn read_inputs_with_claims<F: Files, N: Names>(
    alloc: Global,
    files: &mut F,
    names: &N,
    begun: Inputs,
) -> Result<(Inputs, Vec<Line>), NoInputs>
    ensures fetches { IfSome (F.holds files.old) (λ held.
        Fetches input_place inputs_with_claims_view result
        (inputs_with_claims_of held (N.named names.now) (inputs_view begun))) }
    ensures cause { IfErr result
        (IsFileError (F.faults files.old) (F.faults files.new) (N.named names.now)) }
    ensures unnamed { ((input : AnyInput) → IsNone (N.named names.now input)) → IsOk result }
    ensures bounds { IfOk result (λ given. HaveBounds given.1.items) }
    ensures no_sections { IfOk result (λ given. HaveNoSections given.1.items) }
{
    let mut inputs = begun;
    match add_files_with_claims(alloc, files, names, &mut inputs) {
        Ok(claims) => Ok((inputs, claims)),
        Err(error) => Err(error),
    }
}

/// Reads all input files that have a name, in their order, and puts their values into the inputs.
/// Returns the lines of the early claims.
///
/// # Errors
///
/// - `Unread` or `Faulty`: the first file that can't be fetched, or that has a fault
/// - out of memory, at any file
fn add_files_with_claims<F: Files, N: Names>(
    alloc: Global,
    files: &mut F,
    names: &N,
    inputs: &mut Inputs,
) -> Result<Vec<Line>, NoInputs>
    ensures fetches { IfSome (F.holds files.old) (λ held.
        Fetches input_place (λ lines. with_claims (inputs_view inputs.new) lines.items) result
        (inputs_with_claims_of held (N.named names.now) (inputs_view inputs.old))) }
    ensures cause { IfErr result
        (IsFileError (F.faults files.old) (F.faults files.new) (N.named names.now)) }
    ensures unnamed { ((input : AnyInput) → IsNone (N.named names.now input)) → IsOk result }
    ensures bounds { IfOk result (λ lines. HaveBounds lines.items) }
    ensures no_sections { IfOk result (λ lines. HaveNoSections lines.items) }
{
    BeforeClaims::add_files::<F, N>(alloc, files, names, inputs)?;
    let claims = fetch_claims(alloc, files, names)?;
    ReadersFromPages::add_files::<F, N>(alloc, files, names, inputs)?;
    Ok(claims)
}
