//! Reads the program's command line. `clap` splits the words into options and values. This file
//! then checks the values, since `clap` doesn't know their meaning.

ghost use Rattle.std.specs.Prelude.{◌≡◌, IsErrOf, IsSome, ℕ, ◌+◌, ◌*◌, ◌/◌, ◌≤◌, ◌↔◌, List, map, true};
ghost use Rattle.std.specs.Option.{option_copied};
ghost use Rattle.clap.specs.Words.{app_of, found_of, is_simple, is_simple_and_free, rows_of};
ghost use Rattle.bm_base.specs.Answers.{Answers};
ghost use Rattle.program_args.specs.Answers.{or_refused};
ghost use Rattle.program_args.specs.View.{bootmem_args_view, program_args_view};
ghost use Rattle.program_args.specs.Args.{read_args, read_args61, args_of, args_by_values, args_from_values, args61_from_values, bootmem61_args, has_one_source, report_list_in, bytes_of_words, arg_value_in, address_width_in};
ghost use Rattle.bm_base.specs.Range.{RangeView, end_of};
ghost use Rattle.bm_base.specs.Frames.{frames_within};
ghost use Rattle.program_args.specs.Grammar.{options, options61};
ghost use Rattle.program_args.specs.Mirrors.{LiesInRange};
ghost use Rattle.program_args.specs.Spelling.{AreSpellings, Spelling, spelled_values, words_of_spellings};

use crate::args::BootmemArgs;
use crate::entries::made_entry_count;
use crate::grammar::{
    arg_value_in, bootmem_command, bootmem61_command, is_flag_given, match_words,
};
use crate::kernel::kernel_range_of;
use crate::mirrors::mirrors_of_value;
use crate::report_names::{REPORTS_OF_BOOTMEM61, are_report_names};
use bm_base::{Memory, Width};
use clap::{ArgMatches, Command};
use std::alloc::{AllocError, Global};

/// Why reading the command line failed.
#[derive(Clone, Copy, Debug, PartialEq, Eq)]
pub enum ArgsError {
    /// The command line is refused.
    Usage,
    /// This program is out of memory.
    Memory,
}

impl From<Memory> for ArgsError {
    ghost use Rattle.std.specs.Prelude.{◌≡◌};
    ghost use Rattle.program_args.specs.declared.reader.ArgsError.TheVariants as errors;

    ghost from_gives = { λ _ error. error ≡ errors.Memory };

    fn from(_error: Memory) -> ArgsError {
        ArgsError::Memory
    }
}

/// The list of reports that is used if `--report` isn't given.
const DEFAULT_LIST: &str = "buddyinfo";

/// Returns what the words after the program's name ask `bootmem` for.
///
/// The options with a value are `--mirror LIST`, `--cmdline F`, `--e820ext F`, `--srat F`,
/// `--script F`, `--pages F`, `--slit F`, `--efi F`, `--kernel BASE,SIZE`, `--report LIST` and
/// `--make N`. They may also be written `--NAME=VALUE`. The flags are `--la57` and `--bottom-up`.
/// Each may be given at most once, in any order. ZEROPAGE, the name of the zero page's file, may
/// stand anywhere. Either ZEROPAGE or `--make` must be given. `--make` can't be given together with
/// ZEROPAGE or `--e820ext`.
///
/// # Errors
///
/// - [`ArgsError::Usage`]: the words are refused.
/// - [`ArgsError::Memory`]: this program is out of memory. This may come instead of any other
///   result.
pub fn read_args<'w>(alloc: Global, words: &'w [String]) -> Result<BootmemArgs<'w>, ArgsError>
    ensures { Answers ArgsError.Memory bootmem_args_view result
        (or_refused (read_args (bytes_of_words words.entry.now))) }
{
    let command = bootmem_command(alloc)?;
    args_of(alloc, command, &[], words)
}

/// Returns what the words after the program's name ask `bootmem61` for.
///
/// The options with a value are those of `bootmem` (`--mirror LIST`, `--cmdline F`, `--e820ext F`,
/// `--srat F`, `--script F`, `--pages F`, `--slit F`, `--efi F`, `--kernel BASE,SIZE`, `--report
/// LIST` and `--make N`), and `--claims F`, which names a file of early claims. They may also be
/// written `--NAME=VALUE`. The flags are `--la57` and `--bottom-up`. Each may be given at most
/// once, in any order. ZEROPAGE, the name of the zero page's file, may stand anywhere. Either
/// ZEROPAGE or `--make` must be given. `--make` can't be given together with ZEROPAGE or
/// `--e820ext`. The list of `--report` may have the name `claims` too.
///
/// # Errors
///
/// - [`ArgsError::Usage`]: the words are refused.
/// - [`ArgsError::Memory`]: this program is out of memory. This may come instead of any other
///   result.
pub fn read_args61<'w>(alloc: Global, words: &'w [String]) -> Result<BootmemArgs<'w>, ArgsError>
    ensures { Answers ArgsError.Memory program_args_view result
        (or_refused (read_args61 (bytes_of_words words.entry.now))) }
{
    let command = bootmem61_command(alloc)?;
    args_of(alloc, command, &REPORTS_OF_BOOTMEM61, words)
}

/// Returns what `words` ask for as the command line of `command`. `further` has the names of the
/// reports that the program of this command has and `bootmem` doesn't.
///
/// # Errors
///
/// - [`ArgsError::Usage`]: the words are refused.
/// - [`ArgsError::Memory`]: this program is out of memory. This may come instead of any other
///   result.
fn args_of<'w>(
    alloc: Global,
    command: Command<'w>,
    further: &[&str],
    words: &'w [String],
) -> Result<BootmemArgs<'w>, ArgsError>
    requires simple { is_simple (app_of command) ≡ true }
    requires free { is_simple_and_free (app_of command) ≡ true }
    ensures { Answers ArgsError.Memory program_args_view result
        (or_refused (args_of bootmem61_args (app_of command.entry)
        (map (λ other. other.now) further.now) (bytes_of_words words.entry.now))) }
{
    args_by_values(alloc, match_words(command, words)?, further)
}

/// Tests whether the e820 entries have exactly one source: `--make`, with neither ZEROPAGE nor
/// `--e820ext`; or ZEROPAGE, with or without `--e820ext`.
fn has_one_source(matches: &ArgMatches<'_>) -> bool
    ensures { result ≡ has_one_source (arg_value_in (rows_of (found_of matches.now))) }
{
    let zero_page = arg_value_in(matches, "ZEROPAGE").is_some();
    let extension = arg_value_in(matches, "e820ext").is_some();
    if arg_value_in(matches, "make").is_some() {
        !zero_page && !extension
    } else {
        zero_page
    }
}

/// Returns the width of physical addresses: 52 bits with `--la57` (page tables of five levels),
/// else 46.
fn address_width_in(matches: &ArgMatches<'_>) -> Width
    ensures { result ≡ address_width_in (arg_value_in (rows_of (found_of matches.now))) }
{
    if is_flag_given(matches, "la57") {
        Width::Bits52
    } else {
        Width::Bits46
    }
}

/// Checks the values that `clap` found, and returns what they ask for. `further` has the names of
/// the reports that this program has and `bootmem` doesn't.
///
/// # Errors
///
/// - [`ArgsError::Usage`]: a value is refused, or the e820 entries don't have exactly one source
///   (`has_one_source`).
/// - [`ArgsError::Memory`]: this program is out of memory. This never comes instead of `Usage`.
fn args_by_values<'w>(
    alloc: Global,
    matches: ArgMatches<'w>,
    further: &[&str],
) -> Result<BootmemArgs<'w>, ArgsError>
    ensures value { Answers ArgsError.Memory program_args_view result
        (or_refused (args_by_values bootmem61_args (map (λ other. other.now) further.now)
        (arg_value_in (rows_of (found_of matches.entry))))) }
    ensures memory { IsErrOf result ArgsError.Memory
        → IsSome (args_by_values bootmem61_args (map (λ other. other.now) further.now)
        (arg_value_in (rows_of (found_of matches.entry)))) }
{
    if !has_one_source(&matches) {
        return Err(ArgsError::Usage);
    }
    let made = made_entry_count(arg_value_in(&matches, "make")).ok_or(ArgsError::Usage)?;
    let width = address_width_in(&matches);
    let kernel = kernel_range_of(arg_value_in(&matches, "kernel"), width).ok_or(ArgsError::Usage)?;
    let list = report_list_in(&matches, further).ok_or(ArgsError::Usage)?;
    let mirrors = mirrors_of_value(alloc, arg_value_in(&matches, "mirror"))?;
    let upward = is_flag_given(&matches, "bottom-up");
    Ok(BootmemArgs {
        matches,
        list,
        width,
        mirrors,
        upward,
        kernel,
        made,
    })
}

/// Returns the value of `--report`, or the default list if the option isn't given. Returns `None`
/// if a name in the list is neither one of `further` nor the name of a report of `bootmem`.
fn report_list_in<'w>(matches: &ArgMatches<'w>, further: &[&str]) -> Option<&'w str>
    ensures { option_copied result
        ≡ report_list_in (map (λ other. other.now) further.now)
        (arg_value_in (rows_of (found_of matches.now))) }
{
    let list = arg_value_in(matches, "report").unwrap_or(DEFAULT_LIST);
    if are_report_names(list.as_bytes(), further) {
        Some(list)
    } else {
        None
    }
}

/// Law: if the words follow the grammar of `bootmem`, reading them has the same result, a value or
/// an error, as checking the values that they spell. The grammar allows options with values, flags,
/// and the name of the zero page, in any order, but no argument twice. The value of an option is
/// the next word or follows `=`. Neither the name nor a value that is the next word begins with a
/// hyphen.
pub fn spelled_args_are_read()
    ensures { (spellings : List Spelling) → AreSpellings options spellings
        → read_args (words_of_spellings spellings)
        ≡ args_from_values (spelled_values options spellings) }
{}

/// Law: if the words follow the grammar of `bootmem61`, reading them has the same result, a value
/// or an error, as checking the values that they spell. The grammar is that of `bootmem`, and has
/// the option `--claims` in addition.
pub fn spelled_args61_are_read()
    ensures { (spellings : List Spelling) → AreSpellings options61 spellings
        → read_args61 (words_of_spellings spellings)
        ≡ args61_from_values (spelled_values options61 spellings) }
{}

/// Law: an address lies in the mirrored frames of a range exactly if each byte of its frame lies
/// in the range.
pub fn ranges_give_whole_frames()
    ensures { (range : RangeView) (x : ℕ) → LiesInRange (frames_within range) x
        ↔ ((range.base ≤ 4096 * (x / 4096)) × (4096 * (x / 4096) + 4096 ≤ end_of range)) }
{}
