//! The command line of each program as a command of `clap`, and the values that `clap` finds for
//! its arguments. All calls of `clap` are in this file. The other files see only the value of an
//! argument, by its name.

ghost use Rattle.std.specs.Prelude.{◌≡◌, ◌≢◌, true, IfOk, OnOk, IsErrOf, [], fold};
ghost use Rattle.std.specs.Option.{option_copied};
ghost use Rattle.clap.specs.Words.{app_of, fault_of, first_of, found_of, is_simple, is_simple_and_free, matches_of, rows_of};
ghost use Rattle.clap.specs.declared.error.kind.ErrorKind.TheVariants as error_kinds;
ghost use Rattle.program_args.specs.Grammar.{bare_app, bootmem61_command, bootmem_command, with_option, with_positional};
ghost use Rattle.program_args.specs.Args.{is_flag_given, bytes_of_words, arg_value_in};
ghost use Rattle.program_args.specs.declared.reader.ArgsError.TheVariants as errors;

use crate::reader::ArgsError;
use bm_base::Memory;
use clap::error::ErrorKind;
use clap::{Arg, ArgAction, ArgMatches, Command};
use std::alloc::Global;

/// The name and action of each option of `bootmem`. With [`ArgAction::Set`] an option takes a
/// value, with [`ArgAction::SetTrue`] it is a flag.
const OPTIONS: [(&str, ArgAction); 13] = [
    ("la57", ArgAction::SetTrue),
    ("mirror", ArgAction::Set),
    ("bottom-up", ArgAction::SetTrue),
    ("cmdline", ArgAction::Set),
    ("e820ext", ArgAction::Set),
    ("srat", ArgAction::Set),
    ("script", ArgAction::Set),
    ("pages", ArgAction::Set),
    ("slit", ArgAction::Set),
    ("efi", ArgAction::Set),
    ("kernel", ArgAction::Set),
    ("report", ArgAction::Set),
    ("make", ArgAction::Set),
];

/// Returns the value that `clap` finds in `words` for each argument of the command. The port of
/// `clap` defines these values for simple commands (`is_simple`).
///
/// # Errors
///
/// - [`ArgsError::Usage`] if `clap` refuses the words.
/// - [`ArgsError::Memory`] if this program is out of memory.
pub fn match_words<'w>(
    command: Command<'w>,
    words: &'w [String],
) -> Result<ArgMatches<'w>, ArgsError>
    requires simple { is_simple (app_of command) ≡ true }
    requires free { is_simple_and_free (app_of command) ≡ true }
    ensures matches { IfOk result (λ matches.
        rows_of (found_of matches)
        ≡ matches_of (app_of command.entry) (bytes_of_words words.entry.now)) }
    ensures faultless { OnOk result
        (fault_of (app_of command.entry) (bytes_of_words words.entry.now) ≡ []) }
    ensures refused { IsErrOf result ArgsError.Usage
        → fault_of (app_of command.entry) (bytes_of_words words.entry.now) ≢ [] }
{
    match command.try_get_matches_from(words) {
        Ok(matches) => Ok(matches),
        Err(error) => Err(args_error_of_clap(error.kind())),
    }
}

/// Returns [`ArgsError::Memory`] if `clap` is out of memory, and [`ArgsError::Usage`] for any other
/// error of `clap`.
fn args_error_of_clap(kind: ErrorKind) -> ArgsError
    ensures { result ≡ errors.Usage → kind ≢ error_kinds.OutOfMemory }
{
    match kind {
        ErrorKind::OutOfMemory => ArgsError::Memory,
        _ => ArgsError::Usage,
    }
}

/// Returns the value that `clap` found for the argument `name`, if there is one.
pub fn arg_value_in<'w>(matches: &ArgMatches<'w>, name: &str) -> Option<&'w str>
    ensures { option_copied result ≡ first_of name.now (rows_of (found_of matches.now)) }
{
    matches.get_str(name)
}

/// Tests whether the flag is given on the command line. `clap` finds the value `true` for a flag
/// that is given, and `false` for any other flag.
pub fn is_flag_given(matches: &ArgMatches<'_>, flag: &str) -> bool
    ensures { result ≡ is_flag_given (arg_value_in (rows_of (found_of matches.now))) flag.now }
{
    arg_value_in(matches, flag) == Some("true")
}

/// Returns the command line of `bootmem` as a command of `clap`: its options and the argument
/// ZEROPAGE, the name of the zero page's file. Fails only if out of memory.
pub fn bootmem_command<'w>(alloc: Global) -> Result<Command<'w>, Memory>
    ensures { IfOk result (λ command. app_of command ≡ bootmem_command) }
{
    let command = with_options(alloc, bare_app(alloc, "bootmem"), &OPTIONS)?;
    with_positional(alloc, command, "ZEROPAGE")
}

/// Returns the command line of `bootmem61` as a command of `clap`: the options of `bootmem` and
/// `--claims`, and the argument ZEROPAGE, the name of the zero page's file. Fails only if out of
/// memory.
pub fn bootmem61_command<'w>(alloc: Global) -> Result<Command<'w>, Memory>
    ensures { IfOk result (λ command. app_of command ≡ bootmem61_command) }
{
    let command = with_options(alloc, bare_app(alloc, "bootmem61"), &OPTIONS)?;
    let with_claims = with_option(alloc, command, "claims", ArgAction::Set)?;
    with_positional(alloc, with_claims, "ZEROPAGE")
}

/// Returns a command of `clap` with this name and no arguments. It has no `--help` and no
/// `--version`, and the words that it reads don't begin with the program's name.
fn bare_app<'w>(alloc: Global, name: &'w str) -> Command<'w>
    ensures { app_of result ≡ bare_app name.entry.now }
{
    Command::new(alloc, name)
        .no_binary_name(true)
        .disable_help_flag(true)
        .disable_version_flag(true)
}

/// Returns the command with these options added in their order. Fails only if out of memory.
fn with_options<'w>(
    alloc: Global,
    command: Command<'w>,
    options: &[(&'w str, ArgAction)],
) -> Result<Command<'w>, Memory>
    ensures { IfOk result (λ made.
        app_of made ≡ fold (λ app option. with_option app (option.0.now, option.1))
        (app_of command.entry) options.now) }
{
    let mut made = command;
    let mut rest = options;
    while let [(name, action), others @ ..] = rest {
        made = with_option(alloc, made, name, *action)?;
        rest = others;
    }
    Ok(made)
}

/// Returns the command with one more option, written `--NAME`. Fails only if out of memory.
fn with_option<'w>(
    alloc: Global,
    command: Command<'w>,
    name: &'w str,
    action: ArgAction,
) -> Result<Command<'w>, Memory>
    ensures { IfOk result (λ made.
        app_of made ≡ with_option (app_of command.entry) (name.entry.now, action)) }
{
    let option = Arg::new(alloc, name).long(name).action(action);
    Ok(command.arg(option)?)
}

/// Returns the command with a positional argument: a word that belongs to no option. Fails only if
/// out of memory.
fn with_positional<'w>(
    alloc: Global,
    command: Command<'w>,
    name: &'w str,
) -> Result<Command<'w>, Memory>
    ensures { IfOk result (λ made.
        app_of made ≡ with_positional (app_of command.entry) name.entry.now) }
{
    let word = Arg::new(alloc, name).action(ArgAction::Set);
    Ok(command.arg(word)?)
}
