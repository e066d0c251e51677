//! Writes the error lines of `bootmem` and `bootmem61`. The lines of the two programs differ in the
//! program's name, and in the file names that a command line can give.

ghost use Rattle.std.specs.Prelude.{◌≡◌};
ghost use Rattle.std.specs.Option.{option_map};
ghost use Rattle.program_end.specs.Line.{PutsLine};
ghost use Rattle.program_run.specs.Line.{stop_cause_line, named_input_fault_line, input_fault_line, input_file_text, no_place_line, bootmem_name, bootmem61_name, no_table_place_line, no_numbered_place_line};
ghost use Rattle.program_args.specs.Args.{named61};
ghost use Rattle.program_args.specs.View.{bootmem_args_view, program_args_view};

use bm_io::Sink;
use boot_inputs::{Diagnostic, Fault, Input, Names};
use boot_model::Cause;
use itoa::Buffer;
use memblock_grow::What;
use program_args::{BootmemArgs, NamesWithClaims};
use program_end::{Lines, put_line};
use report_memory::memblock_table_name;

/// The name of the program `bootmem` in its error lines.
const BOOTMEM: &str = "bootmem";

/// The name of the program `bootmem61` in its error lines.
const BOOTMEM61: &str = "bootmem61";

/// Writes the error lines of `bootmem`. `args` is the accepted command line, which names the
/// files, or `None` if it was refused.
#[derive(Clone, Copy)]
pub struct BootmemLines<'a, 'w> {
    pub args: Option<&'a BootmemArgs<'w>>,
}

impl<'a, 'w> Lines<Input, Fault, Cause> for BootmemLines<'a, 'w> {
    ghost program_name = { bootmem_name };

    ghost file_name = { λ lines input.
        input_file_text (λ args. args.named)
        (option_map (λ args. bootmem_args_view args.now) lines.args) input };

    ghost fault_line = { input_fault_line bootmem_name };

    ghost cause_line = { stop_cause_line bootmem_name };

    fn program() -> &'static str {
        BOOTMEM
    }

    fn file(&self, input: Input) -> &str {
        match self.args {
            Some(args) => args.of(input).unwrap_or(""),
            None => "",
        }
    }

    fn put_fault_line<E: Sink>(err: &mut E, input: Input, fault: Fault) {
        put_input_fault_line(err, BOOTMEM, input.input_word(), fault)
    }

    fn put_cause_line<E: Sink>(err: &mut E, cause: Cause) {
        put_stop_cause_line(err, BOOTMEM, cause)
    }
}

/// Writes the error lines of `bootmem61`. `args` has the names of the files, as the accepted
/// command line gives them. It is `None` if the command line was refused.
#[derive(Clone, Copy)]
pub struct Bootmem61Lines<'a, 'w> {
    pub args: Option<&'a NamesWithClaims<'a, 'w>>,
}

impl<'a, 'w> Lines<Input, Fault, Cause> for Bootmem61Lines<'a, 'w> {
    ghost program_name = { bootmem61_name };

    ghost file_name = { λ lines input.
        input_file_text named61
        (option_map (λ names. program_args_view names.now.args.now) lines.args) input };

    ghost fault_line = { input_fault_line bootmem61_name };

    ghost cause_line = { stop_cause_line bootmem61_name };

    fn program() -> &'static str {
        BOOTMEM61
    }

    fn file(&self, input: Input) -> &str {
        match self.args {
            Some(names) => names.of(input).unwrap_or(""),
            None => "",
        }
    }

    fn put_fault_line<E: Sink>(err: &mut E, input: Input, fault: Fault) {
        put_input_fault_line(err, BOOTMEM61, input.input_word(), fault)
    }

    fn put_cause_line<E: Sink>(err: &mut E, cause: Cause) {
        put_stop_cause_line(err, BOOTMEM61, cause)
    }
}

/// Writes to `err` the line for `fault` in the file of an input, as in `bootmem: cmdline: word 3:
/// memmap`. `program` is the program's name, and `name` the word for the input.
fn put_input_fault_line<E: Sink>(
    err: &mut E,
    program: &'static str,
    name: &'static str,
    fault: Fault,
)
    ensures { PutsLine E.Sink err.old err.new
        (named_input_fault_line program.now name.now fault) }
{
    let mut buffer = Buffer::new();
    match fault.diagnostic() {
        Some(Diagnostic::Whole(what)) => put_line(err, &[program, ": ", name, ": ", what, "\n"]),
        Some(Diagnostic::Far(thing, index)) => {
            let index = buffer.format(index);
            put_line(
                err,
                &[program, ": ", name, ": ", thing, " ", index, " too far\n"],
            )
        }
        Some(Diagnostic::Word(word, what)) => {
            let word = buffer.format(word);
            put_line(
                err,
                &[program, ": ", name, ": word ", word, ": ", what, "\n"],
            )
        }
        Some(Diagnostic::Line(line, what)) => {
            let line = buffer.format(line);
            put_line(
                err,
                &[program, ": ", name, ": line ", line, ": ", what, "\n"],
            )
        }
        Some(Diagnostic::Offset(what, offset)) => {
            let offset = buffer.format(offset);
            put_line(
                err,
                &[program, ": ", name, ": ", what, " at ", offset, "\n"],
            )
        }
        // Never taken: out of memory is no file's fault (`exhaustion_is_no_file_fault`).
        None => put_line(err, &[program, ": out of memory\n"]),
    }
}

/// Writes to `err` the line that says why the boot stopped, as in `bootmem: stopped: no usable
/// frame`.
fn put_stop_cause_line<E: Sink>(err: &mut E, program: &'static str, cause: Cause)
    ensures { PutsLine E.Sink err.old err.new (stop_cause_line program.now cause) }
{
    match cause {
        Cause::NoRam => put_line(err, &[program, ": stopped: no usable frame\n"]),
        Cause::TooMuchRam { frames } => {
            let mut buffer = Buffer::new();
            let frames = buffer.format(frames);
            put_line(err, &[program, ": stopped: ", frames, " usable frames\n"])
        }
        Cause::MapFull { runs } => {
            let mut buffer = Buffer::new();
            let runs = buffer.format(runs);
            put_line(err, &[program, ": stopped: ", runs, " map runs\n"])
        }
        Cause::NoPlace { what } => put_no_place_line(err, program, what),
        Cause::NoTablePlace { which, room } => put_no_table_place_line(
            err,
            program,
            memblock_table_name(which),
            room,
        ),
    }
}

/// Writes to `err` the line of a boot that stopped because no free memory fits the allocation
/// `what`, as in `bootmem: stopped: no place for roots`.
fn put_no_place_line<E: Sink>(err: &mut E, program: &'static str, what: What)
    ensures { PutsLine E.Sink err.old err.new (no_place_line program.now what) }
{
    match what {
        What::NodeData(node) => put_no_numbered_place_line(err, program, "node-data", node),
        What::Roots => put_line(err, &[program, ": stopped: no place for roots\n"]),
        What::Root(root) => put_no_numbered_place_line(err, program, "root", root),
        What::Usage(section) => put_no_numbered_place_line(err, program, "usage", section),
        What::Map(section) => put_no_numbered_place_line(err, program, "map", section),
    }
}

/// Writes to `err`: `PROGRAM: stopped: no place for NAME NUMBER`. `number` is the number of the
/// node, section root or section that the allocation is for.
fn put_no_numbered_place_line<E: Sink>(
    err: &mut E,
    program: &'static str,
    name: &'static str,
    number: u32,
)
    ensures { PutsLine E.Sink err.old err.new
        (no_numbered_place_line program.now name.now number) }
{
    let mut buffer = Buffer::new();
    let number = buffer.format(number);
    put_line(
        err,
        &[program, ": stopped: no place for ", name, " ", number, "\n"],
    )
}

/// Writes to `err` why the boot stopped: the table `name` of memblock, with room for `room`
/// records, was full, and no free memory fits a larger one.
fn put_no_table_place_line<E: Sink>(
    err: &mut E,
    program: &'static str,
    name: &'static str,
    room: u64,
)
    ensures { PutsLine E.Sink err.old err.new (no_table_place_line program.now name.now room) }
{
    let mut buffer = Buffer::new();
    let room = buffer.format(room);
    put_line(
        err,
        &[
            program,
            ": stopped: no place for table ",
            name,
            " room ",
            room,
            "\n",
        ],
    )
}
