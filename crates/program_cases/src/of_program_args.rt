//! Command lines that `bootmem` and `bootmem61` accept or refuse, for each form of an option. The
//! expected results were worked out word by word from the definition of the command line. The
//! proved examples of `program_args` aren't repeated.

use bm_base::Width;
use boot_inputs::{Input, Names};
use boot_model::Inputs;
use program_args::{ArgsError, BootmemArgs, read_args, read_args61};
use std::alloc::Global;
use std::process::Abort;
use std::test::Fail;

/// Returns what the words ask for as one line: the names of files, the list of reports, the
/// kernel's first byte in MiB, and the number of made entries. For a file without a name the line
/// has `.`.
fn told(alloc: Global, words: &[&str]) -> Result<String, Fail> {
    let mut owned = Vec::new(alloc);
    for word in words {
        owned.push(String::from_str(alloc, word)?)?;
    }
    match read_args(alloc, &owned) {
        Ok(wanted) => told_of(alloc, &wanted),
        Err(ArgsError::Usage) => Ok(String::from_str(alloc, "refused")?),
        Err(ArgsError::Memory) => Ok(String::from_str(alloc, "out of memory")?),
    }
}

fn told_of(alloc: Global, wanted: &BootmemArgs<'_>) -> Result<String, Fail> {
    let files = [
        Input::ZeroPage,
        Input::Extension,
        Input::CommandLine,
        Input::Srat,
        Input::Script,
    ];
    let mut line = String::new(alloc);
    for file in files {
        line.push_str(wanted.of(file).unwrap_or("."))?;
        line.push_str(" ")?;
    }
    line.push_str(wanted.list)?;
    let kernel = wanted.command_line_inputs(alloc)?.kernel.base / 0x10_0000;
    let made = wanted.made.unwrap_or(0);
    Ok(format!(in alloc; "{line} {kernel} {made}")?)
}

/// Returns what the words ask `bootmem61` for as one line: that of `told`, and the name of the file
/// of early claims.
fn told61(alloc: Global, words: &[&str]) -> Result<String, Fail> {
    let mut owned = Vec::new(alloc);
    for word in words {
        owned.push(String::from_str(alloc, word)?)?;
    }
    match read_args61(alloc, &owned) {
        Ok(wanted) => {
            let mut line = told_of(alloc, &wanted)?;
            line.push_str(" ")?;
            line.push_str(wanted.claims().unwrap_or("."))?;
            Ok(line)
        }
        Err(ArgsError::Usage) => Ok(String::from_str(alloc, "refused")?),
        Err(ArgsError::Memory) => Ok(String::from_str(alloc, "out of memory")?),
    }
}

/// Returns what the words ask for about memory as one line: the width, the direction of searches,
/// and each mirrored range as its first frame and number of frames.
fn memory_told(alloc: Global, words: &[&str]) -> Result<String, Fail> {
    let mut owned = Vec::new(alloc);
    for word in words {
        owned.push(String::from_str(alloc, word)?)?;
    }
    match read_args(alloc, &owned) {
        Ok(wanted) => memory_of(alloc, &wanted),
        Err(ArgsError::Usage) => Ok(String::from_str(alloc, "refused")?),
        Err(ArgsError::Memory) => Ok(String::from_str(alloc, "out of memory")?),
    }
}

fn memory_of(alloc: Global, wanted: &BootmemArgs<'_>) -> Result<String, Fail> {
    let Inputs {
        width,
        upward,
        mirrors,
        ..
    } = wanted.command_line_inputs(alloc)?;
    let width = match width {
        Width::Bits46 => "46",
        Width::Bits52 => "52",
    };
    let direction = if upward { "up" } else { "down" };
    let mut line = format!(in alloc; "{width} {direction}")?;
    for range in &mirrors {
        let first = range.base / 4096;
        let count = range.size / 4096;
        line.push_str(format!(in alloc; " {first}+{count}")?.as_str())?;
    }
    Ok(line)
}

/// Returns a list of `count` mirrored frames, each a piece of its own.
fn mirrored_pieces(alloc: Global, count: u32) -> Result<String, Fail> {
    let mut list = String::from_str(alloc, "--mirror=0,4K")?;
    for _ in 1..count {
        list.push_str(":0,4K")?;
    }
    Ok(list)
}

/// Reads the words of each row and compares the line.
fn compare(rt: &impl Abort, alloc: Global, rows: &[(&[&str], &str)]) -> Result<(), Fail> {
    for (words, expected) in rows {
        let line = told(alloc, words)?;
        assert!(rt; line.as_str() == *expected, "{words:?}");
    }
    Ok(())
}

#[test]
fn options_and_what_follows_them(rt: HostRuntime) -> Result<(), Fail> {
    let rows: [(&[&str], &str); 12] = [
        // all files, before and after the name
        (
            &[
                "--report=map",
                "--script=s",
                "zp",
                "--cmdline",
                "c",
                "--srat",
                "t",
                "--e820ext=e",
            ],
            "zp e c t s map 16 0",
        ),
        // an option where a value should be
        (&["--report", "--cmdline", "c", "zp"], "refused"),
        (&["--cmdline", "--report=map", "zp"], "refused"),
        // a value that begins with a hyphen, or contains `=`
        (
            &["--report=map", "--cmdline=-c", "zp"],
            "zp . -c . . map 16 0",
        ),
        (&["--report=map", "--cmdline", "-c", "zp"], "refused"),
        (
            &["--report=map", "--cmdline", "-", "zp"],
            "zp . - . . map 16 0",
        ),
        (
            &["--report=map", "--cmdline=a=b", "zp"],
            "zp . a=b . . map 16 0",
        ),
        // in capitals, with one letter, with three hyphens, or without a name
        (&["--Report", "map", "zp"], "refused"),
        (&["-r", "map", "zp"], "refused"),
        (&["---report", "map", "zp"], "refused"),
        (&["--=map", "zp"], "refused"),
        // an option that this command doesn't have
        (&["--reports=map", "zp"], "refused"),
    ];
    compare(&rt, rt.alloc(), &rows)
}

#[test]
fn forms_of_an_option(rt: HostRuntime) -> Result<(), Fail> {
    let rows: [(&[&str], &str); 10] = [
        (&["--cmdline", "f", "zp"], "zp . f . . buddyinfo 16 0"),
        (&["zp", "--cmdline", "f"], "zp . f . . buddyinfo 16 0"),
        (&["zp", "--cmdline=f"], "zp . f . . buddyinfo 16 0"),
        // an option twice, and an option without a value
        (&["--cmdline=f", "--cmdline=f", "zp"], "refused"),
        (&["zp", "--cmdline"], "refused"),
        // an empty value can name a file, but is no range and no report
        (&["--cmdline=", "zp"], "zp .  . . buddyinfo 16 0"),
        (&["--kernel=", "zp"], "refused"),
        (&["zp", "--report", ""], "refused"),
        // an abbreviated option, and an option with one hyphen
        (&["--cmd", "f", "zp"], "refused"),
        (&["-srat", "f", "zp"], "refused"),
    ];
    compare(&rt, rt.alloc(), &rows)
}

#[test]
fn names_and_the_end_of_options(rt: HostRuntime) -> Result<(), Fail> {
    let rows: [(&[&str], &str); 14] = [
        (&["--report=map"], "refused"),
        (&["--report=map", ""], " . . . . map 16 0"),
        (&["--report=map", "-"], "- . . . . map 16 0"),
        (&["--report=map", "help"], "help . . . . map 16 0"),
        (&["--report=map", "-zp"], "refused"),
        // after `--` each word is a name
        (&["--report=map", "zp", "--"], "zp . . . . map 16 0"),
        (&["--report=map", "--", "--"], "-- . . . . map 16 0"),
        (
            &["--report=map", "--", "--cmdline"],
            "--cmdline . . . . map 16 0",
        ),
        (&["--", "--report", "map", "zp"], "refused"),
        (&["--report=map", "--cmdline", "--", "zp"], "refused"),
        // the flags that `clap` has by itself are off
        (&["-h", "zp"], "refused"),
        (&["--version"], "refused"),
        (&["-V", "zp"], "refused"),
        (&["--report=map", "--help", "zp"], "refused"),
    ];
    compare(&rt, rt.alloc(), &rows)
}

#[test]
fn values(rt: HostRuntime) -> Result<(), Fail> {
    let rows: [(&[&str], &str); 13] = [
        // lists of reports
        (&["--report=map,", "zp"], "refused"),
        (&["--report=,map", "zp"], "refused"),
        (&["--report", "map, options", "zp"], "refused"),
        // ranges of the kernel's image
        (
            &["--report=map", "--kernel=0x2000000,0x2000000", "zp"],
            "zp . . . . map 32 0",
        ),
        (&["--report=map", "--kernel=1020K,8K", "zp"], "refused"),
        // numbers of made entries
        (
            &[
                "--report=map",
                "--cmdline",
                "c",
                "--make",
                "5",
                "--script=s",
            ],
            ". . c . s map 16 5",
        ),
        (&["--report=map", "--make=-5"], "refused"),
        (&["--report=map", "--make="], "refused"),
        (&["--report=map", "--make"], "refused"),
        (&["--report=map", "--make=5", "--make=5"], "refused"),
        (&["--report=map", "--mak", "5"], "refused"),
        (&["--report=map", "-m", "5"], "refused"),
        (&["--report=map", "--", "--make", "5"], "refused"),
    ];
    compare(&rt, rt.alloc(), &rows)
}

#[test]
fn flags_and_mirrored_memory(rt: HostRuntime) -> Result<(), Fail> {
    let rows: [(&[&str], &str); 14] = [
        (&["zp"], "46 down"),
        (&["--la57", "zp"], "52 down"),
        (&["zp", "--bottom-up"], "46 up"),
        (&["--mirror", "64M,16M", "zp"], "46 down 16384+4096"),
        // a range that begins within a frame, and one without a whole frame
        (&["--mirror=0x1001,0x1fff:0,4095", "zp"], "46 down 2+1"),
        (
            &["--bottom-up", "--mirror=4K,8K:1M,4K", "--la57", "zp"],
            "52 up 1+2 256+1",
        ),
        // an empty list or piece, another separator, a range that ends past 2^64 - 1
        (&["--mirror=", "zp"], "refused"),
        (&["--mirror=1M,1M:", "zp"], "refused"),
        (&["--mirror=1M,1M;2M,1M", "zp"], "refused"),
        (&["--mirror=0xfffffffffffff000,4K", "zp"], "refused"),
        // a flag twice, with a value, and abbreviated
        (&["--la57", "zp", "--la57"], "refused"),
        (&["--la57=true", "zp"], "refused"),
        (&["--bottom-up", "true", "zp"], "refused"),
        (&["--bottom", "zp"], "refused"),
    ];
    let alloc = rt.alloc();
    for (words, expected) in rows {
        let line = memory_told(alloc, words)?;
        assert!(rt; line.as_str() == expected, "{words:?}");
    }
    Ok(())
}

#[test]
fn the_most_mirrored_ranges(rt: HostRuntime) -> Result<(), Fail> {
    let alloc = rt.alloc();
    let most = mirrored_pieces(alloc, 64)?;
    let told = memory_told(alloc, &[most.as_str(), "zp"])?;
    assert!(rt; told.as_str().len() == 7 + 64 * 4, "64 pieces");
    let more = mirrored_pieces(alloc, 65)?;
    let told = memory_told(alloc, &[more.as_str(), "zp"])?;
    assert!(rt; told.as_str() == "refused", "65 pieces");
    Ok(())
}

/// Reads the words of each row as those of `bootmem61` and compares the line. `bootmem` refuses the
/// words of each row.
fn compare61(rt: &impl Abort, alloc: Global, rows: &[(&[&str], &str)]) -> Result<(), Fail> {
    for (words, expected) in rows {
        let line = told61(alloc, words)?;
        assert!(rt; line.as_str() == *expected, "bootmem61 {words:?}");
        let line = told(alloc, words)?;
        assert!(rt; line.as_str() == "refused", "bootmem {words:?}");
    }
    Ok(())
}

#[test]
fn early_claims(rt: HostRuntime) -> Result<(), Fail> {
    let rows: [(&[&str], &str); 13] = [
        (&["--claims", "c", "zp"], "zp . . . . buddyinfo 16 0 c"),
        (&["zp", "--claims=c"], "zp . . . . buddyinfo 16 0 c"),
        // beside the script, in either order, and with a made table
        (
            &["--claims=c", "--script", "s", "zp"],
            "zp . . . s buddyinfo 16 0 c",
        ),
        (
            &["zp", "--script=s", "--claims", "c"],
            "zp . . . s buddyinfo 16 0 c",
        ),
        (&["--make=5", "--claims=c"], ". . . . . buddyinfo 16 5 c"),
        // a value that begins with a hyphen, and an empty one
        (&["--claims=-c", "zp"], "zp . . . . buddyinfo 16 0 -c"),
        (&["--claims", "-c", "zp"], "refused"),
        (&["--claims=", "zp"], "zp . . . . buddyinfo 16 0 "),
        // twice, and without a value
        (&["--claims=c", "--claims=c", "zp"], "refused"),
        (&["--claims", "c", "zp", "--claims", "d"], "refused"),
        (&["zp", "--claims"], "refused"),
        (&["--claims", "--script=s", "zp"], "refused"),
        // without a source of entries
        (&["--claims=c"], "refused"),
    ];
    compare61(&rt, rt.alloc(), &rows)
}

#[test]
fn the_report_of_early_claims(rt: HostRuntime) -> Result<(), Fail> {
    let rows: [(&[&str], &str); 8] = [
        (&["--report", "claims", "zp"], "zp . . . . claims 16 0 ."),
        (
            &["--report=claims", "--claims=c", "zp"],
            "zp . . . . claims 16 0 c",
        ),
        (
            &["--report=map,claims,script", "zp"],
            "zp . . . . map,claims,script 16 0 .",
        ),
        // abbreviated, longer, in capitals, and beside an empty or unknown name
        (&["--report=claim", "zp"], "refused"),
        (&["--report=claimsx", "zp"], "refused"),
        (&["--report=Claims", "zp"], "refused"),
        (&["--report=claims,", "zp"], "refused"),
        (&["--report=claims,nothing", "zp"], "refused"),
    ];
    compare61(&rt, rt.alloc(), &rows)
}

#[test]
fn words_that_both_programs_take(rt: HostRuntime) -> Result<(), Fail> {
    let alloc = rt.alloc();
    let rows: [(&[&str], &str); 3] = [
        (&["zp"], "zp . . . . buddyinfo 16 0"),
        (
            &[
                "--la57",
                "--mirror=1M,1M",
                "--bottom-up",
                "--cmdline=c",
                "--e820ext=e",
                "--srat=t",
                "--script=s",
                "--pages=p",
                "--slit=d",
                "--efi=m",
                "--kernel=32M,32M",
                "--report=map",
                "zp",
            ],
            "zp e c t s map 32 0",
        ),
        (&["--make", "7", "--report=map"], ". . . . . map 16 7"),
    ];
    for (words, expected) in rows {
        let line = told(alloc, words)?;
        assert!(rt; line.as_str() == expected, "bootmem {words:?}");
        let line = told61(alloc, words)?;
        let with_claims = format!(in alloc; "{expected} .")?;
        assert!(rt;
            line.as_str() == with_claims.as_str(),
            "bootmem61 {words:?}"
        );
    }
    Ok(())
}
