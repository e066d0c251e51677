//! Tests of the order in which input files are fetched. The contract of `read_inputs` doesn't say
//! how often it fetches. Each test therefore lets chosen fetches fail, by number, and compares the
//! error.

ghost use Rattle.std.specs.Prelude.{IfOk};
ghost use Rattle.bm_io.specs.MemFiles.{file_views, HaveOwnNames};

use crate::common::{KERNEL, SMALLEST_SRAT, file};
use bm_base::Width;
use bm_io::{Fetch, Files, MemFile, MemFiles};
use boot_inputs::{
    Fault, Input, InputsReason, Names, NoInputs, read_claims, read_inputs, read_inputs_with_claims,
};
use boot_model::Inputs;
use boot_options::OptionFault;
use e820_table::{ExtFault, ZeroFault};
use efi_map::EfiFault;
use page_alloc::PageFault;
use script_reader::{Act, Line, ScriptFault};
use slit_zonelists::SlitFault;
use srat_reader::SratFault;
use std::alloc::Global;
use std::process::Abort;
use std::test::Fail;

/// The name of each file.
#[derive(Clone, Copy)]
struct Nine<'a> {
    zp: &'a str,
    ext: &'a str,
    cmd: &'a str,
    srat: &'a str,
    script: &'a str,
    claims: &'a str,
    pages: &'a str,
    slit: &'a str,
    efi: &'a str,
}

impl<'a> Names for Nine<'a> {
    ghost use Rattle.std.specs.Prelude.{Some};
    ghost use Rattle.boot_inputs.specs.declared.input.Input.TheVariants as inputs;

    ghost named = { λ nine input. elim input [
      | inputs.ZeroPage ↦ Some nine.zp.now
      | inputs.Extension ↦ Some nine.ext.now
      | inputs.CommandLine ↦ Some nine.cmd.now
      | inputs.Srat ↦ Some nine.srat.now
      | inputs.Script ↦ Some nine.script.now
      | inputs.Claims ↦ Some nine.claims.now
      | inputs.Pages ↦ Some nine.pages.now
      | inputs.Slit ↦ Some nine.slit.now
      | inputs.Efi ↦ Some nine.efi.now
    ] };

    fn of(&self, input: Input) -> Option<&str> {
        match input {
            Input::ZeroPage => Some(self.zp),
            Input::Extension => Some(self.ext),
            Input::CommandLine => Some(self.cmd),
            Input::Srat => Some(self.srat),
            Input::Script => Some(self.script),
            Input::Claims => Some(self.claims),
            Input::Pages => Some(self.pages),
            Input::Slit => Some(self.slit),
            Input::Efi => Some(self.efi),
        }
    }
}

/// The bytes of the files `zp`, `ext`, `cmd`, `srat`, `script`, `claims`, `pages`, `slit` and
/// `efi`.
#[derive(Clone, Copy)]
struct Held<'a> {
    zp: &'a [u8],
    ext: &'a [u8],
    cmd: &'a [u8],
    srat: &'a [u8],
    script: &'a [u8],
    claims: &'a [u8],
    pages: &'a [u8],
    slit: &'a [u8],
    efi: &'a [u8],
}

fn files_of(alloc: Global, held: &Held<'_>) -> Result<Vec<MemFile>, Fail>
    ensures { IfOk result (λ files. HaveOwnNames (file_views files.items)) }
{
    let zp = file(alloc, "zp", held.zp)?;
    let ext = file(alloc, "ext", held.ext)?;
    let cmd = file(alloc, "cmd", held.cmd)?;
    let srat = file(alloc, "srat", held.srat)?;
    let script = file(alloc, "script", held.script)?;
    let claims = file(alloc, "claims", held.claims)?;
    let pages = file(alloc, "pages", held.pages)?;
    let slit = file(alloc, "slit", held.slit)?;
    let efi = file(alloc, "efi", held.efi)?;
    Ok(vec![in alloc; zp, ext, cmd, srat, script, claims, pages, slit, efi]?)
}

/// Reads the files and compares the error. `failing` has the numbers of the fetches that fail.
/// Afterwards the next fetch must fail too: its number is the last one in `failing`. Reading the
/// files therefore made one fetch fewer than that number.
fn expect(
    rt: &impl Abort,
    alloc: Global,
    held: &Held<'_>,
    failing: &[u64],
    want: Option<InputsReason>,
) -> Result<(), Fail> {
    let mut files = MemFiles::new(files_of(alloc, held)?, Vec::from_slice(alloc, failing)?);
    let begun = Inputs::without_files(alloc, Width::Bits46, KERNEL);
    let answer = read_inputs(alloc, &mut files, &ALL, begun);
    assert!(rt;
        answer.err() == want.map(NoInputs::Reason),
        "fetch {failing:?}"
    );
    let further = files.fetch(alloc, "zp", 4096);
    assert!(rt;
        further.err() == Some(Fetch::Failed),
        "after fetch {failing:?}"
    );
    Ok(())
}

/// Reads the files by `read_inputs_with_claims`, which also fetches the early claims, and compares
/// the error, or the lines of the script and of the claims. `failing` has the numbers of the
/// fetches that fail. Afterwards the next fetch must fail too: its number is the last one in
/// `failing`.
fn expect_with_claims(
    rt: &impl Abort,
    alloc: Global,
    held: &Held<'_>,
    failing: &[u64],
    want: Result<(&[Line], &[Line]), InputsReason>,
) -> Result<(), Fail> {
    let mut files = MemFiles::new(files_of(alloc, held)?, Vec::from_slice(alloc, failing)?);
    let begun = Inputs::without_files(alloc, Width::Bits46, KERNEL);
    match read_inputs_with_claims(alloc, &mut files, &ALL, begun) {
        Ok(given) => assert!(rt;
            want == Ok((given.0.lines.as_slice(), given.1.as_slice())),
            "lines, fetch {failing:?}"
        ),
        Err(error) => assert!(rt;
            Some(error) == want.err().map(NoInputs::Reason),
            "with claims, fetch {failing:?}"
        ),
    }
    let further = files.fetch(alloc, "zp", 4096);
    assert!(rt;
        further.err() == Some(Fetch::Failed),
        "with claims, after fetch {failing:?}"
    );
    Ok(())
}

/// A SLIT of one locality.
const SMALLEST_SLIT: [u8; 45] = [
    b'S', b'L', b'I', b'T', 45, 0, 0, 0, 1, 0x8B, // signature, length, revision, checksum
    0, 0, 0, 0, 0, 0, 0, 0, 0, 0, 0, 0, 0, 0, 0, 0, 0, 0, 0, 0, 0, 0, 0, 0, 0, 0, // names
    1, 0, 0, 0, 0, 0, 0, 0, 10, // localities, and the distance
];

/// Files without a fault, except the zero page.
const HELD: Held<'static> = Held {
    zp: b"",
    ext: &[0, 0, 0, 0, 0, 0, 0, 0, 1, 0, 0, 0, 0, 0, 0, 0],
    cmd: b"quiet",
    srat: &SMALLEST_SRAT,
    script: b"free 1",
    claims: b"# early\nfree 3",
    pages: b"give 1",
    slit: &SMALLEST_SLIT,
    efi: &[40, 0, 0, 0, 1, 0, 0, 0],
};

const ALL: Nine<'static> = Nine {
    zp: "zp",
    ext: "ext",
    cmd: "cmd",
    srat: "srat",
    script: "script",
    claims: "claims",
    pages: "pages",
    slit: "slit",
    efi: "efi",
};

/// Each file is fetched once, in this order. If a fetch fails, its file is reported as unread, and
/// no later file is fetched. There is no ninth fetch.
#[test]
fn files_in_their_order(rt: HostRuntime) -> Result<(), Fail> {
    let mut zp = [0; 4096];
    zp[0x1e8] = 2;
    let held = Held { zp: &zp, ..HELD };
    let rows: [(&[u64], Option<InputsReason>); 9] = [
        (&[1, 2], Some(InputsReason::Unread(Input::ZeroPage))),
        (&[2, 3], Some(InputsReason::Unread(Input::Extension))),
        (&[3, 4], Some(InputsReason::Unread(Input::CommandLine))),
        (&[4, 5], Some(InputsReason::Unread(Input::Srat))),
        (&[5, 6], Some(InputsReason::Unread(Input::Script))),
        (&[6, 7], Some(InputsReason::Unread(Input::Pages))),
        (&[7, 8], Some(InputsReason::Unread(Input::Slit))),
        (&[8, 9], Some(InputsReason::Unread(Input::Efi))),
        (&[9], None),
    ];
    for (failing, want) in &rows {
        expect(&rt, rt.alloc(), &held, *failing, *want)?;
    }
    Ok(())
}

/// The early claims are the sixth file: after the script, and before the page script. Their lines
/// are apart from those of the script.
#[test]
fn claims_after_the_script(rt: HostRuntime) -> Result<(), Fail> {
    let mut zp = [0; 4096];
    zp[0x1e8] = 2;
    let held = Held { zp: &zp, ..HELD };
    let script = [Line {
        number: 1,
        act: Act::Free { id: 1 },
    }];
    let claims = [Line {
        number: 2,
        act: Act::Free { id: 3 },
    }];
    let rows: [(&[u64], Result<(&[Line], &[Line]), InputsReason>); 6] = [
        (&[5, 6], Err(InputsReason::Unread(Input::Script))),
        (&[6, 7], Err(InputsReason::Unread(Input::Claims))),
        (&[7, 8], Err(InputsReason::Unread(Input::Pages))),
        (&[8, 9], Err(InputsReason::Unread(Input::Slit))),
        (&[9, 10], Err(InputsReason::Unread(Input::Efi))),
        (&[10], Ok((&script, &claims))),
    ];
    for (failing, want) in &rows {
        expect_with_claims(&rt, rt.alloc(), &held, *failing, *want)?;
    }
    Ok(())
}

/// A file of early claims with a fault: the page script is not fetched after it.
#[test]
fn refused_claims_are_the_last(rt: HostRuntime) -> Result<(), Fail> {
    let mut zp = [0; 4096];
    zp[0x1e8] = 2;
    let good = Held { zp: &zp, ..HELD };
    let script = Held {
        script: b"free",
        claims: b"free",
        ..good
    };
    let claims = Held {
        claims: b"free 3\nsections",
        pages: b"give",
        ..good
    };
    let rows = [
        (script, Input::Script, ScriptFault::BadLine { line: 1 }, 6),
        (claims, Input::Claims, ScriptFault::BadLine { line: 2 }, 7),
    ];
    for (held, input, fault, after) in &rows {
        let want = Err(InputsReason::Faulty(*input, Fault::Script(*fault)));
        expect_with_claims(&rt, rt.alloc(), held, &[*after], want)?;
    }
    Ok(())
}

const PEEK: Line = Line {
    number: 1,
    act: Act::Peek { at: 0x1000, len: 4 },
};

const FREE: Line = Line {
    number: 2,
    act: Act::Free { id: 7 },
};

/// The lines of early claims are those of a script, except `sections`.
#[test]
fn lines_of_claims(rt: HostRuntime) -> Result<(), Fail> {
    let rows: [(&[u8], Result<&[Line], ScriptFault>); 11] = [
        (b"", Ok(&[])),
        (b"# sections\nfree 7\n", Ok(&[FREE])),
        (b"peek 0x1000 4\r\n\tfree 7", Ok(&[PEEK, FREE])),
        (b"sections", Err(ScriptFault::BadLine { line: 1 })),
        (
            b"free 1\n\tsections \r\n",
            Err(ScriptFault::BadLine { line: 2 }),
        ),
        (b"sections 1", Err(ScriptFault::BadLine { line: 1 })),
        (b"sections\nsections", Err(ScriptFault::BadLine { line: 1 })),
        (b"free x\nsections", Err(ScriptFault::BadNumber { line: 1 })),
        (b"sections\nfree x", Err(ScriptFault::BadLine { line: 1 })),
        (b"alloc 1 4K 3", Err(ScriptFault::BadAlign { line: 1 })),
        (b"trim 1 0", Err(ScriptFault::ZeroSize { line: 1 })),
    ];
    for (bytes, want) in &rows {
        match read_claims(rt.alloc(), *bytes) {
            Ok(lines) => assert!(rt; *want == Ok(lines.as_slice()), "{bytes:?}"),
            Err(fault) => assert!(rt; *want == Err(fault), "{bytes:?}"),
        }
    }
    Ok(())
}

/// After a file with a fault no file is fetched. The number in each row is that of the next fetch.
#[test]
fn refused_file_is_the_last(rt: HostRuntime) -> Result<(), Fail> {
    let mut zp = [0; 4096];
    zp[0x1e8] = 2;
    let good = Held { zp: &zp, ..HELD };
    let rows = [
        (
            HELD,
            Input::ZeroPage,
            Fault::ZeroPage(ZeroFault::WrongLength),
            2,
        ),
        (
            Held { ext: b"", ..good },
            Input::Extension,
            Fault::Extension(ExtFault::ExtHeader),
            3,
        ),
        (
            Held {
                cmd: b"numa=on",
                ..good
            },
            Input::CommandLine,
            Fault::CommandLine(OptionFault::BadNuma { word: 1 }),
            4,
        ),
        (
            Held { srat: b"", ..good },
            Input::Srat,
            Fault::Srat(SratFault::Short),
            5,
        ),
        (
            Held {
                script: b"free",
                ..good
            },
            Input::Script,
            Fault::Script(ScriptFault::BadLine { line: 1 }),
            6,
        ),
        (
            Held {
                pages: b"give",
                ..good
            },
            Input::Pages,
            Fault::Pages(PageFault::BadLine { line: 1 }),
            7,
        ),
        (
            Held { slit: b"", ..good },
            Input::Slit,
            Fault::Slit(SlitFault::Short),
            8,
        ),
        (
            Held { efi: b"", ..good },
            Input::Efi,
            Fault::Efi(EfiFault::Header),
            9,
        ),
    ];
    for (held, input, fault, after) in &rows {
        let want = InputsReason::Faulty(*input, *fault);
        expect(&rt, rt.alloc(), held, &[*after], Some(want))?;
    }
    Ok(())
}

/// A zero page whose initrd ends one byte past 2^64 - 4096, so its last frame would end at 2^64.
#[test]
fn initrd_too_far(rt: HostRuntime) -> Result<(), Fail> {
    let mut zp = [0; 4096];
    zp[0x1e8] = 2;
    zp[0x210] = 1;
    for offset in [0xc0, 0xc1, 0xc2, 0xc3, 0x21a, 0x21b] {
        zp[offset] = 0xff;
    }
    zp[0x219] = 0xe0;
    zp[0x21c] = 1;
    zp[0x21d] = 0x10;
    let held = Held { zp: &zp, ..HELD };
    let want = InputsReason::Faulty(Input::ZeroPage, Fault::ZeroPage(ZeroFault::InitrdTooFar));
    expect(&rt, rt.alloc(), &held, &[2], Some(want))
}
