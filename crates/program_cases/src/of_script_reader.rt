//! Each form of a line once, and faults of lines that the proved examples of `script_reader` don't
//! have.

use bm_base::Range;
use script_reader::{Act, Line, Request, ScriptFault, read_script};
use std::test::Fail;

#[test]
fn each_form(rt: HostRuntime) -> Result<(), Fail> {
    let text = "# a comment\nalloc 1 64K 4096\nalloc 0x2 1 1 min 1M max 2M node 3 exact\n\
            \n \treserve 3 0x1000 8K\r\nfree 1\ntrim 3 1\nfill 2 0xff\nsections\npeek 0 64";
    let any = Request {
        size: 65_536,
        align: 4_096,
        min: 0,
        max: None,
        node: None,
        exact: false,
    };
    let on_node = Request {
        size: 1,
        align: 1,
        min: 1 << 20,
        max: Some(2 << 20),
        node: Some(3),
        exact: true,
    };
    let range = Range {
        base: 4_096,
        size: 8_192,
    };
    let want = [
        (
            2,
            Act::Alloc {
                id: 1,
                request: any,
            },
        ),
        (
            3,
            Act::Alloc {
                id: 2,
                request: on_node,
            },
        ),
        (5, Act::Reserve { id: 3, range }),
        (6, Act::Free { id: 1 }),
        (7, Act::Trim { id: 3, keep: 1 }),
        (8, Act::Fill { id: 2, byte: 255 }),
        (9, Act::Sections),
        (10, Act::Peek { at: 0, len: 64 }),
    ];
    let lines = read_script(rt.alloc(), text.as_bytes()).expect(&rt, "the lines");
    assert!(rt; lines.len() == want.len());
    for (line, (number, act)) in lines.iter().zip(want) {
        assert!(rt; *line == Line { number, act }, "line {number}");
    }
    Ok(())
}

#[test]
fn faults_of_one_line(rt: HostRuntime) {
    let cases = [
        ("alloc 4294967296 1 1", ScriptFault::BadNumber { line: 1 }),
        ("peek 0 0", ScriptFault::ZeroSize { line: 1 }),
    ];
    for (text, want) in &cases {
        let answer = read_script(rt.alloc(), text.as_bytes());
        assert!(rt; answer.err() == Some(*want), "{text}");
    }
}
