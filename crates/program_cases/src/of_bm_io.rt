//! Files and outputs, in memory and of the operating system, and a text that is written in chunks.
//! A test says by number which calls fail. A failure at that number also shows that all calls
//! before it were counted.

use crate::common::file;
use bm_io::{Fetch, Files, MemFiles, MemSink, Put, RealFiles, Sink, StdSink, put_all};
use std::alloc::Global;
use std::process::Abort;
use std::test::Fail;
use std::{fs, process};

/// Tests whether fetching the file has this result.
fn answers(
    files: &mut impl Files,
    alloc: Global,
    name: &str,
    limit: u64,
    want: Result<&[u8], Fetch>,
) -> bool {
    match files.fetch(alloc, name, limit) {
        Ok(bytes) => want == Ok(bytes.as_slice()),
        Err(fault) => want == Err(fault),
    }
}

/// Fetches the file of each row and compares the result. A row has a name, a limit, and the
/// expected result.
fn compare_files(
    rt: &impl Abort,
    alloc: Global,
    files: &mut impl Files,
    rows: &[(&str, u64, Result<&[u8], Fetch>)],
) {
    for (name, limit, want) in rows {
        let is_so = answers(files, alloc, name, *limit, *want);
        assert!(rt; is_so, "{name} up to {limit}");
    }
}

/// Returns one file of three bytes. The second and the sixth fetch fail.
fn files_of_three_bytes(alloc: Global) -> Result<MemFiles, Fail> {
    let file = file(alloc, "zp", &[1, 2, 3])?;
    Ok(MemFiles::new(vec![in alloc; file]?, vec![in alloc; 2, 6]?))
}

#[test]
fn files_in_memory(rt: HostRuntime) -> Result<(), Fail> {
    let alloc = rt.alloc();
    let mut files = files_of_three_bytes(alloc)?;
    let whole = b"\x01\x02\x03".as_slice();
    let rows = [
        ("zp", 3, Ok(whole)),
        ("zp", 3, Err(Fetch::Failed)),
        ("zp", 2, Err(Fetch::TooLong)),
        ("other", 3, Err(Fetch::Failed)),
        ("zp", 3, Ok(whole)),
        ("zp", 3, Err(Fetch::Failed)),
        ("zp", 3, Ok(whole)),
    ];
    compare_files(&rt, alloc, &mut files, &rows);
    Ok(())
}

#[test]
fn files_of_the_system(rt: HostRuntime) -> Result<(), Fail> {
    let alloc = rt.alloc();
    let there = format!(in alloc; "/tmp/bm_io-files-{}", process::id(rt.process()))?;
    let whole = [7u8; 10_000];
    fs::write(&rt, there.as_str(), &whole)?;
    let mut files = RealFiles::new(&rt);
    let rows = [
        (there.as_str(), 10_000, Ok(whole.as_slice())),
        (there.as_str(), 9_999, Err(Fetch::TooLong)),
        ("/tmp/bm_io-no-such-file", 10_000, Err(Fetch::Failed)),
        ("/tmp", 10_000, Err(Fetch::Failed)),
    ];
    compare_files(&rt, alloc, &mut files, &rows);
    fs::remove_file(&rt, there.as_str())?;
    Ok(())
}

/// Writes each chunk and compares the result.
fn compare_puts(rt: &impl Abort, sink: &mut impl Sink, rows: &[(&[u8], Result<(), Put>)]) {
    for (chunk, want) in rows {
        assert!(rt; sink.put(chunk) == *want);
    }
}

#[test]
fn output_in_memory(rt: HostRuntime) -> Result<(), Fail> {
    let mut sink = MemSink::new(vec![in rt.alloc(); 2, 4]?);
    let rows = [
        (b"abc".as_slice(), Ok(())),
        (b"12345".as_slice(), Err(Put::Failed)),
        (b".".as_slice(), Ok(())),
        (b"6".as_slice(), Err(Put::Failed)),
    ];
    compare_puts(&rt, &mut sink, &rows);
    assert!(rt; sink.written_bytes() == b"abc12.".as_slice());
    Ok(())
}

#[test]
fn a_file_that_is_written(rt: HostRuntime) -> Result<(), Fail> {
    let path = format!(in rt.alloc(); "/tmp/bm_io-sink-{}", process::id(rt.process()))?;
    let mut sink = StdSink::new(fs::create(&rt, path.as_str())?);
    let rows = [
        (b"one ".as_slice(), Ok(())),
        (b"".as_slice(), Ok(())),
        (b"two".as_slice(), Ok(())),
    ];
    compare_puts(&rt, &mut sink, &rows);
    let written = fs::read(&rt, path.as_str())?;
    assert!(rt; written.as_slice() == b"one two".as_slice());
    fs::remove_file(&rt, path.as_str())?;
    Ok(())
}

#[test]
fn streams_of_the_system(rt: HostRuntime) -> Result<(), Fail> {
    let mut full = StdSink::new(fs::create(&rt, "/dev/full")?);
    assert!(rt; full.put(b"x") == Err(Put::Failed), "a device with no room");
    let mut output = StdSink::new(rt.stdout());
    assert!(rt; output.put(b"to the standard output") == Ok(()));
    Ok(())
}

/// Writes five chunks, and compares the result and the bytes that were written.
fn compare_chunks(rt: &impl Abort, sink: &mut MemSink, want: Result<(), Put>, written: &str) {
    let answer = put_all(sink, &["", "entry ", "12", "", " too far\n"]);
    assert!(rt; answer == want, "for {written}");
    assert!(rt; sink.written_bytes() == written.as_bytes());
}

/// Returns an output in memory. The write with this number fails.
fn failing_at(alloc: Global, number: u64) -> Result<MemSink, Fail> {
    Ok(MemSink::new(vec![in alloc; number]?))
}

#[test]
fn text_in_chunks(rt: HostRuntime) -> Result<(), Fail> {
    let cases = [
        (0, Ok(()), "entry 12 too far\n"),
        (1, Err(Put::Failed), "ent"),
        (2, Err(Put::Failed), "entry 1"),
        (3, Err(Put::Failed), "entry 12 too"),
    ];
    for (failing, want, written) in &cases {
        let mut sink = failing_at(rt.alloc(), *failing)?;
        compare_chunks(&rt, &mut sink, *want, written);
    }
    Ok(())
}
