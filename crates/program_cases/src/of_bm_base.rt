//! Tests of `bm_base`: write and read numbers, round to multiples, find the zone of a frame, and
//! call the methods of ranges at the end of the address space. The expected values come from
//! outside the program.

use bm_base::{
    NumFault, Range, Zone, put_dec, put_hex, put_text, read_number, read_size, round_down,
    round_up, zone_of,
};
use std::test::Fail;

#[test]
fn numbers_as_the_log_prints_them(rt: HostRuntime) -> Result<(), Fail> {
    let mut out = Vec::new(rt.alloc());
    put_hex(&mut out, u64::MAX)?;
    put_text(&mut out, b"\n")?;
    for (value, width) in [(0, 0), (u64::MAX, 20)] {
        put_dec(&mut out, value, width)?;
        put_text(&mut out, b"\n")?;
    }
    let want = b"0xffffffffffffffff\n0\n18446744073709551615\n";
    assert!(rt; out.as_slice() == want.as_slice());
    Ok(())
}

#[test]
fn ranges_end_below_two_to_64(rt: HostRuntime) {
    assert!(rt; Range::new(1, u64::MAX).is_none());
    assert!(rt; Range::between(5, 5).is_none());
    assert!(rt; Range::between(1, u64::MAX) == Range::new(1, u64::MAX - 1));
}

/// All addresses except the first and the last.
const WIDE: Range = Range {
    base: 1,
    size: u64::MAX - 1,
};

#[test]
fn ends_of_the_widest_range(rt: HostRuntime) {
    assert!(rt; WIDE.end() == u64::MAX);
    let addresses = [
        (0, false),
        (1, true),
        (u64::MAX - 1, true),
        (u64::MAX, false),
    ];
    for (address, want) in &addresses {
        assert!(rt; WIDE.contains(*address) == *want, "{address:#x}");
    }
}

#[test]
fn an_empty_range_overlaps_none(rt: HostRuntime) {
    let empty = Range { base: 4, size: 0 };
    assert!(rt; !WIDE.overlaps(&empty));
}

#[test]
fn multiples_and_a_zone(rt: HostRuntime) {
    let cases = [
        (0, Some(0)),
        (1, Some(4096)),
        (u64::MAX - 4095, Some(u64::MAX - 4095)),
        (u64::MAX - 4094, None),
    ];
    for (value, want) in &cases {
        assert!(rt; round_up(*value, 4096) == *want, "{value:#x}");
    }
    assert!(rt; round_down(8191, 4096) == 4096);
    assert!(rt; zone_of(u64::MAX) == Zone::Normal);
}

#[test]
fn sizes_and_their_bytes(rt: HostRuntime) {
    let cases = [
        ("0x1E", Ok((30, 4))),
        ("1E", Ok((1 << 60, 2))),
        ("08", Ok((0, 1))),
        ("0xg", Ok((0, 1))),
        ("-1", Err(NumFault::NoDigits)),
        ("0", Ok((0, 1))),
        ("0K", Ok((0, 2))),
        ("0XaBk@", Ok((0xab << 10, 5))),
        ("3g,", Ok((3 << 30, 2))),
        ("4T", Ok((4 << 40, 2))),
        ("5p", Ok((5 << 50, 2))),
        ("0xFFFFFFFFFFFFFFFF", Ok((u64::MAX, 18))),
        ("0x10000000000000000", Err(NumFault::TooLarge)),
        ("18446744073709551615", Ok((u64::MAX, 20))),
        ("18446744073709551616", Err(NumFault::TooLarge)),
        (
            "99999999999999999999999999999999999999999",
            Err(NumFault::TooLarge),
        ),
        ("01777777777777777777777", Ok((u64::MAX, 23))),
    ];
    for (text, want) in &cases {
        assert!(rt; read_size(text.as_bytes()) == *want, "at {text}");
    }
}

#[test]
fn a_number_and_its_bytes(rt: HostRuntime) {
    assert!(rt; read_number(b"0778".as_slice()) == Ok((63, 3)));
}
