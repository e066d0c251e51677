//! Tests of `text_words`: take words and parts off a text one after another, remove quotation
//! marks, split a text in two at a byte, and find the text before a byte. The proved examples of
//! `text_words` aren't repeated.

use text_words::{Separators, next_part, next_word, split_once, text_before, unquote};

#[test]
fn words_of_a_line(rt: HostRuntime) {
    let mut line = b"\n a\t\"b  c\" d=\"e f\"g\"\" h\xA0i\x0B\x0C\rj ".as_slice();
    let words = [
        b"a".as_slice(),
        b"\"b  c\"".as_slice(),
        b"d=\"e f\"g\"\"".as_slice(),
        b"h\xA0i".as_slice(),
        b"j".as_slice(),
    ];
    for want in &words {
        let (word, rest) = next_word(line, Separators::CommandLine).expect(&rt, "a word");
        assert!(rt; word == *want);
        line = rest;
    }
    assert!(rt; next_word(line, Separators::CommandLine).is_none());
}

// A quotation mark has no meaning between commas. After the last comma there is one more part,
// which may be empty.
#[test]
fn parts_between_commas(rt: HostRuntime) {
    let rows = [
        (
            b"1,\"2,".as_slice(),
            b"1".as_slice(),
            Some(b"\"2,".as_slice()),
        ),
        (b"\"2,".as_slice(), b"\"2".as_slice(), Some(b"".as_slice())),
    ];
    for (text, part, rest) in &rows {
        assert!(rt; next_part(text, Separators::Byte(b',')) == (*part, *rest));
    }
}

#[test]
fn only_the_outer_marks_go(rt: HostRuntime) {
    assert!(rt; unquote(b"\"\"a\"\"".as_slice()) == b"\"a\"".as_slice());
}

#[test]
fn halves_and_a_front(rt: HostRuntime) {
    let halves = split_once(b"a==".as_slice(), b'=');
    assert!(rt; halves == Some((b"a".as_slice(), b"=".as_slice())));
    assert!(rt; text_before(b"ab c ".as_slice(), b' ') == b"ab".as_slice());
}
