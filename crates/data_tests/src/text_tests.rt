use std::alloc::{AllocError, Global};
use std::process::Abort;
use weave_text::{
    Numeral, Pieces, Text, first_line, first_words, is, is_skipped, number, number_up_to, pieces,
    words,
};

/// The number of a text's lines.
fn count_lines(text: &[u8]) -> usize {
    let mut count = 0;
    let mut left = text;
    while let Some((_, rest)) = first_line(left) {
        count += 1;
        left = rest;
    }
    count
}

#[test]
fn lines_are_cut(rt: HostRuntime) {
    let rows = [
        (b"".as_slice(), 0),
        (b"\n".as_slice(), 1),
        (b"a".as_slice(), 1),
        (b"a\n".as_slice(), 1),
        (b"a\n\n".as_slice(), 2),
        (b"a\nb".as_slice(), 2),
        (b"\r\n \n#".as_slice(), 3),
    ];
    for (text, want) in rows {
        assert!(rt; count_lines(text) == want, "at {text:?}");
    }
}

#[test]
fn lines_are_skipped(rt: HostRuntime) {
    assert!(rt; is_skipped(b"") && is_skipped(b"# a") && !is_skipped(b" #"));
}

// How many words a line has.
fn word_count(rt: &impl Abort, alloc: Global, line: &[u8]) -> usize {
    words(alloc, line).expect(rt, "memory").len()
}

// How many of the first three words a line has.
fn first_count(rt: &impl Abort, alloc: Global, line: &[u8]) -> usize {
    first_words(alloc, 3, line).expect(rt, "memory").len()
}

#[test]
fn words_are_cut(rt: HostRuntime) {
    let alloc = rt.alloc();
    for (line, count) in [
        (b"set ann city oslo".as_slice(), 4),
        (b" a  b", 4),
        (b"", 1),
    ] {
        assert!(rt; word_count(&rt, alloc, line) == count);
    }
    assert!(rt; first_count(&rt, alloc, b"set ann city oslo") == 3);
    assert!(rt; first_count(&rt, alloc, b" a") == 2);
    let pieces = pieces(alloc, b':', b"0:1:3,4").expect(&rt, "memory");
    assert!(rt; pieces.len() == 3 && is(b"set", b"set"));
}

// The pieces of a text at its colons, cut off one after another, are these.
fn assert_pieces(rt: &impl Abort, text: &[u8], wanted: &[&[u8]]) {
    let mut pieces = Pieces::new(b':', text);
    for piece in wanted {
        assert!(rt; !pieces.is_empty() && pieces.next() == Some(*piece));
    }
    assert!(rt; pieces.is_empty() && pieces.next() == None && pieces.next() == None);
}

#[test]
fn pieces_are_cut_off(rt: HostRuntime) {
    assert_pieces(&rt, b"0:12:3,4", &[b"0", b"12", b"3,4"]);
    assert_pieces(&rt, b"", &[b""]);
    assert_pieces(&rt, b":", &[b"", b""]);
    assert_pieces(&rt, b"::a", &[b"", b"", b"a"]);
    assert_pieces(&rt, b"a b", &[b"a b"]);
    assert!(rt; Pieces::words(b" a  b").count() == 4);
    assert!(rt; Pieces::words(b"order t u").last() == Some(b"u".as_slice()));
}

#[test]
fn what_is_a_number(rt: HostRuntime) {
    let long = [b'1'; 200];
    let rows = [
        (b"0".as_slice(), Numeral::Number(0)),
        (b"63".as_slice(), Numeral::Number(63)),
        (b"64".as_slice(), Numeral::TooLarge),
        (b"18446744073709551616".as_slice(), Numeral::TooLarge),
        (long.as_slice(), Numeral::TooLarge),
        (b"".as_slice(), Numeral::NoNumber),
        (b"00".as_slice(), Numeral::NoNumber),
        (b"+1".as_slice(), Numeral::NoNumber),
        (b"1a".as_slice(), Numeral::NoNumber),
    ];
    for (word, want) in rows {
        assert!(rt; number_up_to(63, word) == want, "at {word:?}");
    }
    assert!(rt; number(b"18446744073709551615") == Some(u64::MAX));
    assert!(rt; number(b"18446744073709551616") == None);
}

// Writes `got 12 absent` in a line, and a number after it.
fn write(text: &mut Text) -> Result<(), AllocError> {
    text.push(b"got")?;
    text.number_word(12)?;
    text.word(b"absent")?;
    text.end_line()?;
    text.number(7)
}

#[test]
fn a_text_is_written(rt: HostRuntime) {
    let mut text = Text::new(rt.alloc());
    assert!(rt; write(&mut text).is_ok());
    assert!(rt; text.into_bytes().as_slice() == b"got 12 absent\n7".as_slice());
}
