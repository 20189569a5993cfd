ghost use Rattle.std.specs.Prelude.{◌<◌};

use std::alloc::Global;
use std::process::Abort;
use weave_io::{
    Failed, MOST_BYTES, MemorySink, MemorySource, ReadFault, Sink, Source, WriteFault, read_all,
    write_all,
};

const TEXT: &[u8] = b"report 1\norder\nend\n";

fn source(rt: &impl Abort, alloc: Global, text: &[u8], fails: &[u64], piece: usize) -> MemorySource
    requires { 0 < piece }
{
    let bytes = Vec::from_slice(alloc, text).expect(rt, "memory");
    let fails = Vec::from_slice(alloc, fails).expect(rt, "memory");
    MemorySource::new(bytes, fails, piece)
}

fn sink(rt: &impl Abort, alloc: Global, fails: &[u64], piece: usize) -> MemorySink {
    let fails = Vec::from_slice(alloc, fails).expect(rt, "memory");
    MemorySink::new(alloc, fails, piece)
}

// A source of that many spaces.
fn spaces(rt: &impl Abort, alloc: Global, count: usize, piece: usize) -> MemorySource
    requires { 0 < piece }
{
    let bytes = vec![in alloc; b' '; count].expect(rt, "memory");
    MemorySource::new(bytes, Vec::new(alloc), piece)
}

// Whether this is read to the end.
fn reads(alloc: Global, source: &mut MemorySource, text: &[u8]) -> bool {
    match read_all(alloc, source) {
        Ok(bytes) => bytes.as_slice() == text,
        Err(_) => false,
    }
}

// The text is read in such pieces, and nothing after its end.
fn reads_in_pieces(rt: &impl Abort, alloc: Global, piece: usize)
    requires { 0 < piece }
{
    let mut source = source(rt, alloc, TEXT, &[], piece);
    assert!(rt; reads(alloc, &mut source, TEXT) && reads(alloc, &mut source, b""));
}

#[test]
fn reads_in_pieces_of_any_size(rt: HostRuntime) {
    for piece in [1, 7, 100_000] {
        assert!(rt; piece > 0);
        reads_in_pieces(&rt, rt.alloc(), piece);
    }
}

// Whether reading fails if the call of this number does.
fn fails_at(rt: &impl Abort, alloc: Global, number: u64) -> bool {
    let mut source = source(rt, alloc, TEXT, &[number], 7);
    matches!(&read_all(alloc, &mut source), Err(ReadFault::Read))
}

// Nineteen bytes in pieces of seven are three calls, and one more meets the end.
#[test]
fn a_failed_call_ends_the_reading(rt: HostRuntime) {
    for number in 1..=4 {
        assert!(rt; fails_at(&rt, rt.alloc(), number), "at call {number}");
    }
    let mut source = source(&rt, rt.alloc(), TEXT, &[5], 7);
    assert!(rt; reads(rt.alloc(), &mut source, TEXT));
}

// An input of that many bytes is read whole.
fn reads_longest(rt: &impl Abort, alloc: Global, piece: usize)
    requires { 0 < piece }
{
    let mut longest = spaces(rt, alloc, 4_194_304, piece);
    let bytes = read_all(alloc, &mut longest).expect(rt, "a short input");
    assert!(rt; bytes.len() == 4_194_304);
}

// One of two bytes more is too long, and one byte of these two was taken.
fn refuses_longer(rt: &impl Abort, alloc: Global, piece: usize)
    requires { 0 < piece }
{
    let mut longer = spaces(rt, alloc, 4_194_306, piece);
    let answer = read_all(alloc, &mut longer);
    assert!(rt; matches!(&answer, Err(ReadFault::TooLong)));
    assert!(rt; reads(alloc, &mut longer, b" "));
}

#[test]
fn the_longest_input_passes_and_one_byte_more_does_not(rt: HostRuntime) {
    for piece in [1, 65_537] {
        assert!(rt; piece > 0);
        reads_longest(&rt, rt.alloc(), piece);
        refuses_longer(&rt, rt.alloc(), piece);
    }
    assert!(rt; MOST_BYTES == 4_194_304);
}

// A call with this much room has this answer, and the buffer then has these bytes.
fn takes(
    rt: &impl Abort,
    source: &mut MemorySource,
    buffer: &mut [u8; 4],
    room: usize,
    answer: Result<usize, Failed>,
    held: &[u8],
) {
    if room > 4 {
        panic!(rt; "no such room");
    }
    assert!(rt; source.take(&mut buffer[..room]) == answer);
    assert!(rt; buffer.as_slice() == held, "at {held:?}");
}

#[test]
fn planned_calls_of_a_source_fail(rt: HostRuntime) {
    let mut source = source(&rt, rt.alloc(), b"abcde", &[1, 3], 2);
    let mut buffer = [0u8; 4];
    let rows = [
        (4, Err(Failed), b"\0\0\0\0"),
        (4, Ok(2), b"ab\0\0"),
        (4, Err(Failed), b"ab\0\0"),
        (0, Ok(0), b"ab\0\0"),
        (4, Ok(2), b"cd\0\0"),
        (4, Ok(1), b"ed\0\0"),
        (4, Ok(0), b"ed\0\0"),
    ];
    for (room, answer, held) in rows {
        takes(&rt, &mut source, &mut buffer, room, answer, held);
    }
}

// The sink's calls have these answers, one after another.
fn put_each(rt: &impl Abort, sink: &mut MemorySink, rows: &[(&[u8], Result<usize, Failed>)]) {
    for row in rows {
        assert!(rt; sink.put(row.0) == row.1);
    }
}

#[test]
fn planned_calls_of_a_sink_fail(rt: HostRuntime) {
    let mut sink = sink(&rt, rt.alloc(), &[2], 2);
    let rows = [
        (b"abc".as_slice(), Ok(2)),
        (b"c", Err(Failed)),
        (b"c", Ok(1)),
        (b"", Ok(0)),
    ];
    put_each(&rt, &mut sink, &rows);
    assert!(rt; sink.bytes() == b"abc".as_slice());
}

// Writing a text has this answer, and the sink then has these bytes.
fn writes(
    rt: &impl Abort,
    sink: &mut MemorySink,
    text: &[u8],
    answer: &Result<(), WriteFault>,
    bytes: &[u8],
) {
    assert!(rt; write_all(sink, text) == *answer);
    assert!(rt; sink.bytes() == bytes);
}

#[test]
fn writes_in_pieces_of_any_size(rt: HostRuntime) {
    for piece in [1, 7, 100_000] {
        let mut sink = sink(&rt, rt.alloc(), &[], piece);
        writes(&rt, &mut sink, TEXT, &Ok(()), TEXT);
    }
}

#[test]
fn a_failed_call_leaves_a_prefix_written(rt: HostRuntime) {
    for (number, prefix) in [(2, b"repor".as_slice()), (4, b"report 1\norder\n")] {
        let mut sink = sink(&rt, rt.alloc(), &[number], 5);
        writes(&rt, &mut sink, TEXT, &Err(WriteFault), prefix);
    }
}

#[test]
fn a_sink_that_takes_nothing_is_a_fault(rt: HostRuntime) {
    let mut sink = sink(&rt, rt.alloc(), &[], 0);
    writes(&rt, &mut sink, TEXT, &Err(WriteFault), b"");
    // An empty text is written.
    writes(&rt, &mut sink, b"", &Ok(()), b"");
}
