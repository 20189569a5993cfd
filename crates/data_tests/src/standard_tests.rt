ghost use Rattle.std.specs.Prelude.{◌≡◌, ◌+◌, IfOk, string_len};

use std::alloc::{Allocator, Global};
use std::cell::Cell;
use std::fmt::Display;
use std::io;
use std::io::{BufRead, ErrorKind, Input, Lines, Print, Read};
use std::process::Abort;
use weave_io::{
    Failed, ReadFault, Sink, Source, StdSink, StdSource, WriteFault, read_all, write_all,
};

// A reader of one byte a call, of which every call after `good` fails.
#[derive(Drop)]
struct Failing {
    good: u64,
}

impl Read for Failing {
    fn read(&mut self, buf: &mut [u8]) -> io::Result<usize> {
        if self.good == 0 {
            return Err(ErrorKind::BrokenPipe.into());
        }
        self.good -= 1;
        match buf.first_mut() {
            Some(byte) => {
                *byte = b'a';
                Ok(1)
            }
            None => Ok(0),
        }
    }
}

impl BufRead for Failing {
    fn fill_buf(&mut self) -> io::Result<&[u8]> {
        Err(ErrorKind::BrokenPipe.into())
    }

    fn consume(&mut self, _amount: usize) {}
}

// A standard input that is such a reader.
#[derive(Drop)]
struct Planned {
    good: u64,
}

impl Input for Planned {
    type Reader = Failing;

    fn read_line<A: Allocator + Clone>(&self, buf: &mut String<A>) -> io::Result<usize>
        ensures ok { IfOk result (λ n. string_len buf.new ≡ string_len buf.old + n) }
    {
        self.reader().read_line(buf)
    }

    fn lines<A: Allocator>(&self, alloc: A) -> Lines<Failing, A> {
        self.reader().lines(alloc)
    }

    fn reader(&self) -> Failing {
        Failing { good: self.good }
    }
}

// A standard output that takes at most `most` bytes a call, and of which every call after `good` fails.
#[derive(Drop)]
struct Taking {
    good: Cell<u64>,
    most: usize,
}

impl Print for Taking {
    fn print<D: Display + Drop>(&self, _value: D) -> io::Result<()> {
        Ok(())
    }

    fn println<D: Display + Drop>(&self, _value: D) -> io::Result<()> {
        Ok(())
    }

    fn write_all(&self, _bytes: &[u8]) -> io::Result<()> {
        Ok(())
    }

    fn write_some(&self, bytes: &[u8]) -> io::Result<usize> {
        let good = self.good.get();
        if good == 0 {
            return Err(ErrorKind::BrokenPipe.into());
        }
        self.good.set(good - 1);
        Ok(bytes.len().min(self.most))
    }
}

fn output_of(good: u64, most: usize) -> Taking {
    Taking {
        good: Cell::new(good),
        most,
    }
}

// After that many calls each call of a source fails.
fn fails_after(rt: &impl Abort, good: u64) {
    let mut buffer = [0u8; 4];
    let mut source = StdSource::new(&Planned { good });
    for _ in 0..good {
        assert!(rt; source.take(&mut buffer) == Ok(1) && buffer[0] == b'a');
    }
    assert!(rt; source.take(&mut buffer) == Err(Failed), "after {good}");
    assert!(rt; source.take(&mut buffer) == Err(Failed));
}

// Reading all of such a source fails.
fn reading_fails(rt: &impl Abort, alloc: Global, good: u64) {
    let mut whole = StdSource::new(&Planned { good });
    let answer = read_all(alloc, &mut whole);
    assert!(rt; matches!(&answer, Err(ReadFault::Read)), "after {good}");
}

#[test]
fn a_reader_that_fails_is_not_at_its_end(rt: HostRuntime) {
    for good in 0..3 {
        fails_after(&rt, good);
        reading_fails(&rt, rt.alloc(), good);
    }
}

// After that many calls each call of a sink fails.
fn puts_fail_after(rt: &impl Abort, good: u64) {
    let output = output_of(good, 1);
    let mut sink = StdSink::new(&output);
    for _ in 0..good {
        assert!(rt; sink.put(b"abcd") == Ok(1));
    }
    assert!(rt; sink.put(b"abcd") == Err(Failed), "after {good}");
    assert!(rt; sink.put(b"abcd") == Err(Failed));
}

// Writing four bytes to such a sink, of this many bytes a call, has this answer.
fn writes(rt: &impl Abort, good: u64, most: usize, answer: &Result<(), WriteFault>) {
    let output = output_of(good, most);
    let mut whole = StdSink::new(&output);
    assert!(rt; write_all(&mut whole, b"abcd") == *answer, "after {good}");
}

// A sink takes nothing, and is not done.
fn takes_nothing(rt: &impl Abort) {
    let output = output_of(4, 0);
    let mut full = StdSink::new(&output);
    assert!(rt; full.put(b"abcd") == Ok(0) && write_all(&mut full, b"abcd") == Err(WriteFault));
}

#[test]
fn a_writer_that_fails_is_not_done(rt: HostRuntime) {
    for good in 0..3 {
        puts_fail_after(&rt, good);
        writes(&rt, good, 1, &Err(WriteFault));
    }
    writes(&rt, 4, 1, &Ok(()));
    takes_nothing(&rt);
}
