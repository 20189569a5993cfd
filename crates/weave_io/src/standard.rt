//! Standard input and output. No contract says what comes and goes there.
ghost use Rattle.std.specs.Prelude.{◌≡◌, None};

use crate::faults::Failed;
use crate::sink::Sink;
use crate::source::Source;
use std::io;
use std::io::{Printer, Read, Write};

/// Standard input.
#[derive(Drop)]
pub struct StdSource<R> {
    reader: R,
    faults: u64,
}

impl<R: Read> StdSource<R> {
    /// The standard input of a runtime, with no failure so far.
    pub fn new<I: Input<Reader = R>>(rt: &I) -> StdSource<R>
        ensures { ⟦<StdSource<R> as Source>⟧.faults result ≡ 0 }
    {
        StdSource::over(rt.reader())
    }

    // A source over any reader.
    pub(crate) fn over(reader: R) -> StdSource<R>
        ensures { ⟦<StdSource<R> as Source>⟧.faults result ≡ 0 }
    {
        StdSource { reader, faults: 0 }
    }
}

impl<R: Read> Source for StdSource<R> {
    ghost left = { λ _. None };

    ghost faults = { λ s. s.faults };

    fn take(&mut self, buf: &mut [u8]) -> Result<usize, Failed> {
        match self.reader.read(buf) {
            Ok(count) => Ok(count),
            Err(_) => {
                self.faults = self.faults.saturating_add(1);
                Err(Failed)
            }
        }
    }
}

/// Standard output.
#[derive(Drop)]
pub struct StdSink<W> {
    writer: W,
    faults: u64,
    stalls: u64,
}

impl<'a, P: Print> StdSink<Printer<'a, P>> {
    /// The standard output of a runtime, with no failure so far.
    pub fn new(rt: &'a P) -> StdSink<Printer<'a, P>>
        ensures faults { ⟦<StdSink<Printer<'a, P>> as Sink>⟧.faults result ≡ 0 }
        ensures stalls { ⟦<StdSink<Printer<'a, P>> as Sink>⟧.stalls result ≡ 0 }
    {
        StdSink::over(io::writer(rt))
    }
}

impl<W: Write> StdSink<W> {
    // A sink over any writer.
    pub(crate) fn over(writer: W) -> StdSink<W>
        ensures faults { ⟦<StdSink<W> as Sink>⟧.faults result ≡ 0 }
        ensures stalls { ⟦<StdSink<W> as Sink>⟧.stalls result ≡ 0 }
    {
        StdSink {
            writer,
            faults: 0,
            stalls: 0,
        }
    }
}

impl<W: Write> Sink for StdSink<W> {
    ghost written = { λ _. None };

    ghost faults = { λ s. s.faults };

    ghost stalls = { λ s. s.stalls };

    fn put(&mut self, piece: &[u8]) -> Result<usize, Failed> {
        match self.writer.write(piece) {
            Ok(count) => {
                if count == 0 && !piece.is_empty() {
                    self.stalls = self.stalls.saturating_add(1);
                }
                Ok(count)
            }
            Err(_) => {
                self.faults = self.faults.saturating_add(1);
                Err(Failed)
            }
        }
    }
}
