//! Streams of the system, as the standard ones: the trusted edge. They count their faults, and tell no content.

ghost use Rattle.std.specs.Prelude.{◌≡◌};
ghost use Rattle.ss_outside.specs.Told.{counts_alone};

use crate::sink::{Sink, WriteFault};
use crate::source::{ReadFault, Source};
use crate::told::Told;
use std::io::{Read, Write};
use std::marker::Model;

/// A source over a reader, as standard input. A read is one read of the system, into the buffer that is handed in.
#[derive(Drop)]
pub struct StdSource<R: Read + Drop> {
    reader: R,
    faults: u64,
}

impl<R: Read + Drop> Model for StdSource<R> {
    ghost use Rattle.std.specs.Prelude.{ℕ};

    ghost Value = { ℕ };

    ghost view = { λ source. source.faults };
}

impl<R: Read + Drop> StdSource<R> {
    pub fn new(reader: R) -> StdSource<R>
        ensures { result ≡ 0 }
    {
        StdSource { reader, faults: 0 }
    }
}

impl<R: Read + Drop> Told for StdSource<R> {
    ghost told = { λ faults. counts_alone faults 0 };
}

impl<R: Read + Drop> Source for StdSource<R> {
    fn read(&mut self, into: &mut [u8]) -> Result<usize, ReadFault> {
        match self.reader.read(into) {
            Ok(count) => Ok(count),
            Err(_) => {
                self.faults = self.faults.saturating_add(1);
                Err(ReadFault)
            }
        }
    }
}

/// A sink over a writer, as standard output. A write is one write of the system.
#[derive(Drop)]
pub struct StdSink<W: Write + Drop> {
    writer: W,
    faults: u64,
}

impl<W: Write + Drop> Model for StdSink<W> {
    ghost use Rattle.std.specs.Prelude.{ℕ};

    ghost Value = { ℕ };

    ghost view = { λ sink. sink.faults };
}

impl<W: Write + Drop> StdSink<W> {
    pub fn new(writer: W) -> StdSink<W>
        ensures { result ≡ 0 }
    {
        StdSink { writer, faults: 0 }
    }
}

impl<W: Write + Drop> Told for StdSink<W> {
    ghost told = { λ faults. counts_alone 0 faults };
}

impl<W: Write + Drop> Sink for StdSink<W> {
    fn write(&mut self, from: &[u8]) -> Result<usize, WriteFault> {
        match self.writer.write(from) {
            Ok(0) if !from.is_empty() => {
                self.faults = self.faults.saturating_add(1);
                Ok(0)
            }
            Ok(count) => Ok(count),
            Err(_) => {
                self.faults = self.faults.saturating_add(1);
                Err(WriteFault)
            }
        }
    }
}
