//! Real files and standard output.

ghost use Rattle.std.specs.Prelude.{◌≡◌};

use crate::io::{DeviceFault, Sink, Source};
use std::io::{ErrorKind, Read, Write};

/// A reader of std, as a file is, with a count of its failures. Its bytes are those that the
/// reader's own contract names: none of a file.
#[derive(Drop)]
pub struct FromReader<R: Read + Drop> {
    pub reader: R,
    pub failures: u64,
}

impl<R: Read + Drop> FromReader<R> {
    /// The reader, with no failure so far.
    pub fn new(reader: R) -> FromReader<R>
        ensures reader { result.reader ≡ reader }
        ensures failures { result.failures ≡ 0 }
    {
        FromReader {
            reader,
            failures: 0,
        }
    }
}

impl<R: Read + Drop> Source for FromReader<R> {
    ghost left = { λ r. R.remaining r.reader };

    ghost failures = { λ r. r.failures };

    fn read(&mut self, into: &mut [u8]) -> Result<usize, DeviceFault> {
        match self.reader.read(into) {
            Ok(n) => Ok(n),
            Err(error) => {
                self.failures += 1;
                Err(fault_of(error.kind()))
            }
        }
    }
}

/// A writer of std, as standard output is, with a count of its failures. What it took is what the
/// writer's own contract names: nothing of standard output.
#[derive(Drop)]
pub struct ToWriter<W: Write + Drop> {
    pub writer: W,
    pub failures: u64,
}

impl<W: Write + Drop> ToWriter<W> {
    /// The writer, with no failure so far.
    pub fn new(writer: W) -> ToWriter<W>
        ensures writer { result.writer ≡ writer }
        ensures failures { result.failures ≡ 0 }
    {
        ToWriter {
            writer,
            failures: 0,
        }
    }
}

impl<W: Write + Drop> Sink for ToWriter<W> {
    ghost taken = { λ w. W.contents w.writer };

    ghost failures = { λ w. w.failures };

    fn write(&mut self, bytes: &[u8]) -> Result<usize, DeviceFault> {
        match self.writer.write(bytes) {
            Ok(n) => {
                if n == 0 && !bytes.is_empty() {
                    self.failures += 1;
                }
                Ok(n)
            }
            Err(error) => {
                self.failures += 1;
                Err(fault_of(error.kind()))
            }
        }
    }
}

fn fault_of(kind: ErrorKind) -> DeviceFault {
    match kind {
        ErrorKind::Interrupted => DeviceFault::Interrupted,
        _ => DeviceFault::Other,
    }
}
