//! A reader and a writer that are as slow as may be and falter once, for tests of what is built
//! over readers and writers.

ghost use Rattle.std.specs.Prelude.{◌≡◌, Some, []};

use hv_text::{DeviceFault, Sink, Source};
use std::alloc::Global;

/// Gives the bytes of a slice one at a time. One of its reads is interrupted.
#[derive(Drop)]
pub struct FalteringReader<'a> {
    left: &'a [u8],
    reads_before: Option<usize>,
    failures: u64,
}

impl<'a> FalteringReader<'a> {
    ghost use Rattle.hv_fixtures.specs.Faltering.{bytes_left, reads_before, reads_failed};

    /// A reader of these bytes whose first `good_reads` reads go well, and the next one fails; None
    /// fails none.
    pub fn new(bytes: &'a [u8], good_reads: Option<usize>) -> FalteringReader<'a>
        ensures left { bytes_left result ≡ bytes.now }
        ensures before { reads_before result ≡ good_reads }
        ensures failures { reads_failed result ≡ 0 }
    {
        FalteringReader {
            left: bytes,
            reads_before: good_reads,
            failures: 0,
        }
    }
}

impl Source for FalteringReader<'_> {
    ghost use Rattle.hv_fixtures.specs.Faltering.{bytes_left, reads_failed};

    ghost left = { λ r. Some (bytes_left r) };

    ghost failures = { reads_failed };

    fn read(&mut self, into: &mut [u8]) -> Result<usize, DeviceFault> {
        if falters(&mut self.reads_before) {
            self.failures += 1;
            return Err(DeviceFault::Interrupted);
        }
        let n = into.len().min(self.left.len()).min(1);
        let (front, rest) = self.left.split_at(n);
        into[..n].copy_from_slice(front);
        self.left = rest;
        Ok(n)
    }
}

/// How a writer falters.
#[derive(Clone, Copy, Debug, PartialEq, Eq)]
pub enum Falter {
    Fails,
    TakesNothing,
}

/// Takes one byte at a time. One of its writes fails, or takes nothing.
#[derive(Drop)]
pub struct FalteringWriter {
    bytes: Vec<u8>,
    writes_before: Option<usize>,
    falter: Falter,
    failures: u64,
}

impl FalteringWriter {
    ghost use Rattle.hv_fixtures.specs.Faltering.{bytes_taken, writes_before, falter_of, writes_failed};

    /// A writer whose first `good_writes` writes go well, and the next one falters in this way;
    /// None falters in none.
    pub fn new(alloc: Global, good_writes: Option<usize>, falter: Falter) -> FalteringWriter
        ensures taken { bytes_taken result ≡ [] }
        ensures before { writes_before result ≡ good_writes }
        ensures falter { falter_of result ≡ falter }
        ensures failures { writes_failed result ≡ 0 }
    {
        FalteringWriter {
            bytes: Vec::new(alloc),
            writes_before: good_writes,
            falter,
            failures: 0,
        }
    }

    /// All that was taken so far.
    pub fn written(&self) -> &[u8]
        ensures { result.now ≡ bytes_taken self.now }
    {
        &self.bytes
    }
}

impl Sink for FalteringWriter {
    ghost use Rattle.hv_fixtures.specs.Faltering.{bytes_taken, writes_failed};

    ghost taken = { λ w. Some (bytes_taken w) };

    ghost failures = { writes_failed };

    fn write(&mut self, bytes: &[u8]) -> Result<usize, DeviceFault> {
        let Some(first) = bytes.first() else {
            return Ok(0);
        };
        if falters(&mut self.writes_before) {
            self.failures += 1;
            return match self.falter {
                Falter::Fails => Err(DeviceFault::Other),
                Falter::TakesNothing => Ok(0),
            };
        }
        match self.bytes.push(*first) {
            Ok(()) => Ok(1),
            Err(_) => {
                self.failures += 1;
                Err(DeviceFault::Other)
            }
        }
    }
}

// Whether this is the call that falters, by the number of calls before it, which is counted down.
fn falters(calls_before: &mut Option<usize>) -> bool {
    match *calls_before {
        None => false,
        Some(0) => {
            *calls_before = None;
            true
        }
        Some(n) => {
            *calls_before = Some(n - 1);
            false
        }
    }
}
