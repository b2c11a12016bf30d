//! Readers and writers over memory.

ghost use Rattle.std.specs.Prelude.{◌≡◌, Some, []};

use crate::io::{DeviceFault, Sink, Source};
use std::alloc::Global;

/// Reads the bytes of a slice. It never fails.
#[derive(Drop)]
pub struct FromMemory<'a> {
    left: &'a [u8],
}

impl<'a> FromMemory<'a> {
    ghost use Rattle.hv_text.specs.Memory.{left_in};

    /// A reader that has all of these bytes left.
    pub fn new(bytes: &'a [u8]) -> FromMemory<'a>
        ensures { left_in result ≡ bytes.now }
    {
        FromMemory { left: bytes }
    }
}

impl Source for FromMemory<'_> {
    ghost use Rattle.hv_text.specs.Memory.{left_in};

    ghost left = { λ r. Some (left_in r) };

    ghost failures = { λ _. 0 };

    fn read(&mut self, into: &mut [u8]) -> Result<usize, DeviceFault> {
        let n = into.len().min(self.left.len());
        let (front, rest) = self.left.split_at(n);
        into[..n].copy_from_slice(front);
        self.left = rest;
        Ok(n)
    }
}

/// Keeps the bytes that are written. It fails where it cannot grow.
#[derive(Drop)]
pub struct ToMemory {
    bytes: Vec<u8>,
    failures: u64,
}

impl ToMemory {
    ghost use Rattle.hv_text.specs.Memory.{taken_by, refused_by};

    /// A writer that has taken nothing yet.
    pub fn new(alloc: Global) -> ToMemory
        ensures taken { taken_by result ≡ [] }
        ensures refused { refused_by result ≡ 0 }
    {
        ToMemory {
            bytes: Vec::new(alloc),
            failures: 0,
        }
    }

    /// All that was taken so far.
    pub fn written(&self) -> &[u8]
        ensures { result.now ≡ taken_by self.now }
    {
        &self.bytes
    }
}

impl Sink for ToMemory {
    ghost use Rattle.hv_text.specs.Memory.{taken_by, refused_by};

    ghost taken = { λ w. Some (taken_by w) };

    ghost failures = { refused_by };

    fn write(&mut self, bytes: &[u8]) -> Result<usize, DeviceFault> {
        match self.bytes.extend_from_slice(bytes) {
            Ok(()) => Ok(bytes.len()),
            Err(_) => {
                self.failures += 1;
                Err(DeviceFault::Other)
            }
        }
    }
}
