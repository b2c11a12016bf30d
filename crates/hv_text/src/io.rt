//! Bytes that come in and go out.

ghost use Rattle.std.specs.Prelude.{◌≡◌, ◌<◌, ◌≤◌, ◌+◌, ◌-◌, ◌^◌, ℕ, List, Option, length, IfOk, IsOk, OnOk, OnErr, IsErrOf, IfErr, MatchResult, is_ok, if◌then◌else◌};
ghost use Rattle.std.specs.Io.KnownBytes.{Appends, ReadConsumes, WriteAppends};
ghost use Rattle.std.specs.List.{flat_map};
ghost use Rattle.hv_text.specs.Io.{IsRead, IsReadFault, failure_of, is_device_fault, AppendsBeginning};

use std::alloc::Global;
use thiserror::Error;

/// Why a device refused.
#[derive(Clone, Copy, Debug, PartialEq, Eq)]
pub enum DeviceFault {
    Interrupted,
    Other,
}

/// Why no text was read.
#[derive(Clone, Copy, Debug, PartialEq, Eq, Error)]
pub enum ReadFault {
    #[error("a read failed")]
    Device,
    #[error("the text is too long")]
    TooLong,
    #[error("out of memory")]
    Memory,
}

/// Why a text was not written.
#[derive(Clone, Copy, Debug, PartialEq, Eq, Error)]
pub enum WriteFault {
    #[error("a write failed")]
    Device,
}

/// What bytes come from.
pub trait Source {
    // The bytes that are left, where a contract can name them.
    ghost left: { Self → Option (List ℕ) };

    // How many reads have failed so far.
    ghost failures: { Self → ℕ };

    /// Gives some of the bytes that are left, to the front of `into`, and says how many.
    /// 0, where `into` is not empty, is the end. A failure, `Interrupted` too, is counted.
    fn read(&mut self, into: &mut [u8]) -> Result<usize, DeviceFault>
        requires { failures self.old < 2 ^ 64 - 1 }
        ensures bound { IfOk result (λ n. n ≤ length into.new) }
        ensures bytes { ReadConsumes (left self.old) (left self.new) result into.new }
        ensures counted { failures self.new ≡ failures self.old + (if is_ok result then 0 else 1) };
}

/// What bytes go to.
pub trait Sink {
    // The bytes that were taken, where a contract can name them.
    ghost taken: { Self → Option (List ℕ) };

    // How many writes have failed so far, those that took no byte of a text that is not
    // empty among them.
    ghost failures: { Self → ℕ };

    /// Takes some of the first bytes, and says how many.
    /// A failure is counted, and so is a 0 where `bytes` is not empty.
    fn write(&mut self, bytes: &[u8]) -> Result<usize, DeviceFault>
        requires { failures self.old < 2 ^ 64 - 1 }
        ensures bound { IfOk result (λ n. n ≤ length bytes.now) }
        ensures bytes { WriteAppends (taken self.old) (taken self.new) result bytes.now }
        ensures counted { failures self.new
            ≡ failures self.old + failure_of result (length bytes.now) };
}

/// All bytes up to the end, where they are no more than the limit. `Device` where a read failed,
/// also one that was interrupted; `TooLong` where more than the limit came; `Memory` where a growth
/// was refused. The reader moves on by what it gave.
pub fn read_all<R: Source>(
    alloc: Global,
    reader: &mut R,
    limit: usize,
) -> Result<Vec<u8>, ReadFault>
    requires { R.failures reader.old < 2 ^ 64 - 1 }
    ensures ok { IfOk result (λ v. IsRead (R.left reader.old) (R.left reader.new) limit v.items) }
    ensures err { IfErr result (IsReadFault (R.left reader.old) (R.left reader.new) limit) }
    ensures failures { R.failures reader.new
        ≡ R.failures reader.old + (if is_device_fault result then 1 else 0) }
{
    let mut bytes = Vec::new(alloc);
    let mut chunk = [0; 65536];
    'chunks: loop {
        let n = match reader.read(&mut chunk) {
            Err(_) => return Err(ReadFault::Device),
            Ok(n) => n,
        };
        if n == 0 {
            return Ok(bytes);
        }
        if n > limit - bytes.len() {
            return Err(ReadFault::TooLong);
        }
        match bytes.extend_from_slice(&chunk[..n]) {
            Ok(()) => {}
            Err(_) => return Err(ReadFault::Memory),
        }
    }
}

/// Writes all of the bytes, or a beginning of them and `Device` where a write failed
/// or took nothing.
pub fn write_all<W: Sink>(out: &mut W, bytes: &[u8]) -> Result<(), WriteFault>
    requires { W.failures out.old < 2 ^ 64 - 1 }
    ensures ok { OnOk result (Appends (W.taken out.old) (W.taken out.new) bytes.now) }
    ensures err { OnErr result (AppendsBeginning (W.taken out.old) (W.taken out.new) bytes.now) }
    ensures failures { W.failures out.new ≡ W.failures out.old + (if is_ok result then 0 else 1) }
{
    let mut at = 0;
    'parts: while at < bytes.len() {
        match out.write(&bytes[at..]) {
            Ok(n) => {
                if n == 0 {
                    return Err(WriteFault::Device);
                }
                at += n;
            }
            Err(_) => return Err(WriteFault::Device),
        }
    }
    Ok(())
}

/// Writes texts one after another. Where a write fails, a beginning of them was written. No memory
/// is taken.
pub fn write_parts<W: Sink>(out: &mut W, parts: &[&[u8]]) -> Result<(), WriteFault>
    requires { W.failures out.old < 2 ^ 64 - 1 }
    ensures ok { OnOk result (Appends (W.taken out.old) (W.taken out.new)
        (flat_map (λ p. p.now) parts.now)) }
    ensures err { OnErr result (AppendsBeginning (W.taken out.old) (W.taken out.new)
        (flat_map (λ p. p.now) parts.now)) }
    ensures failures { W.failures out.new ≡ W.failures out.old + (if is_ok result then 0 else 1) }
{
    for part in parts {
        write_all(out, part)?;
    }
    Ok(())
}
