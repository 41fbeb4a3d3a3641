//! The whole input, and whole texts written.

ghost use Rattle.std.specs.Prelude.{◌≡◌, IfOk, IfSome, OnOk, OnErr, IsErr, IsErrOf};
ghost use Rattle.std.specs.Io.KnownBytes.{Appends};
ghost use Rattle.dl_io.specs.Causes.{HasExactCause};
ghost use Rattle.dl_io.specs.Whole.{ReadsWhole, WritesFront};

use crate::streams::{Failed, Sink, Source};
use std::alloc::Global;
use thiserror::Error;

/// Why no whole input was read.
#[derive(Clone, Copy, Debug, Drop, PartialEq, Eq, Error)]
pub enum ReadAllFault {
    /// A read failed.
    #[error("a read failed")]
    Fault,
    /// The source gave more bytes than the limit.
    #[error("the input is longer than the limit")]
    TooLong,
    /// There was no memory for the bytes.
    #[error("out of memory")]
    Memory,
}

/// How many bytes are asked for in one read.
const PIECE: usize = 65536;

/// Reads to the end of the input, which is at most `limit` bytes.
///
/// `Fault` comes only where the source's count of faults rose, and `TooLong` exactly where it gave
/// more than `limit` bytes. After a refusal the bytes that were given are gone.
pub fn read_all<S: Source>(
    alloc: Global,
    source: &mut S,
    limit: u32,
) -> Result<Vec<u8>, ReadAllFault>
    ensures whole { ReadsWhole (λ v. v.items) limit (S.left source.old) (S.left source.new) result }
    // The bytes that the source told are the ones that are answered.
    ensures told { IfOk result (λ v. IfSome (S.left source.old) (λ bytes. v.items ≡ bytes)) }
    ensures cause { HasExactCause (S.faults source.old) (S.faults source.new) (IsErrOf result ReadAllFault.Fault) }
{
    let mut read = Vec::new(alloc);
    let mut buf = [0; PIECE];
    loop {
        let Ok(count) = source.read(&mut buf) else {
            return Err(ReadAllFault::Fault);
        };
        if count == 0 {
            return Ok(read);
        }
        if read.len() + count > limit as usize {
            return Err(ReadAllFault::TooLong);
        }
        if read.extend_from_slice(&buf[..count]).is_err() {
            return Err(ReadAllFault::Memory);
        }
    }
}

/// Writes all of `bytes`, or a front of them where a write fails.
///
/// `Failed` comes only where the sink's count of faults rose.
pub fn write_all<K: Sink>(sink: &mut K, bytes: &[u8]) -> Result<(), Failed>
    ensures all { OnOk result (Appends (K.written sink.old) (K.written sink.new) bytes.now) }
    ensures prefix { OnErr result (WritesFront (K.written sink.old) (K.written sink.new) bytes.now) }
    ensures cause { HasExactCause (K.faults sink.old) (K.faults sink.new) (IsErr result) }
{
    let mut rest = bytes;
    while !rest.is_empty() {
        let count = sink.write(rest)?;
        if count == 0 {
            return Err(Failed);
        }
        let (_, left) = rest.split_at(count);
        rest = left;
    }
    Ok(())
}
