//! Reading a source to its end.
ghost use Rattle.std.specs.Prelude.{◌≡◌, ◌≢◌, ◌+◌, ◌≤◌, ◌<◌, ◌^◌, Err, length, IfOk, IfSome, OnOk, IsErrOf};
ghost use Rattle.std.specs.Io.KnownBytes.{Consumes, IsAtEnd};
ghost use Rattle.tn_io.specs.Counts.{Rose};
ghost use Rattle.tn_io.specs.Source.{TakesFirst, TakesAtMost};
ghost use Rattle.tn_io.specs.declared.reading.ReadStop.{ReadStop};
ghost use Rattle.tn_io.specs.declared.reading.ReadStop.TheVariants.{Failed, OutOfMemory};

use crate::source::{ReadFailed, Source};
use std::alloc::{AllocError, Global};
use thiserror::Error;

/// Why `read_all` stopped before the end of input.
#[derive(Clone, Copy, Debug, PartialEq, Eq, Error)]
pub enum ReadStop {
    /// A read failed.
    #[error("reading failed")]
    Failed,
    /// There are more bytes than the limit allows.
    #[error("the input is too long")]
    TooLong,
    /// Memory ran out.
    #[error("memory ran out")]
    OutOfMemory,
}

impl From<ReadFailed> for ReadStop {
    ghost from_gives = { λ _ stop. stop ≡ Failed };

    fn from(_failed: ReadFailed) -> ReadStop {
        ReadStop::Failed
    }
}

impl From<AllocError> for ReadStop {
    ghost from_gives = { λ _ stop. stop ≡ OutOfMemory };

    fn from(_error: AllocError) -> ReadStop {
        ReadStop::OutOfMemory
    }
}

/// How many bytes one read asks for at most.
const PIECE: usize = 4096;

/// Reads to the end of input, at most `limit` bytes.
///
/// `Failed` comes only where the source's count of faults rose in this call, and `TooLong` exactly
/// where `limit + 1` bytes were taken; more are never taken. After a refusal a source that tells
/// its bytes has lost the taken ones alone. `limit` is below 2^31.
pub fn read_all<S: Source>(alloc: Global, source: &mut S, limit: usize) -> Result<Vec<u8>, ReadStop>
    requires { limit < 2 ^ 31 }

    // The bytes are all that was left, in order, and nothing is left.
    ensures within { IfOk result (λ bytes. length bytes.items ≤ limit) }
    ensures taken { IfOk result (λ bytes.
        Consumes (S.left source.old) (S.left source.new) bytes.items) }
    ensures end { OnOk result (IsAtEnd (S.left source.new)) }
    ensures whole { IfOk result (λ bytes. IfSome (S.left source.old) (λ all. bytes.items ≡ all)) }

    // Too long is told exactly where one byte more than the limit was taken.
    ensures too_long { IsErrOf result ReadStop.TooLong
        → TakesFirst (S.left source.old) (S.left source.new) (limit + 1) }
    ensures no_more { result ≢ Err ReadStop.TooLong
        → TakesAtMost (S.left source.old) (S.left source.new) limit }

    // A failure has its cause in the source.
    ensures failed { IsErrOf result ReadStop.Failed
        → Rose (S.faults source.old) (S.faults source.new) }
    ensures later { S.faults source.old ≤ S.faults source.new }
{
    let mut bytes = Vec::new(alloc);
    let mut piece = [0; PIECE];
    // Each turn but the last takes a byte or more, up to one past the limit: so this ends.
    loop {
        // One byte past the limit shows that the input is too long.
        let room = PIECE.min(limit + 1 - bytes.len());
        let count = source.read(&mut piece[..room])?;
        if count == 0 {
            return Ok(bytes);
        }
        if count > limit - bytes.len() {
            return Err(ReadStop::TooLong);
        }
        bytes.extend_from_slice(&piece[..count])?;
    }
}
