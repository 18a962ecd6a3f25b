//! Why a part of a document isn't read.

ghost use Rattle.std.specs.Prelude.{◌≡◌};
ghost use Rattle.tn_read_shapes.specs.declared.error.ReadError.TheVariants.{OutOfMemory};

use std::alloc::{AllocError, AllocFailed, Global};
use tn_said::{Fault, FaultKind, Place, PlaceStep};

/// Why a part of a document isn't read.
#[derive(Drop)]
pub enum ReadError {
    /// It has a fault, and this is the first one.
    Fault(Fault),
    /// Memory ran out.
    OutOfMemory,
}

impl From<AllocError> for ReadError {
    ghost from_gives = { λ _ e. e ≡ OutOfMemory };

    fn from(_error: AllocError) -> ReadError {
        ReadError::OutOfMemory
    }
}

impl<T: Drop> From<AllocFailed<T>> for ReadError {
    ghost from_gives = { λ _ e. e ≡ OutOfMemory };

    fn from(_error: AllocFailed<T>) -> ReadError {
        ReadError::OutOfMemory
    }
}

impl From<tn_base::OutOfMemory> for ReadError {
    ghost from_gives = { λ _ e. e ≡ OutOfMemory };

    fn from(_error: tn_base::OutOfMemory) -> ReadError {
        ReadError::OutOfMemory
    }
}
