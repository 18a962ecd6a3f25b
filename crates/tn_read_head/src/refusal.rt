//! Why no document is read.

ghost use Rattle.std.specs.Prelude.{◌≡◌};
ghost use Rattle.tn_read_head.specs.declared.refusal.DocRefusal.TheVariants.{OutOfMemory};
ghost use Rattle.tn_read_head.specs.Refused.{refusal_of};

use tn_names::Names;
use tn_read_shapes::ReadError;
use tn_said::Fault;

/// Why no document is read.
#[derive(Drop)]
pub enum DocRefusal {
    /// It has a fault.
    Fault {
        /// The first fault.
        fault: Fault,
        /// The names that were read until then.
        names: Names,
    },
    /// Memory ran out.
    OutOfMemory,
}

impl DocRefusal {
    /// The refusal where reading failed with these names read.
    pub fn beside(error: ReadError, names: Names) -> DocRefusal
        ensures { result ≡ refusal_of names error }
    {
        match error {
            ReadError::Fault(fault) => DocRefusal::Fault { fault, names },
            ReadError::OutOfMemory => DocRefusal::OutOfMemory,
        }
    }
}

impl From<tn_base::OutOfMemory> for DocRefusal {
    ghost from_gives = { λ _ refusal. refusal ≡ OutOfMemory };

    fn from(_error: tn_base::OutOfMemory) -> DocRefusal {
        DocRefusal::OutOfMemory
    }
}
