//! The exit statuses of runs.

ghost use Rattle.std.specs.Prelude.{◌≡◌};
ghost use Rattle.tn_run.specs.Status.{status_number};

/// How a run ended.
#[derive(Clone, Copy)]
pub enum Status {
    /// The verdict is yes, or what was asked for was said.
    Yes,
    /// The document has a fault.
    Fault,
    /// The words ask for nothing that the program has.
    Usage,
    /// A read failed.
    ReadFailed,
    /// A write failed.
    WriteFailed,
    /// Memory ran out.
    NoMemory,
    /// The verdict is no.
    No,
}

impl Status {
    ghost use Rattle.std.specs.Prelude.{◌≡◌};
    ghost use Rattle.tn_run.specs.Status.{status_number};

    /// The number with which a program ends.
    pub fn number(self) -> u8
        ensures { result ≡ status_number self }
    {
        match self {
            Status::Yes => 0,
            Status::Fault => 1,
            Status::Usage => 2,
            Status::ReadFailed => 3,
            Status::WriteFailed => 4,
            Status::NoMemory => 5,
            Status::No => 6,
        }
    }
}
