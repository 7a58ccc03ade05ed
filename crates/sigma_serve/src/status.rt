//! How a run of the program ended.

ghost use Rattle.std.specs.Prelude.{◌≡◌};

/// How a run ended.
#[derive(Clone, Copy, Debug, PartialEq, Eq)]
pub enum Status {
    /// All was read, and nothing was refused.
    Done,
    /// Something was refused, with a diagnostic of its own.
    Found,
    /// The words aren't accepted.
    Usage,
    /// An input couldn't be read.
    ReadFault,
    /// A stream couldn't be written.
    WriteFault,
    /// Memory is missing.
    Memory,
}

impl Status {
    ghost use Rattle.sigma_serve.specs.Codes.{status_code};

    /// The exit code: 0 to 5 in the order of the statuses.
    pub fn code(&self) -> u8
        ensures { result ≡ status_code self.now }
    {
        match self {
            Status::Done => 0,
            Status::Found => 1,
            Status::Usage => 2,
            Status::ReadFault => 3,
            Status::WriteFault => 4,
            Status::Memory => 5,
        }
    }
}
