//! How a run ends.

ghost use Rattle.std.specs.Prelude.{◌≡◌};
ghost use Rattle.pami_cli.specs.Status.{code_of};

/// How a call ended, and with it the program's exit status.
#[derive(Clone, Copy, Debug, PartialEq, Eq)]
pub enum Status {
    /// The answer is optimal; the certificate is valid.
    Good,
    /// The words aren't in the table.
    Words,
    /// The file isn't accepted.
    File,
    /// The shelf failed.
    ReadFault,
    /// The sink failed.
    WriteFault,
    /// Memory ran out.
    OutOfMemory,
    /// No point meets the model.
    Infeasible,
    /// A direction never leaves what the bounds allow, and the cost falls along it.
    DualInfeasible,
    /// No more pivots were allowed.
    Limit,
    /// A number didn't fit.
    Overflow,
    /// A condition of the certificate fails.
    Invalid,
    /// A number of the checker didn't fit before a condition failed.
    Unchecked,
    /// The second file is no certificate for the model.
    Malformed,
}

impl Status {
    /// The exit status of the program.
    pub fn code(&self) -> u8
        ensures { result ≡ code_of self.now }
    {
        match self {
            Status::Good => 0,
            Status::Words => 2,
            Status::File => 3,
            Status::ReadFault => 4,
            Status::WriteFault => 5,
            Status::OutOfMemory => 6,
            Status::Infeasible => 10,
            Status::DualInfeasible => 11,
            Status::Limit => 12,
            Status::Overflow => 13,
            Status::Invalid => 20,
            Status::Unchecked => 21,
            Status::Malformed => 22,
        }
    }
}
