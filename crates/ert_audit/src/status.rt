ghost use Rattle.std.specs.Prelude.{◌≡◌};
ghost use Rattle.ert_audit.specs.Audits.{exit_code};

/// How an audit ended.
#[derive(Clone, Copy, PartialEq, Eq)]
pub enum AuditStatus {
    /// The history is legal; the number of its entries was written.
    Legal,
    /// An entry isn't legal after those before it; its line was written.
    Illegal,
    /// The input spells no history; the first line that is spelled otherwise was written.
    Refused,
    /// The input failed. Nothing was written.
    ReadFault,
    /// The output failed. The first part of the line stands there.
    WriteFault,
    /// Memory ran out. The first part of the line may stand there.
    NoMemory,
    /// The input is longer than 16,777,216 bytes. Nothing was written.
    TooLong,
}

impl AuditStatus {
    /// The number that the process ends with.
    pub fn code(self) -> u8
        ensures { result ≡ exit_code self }
    {
        match self {
            AuditStatus::Legal => 0,
            AuditStatus::Illegal => 1,
            AuditStatus::Refused => 3,
            AuditStatus::ReadFault => 4,
            AuditStatus::WriteFault => 5,
            AuditStatus::NoMemory => 7,
            AuditStatus::TooLong => 8,
        }
    }
}
