ghost use Rattle.std.specs.Prelude.{◌≡◌};

use brace_io::Failed;
use brace_model::Fault;
use brace_num::NoMemory;
use std::alloc::AllocError;

/// What an audit answers where the file is not the whole text of a run that reaches its last tick.
#[derive(Debug, Clone, Copy, PartialEq, Eq, Drop)]
pub enum AuditFault {
    /// The shelf does not hold the name.
    Absent,
    /// A call of the shelf failed; its count of failures rose.
    Failed,
    /// The number, from 1, of the first line in which the file and the text differ or which one of
    /// them lacks.
    Differs(u64),
    /// The file is the text of a run that ends in this fault.
    Fault(Fault),
    /// Memory was refused, or a number was beyond its bits.
    NoMemory,
}

impl From<Failed> for AuditFault {
    ghost use Rattle.brace_audit.specs.declared.fault.AuditFault.TheVariants as kind;

    ghost from_gives = { λ _ fault. fault ≡ kind.Failed };

    fn from(_: Failed) -> AuditFault {
        AuditFault::Failed
    }
}

impl From<NoMemory> for AuditFault {
    ghost use Rattle.brace_audit.specs.declared.fault.AuditFault.TheVariants as kind;

    ghost from_gives = { λ _ fault. fault ≡ kind.NoMemory };

    fn from(_: NoMemory) -> AuditFault {
        AuditFault::NoMemory
    }
}

impl From<AllocError> for AuditFault {
    ghost use Rattle.brace_audit.specs.declared.fault.AuditFault.TheVariants as kind;

    ghost from_gives = { λ _ fault. fault ≡ kind.NoMemory };

    fn from(_: AllocError) -> AuditFault {
        AuditFault::NoMemory
    }
}
