//! Why the tiers of an environment were not all gone over.

ghost use Rattle.std.specs.Prelude.{◌≡◌};
ghost use Rattle.yard_audit.specs.Refusals.{of_trouble, of_audit, of_sweep};

use tier_audit::AuditRefusal;
use tier_base::Trouble;
use tier_sweep::SweepRefusal;

/// Why the tiers of an environment were not all gone over. Each device that was provided is back.
#[derive(Clone, Copy, Debug, PartialEq, Eq)]
pub enum RoundRefusal {
    /// A call of the environment failed, or one of a device that it provided.
    Fault,
    /// There was no memory.
    NoMemory,
}

impl From<Trouble> for RoundRefusal {
    fn from(trouble: Trouble) -> RoundRefusal
        ensures { result ≡ of_trouble trouble }
    {
        match trouble {
            Trouble::Failed => RoundRefusal::Fault,
            Trouble::NoMemory => RoundRefusal::NoMemory,
        }
    }
}

impl From<AuditRefusal> for RoundRefusal {
    fn from(refusal: AuditRefusal) -> RoundRefusal
        ensures { result ≡ of_audit refusal }
    {
        match refusal {
            AuditRefusal::StoreFault | AuditRefusal::MetaFault => RoundRefusal::Fault,
            AuditRefusal::NoMemory => RoundRefusal::NoMemory,
        }
    }
}

impl From<SweepRefusal> for RoundRefusal {
    fn from(refusal: SweepRefusal) -> RoundRefusal
        ensures { result ≡ of_sweep refusal }
    {
        match refusal {
            SweepRefusal::StoreFault | SweepRefusal::MetaFault => RoundRefusal::Fault,
            SweepRefusal::NoMemory => RoundRefusal::NoMemory,
        }
    }
}
