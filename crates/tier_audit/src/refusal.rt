//! Why an audit says nothing.

use thiserror::Error;

/// Why an audit says nothing. The first cause that comes is reported. Nothing has changed then.
#[derive(Clone, Copy, Debug, PartialEq, Eq, Drop, Error)]
pub enum AuditRefusal {
    /// A call of the store failed.
    #[error("a call of the store failed")]
    StoreFault,
    /// The call of the metadata log failed.
    #[error("a call of the metadata log failed")]
    MetaFault,
    /// There was no memory for it.
    #[error("no memory for the audit")]
    NoMemory,
}
