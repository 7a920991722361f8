//! Why bytes are no registry's file.

use thiserror::Error;

/// Why bytes are no registry's file: the first fault from the left. Nothing is read from them then.
#[derive(Clone, Copy, Debug, PartialEq, Eq, Drop, Error)]
pub enum RegFileRefusal {
    /// The field that begins at this place is missing, is cut or breaks a rule, or this byte follows the last field.
    #[error("the registry's file can't go on so at {at}")]
    Bad { at: u32 },
}
