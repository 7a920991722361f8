//! How calls of devices end, as a small enum.

use bytes::Bytes;
use tier_base::{Failed, Trouble};

/// How a call ended.
#[derive(Clone, Copy, Debug, PartialEq, Eq)]
pub(crate) enum End {
    Well,
    Fault,
    NoMemory,
    /// It gave something else.
    Other,
}

/// How a call that gives this ended.
pub(crate) fn right(given: bool) -> End {
    if given { End::Well } else { End::Other }
}

/// How a call with this trouble ended.
pub(crate) fn troubled(trouble: Trouble) -> End {
    match trouble {
        Trouble::Failed => End::Fault,
        Trouble::NoMemory => End::NoMemory,
    }
}

/// How a call that gives nothing ended.
pub(crate) fn ended(answer: Result<(), Trouble>) -> End {
    match answer {
        Ok(()) => End::Well,
        Err(trouble) => troubled(trouble),
    }
}

/// How a call that takes no memory ended.
pub(crate) fn done(answer: Result<(), Failed>) -> End {
    match answer {
        Ok(()) => End::Well,
        Err(_) => End::Fault,
    }
}

/// Whether a read gave these bytes.
fn is_given(given: Option<Bytes>, wanted: Option<&[u8]>) -> bool {
    match (given, wanted) {
        (Some(bytes), Some(wanted)) => bytes.as_slice() == wanted,
        (None, None) => true,
        _ => false,
    }
}

/// How a read that is to give these bytes ended.
pub(crate) fn gave(answer: Result<Option<Bytes>, Trouble>, wanted: Option<&[u8]>) -> End {
    match answer {
        Ok(given) => right(is_given(given, wanted)),
        Err(trouble) => troubled(trouble),
    }
}
