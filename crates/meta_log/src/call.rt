//! The kinds of call of a metadata log that a plan of faults can name.

ghost use Rattle.meta_log.specs.Call.{call_code};

use tier_base::CallKind;

/// A kind of call. `arm` is none.
#[derive(Clone, Copy, Debug, PartialEq, Eq)]
pub enum MetaCall {
    Append,
    Read,
}

impl CallKind for MetaCall {
    ghost code = { call_code };

    fn to_code(self) -> usize {
        match self {
            MetaCall::Append => 0,
            MetaCall::Read => 1,
        }
    }
}

/// A call of a metadata log that is to fail.
pub type Planned = tier_base::Planned<MetaCall>;
