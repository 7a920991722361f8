//! The kinds of call of a store that a plan of faults can name.

ghost use Rattle.object_store.specs.Call.{call_code};

use tier_base::CallKind;

/// A kind of call. `arm` is none.
#[derive(Clone, Copy, Debug, PartialEq, Eq)]
pub enum StoreCall {
    Put,
    Get,
    Delete,
    Keys,
}

impl CallKind for StoreCall {
    ghost code = { call_code };

    fn to_code(self) -> usize {
        match self {
            StoreCall::Put => 0,
            StoreCall::Get => 1,
            StoreCall::Delete => 2,
            StoreCall::Keys => 3,
        }
    }
}

/// A call of a store that is to fail.
pub type Planned = tier_base::Planned<StoreCall>;
