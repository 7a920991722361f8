//! The kinds of call of a disk that a plan of faults can name.

ghost use Rattle.disk_model.specs.Call.{call_code};

use tier_base::CallKind;

/// A kind of call. `reserve` and `arm` are none.
#[derive(Clone, Copy, Debug, PartialEq, Eq)]
pub enum DiskCall {
    Append,
    Sync,
    Read,
    Cut,
    Replace,
    Remove,
    List,
}

impl CallKind for DiskCall {
    ghost code = { call_code };

    fn to_code(self) -> usize {
        match self {
            DiskCall::Append => 0,
            DiskCall::Sync => 1,
            DiskCall::Read => 2,
            DiskCall::Cut => 3,
            DiskCall::Replace => 4,
            DiskCall::Remove => 5,
            DiskCall::List => 6,
        }
    }
}

/// A call of a disk that is to fail.
pub type Planned = tier_base::Planned<DiskCall>;
