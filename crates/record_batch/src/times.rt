//! The timestamps of records that a batch's head has.

ghost use Rattle.std.specs.Prelude.{◌≡◌, All, FitsSigned};
ghost use Rattle.std.specs.Int.{w64};
ghost use Rattle.record_batch.specs.declared.rec.Rec.{Rec};
ghost use Rattle.record_batch.specs.Build.{first_ts as first_ts_of, greatest_ts as greatest_ts_of};

use crate::rec::Rec;

/// The first record's timestamp.
pub(crate) fn first_ts(recs: &[Rec]) -> i64
    ensures { result ≡ first_ts_of recs.now }
{
    match recs {
        [] => 0,
        [rec, ..] => rec.ts,
    }
}

/// The greatest timestamp.
pub(crate) fn greatest_ts(recs: &[Rec]) -> i64
    ensures exact { result ≡ greatest_ts_of recs.now }
    ensures fit { All (λ (r : Rec). FitsSigned w64 r.ts) recs.now }
{
    let mut ts = first_ts(recs);
    for rec in recs {
        ts = ts.max(rec.ts);
    }
    ts
}
