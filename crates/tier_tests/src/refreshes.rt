//! Views that are refreshed from a metadata log in memory. Metadata events worked by hand.

use crate::given::{END, ONE_EPOCH, STATE, UPDATE, failing_log, id, tells_with};
use meta_log::{MemoryLog, MetaCall, MetaLog};
use remote_view::View;
use std::alloc::{AllocError, Global};
use tier_base::{State, Trouble};
use view_refresh::refresh;

/// What happens to a view and its metadata log.
#[derive(Clone, Copy)]
enum Step {
    /// The log gets the event that the copy starts, of offsets 0 to 14 of epoch 0.
    Starts,
    /// It gets the event that the copy comes to a state.
    Comes(u8),
    /// The view is refreshed, which ends so.
    Looks(Result<(), Trouble>),
    /// It has so many metadata events, and the copy's state.
    Has(u64, Option<State>),
}

/// Whether a step comes to what it should.
fn goes(alloc: Global, view: &mut View, meta: &mut MemoryLog, step: Step) -> bool {
    match step {
        Step::Starts => tells_with(alloc, meta, &ONE_EPOCH, 6, END, 14),
        Step::Comes(state) => tells_with(alloc, meta, &UPDATE, 6, STATE, state),
        Step::Looks(end) => refresh(view, meta) == end,
        Step::Has(notes, state) => (view.seen(), view.state(id(6))) == (notes, state),
    }
}

/// How many steps go well at first.
fn go(alloc: Global, view: &mut View, meta: &mut MemoryLog, steps: &[Step]) -> usize {
    for (i, step) in steps.iter().enumerate() {
        if !goes(alloc, view, meta, *step) {
            return i;
        }
    }
    steps.len()
}

/// How many steps go well at first, where the third read of the metadata log fails.
fn told(alloc: Global, steps: &[Step]) -> Result<usize, AllocError> {
    let mut meta = failing_log(alloc, Some((MetaCall::Read, 3)), false)?;
    let mut view = View::new(alloc);
    meta.arm();
    Ok(go(alloc, &mut view, &mut meta, steps))
}

static STEPS: [Step; 11] = [
    Step::Looks(Ok(())),
    Step::Has(0, None),
    Step::Starts,
    Step::Comes(1),
    Step::Looks(Ok(())),
    Step::Has(2, Some(State::CopyFinished)),
    Step::Comes(2),
    Step::Looks(Err(Trouble::Failed)),
    Step::Has(2, Some(State::CopyFinished)),
    Step::Looks(Ok(())),
    Step::Has(3, Some(State::DeleteStarted)),
];

#[test]
fn a_refreshed_view_has_all_notes(rt: HostRuntime) {
    assert_eq!(rt; told(rt.alloc(), &STEPS), Ok(STEPS.len()));
}
