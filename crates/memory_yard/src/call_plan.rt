//! The calls of an environment that are to fail, and the fuse of the disks that it provides.

ghost use Rattle.std.specs.Prelude.{◌≡◌, ◌↔◌, IsErr, Contains, None};
ghost use Rattle.device_yard.specs.Plan.{next_of};
ghost use Rattle.memory_yard.specs.Calls.{plan_of};

use std::marker::Model;
use tier_base::Failed;

/// The numbers of calls that are to fail, counted from 1, and how many calls were made. With a fuse a device may fail
/// as it is opened.
#[derive(Drop)]
pub struct CallPlan {
    failing: Vec<u32>,
    calls: u32,
    fuse: Option<u64>,
}

impl Model for CallPlan {
    ghost use Rattle.memory_yard.specs.Calls.{Calls};

    ghost Value = { Calls };

    ghost view = { λ p. record { calls = p.calls; failing = p.failing.items; fuse = p.fuse } };
}

impl CallPlan {
    /// Counts no call yet.
    pub fn new(failing: Vec<u32>) -> CallPlan
        ensures { result ≡ record { calls = 0; failing = failing.items; fuse = None } }
    {
        CallPlan {
            failing,
            calls: 0,
            fuse: None,
        }
    }

    /// The fuse of the disks that are provided.
    pub fn fuse(&self) -> Option<u64>
        ensures { result ≡ self.now.fuse }
    {
        self.fuse
    }

    /// Sets the fuse, or ends it.
    pub fn set_fuse(&mut self, fuse: Option<u64>)
        ensures { self.new ≡ record self.old { fuse = fuse } }
    {
        self.fuse = fuse;
    }

    /// Counts a call, and returns whether it continues.
    pub fn count(&mut self) -> Result<(), Failed>
        ensures fails { IsErr result ↔ Contains self.old.failing (next_of (plan_of self.old)) }
        ensures counted { self.new ≡ record self.old { calls = next_of (plan_of self.old) } }
    {
        self.calls = self.calls.saturating_add(1);
        if self.failing.contains(&self.calls) {
            return Err(Failed);
        }
        Ok(())
    }
}
