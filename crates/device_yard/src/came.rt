//! The counts with which a device comes back.

ghost use Rattle.std.specs.Prelude.{◌≡◌};
ghost use Rattle.device_yard.specs.Control.{is_fault};

/// How many calls of a device failed, and whether it was armed.
#[derive(Clone, Copy, Debug, PartialEq, Eq)]
pub struct Came {
    pub faults: u64,
    pub armed: bool,
}

impl Came {
    /// Returns whether a device that comes back so is a fault of the environment.
    pub fn is_fault(self) -> bool
        ensures { result ≡ is_fault self }
    {
        !self.armed && 0 < self.faults
    }
}
