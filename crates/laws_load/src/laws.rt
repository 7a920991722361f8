//! Laws of the loads. Each is the contract of a function without a body: a proof uses the law by calling it.

ghost use Rattle.laws_load.specs.Valid.{LoadsAreValid};

/// The script of each number is valid.
pub fn loads_are_valid()
    ensures { LoadsAreValid }
{}
