//! What the rule means for who sets the limits, each law the contract of a function that does nothing.
//!
//! A log is taken as its segments before one, that one, and those after it.

ghost use Rattle.std.specs.Prelude.{◌≡◌, ℕ, ◌+◌, ◌<◌, ◌≤◌, ℤ, ◌≤ℤ◌, List, ◌∷◌, ◌++◌, length, ◌⊎◌};
ghost use Rattle.tier_base.specs.declared.plain.Item.{Item};
ghost use Rattle.tier_base.specs.declared.plain.Keep.{Keep};
ghost use Rattle.retention_rule.specs.Due.{size_of, start_due};
ghost use Rattle.retention_rule.specs.Laws.{IsTooOld, ReachesLimit, KeepsMore};

/// A segment goes only where it is too old, or where what stays without it would still reach the limit.
#[tactic(auto, using(crate::proofs::Ruled::gone_due))]
pub fn what_goes_is_due()
    ensures { (items others : List Item) (item : Item) (rest : ℕ) (now : ℤ) (keep : Keep)
        → length items < start_due (items ++ item ∷ others) rest now keep
        → IsTooOld item now keep ⊎ ReachesLimit (rest + size_of others) keep }
{}

/// The first segment that stays isn't too old, and what stays without it wouldn't reach the limit.
#[tactic(auto, using(crate::proofs::Ruled::first_young, crate::proofs::Ruled::first_wanted))]
pub fn what_stays_is_not_due()
    ensures age { (items others : List Item) (item : Item) (rest : ℕ) (now : ℤ) (keep : Keep)
        → start_due (items ++ item ∷ others) rest now keep ≡ length items → IsTooOld item now keep → ⊥ }
    ensures size { (items others : List Item) (item : Item) (rest : ℕ) (now : ℤ) (keep : Keep)
        → start_due (items ++ item ∷ others) rest now keep ≡ length items
        → ReachesLimit (rest + size_of others) keep → ⊥ }
{}

/// Larger limits let no more segments go.
#[tactic(auto, using(crate::proofs::Ruled::fewer))]
pub fn larger_limits_keep_more()
    ensures { (items : List Item) (rest : ℕ) (now : ℤ) (keep more : Keep) → KeepsMore keep more
        → start_due items rest now more ≤ start_due items rest now keep }
{}

/// Time and bytes after the segments let no fewer go.
#[tactic(auto, using(crate::proofs::Ruled::no_fewer))]
pub fn what_is_due_stays_due()
    ensures { (items : List Item) (rest more : ℕ) (now later : ℤ) (keep : Keep) → rest ≤ more → now ≤ℤ later
        → start_due items rest now keep ≤ start_due items more later keep }
{}
