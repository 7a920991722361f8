//! Laws of a partition beside its remote tier. Each is the contract of a function that does nothing:
//! calling it cites the law.

ghost use Rattle.laws_tier_turns.specs.Laws.{BrokerTiersFollowTurns, OwnTurnsChange, TurnsKeepSafe, FreshTier};

/// Where no local start may rise, the brokers' tier states follow the turn.
pub fn tier_views_follow()
    ensures { BrokerTiersFollowTurns }
{}

/// Each turn of a command that works on no remote device is changes of the tier.
pub fn own_turns_change()
    ensures { OwnTurnsChange }
{}

/// Such changes keep the rules of the plain log and of the tier.
pub fn turns_keep_safe()
    ensures { TurnsKeepSafe }
{}

/// The tier states of a fresh partition are those of a fresh tier.
pub fn fresh_tier()
    ensures { FreshTier }
{}
