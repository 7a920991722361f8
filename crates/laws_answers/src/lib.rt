//! Laws of answers: what commands return, why, and within how many turns.
//!
//! They are statements over the rows of a world's turns. Over any devices, a command is answered within a bounded
//! number of turns of its actor, and what `offset` returns is true. Over observable devices, an answer to a copy, a
//! fetch, a join or a timestamp lookup has its stated cause, one that nothing hinders returns what was asked for, and
//! none returns `Damaged`.
//!
//! Each device fault in a journal is one that the device counted, over any devices and whatever their counts were at
//! the start: no turn lowers a count, and a turn whose command returns a fault of a device raises that device's count.
//! If the devices' plans alone decide which calls fail, as many are counted as the plans name of the calls that were
//! made.
//!
//! `specs/Turns.antt` has how many turns are left of a command; `specs/CausesOfCopies.antt`, `CausesOfFetches.antt`,
//! `CausesOfJoins.antt` and `CausesOfOffsets.antt` why an answer is given, and `specs/Damage.antt` what a journal says
//! if nothing is damaged; `specs/Counted.antt` which device each fault is of, and `specs/ByPlan.antt` which call.
#![tactic(auto)]

mod copy_laws;
mod damage_laws;
mod fault_laws;
mod fetch_laws;
mod join_laws;
mod offset_laws;
mod search_laws;
mod turn_laws;

pub use copy_laws::{
    chosen_are_copied, copies_begin_where_on, copies_have_causes, new_is_known, reaches_known,
    turns_keep_known, unfailing_are_copied, unhindered_are_copied,
};
pub use damage_laws::{no_answer_is_damaged, runs_meet_no_damage};
pub use fault_laws::{reaches_by_plan, reaches_counted, reaches_told};
pub use fetch_laws::{
    fetches_have_causes, new_has_spans, no_fetch_is_damaged, pieces_end, reaches_spans,
    turns_keep_spans, unfailing_are_served, unhindered_are_served,
};
pub use join_laws::{joins_have_causes, unfailing_are_joined, unhindered_are_joined};
pub use offset_laws::offsets_have_causes;
pub use search_laws::{
    marked_are_found, new_has_searches, no_search_is_damaged, reaches_searches,
    searches_tell_dates, turns_keep_searches, unfailing_are_found, unhindered_are_found,
};
pub use turn_laws::{
    commands_are_answered, others_stay, schedules_answer_commands, searches_are_answered,
    turns_go_on,
};
