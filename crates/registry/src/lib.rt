//! The registry of a partition, in the place of Kafka's controller quorum: the leader and its epoch, the ISR and what
//! its brokers acknowledged, the high watermark, and the log start offset.
//!
//! It never stops, and no call of it allocates. A call that can be refused tests its causes in a fixed order and
//! changes the registry only if none of them holds. `specs/Calls.antt` says what each call returns and changes; the
//! plain log's rows for elections, acknowledgements, the ISR and the log start offset cite the same definitions. `lead`
//! and `lead_alone` carry out an election that the caller has already tested.
#![tactic(auto)]

mod laws;
mod refusal;
mod registry;
mod replicas;
mod view;

pub use laws::{
    a_registry_comes_back_from_its_view, a_view_comes_back_from_its_registry,
    a_view_keeps_the_rules_where_its_registry_does,
};
pub use refusal::RegRefusal;
pub use registry::{Registry, Replica};
pub use view::RegView;
