//! The cold start of a partition: opening it over the devices that an earlier run, or a power cut of everything, left.
//!
//! `Cold` is a world whose registry is kept in a file. The laws say what a power cut leaves of an open partition, and
//! that a run can continue over devices that represent a state of the plain log.
#![tactic(auto)]

mod cold;
mod laws;
mod opening;
mod refusal;
mod running;

pub use cold::Cold;
pub use laws::{
    a_cold_partition_is_central, a_cold_tier_is_safe, a_crashed_disk_is_cut, a_kept_disk_is_cut,
    a_kept_log_is_cut, a_kept_store_is_cut, a_power_cut_keeps_central, a_power_cut_keeps_cold,
    a_power_cut_leaves_cold, a_reopened_log_is_cut, a_run_goes_on,
    a_step_changes_the_registry_or_a_device, a_sweep_keeps_central, closed_disks_are_left,
    cold_broker_tiers_are_seen, registries_keep_the_rules,
};
pub use refusal::ColdRefusal;
pub use registry_file::{RegFileRefusal, reg_decode, reg_encode};
pub use running::run_cold;
