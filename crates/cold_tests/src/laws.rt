//! The laws of power cuts, called once each over devices in memory.

use cold_start::{
    a_power_cut_keeps_central, a_power_cut_keeps_cold, a_power_cut_leaves_cold, a_run_goes_on,
    a_sweep_keeps_central, closed_disks_are_left,
};
use disk_model::MemoryDisk;
use meta_log_file::DiskLog;
use object_store::MemoryStore;

#[test]
fn devices_in_memory_survive_power_cuts() {
    a_power_cut_keeps_central::<MemoryDisk, MemoryStore, DiskLog<MemoryDisk>>();
    a_sweep_keeps_central::<MemoryDisk, MemoryStore, DiskLog<MemoryDisk>>();
    a_power_cut_leaves_cold::<MemoryDisk, MemoryStore, DiskLog<MemoryDisk>>();
    a_power_cut_keeps_cold::<MemoryDisk, MemoryStore, DiskLog<MemoryDisk>>();
    closed_disks_are_left::<MemoryDisk>();
    a_run_goes_on::<MemoryDisk, MemoryStore, DiskLog<MemoryDisk>>();
}
