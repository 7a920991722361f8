//! Laws that are generic over devices, called once each over devices in memory.

use laws_rebuild::{a_rebuild_finds_all, a_rebuild_reads_its_path, a_rebuild_refreshes};
use laws_tier_fetch::{damage_is_of_logs, fetch_runs_are_logs, fetch_turns_change};
use laws_time_find::{
    search_damage_is_of_logs, search_turns_change, searches_are_right, searches_go_on,
};
use meta_log::MemoryLog;
use object_store::MemoryStore;
use tier_safe::{copy_turns_change, expiry_turns_change};

#[test]
fn turns_over_devices_in_memory_are_changes() {
    copy_turns_change::<MemoryStore, MemoryLog>();
    expiry_turns_change::<MemoryStore, MemoryLog>();
    fetch_turns_change::<MemoryStore, MemoryLog>();
    fetch_runs_are_logs::<MemoryStore, MemoryLog>();
    damage_is_of_logs::<MemoryStore, MemoryLog>();
}

#[test]
fn searches_over_devices_in_memory_are_changes() {
    search_turns_change::<MemoryStore, MemoryLog>();
    searches_go_on::<MemoryStore, MemoryLog>();
    searches_are_right::<MemoryStore, MemoryLog>();
    search_damage_is_of_logs::<MemoryStore, MemoryLog>();
}

#[test]
fn rebuilds_over_devices_in_memory_read_paths() {
    a_rebuild_refreshes::<MemoryStore, MemoryLog>();
    a_rebuild_reads_its_path::<MemoryStore>();
    a_rebuild_finds_all::<MemoryStore>();
}
