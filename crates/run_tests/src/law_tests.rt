//! Laws of what fetches and timestamp lookups return, called once each over devices in memory.

use disk_model::MemoryDisk;
use laws_answers::{
    fetches_have_causes, marked_are_found, new_has_searches, new_has_spans, no_search_is_damaged,
    searches_are_answered, searches_tell_dates, turns_keep_searches, turns_keep_spans,
    unfailing_are_found, unfailing_are_served, unhindered_are_found, unhindered_are_served,
};
use meta_log::MemoryLog;
use object_store::MemoryStore;

#[test]
fn fetches_over_devices_in_memory_are_served() {
    new_has_spans::<MemoryDisk, MemoryStore, MemoryLog>();
    turns_keep_spans::<MemoryDisk, MemoryStore, MemoryLog>();
    fetches_have_causes::<MemoryDisk, MemoryStore, MemoryLog>();
    unhindered_are_served::<MemoryDisk, MemoryStore, MemoryLog>();
    unfailing_are_served::<MemoryDisk, MemoryStore, MemoryLog>();
}

#[test]
fn searches_over_devices_in_memory_are_found() {
    new_has_searches::<MemoryDisk, MemoryStore, MemoryLog>();
    turns_keep_searches::<MemoryDisk, MemoryStore, MemoryLog>();
    searches_tell_dates::<MemoryDisk, MemoryStore, MemoryLog>();
    no_search_is_damaged::<MemoryDisk, MemoryStore, MemoryLog>();
    unhindered_are_found::<MemoryDisk, MemoryStore, MemoryLog>();
    unfailing_are_found::<MemoryDisk, MemoryStore, MemoryLog>();
    searches_are_answered::<MemoryDisk, MemoryStore, MemoryLog>();
    marked_are_found::<MemoryDisk, MemoryStore, MemoryLog>();
}
