//! A command in the script's words. Records and bytes are counted, since they may be long.

use plain_log::{Command, Which};
use std::alloc::{AllocError, Global};

/// A word that is alone.
fn word(alloc: Global, text: &str) -> Result<String, AllocError> {
    String::from_str(alloc, text)
}

/// A question for an offset.
fn offset(alloc: Global, which: &Which) -> Result<String, AllocError> {
    match which {
        Which::Earliest => word(alloc, "offset earliest"),
        Which::Latest => word(alloc, "offset latest"),
        Which::EarliestLocal => word(alloc, "offset earliest_local"),
        Which::LatestTiered => word(alloc, "offset latest_tiered"),
        Which::At(ms) => format!(in alloc; "offset at {ms}"),
    }
}

/// Returns a command in the script's words.
pub fn asked(alloc: Global, command: &Command) -> Result<String, AllocError> {
    match command {
        Command::Append(records) => {
            let count = records.len();
            let end = if count == 1 { "" } else { "s" };
            format!(in alloc; "append {count} record{end}")
        }
        Command::Raw(bytes) => {
            let count = bytes.len();
            format!(in alloc; "raw {count} bytes")
        }
        Command::Follow { limit } => format!(in alloc; "follow {limit}"),
        Command::Fetch { offset, limit } => format!(in alloc; "fetch {offset} {limit}"),
        Command::Raise { start } => format!(in alloc; "raise {start}"),
        Command::Clock { ms } => format!(in alloc; "clock {ms}"),
        Command::Offset(which) => offset(alloc, which),
        _ => word(alloc, name(command)),
    }
}

/// The word of a command.
fn name(command: &Command) -> &'static str {
    match command {
        Command::Append(_) => "append",
        Command::Raw(_) => "raw",
        Command::Flush => "flush",
        Command::Roll => "roll",
        Command::Elect => "elect",
        Command::Unclean => "unclean",
        Command::Learn => "learn",
        Command::Join => "join",
        Command::Follow { .. } => "follow",
        Command::Ack => "ack",
        Command::Shrink => "shrink",
        Command::Expand => "expand",
        Command::Copy => "copy",
        Command::Trim => "trim",
        Command::Expire => "expire",
        Command::Raise { .. } => "raise",
        Command::Clock { .. } => "clock",
        Command::Stop => "stop",
        Command::Up => "up",
        Command::Fetch { .. } => "fetch",
        Command::Pack(true) => "pack 1",
        Command::Pack(false) => "pack 0",
        Command::Copying(true) => "copying 1",
        Command::Copying(false) => "copying 0",
        Command::Offset(_) => "offset",
    }
}
