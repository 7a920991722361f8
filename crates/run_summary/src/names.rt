//! The names of commands.

ghost use Rattle.std.specs.Prelude.{◌≡◌};
ghost use Rattle.run_summary.specs.Told.{command_name as command_is};

use plain_log::Command;

/// Names a command as a script does.
pub fn command_name(command: &Command) -> &'static str
    ensures { result.now ≡ command_is command.now }
{
    match command {
        Command::Append(_) => "append",
        Command::Raw(_) => "raw",
        Command::Flush => "flush",
        Command::Roll => "roll",
        Command::Elect => "elect",
        Command::Unclean => "unclean",
        Command::Learn => "learn",
        Command::Join => "join",
        Command::Follow { .. } => "follow",
        Command::Ack => "ack",
        Command::Shrink => "shrink",
        Command::Expand => "expand",
        Command::Copy => "copy",
        Command::Trim => "trim",
        Command::Expire => "expire",
        Command::Raise { .. } => "raise",
        Command::Clock { .. } => "clock",
        Command::Stop => "stop",
        Command::Up => "up",
        Command::Fetch { .. } => "fetch",
        Command::Pack(_) => "pack",
        Command::Copying(_) => "copying",
        Command::Offset(_) => "offset",
    }
}
