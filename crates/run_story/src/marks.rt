//! How an entry is marked in a picture.

use plain_log::{Answer, Command, Event};

/// How an entry is marked.
#[derive(Clone, Copy, Debug, PartialEq, Eq)]
pub enum Mark {
    /// Done, or on its way.
    Plain,
    /// A leader was elected.
    Elected,
    /// A broker stopped.
    Stopped,
    /// A broker started.
    Started,
    /// A device failed, or something is damaged.
    Fault,
    /// The command was refused.
    Refused,
}

/// How an answer `Ok N` or `Ok` is marked.
fn mark_of_ok(command: &Command) -> Mark {
    match command {
        Command::Elect | Command::Unclean => Mark::Elected,
        Command::Stop => Mark::Stopped,
        _ => Mark::Plain,
    }
}

/// How an answer is marked.
fn mark_of_answer(command: &Command, answer: &Answer) -> Mark {
    match answer {
        Answer::Ok | Answer::OkAt(_) => mark_of_ok(command),
        Answer::Up(_) => Mark::Started,
        Answer::DiskFault
        | Answer::DiskFaultAt(_)
        | Answer::MetaFault
        | Answer::StoreFault
        | Answer::Damaged(..) => Mark::Fault,
        Answer::OkSpan(..)
        | Answer::Known
        | Answer::Follows(_)
        | Answer::Leads(_)
        | Answer::Cut(_)
        | Answer::Rebuilt(_)
        | Answer::Level
        | Answer::Copied(_)
        | Answer::CopiedSegment(..)
        | Answer::Kept
        | Answer::Dropped(..)
        | Answer::Raised(_)
        | Answer::Deleted(_)
        | Answer::Empty
        | Answer::Run { .. }
        | Answer::Offset(_)
        | Answer::NoOffset => Mark::Plain,
        _ => Mark::Refused,
    }
}

/// Returns the mark of an entry of this command.
pub fn mark_of(command: &Command, event: &Event) -> Mark {
    match event {
        Event::Begins { .. } => Mark::Plain,
        Event::Answers(answer) => mark_of_answer(command, answer),
    }
}
