//! What memory keeps of the files: where each event ends, and how the last writing call ended.
//!
//!   Exact   --an append--> Exact
//!   Exact, Loose   --an append that isn't Ok--> Unsure
//!   Unsure   --the gate replaced by what it reads--> Loose
//!   Loose   --an append, which cuts first--> Exact

ghost use Rattle.std.specs.Prelude.{◌≡◌, ◌≤◌, length};
ghost use Rattle.meta_log_file.specs.Ends.{start_of};

/// How the files are.
#[derive(Clone, Copy, Debug, PartialEq, Eq)]
pub enum Tail {
    /// The events end where the gate is.
    Exact,
    /// After the gate there may be bytes that don't count.
    Loose,
    /// Where the gate is isn't sure: after the events, or where one event more ends.
    Unsure(Option<u64>),
}

/// Where the events of the files end, and how the files are.
#[derive(Drop)]
pub struct Marks {
    pub ends: Vec<u64>,
    pub tail: Tail,
}

impl Marks {
    /// Returns where the last event ends.
    pub fn end(&self) -> u64
        ensures { result ≡ start_of self.now.ends.items (length self.now.ends.items) }
    {
        start_of(&self.ends, self.ends.len())
    }
}

/// Where the event of a number begins, or the last one ends.
pub fn start_of(ends: &[u64], number: usize) -> u64
    requires { number ≤ length ends.now }
    ensures { result ≡ start_of ends.now number }
{
    if number == 0 { 0 } else { ends[number - 1] }
}
