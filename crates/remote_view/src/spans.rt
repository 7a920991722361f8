//! Where an epoch lies in a line of epochs.

ghost use Rattle.std.specs.Prelude.{◌≡◌};
ghost use Rattle.epoch_line.specs.Line.{IsLine, start_or};
ghost use Rattle.remote_view.specs.Stairs.{span_of};

/// The offsets from one to another, which isn't included.
#[derive(Clone, Copy, Debug, PartialEq, Eq)]
pub struct Span {
    pub from: u64,
    pub to: u64,
}

/// Where an epoch lies in a line that ends at an offset, by halving.
pub fn span_of(line: &[(u32, u64)], epoch: u32, end: u64) -> Option<Span>
    requires { IsLine line.now }
    ensures { result ≡ span_of line.now epoch end }
{
    match line.binary_search_by_key(&epoch, |entry| entry.0) {
        Ok(at) => Some(Span {
            from: line[at].1,
            to: start_or(end, line.split_at(at + 1).1),
        }),
        Err(_) => None,
    }
}

/// Where the first entry starts, or an end.
fn start_or(end: u64, line: &[(u32, u64)]) -> u64
    ensures { result ≡ start_or end line.now }
{
    match line {
        [next, ..] => next.1,
        [] => end,
    }
}
