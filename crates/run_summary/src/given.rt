//! What a summary counts: answers by their words, and ends of partitions.

ghost use Rattle.std.specs.Prelude.{◌≡◌};

use std::marker::Model;
use tier_base::PartitionId;

/// A command's answer, each by its name.
#[derive(Debug, Drop)]
pub struct Given {
    pub command: &'static str,
    pub word: &'static str,
}

impl Model for Given {
    ghost use Rattle.load_gen.specs.Summary.{Answered};

    ghost Value = { Answered };

    ghost view = { λ given. record { command = given.command.now; word = given.word.now } };
}

impl Given {
    /// Gives the same again.
    pub fn again(&self) -> Given
        ensures { result ≡ self.now }
    {
        Given {
            command: self.command,
            word: self.word,
        }
    }
}

/// Where a partition ended.
#[derive(Debug, Drop)]
pub struct End {
    pub partition: PartitionId,
    /// The log end offset of broker 0.
    pub log_end: u128,
    /// The high watermark.
    pub mark: u64,
    /// The log start offset.
    pub start: u64,
}

impl Model for End {
    ghost use Rattle.load_gen.specs.Summary.{Ended};

    ghost Value = { Ended };

    ghost view = { λ end. record {
      partition = end.partition.0;
      log_end = end.log_end;
      mark = end.mark;
      start = end.start;
    } };
}
