//! What a leader answers of its log's offsets, without the remote tier.

ghost use Rattle.std.specs.Prelude.{◌≡◌, ◌<◌, length};
ghost use Rattle.partition_commands.specs.Partition.{AtNode};
ghost use Rattle.partition_commands.specs.Turns.{IsAtOnce, OffsetRow};

use crate::partition_state::PartitionState;
use crate::roles::leading;
use disk_model::Disk;
use plain_log::{Answer, Which};

impl<D: Disk> PartitionState<D> {
    /// Answers an offset that is known at once.
    pub(crate) fn offset(&self, b: usize, which: Which) -> Answer
        requires node { b < length self.now.nodes }
        requires known { IsAtOnce which }
        ensures { AtNode self.now b (λ x. OffsetRow self.now x which result self.now) }
    {
        let node = self.nodes.get(b);
        if !node.is_up() {
            return Answer::Down;
        }
        if leading(node.role).is_none() {
            return Answer::NotLeader;
        }
        let start = self.registry.start;
        match which {
            Which::Earliest => Answer::Offset(start),
            Which::Latest => Answer::Offset(node.known_high_watermark),
            Which::EarliestLocal => Answer::Offset(node.local_start().max(start)),
            // These aren't known at once: `known`.
            Which::LatestTiered | Which::At(_) => unreachable!(),
        }
    }
}
