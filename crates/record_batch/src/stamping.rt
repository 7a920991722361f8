//! Stamping: a batch is moved to another base offset and leader epoch, as a broker does when it appends one.

ghost use Rattle.std.specs.Prelude.{◌≡◌, ◌≤◌, length};
ghost use Rattle.record_batch.specs.Stamp.{stamped};

/// Overwrites the base offset and the leader epoch of a batch. Its checksum stays right, since it covers neither.
#[tactic(auto, unfolding(crate::specs::Stamp::stamped))]
pub fn stamp(batch: &mut [u8], base: u64, epoch: u32)
    requires { 16 ≤ length batch.old }
    ensures { batch.new ≡ stamped batch.old base epoch }
{
    batch[..8].copy_from_slice(base.to_be_bytes().as_slice());
    batch[12..16].copy_from_slice(epoch.to_be_bytes().as_slice());
}
