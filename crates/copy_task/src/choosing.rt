//! Which closed segment a leader copies next.

ghost use Rattle.std.specs.Prelude.{◌≡◌};
ghost use Rattle.std.specs.Option.{option_map};
ghost use Rattle.copy_task.specs.Candidate.{below};

use segment_file::Growing;

/// The closed segment to copy: the first one that ends past what the remote tier already has, if it ends at or below
/// the broker's high watermark `known_high_watermark`.
pub fn candidate(past: Option<&Growing>, known: u64) -> Option<&Growing>
    ensures { option_map (λ segment. segment.now) result
        ≡ below known (option_map (λ segment. segment.now) past.entry) }
{
    match past {
        Some(segment) if segment.end() <= known => Some(segment),
        _ => None,
    }
}
