//! What holds of every segment.
ghost use Rattle.core_segment.specs.Chunks.{IsLaidOut};
ghost use Rattle.core_segment.specs.Segment.{chunks_of, free_of, size_of};

use crate::Segment;

/// Its chunks lie within the region and never overlap, and their words and the free ones are all of the region's.
pub fn chunks_never_overlap(segment: &Segment)
    ensures { IsLaidOut (chunks_of segment.now) (free_of segment.now) (size_of segment.now) }
{
    let _ = segment;
}
