// Chunks are taken and given back, and what is left is moved together.
ghost use Rattle.std.specs.Prelude.{◌<◌};
ghost use Rattle.core_segment.specs.Segment.{chunk_at};

use core_segment::{Addr, Segment};
use std::test::Fail;

// Whether the first of two chunks is given back, with room for 8 words and no more.
fn is_given_back(segment: &mut Segment, first: Addr) -> bool
    requires { 0 < (chunk_at segment.old first.place).owner }
{
    segment.give(first);
    segment.has_room(8) && !segment.has_room(9)
}

// Whether the step of compaction moves the chunk of owner 2 to the front, with the word that was written to it, and is the last.
fn is_moved(segment: &mut Segment) -> bool {
    let Some(moved) = segment.compact_step() else {
        return false;
    };
    let there = moved.owner == 2 && moved.to.place == 0;
    let whole = segment.len(moved.to) == 5 && segment.word(moved.to, 4) == 0x8001;
    there && whole && segment.compact_step().is_none() && segment.has_room(15)
}

#[test]
fn a_segment_is_compacted(rt: HostRuntime) -> Result<(), Fail> {
    let mut segment = Segment::new(rt.alloc(), 24)?;
    let first = segment.take(8, 1);
    let second = segment.take(9, 2);
    let free = segment.free_words();
    let (Some(first), Some(second), None) = (first, second, segment.take(8, 3)) else {
        return Err("there is room for two chunks alone".into());
    };
    segment.set_word(second, 4, 0x8001);
    let given = is_given_back(&mut segment, first);
    assert_eq!(rt; (free, given, is_moved(&mut segment)), (7, true, true));
    Ok(())
}
