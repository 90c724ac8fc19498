// A table of calls, over a memory of two levels and over one that is one map: both see the same.
use crate::runs::{End, Run, ends, host_with};
use crate::steps::{Object, R, Size, Slot, Step};
use sample_images::NEXT;
use std::alloc::Global;
use std::test::Fail;

// All calls of the trait: objects are made, filled, read, pinned, marked and said; two change places; and dead ones go.
pub(crate) const STEPS: &[Step] = &[
    Step::Known(R::A, Object::Association),
    Step::Value(R::A),
    Step::Len(R::A),
    Step::Class(R::B, R::A),
    Step::Value(R::B),
    Step::Field(R::B, R::A, 1),
    Step::Value(R::B),
    Step::Len(R::B),
    Step::Field(R::C, R::B, 0),
    Step::Value(R::C),
    Step::Is(R::C, Object::String),
    Step::IsPinned(R::B),
    Step::Pin(Slot::First, R::B),
    Step::IsPinned(R::B),
    Step::IsPinned(R::C),
    Step::Known(R::A, Object::Array),
    Step::Make(R::B, R::A, Size::Fields(3)),
    Step::Value(R::B),
    Step::Int(R::C, -7),
    Step::Value(R::C),
    Step::Same(R::B, R::C),
    Step::IsPinned(R::C),
    Step::Store(R::B, 0, R::C),
    Step::Store(R::B, 1, R::B),
    Step::Store(R::B, 2, R::A),
    Step::Unpin(Slot::First),
    Step::Is(R::A, Object::Array),
    Step::Is(R::A, Object::String),
    Step::Int(R::A, 7),
    Step::Value(R::A),
    Step::Same(R::A, R::C),
    Step::Field(R::A, R::B, 2),
    Step::Value(R::A),
    Step::Store(R::B, 2, R::C),
    Step::Field(R::A, R::B, 2),
    Step::Value(R::A),
    Step::Known(R::A, Object::String),
    Step::Make(R::C, R::A, Size::Bytes(5)),
    Step::SetByte(R::C, 4, 72),
    Step::Byte(R::C, 4),
    Step::ReadBytes(R::C),
    Step::Store(R::B, 0, R::C),
    Step::Say(R::C),
    Step::Remember(R::C),
    Step::Known(R::A, Object::Bitmap),
    Step::Make(R::A, R::A, Size::Words(6)),
    Step::SetWord(R::A, 3, 65_535),
    Step::Word(R::A, 3),
    Step::ReadWords(R::A),
    Step::WriteWords(R::A, 258, 65_534),
    Step::ReadWords(R::A),
    Step::Settle,
    Step::Word(R::A, 1),
    Step::Swap(R::A, R::C),
    Step::Byte(R::A, 4),
    Step::ReadWords(R::C),
    Step::Field(R::A, R::B, 0),
    Step::ReadWords(R::A),
    Step::Known(R::A, Object::Method),
    Step::Make(R::C, R::A, Size::Code(9)),
    Step::Header(R::C),
    Step::SetByte(R::C, 3, 255),
    Step::ReadBytes(R::C),
    Step::Byte(R::C, 8),
    Step::Copy(R::A, R::C),
    Step::Value(R::A),
    Step::Settle,
    Step::Make(R::A, R::B, Size::Fields(0)),
    Step::Class(R::C, R::A),
    Step::Value(R::C),
];

/// The objects of the image, one that holds itself, and one that this one holds.
pub(crate) const LEFT: u32 = 28;

/// A core of so many words and entries. The table's largest object takes 12 words, and is pinned with none beside; a pinned one takes 6.
struct Core {
    words: u16,
    entries: u16,
}

const CORES: &[Core] = &[
    Core {
        words: 13,
        entries: 55,
    },
    Core {
        words: 14,
        entries: 60,
    },
    Core {
        words: 32,
        entries: 160,
    },
    Core {
        words: 4_096,
        entries: 512,
    },
    Core {
        words: 65_535,
        entries: 32_767,
    },
];

// The run of the table over a core.
fn run_over(core: &Core, purges: bool) -> Run {
    Run {
        room: 32,
        core: core.words,
        entries: core.entries,
        next: NEXT,
        purges,
        first: STEPS,
        times: 0,
        again: &[],
        last: &[],
    }
}

// How the table ends over a host that neither fails nor lies.
fn end_over(alloc: Global, core: &Core, purges: bool) -> Result<End, Fail> {
    let mut host = host_with(alloc, NEXT, 0, 0, 0)?;
    ends(alloc, &mut host, &run_over(core, purges))
}

#[test]
fn both_memories_see_the_same(rt: HostRuntime) -> Result<(), Fail> {
    for core in CORES {
        assert_eq!(rt; end_over(rt.alloc(), core, false)?, End::Same(LEFT));
        assert_eq!(rt; end_over(rt.alloc(), core, true)?, End::Same(LEFT));
    }
    Ok(())
}
