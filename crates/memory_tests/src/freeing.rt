// Dead objects go, whatever they are when they die, and rings stay: at the end both memories have the same image.
use crate::runs::{End, Run, ends, host_with};
use crate::steps::{Object, R, Size, Slot, Step};
use sample_images::NEXT;
use std::alloc::Global;
use std::test::Fail;

/// The objects for which there is room beside a core of so many words and entries; some steps, others so many times, and some more; and how
/// many objects are kept at the end. The base image has 26.
struct Row {
    room: u16,
    first: &'static [Step],
    times: u16,
    again: &'static [Step],
    last: &'static [Step],
    kept: u32,
}

/// Three registers: a class, what was made last, and the head of a chain.
const BEGIN: &[Step] = &[Step::Known(R::A, Object::Array), Step::Int(R::C, 0)];

/// A link that holds the chain becomes its head.
const LINK: &[Step] = &[
    Step::Make(R::B, R::A, Size::Fields(2)),
    Step::Store(R::B, 0, R::C),
    Step::Copy(R::C, R::B),
];

/// Nothing holds the head any more.
const DROP: &[Step] = &[Step::Int(R::B, 1), Step::Int(R::C, 2), Step::Settle];

const ROWS: &[Row] = &[
    // a chain goes at once: there is room for its links again
    Row {
        room: 226,
        first: BEGIN,
        times: 200,
        again: LINK,
        last: DROP,
        kept: 26,
    },
    Row {
        room: 34,
        first: BEGIN,
        times: 20,
        again: &[
            Step::Make(R::B, R::A, Size::Fields(2)),
            Step::Store(R::B, 0, R::C),
            Step::Copy(R::C, R::B),
            Step::Settle,
            Step::Int(R::C, 7),
            Step::Settle,
        ],
        last: &[],
        kept: 26,
    },
    // links that are all but one behind the head stay, where a known object holds them
    Row {
        room: 64,
        first: &[
            Step::Known(R::A, Object::Array),
            Step::Known(R::C, Object::Association),
            Step::Store(R::C, 0, R::C),
            Step::Int(R::C, 0),
        ],
        times: 20,
        again: LINK,
        last: &[
            Step::Field(R::B, R::C, 0),
            Step::Known(R::A, Object::Association),
            Step::Store(R::A, 0, R::B),
            Step::Int(R::B, 1),
            Step::Int(R::C, 2),
            Step::Settle,
        ],
        kept: 45,
    },
    // a ring of two stays, and so does what it holds
    Row {
        room: 32,
        first: &[
            Step::Known(R::A, Object::Array),
            Step::Make(R::B, R::A, Size::Fields(2)),
            Step::Make(R::C, R::A, Size::Fields(2)),
            Step::Store(R::B, 0, R::C),
            Step::Store(R::C, 1, R::B),
            Step::Make(R::A, R::A, Size::Words(3)),
            Step::Store(R::C, 0, R::A),
            Step::Int(R::A, 0),
        ],
        times: 1,
        again: DROP,
        last: &[],
        kept: 29,
    },
    // one that is cut goes
    Row {
        room: 32,
        first: &[
            Step::Known(R::A, Object::Array),
            Step::Make(R::B, R::A, Size::Fields(2)),
            Step::Make(R::C, R::A, Size::Fields(2)),
            Step::Store(R::B, 0, R::C),
            Step::Store(R::C, 1, R::B),
            Step::Settle,
            Step::Store(R::C, 1, R::A),
        ],
        times: 1,
        again: DROP,
        last: &[],
        kept: 26,
    },
    // makings that drain
    Row {
        room: 34,
        first: BEGIN,
        times: 40,
        again: &[Step::Make(R::B, R::A, Size::Fields(2))],
        last: &[],
        kept: 26,
    },
    // it dies as a new object
    Row {
        room: 32,
        first: BEGIN,
        times: 1,
        again: &[Step::Make(R::B, R::A, Size::Fields(2)), Step::Int(R::B, 0)],
        last: &[Step::Settle],
        kept: 26,
    },
    // as one that was written, and is in the core again
    Row {
        room: 32,
        first: BEGIN,
        times: 1,
        again: &[
            Step::Make(R::B, R::A, Size::Fields(2)),
            Step::Purge,
            Step::Len(R::B),
            Step::Int(R::B, 0),
        ],
        last: &[Step::Settle],
        kept: 26,
    },
    // as a leaf
    Row {
        room: 32,
        first: BEGIN,
        times: 1,
        again: &[
            Step::Make(R::B, R::A, Size::Fields(2)),
            Step::Purge,
            Step::Int(R::B, 0),
        ],
        last: &[Step::Settle],
        kept: 26,
    },
    // on the disk alone, held by one that dies there
    Row {
        room: 32,
        first: BEGIN,
        times: 3,
        again: LINK,
        last: &[
            Step::Purge,
            Step::Int(R::B, 0),
            Step::Int(R::C, 0),
            Step::Purge,
            Step::Settle,
        ],
        kept: 26,
    },
    // as one that was pinned, and while it is pinned: then it stays
    Row {
        room: 32,
        first: BEGIN,
        times: 1,
        again: &[
            Step::Make(R::B, R::A, Size::Fields(2)),
            Step::Pin(Slot::First, R::B),
            Step::Int(R::B, 0),
            Step::Settle,
            Step::Unpin(Slot::First),
        ],
        last: &[Step::Settle],
        kept: 26,
    },
    Row {
        room: 32,
        first: BEGIN,
        times: 1,
        again: &[
            Step::Make(R::B, R::A, Size::Fields(2)),
            Step::Pin(Slot::First, R::B),
            Step::Int(R::B, 0),
            Step::Settle,
        ],
        last: &[],
        kept: 26,
    },
    // as one that was marked
    Row {
        room: 32,
        first: BEGIN,
        times: 1,
        again: &[
            Step::Make(R::B, R::A, Size::Fields(2)),
            Step::Remember(R::B),
            Step::Int(R::B, 0),
        ],
        last: &[Step::Settle],
        kept: 26,
    },
    // an object whose class is new
    Row {
        room: 32,
        first: BEGIN,
        times: 1,
        again: &[
            Step::Make(R::B, R::A, Size::Fields(2)),
            Step::Make(R::C, R::B, Size::Words(2)),
            Step::Int(R::B, 0),
            Step::Settle,
        ],
        last: DROP,
        kept: 26,
    },
];

/// A core of so many words and entries. The largest object takes 6 words, and is pinned once.
struct Core {
    words: u16,
    entries: u16,
}

const CORES: &[Core] = &[
    Core {
        words: 13,
        entries: 55,
    },
    Core {
        words: 64,
        entries: 64,
    },
    Core {
        words: 512,
        entries: 200,
    },
    Core {
        words: 4_096,
        entries: 512,
    },
];

// How a row ends over a core that is purged after each step or isn't.
fn end_over(alloc: Global, row: &Row, core: &Core, purges: bool) -> Result<End, Fail> {
    let run = Run {
        room: row.room,
        core: core.words,
        entries: core.entries,
        next: NEXT,
        purges,
        first: row.first,
        times: row.times,
        again: row.again,
        last: row.last,
    };
    let mut host = host_with(alloc, NEXT, 0, 0, 0)?;
    ends(alloc, &mut host, &run)
}

// The first row that ends otherwise.
fn first_wrong(alloc: Global, core: &Core, purges: bool) -> Result<Option<(usize, End)>, Fail> {
    for (i, row) in ROWS.iter().enumerate() {
        let end = end_over(alloc, row, core, purges)?;
        if end != End::Same(row.kept) {
            return Ok(Some((i, end)));
        }
    }
    Ok(None)
}

#[test]
fn dead_objects_go(rt: HostRuntime) -> Result<(), Fail> {
    for core in CORES {
        assert_eq!(rt; first_wrong(rt.alloc(), core, false)?, None);
        assert_eq!(rt; first_wrong(rt.alloc(), core, true)?, None);
    }
    Ok(())
}
