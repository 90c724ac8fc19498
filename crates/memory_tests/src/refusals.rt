// Each cause of a refusal with its exact numbers, in the smallest cores and rooms. The base image has 26 objects, and its next name is 68.
use crate::runs::{End, Run, ends, host_with};
use crate::steps::{Object, R, Size, Slot, Step};
use long_names::LAST_NAME;
use object_memory::{MemFault, Need};
use sample_images::NEXT;
use std::alloc::Global;
use std::test::Fail;

/// The objects of the base image.
const OBJECTS: u16 = 26;

/// The objects for which there is room, a core of so many words and entries, the next name, some steps, others so many times, and why they are
/// refused; or how many objects are kept at the end.
struct Row {
    room: u16,
    core: u16,
    entries: u16,
    next: u32,
    steps: &'static [Step],
    times: u16,
    again: &'static [Step],
    end: Result<u32, MemFault>,
}

const ROWS: &[Row] = &[
    // an object that is larger than the core: of two fields, and of none
    Row {
        room: OBJECTS,
        core: 6,
        entries: 51,
        next: NEXT,
        steps: &[Step::Known(R::A, Object::Association), Step::Len(R::A)],
        times: 0,
        again: &[],
        end: Ok(26),
    },
    Row {
        room: OBJECTS,
        core: 5,
        entries: 51,
        next: NEXT,
        steps: &[Step::Known(R::A, Object::Association), Step::Len(R::A)],
        times: 0,
        again: &[],
        end: Err(MemFault::CoreFull(Need {
            object: 8,
            words: 6,
            entries: 51,
        })),
    },
    Row {
        room: OBJECTS,
        core: 4,
        entries: 51,
        next: NEXT,
        steps: &[Step::Known(R::B, Object::SmallInteger), Step::Len(R::B)],
        times: 0,
        again: &[],
        end: Ok(26),
    },
    Row {
        room: OBJECTS,
        core: 5,
        entries: 51,
        next: NEXT,
        steps: &[
            Step::Known(R::B, Object::SmallInteger),
            Step::Value(R::B),
            Step::Known(R::A, Object::Association),
            Step::Field(R::B, R::A, 1),
        ],
        times: 0,
        again: &[],
        end: Err(MemFault::CoreFull(Need {
            object: 8,
            words: 6,
            entries: 51,
        })),
    },
    Row {
        room: OBJECTS,
        core: 5,
        entries: 51,
        next: NEXT,
        steps: &[
            Step::Known(R::A, Object::Association),
            Step::Pin(Slot::First, R::A),
        ],
        times: 0,
        again: &[],
        end: Err(MemFault::CoreFull(Need {
            object: 8,
            words: 6,
            entries: 51,
        })),
    },
    Row {
        room: OBJECTS,
        core: 5,
        entries: 51,
        next: NEXT,
        steps: &[Step::Known(R::A, Object::Association), Step::Mark(R::A)],
        times: 0,
        again: &[],
        end: Err(MemFault::CoreFull(Need {
            object: 8,
            words: 6,
            entries: 51,
        })),
    },
    Row {
        room: OBJECTS,
        core: 5,
        entries: 51,
        next: NEXT,
        steps: &[
            Step::Known(R::A, Object::Association),
            Step::Class(R::B, R::A),
        ],
        times: 0,
        again: &[],
        end: Err(MemFault::CoreFull(Need {
            object: 8,
            words: 6,
            entries: 51,
        })),
    },
    Row {
        room: OBJECTS,
        core: 5,
        entries: 51,
        next: NEXT,
        steps: &[
            Step::Known(R::A, Object::Association),
            Step::Store(R::A, 0, R::A),
        ],
        times: 0,
        again: &[],
        end: Err(MemFault::CoreFull(Need {
            object: 8,
            words: 6,
            entries: 51,
        })),
    },
    // pinned objects fill the core: each takes 4 words and its fields, and 2 entries and its fields
    Row {
        room: OBJECTS,
        core: 10,
        entries: 55,
        next: NEXT,
        steps: &[
            Step::Known(R::A, Object::Association),
            Step::Pin(Slot::First, R::A),
            Step::Known(R::B, Object::SmallInteger),
            Step::Len(R::B),
        ],
        times: 0,
        again: &[],
        end: Ok(26),
    },
    Row {
        room: OBJECTS,
        core: 9,
        entries: 55,
        next: NEXT,
        steps: &[
            Step::Known(R::A, Object::Association),
            Step::Pin(Slot::First, R::A),
            Step::Known(R::B, Object::SmallInteger),
            Step::Len(R::B),
        ],
        times: 0,
        again: &[],
        end: Err(MemFault::CoreFull(Need {
            object: 12,
            words: 10,
            entries: 55,
        })),
    },
    Row {
        room: OBJECTS,
        core: 6,
        entries: 55,
        next: NEXT,
        steps: &[
            Step::Known(R::A, Object::Association),
            Step::Pin(Slot::First, R::A),
            Step::Len(R::A),
        ],
        times: 0,
        again: &[],
        end: Ok(26),
    },
    // one object that is pinned twice counts once
    Row {
        room: OBJECTS,
        core: 10,
        entries: 55,
        next: NEXT,
        steps: &[
            Step::Known(R::A, Object::Association),
            Step::Pin(Slot::First, R::A),
            Step::Pin(Slot::Second, R::A),
            Step::Known(R::B, Object::SmallInteger),
            Step::Len(R::B),
        ],
        times: 0,
        again: &[],
        end: Ok(26),
    },
    Row {
        room: OBJECTS,
        core: 9,
        entries: 55,
        next: NEXT,
        steps: &[
            Step::Known(R::A, Object::Association),
            Step::Pin(Slot::First, R::A),
            Step::Pin(Slot::Second, R::A),
            Step::Known(R::B, Object::SmallInteger),
            Step::Len(R::B),
        ],
        times: 0,
        again: &[],
        end: Err(MemFault::CoreFull(Need {
            object: 12,
            words: 10,
            entries: 55,
        })),
    },
    Row {
        room: OBJECTS,
        core: 16,
        entries: 59,
        next: NEXT,
        steps: &[
            Step::Known(R::A, Object::Association),
            Step::Pin(Slot::First, R::A),
            Step::Field(R::B, R::A, 1),
            Step::Pin(Slot::Second, R::B),
            Step::Known(R::B, Object::SmallInteger),
            Step::Len(R::B),
        ],
        times: 0,
        again: &[],
        end: Ok(26),
    },
    Row {
        room: OBJECTS,
        core: 15,
        entries: 59,
        next: NEXT,
        steps: &[
            Step::Known(R::A, Object::Association),
            Step::Pin(Slot::First, R::A),
            Step::Field(R::B, R::A, 1),
            Step::Pin(Slot::Second, R::B),
            Step::Known(R::B, Object::SmallInteger),
            Step::Len(R::B),
        ],
        times: 0,
        again: &[],
        end: Err(MemFault::CoreFull(Need {
            object: 12,
            words: 16,
            entries: 59,
        })),
    },
    Row {
        room: OBJECTS,
        core: 12,
        entries: 59,
        next: NEXT,
        steps: &[
            Step::Known(R::A, Object::Association),
            Step::Pin(Slot::First, R::A),
            Step::Field(R::B, R::A, 1),
            Step::Pin(Slot::Second, R::B),
            Step::Unpin(Slot::First),
            Step::Known(R::B, Object::SmallInteger),
            Step::Len(R::B),
        ],
        times: 0,
        again: &[],
        end: Ok(26),
    },
    Row {
        room: OBJECTS,
        core: 11,
        entries: 59,
        next: NEXT,
        steps: &[
            Step::Known(R::A, Object::Association),
            Step::Pin(Slot::First, R::A),
            Step::Field(R::B, R::A, 1),
            Step::Pin(Slot::Second, R::B),
        ],
        times: 0,
        again: &[],
        end: Err(MemFault::CoreFull(Need {
            object: 60,
            words: 12,
            entries: 55,
        })),
    },
    // new objects
    Row {
        room: 27,
        core: 7,
        entries: 51,
        next: NEXT,
        steps: &[
            Step::Known(R::A, Object::Bitmap),
            Step::Make(R::A, R::A, Size::Words(3)),
        ],
        times: 0,
        again: &[],
        end: Ok(26),
    },
    Row {
        room: 27,
        core: 6,
        entries: 51,
        next: NEXT,
        steps: &[
            Step::Known(R::A, Object::Bitmap),
            Step::Make(R::A, R::A, Size::Words(3)),
        ],
        times: 0,
        again: &[],
        end: Err(MemFault::CoreFull(Need {
            object: 68,
            words: 7,
            entries: 51,
        })),
    },
    Row {
        room: 27,
        core: 6,
        entries: 51,
        next: NEXT,
        steps: &[
            Step::Known(R::A, Object::Array),
            Step::Make(R::A, R::A, Size::Fields(3)),
        ],
        times: 0,
        again: &[],
        end: Err(MemFault::CoreFull(Need {
            object: 68,
            words: 7,
            entries: 51,
        })),
    },
    Row {
        room: 27,
        core: 7,
        entries: 51,
        next: NEXT,
        steps: &[
            Step::Known(R::A, Object::String),
            Step::Make(R::A, R::A, Size::Bytes(5)),
        ],
        times: 0,
        again: &[],
        end: Ok(26),
    },
    Row {
        room: 27,
        core: 6,
        entries: 51,
        next: NEXT,
        steps: &[
            Step::Known(R::A, Object::String),
            Step::Make(R::A, R::A, Size::Bytes(5)),
        ],
        times: 0,
        again: &[],
        end: Err(MemFault::CoreFull(Need {
            object: 68,
            words: 7,
            entries: 51,
        })),
    },
    Row {
        room: 27,
        core: 12,
        entries: 51,
        next: NEXT,
        steps: &[
            Step::Known(R::A, Object::Method),
            Step::Make(R::A, R::A, Size::Code(9)),
        ],
        times: 0,
        again: &[],
        end: Ok(26),
    },
    Row {
        room: 27,
        core: 11,
        entries: 51,
        next: NEXT,
        steps: &[
            Step::Known(R::A, Object::Method),
            Step::Make(R::A, R::A, Size::Code(9)),
        ],
        times: 0,
        again: &[],
        end: Err(MemFault::CoreFull(Need {
            object: 68,
            words: 12,
            entries: 51,
        })),
    },
    Row {
        room: 27,
        core: 13,
        entries: 55,
        next: NEXT,
        steps: &[
            Step::Known(R::A, Object::Association),
            Step::Pin(Slot::First, R::A),
            Step::Known(R::B, Object::Array),
            Step::Make(R::B, R::B, Size::Fields(3)),
        ],
        times: 0,
        again: &[],
        end: Ok(26),
    },
    Row {
        room: 27,
        core: 12,
        entries: 55,
        next: NEXT,
        steps: &[
            Step::Known(R::A, Object::Association),
            Step::Pin(Slot::First, R::A),
            Step::Known(R::B, Object::Array),
            Step::Make(R::B, R::B, Size::Fields(3)),
        ],
        times: 0,
        again: &[],
        end: Err(MemFault::CoreFull(Need {
            object: 68,
            words: 13,
            entries: 55,
        })),
    },
    // two that aren't in the core change places on the disk
    Row {
        room: OBJECTS,
        core: 4,
        entries: 51,
        next: NEXT,
        steps: &[
            Step::Known(R::A, Object::Association),
            Step::Known(R::B, Object::SmallInteger),
            Step::Swap(R::A, R::B),
            Step::Len(R::A),
            Step::Swap(R::B, R::A),
        ],
        times: 0,
        again: &[],
        end: Ok(26),
    },
    // 24 registers with as many names leave 27 of 51 entries to a call
    Row {
        room: OBJECTS,
        core: 22,
        entries: 51,
        next: NEXT,
        steps: &[Step::Fill, Step::Len(R::A)],
        times: 0,
        again: &[],
        end: Ok(26),
    },
    Row {
        room: OBJECTS,
        core: 22,
        entries: 50,
        next: NEXT,
        steps: &[Step::Fill, Step::Len(R::A)],
        times: 0,
        again: &[],
        end: Err(MemFault::CoreFull(Need {
            object: 28,
            words: 4,
            entries: 51,
        })),
    },
    // before the eighth making since a settling: what was there then, what was made, and one
    Row {
        room: OBJECTS,
        core: 4096,
        entries: 512,
        next: NEXT,
        steps: &[
            Step::Known(R::A, Object::Bitmap),
            Step::Make(R::B, R::A, Size::Words(3)),
        ],
        times: 0,
        again: &[],
        end: Err(MemFault::WorkFull { live: 27, room: 26 }),
    },
    Row {
        room: 27,
        core: 4096,
        entries: 512,
        next: NEXT,
        steps: &[
            Step::Known(R::A, Object::Bitmap),
            Step::Make(R::B, R::A, Size::Words(3)),
        ],
        times: 0,
        again: &[],
        end: Ok(26),
    },
    Row {
        room: 27,
        core: 4096,
        entries: 512,
        next: NEXT,
        steps: &[
            Step::Known(R::A, Object::Bitmap),
            Step::Make(R::B, R::A, Size::Words(3)),
            Step::Known(R::A, Object::Bitmap),
            Step::Make(R::B, R::A, Size::Words(3)),
        ],
        times: 0,
        again: &[],
        end: Err(MemFault::WorkFull { live: 28, room: 27 }),
    },
    Row {
        room: 27,
        core: 4096,
        entries: 512,
        next: NEXT,
        steps: &[
            Step::Known(R::A, Object::Bitmap),
            Step::Make(R::B, R::A, Size::Words(3)),
            Step::Settle,
            Step::Known(R::A, Object::Bitmap),
            Step::Make(R::B, R::A, Size::Words(3)),
        ],
        times: 0,
        again: &[],
        end: Err(MemFault::WorkFull { live: 28, room: 27 }),
    },
    Row {
        room: 28,
        core: 4096,
        entries: 512,
        next: NEXT,
        steps: &[
            Step::Known(R::A, Object::Bitmap),
            Step::Make(R::B, R::A, Size::Words(3)),
            Step::Known(R::A, Object::Bitmap),
            Step::Make(R::B, R::A, Size::Words(3)),
            Step::Settle,
            Step::Known(R::A, Object::Bitmap),
            Step::Make(R::B, R::A, Size::Words(3)),
        ],
        times: 0,
        again: &[],
        end: Ok(26),
    },
    Row {
        room: 28,
        core: 4096,
        entries: 512,
        next: NEXT,
        steps: &[
            Step::Known(R::A, Object::Bitmap),
            Step::Make(R::B, R::A, Size::Words(3)),
            Step::Known(R::A, Object::Bitmap),
            Step::Make(R::B, R::A, Size::Words(3)),
            Step::Settle,
            Step::Known(R::A, Object::Bitmap),
            Step::Make(R::B, R::A, Size::Words(3)),
            Step::Known(R::A, Object::Bitmap),
            Step::Make(R::B, R::A, Size::Words(3)),
        ],
        times: 0,
        again: &[],
        end: Err(MemFault::WorkFull { live: 29, room: 28 }),
    },
    Row {
        room: 33,
        core: 4096,
        entries: 512,
        next: NEXT,
        steps: &[Step::Known(R::A, Object::Bitmap)],
        times: 8,
        again: &[Step::Make(R::B, R::A, Size::Words(3))],
        end: Err(MemFault::WorkFull { live: 34, room: 33 }),
    },
    // from the eighth on dead objects go first, and what is kept counts
    Row {
        room: 34,
        core: 4096,
        entries: 512,
        next: NEXT,
        steps: &[Step::Known(R::A, Object::Bitmap)],
        times: 30,
        again: &[Step::Make(R::B, R::A, Size::Words(3))],
        end: Ok(26),
    },
    Row {
        room: 34,
        core: 4096,
        entries: 512,
        next: NEXT,
        steps: &[Step::Known(R::A, Object::Array), Step::Int(R::C, 0)],
        times: 9,
        again: &[
            Step::Make(R::B, R::A, Size::Fields(1)),
            Step::Store(R::B, 0, R::C),
            Step::Copy(R::C, R::B),
        ],
        end: Err(MemFault::WorkFull { live: 35, room: 34 }),
    },
    Row {
        room: 34,
        core: 4096,
        entries: 512,
        next: NEXT,
        steps: &[Step::Known(R::A, Object::Array), Step::Int(R::C, 0)],
        times: 8,
        again: &[
            Step::Make(R::B, R::A, Size::Fields(1)),
            Step::Store(R::B, 0, R::C),
            Step::Copy(R::C, R::B),
        ],
        end: Ok(26),
    },
    // names go before room
    Row {
        room: 28,
        core: 4096,
        entries: 512,
        next: LAST_NAME,
        steps: &[
            Step::Known(R::A, Object::Bitmap),
            Step::Make(R::B, R::A, Size::Words(3)),
        ],
        times: 0,
        again: &[],
        end: Err(MemFault::NamesSpent),
    },
    Row {
        room: OBJECTS,
        core: 4096,
        entries: 512,
        next: LAST_NAME,
        steps: &[
            Step::Known(R::A, Object::Bitmap),
            Step::Make(R::B, R::A, Size::Words(3)),
        ],
        times: 0,
        again: &[],
        end: Err(MemFault::NamesSpent),
    },
    Row {
        room: 28,
        core: 4096,
        entries: 512,
        next: LAST_NAME - 2,
        steps: &[
            Step::Known(R::A, Object::Bitmap),
            Step::Make(R::B, R::A, Size::Words(3)),
        ],
        times: 0,
        again: &[],
        end: Ok(26),
    },
    Row {
        room: 28,
        core: 4096,
        entries: 512,
        next: LAST_NAME - 2,
        steps: &[
            Step::Known(R::A, Object::Bitmap),
            Step::Make(R::B, R::A, Size::Words(3)),
            Step::Known(R::A, Object::Bitmap),
            Step::Make(R::B, R::A, Size::Words(3)),
        ],
        times: 0,
        again: &[],
        end: Err(MemFault::NamesSpent),
    },
];

// How a row ends.
fn end_of(alloc: Global, row: &Row) -> Result<End, Fail> {
    let run = Run {
        room: row.room,
        core: row.core,
        entries: row.entries,
        next: row.next,
        purges: false,
        first: row.steps,
        times: row.times,
        again: row.again,
        last: &[],
    };
    let mut host = host_with(alloc, row.next, 0, 0, 0)?;
    ends(alloc, &mut host, &run)
}

// How it is to end.
fn wanted(row: &Row) -> End {
    match row.end {
        Ok(objects) => End::Same(objects),
        Err(fault) => End::Refused(fault),
    }
}

// The first row that ends otherwise.
fn first_wrong(alloc: Global) -> Result<Option<(usize, End)>, Fail> {
    for (i, row) in ROWS.iter().enumerate() {
        let end = end_of(alloc, row)?;
        if end != wanted(row) {
            return Ok(Some((i, end)));
        }
    }
    Ok(None)
}

// An object takes 4 words and one for each field, word, header and two bytes, and an access 51 entries.
#[test]
fn each_cause(rt: HostRuntime) -> Result<(), Fail> {
    assert_eq!(rt; first_wrong(rt.alloc())?, None);
    Ok(())
}
