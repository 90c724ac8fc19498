// Tables of calls on a space of blocks, with their answers.
ghost use Rattle.std.specs.Prelude.{◌<◌};

use crate::hosts::attached;
use loom_outside::DiskFault::{self, Damaged, Work};
use loom_outside::{Host, LyingHost};
use std::alloc::Global;
use std::slice;
use std::test::Fail;
use work_space::{LAST_END, SIZE_CLASSES, Space, block_bytes, size_class_of};

/// Where blocks begin.
const FROM: u64 = 1_000;

/// A call, and what comes of it. A block is told by its place and its size class.
#[derive(Clone, Copy)]
enum Step {
    Take(u8, Result<u64, DiskFault>),
    Give(u64, u8, Result<(), DiskFault>),
    /// This link is written to a place.
    Link(u64, u64),
}

/// A step, and where the last block ends then.
#[derive(Clone, Copy)]
struct Row {
    step: Step,
    end: u64,
}

// Whether the answer is the one that is wanted.
fn run(space: &mut Space, host: &mut LyingHost, step: Step) -> Result<bool, Fail> {
    match step {
        Step::Take(c, want) => Ok(usize::from(c) < SIZE_CLASSES && space.take(host, c) == want),
        Step::Give(place, c, want) => {
            Ok(usize::from(c) < SIZE_CLASSES && space.give(host, place, c) == want)
        }
        Step::Link(place, link) => {
            host.write_at(place, &link.to_be_bytes())?;
            Ok(true)
        }
    }
}

// Takes the steps over a space that begins at a place, where the calls on Work of these numbers fail. The first row that comes out
// otherwise.
fn first_wrong(
    alloc: Global,
    failing: &[u64],
    from: u64,
    rows: &[Row],
) -> Result<Option<usize>, Fail>
    requires { 0 < from }
{
    let mut host = attached(alloc, failing)?;
    let mut space = Space::new(from);
    for (i, row) in rows.iter().enumerate() {
        if !run(&mut space, &mut host, row.step)? || space.end() != row.end {
            return Ok(Some(i));
        }
    }
    Ok(None)
}

const BLOCKS: &[Row] = &[
    Row {
        step: Step::Take(0, Ok(1_000)),
        end: 1_032,
    },
    Row {
        step: Step::Take(2, Ok(1_032)),
        end: 1_160,
    },
    Row {
        step: Step::Take(0, Ok(1_160)),
        end: 1_192,
    },
    Row {
        step: Step::Take(14, Ok(1_192)),
        end: 525_480,
    },
    Row {
        step: Step::Give(1_000, 0, Ok(())),
        end: 525_480,
    },
    Row {
        step: Step::Give(1_160, 0, Ok(())),
        end: 525_480,
    },
    Row {
        step: Step::Take(1, Ok(525_480)),
        end: 525_544,
    },
    Row {
        step: Step::Take(0, Ok(1_160)),
        end: 525_544,
    },
    Row {
        step: Step::Give(1_032, 2, Ok(())),
        end: 525_544,
    },
    Row {
        step: Step::Take(0, Ok(1_000)),
        end: 525_544,
    },
    Row {
        step: Step::Take(0, Ok(525_544)),
        end: 525_576,
    },
    Row {
        step: Step::Take(2, Ok(1_032)),
        end: 525_576,
    },
];

// A call on Work that fails changes nothing: the next one is answered as if it were the first.
const FAILING: &[Row] = &[
    Row {
        step: Step::Take(3, Ok(FROM)),
        end: FROM + 256,
    },
    Row {
        step: Step::Give(FROM, 3, Err(Work { count: 1 })),
        end: FROM + 256,
    },
    Row {
        step: Step::Give(FROM, 3, Ok(())),
        end: FROM + 256,
    },
    Row {
        step: Step::Take(3, Err(Work { count: 2 })),
        end: FROM + 256,
    },
    Row {
        step: Step::Take(3, Ok(FROM)),
        end: FROM + 256,
    },
];

#[test]
fn blocks_are_taken_and_given_back(rt: HostRuntime) -> Result<(), Fail> {
    assert_eq!(rt; first_wrong(rt.alloc(), &[], FROM, BLOCKS)?, None);
    Ok(())
}

#[test]
fn a_failed_call_is_told(rt: HostRuntime) -> Result<(), Fail> {
    assert_eq!(rt; first_wrong(rt.alloc(), &[1, 3], FROM, FAILING)?, None);
    Ok(())
}

/// What stands as the link of the first of two free blocks, and whether it can be one.
struct Link {
    link: u64,
    right: bool,
}

const LINKS: &[Link] = &[
    Link {
        link: 0,
        right: true,
    },
    Link {
        link: FROM,
        right: true,
    },
    Link {
        link: FROM + 32,
        right: true,
    },
    Link {
        link: FROM + 16,
        right: false,
    },
    Link {
        link: FROM - 32,
        right: false,
    },
    Link {
        link: FROM + 64,
        right: false,
    },
    Link {
        link: 1,
        right: false,
    },
    Link {
        link: u64::MAX,
        right: false,
    },
];

/// The first block is free, its link is written anew, and it is taken again.
fn relinked(row: &Link) -> [Row; 5] {
    let end = FROM + 64;
    let taken = if row.right {
        Ok(FROM)
    } else {
        Err(Damaged {
            place: FROM,
            name: 0,
        })
    };
    [
        Row {
            step: Step::Take(0, Ok(FROM)),
            end: FROM + 32,
        },
        Row {
            step: Step::Take(0, Ok(FROM + 32)),
            end,
        },
        Row {
            step: Step::Give(FROM, 0, Ok(())),
            end,
        },
        Row {
            step: Step::Link(FROM, row.link),
            end,
        },
        Row {
            step: Step::Take(0, taken),
            end,
        },
    ]
}

#[test]
fn a_wrong_link_is_damaged(rt: HostRuntime) -> Result<(), Fail> {
    for row in LINKS {
        assert_eq!(rt; first_wrong(rt.alloc(), &[], FROM, &relinked(row))?, None);
    }
    Ok(())
}

/// Where blocks begin, and the first step there.
struct Last {
    from: u64,
    row: Row,
}

const LAST: &[Last] = &[
    Last {
        from: LAST_END - 32,
        row: Row {
            step: Step::Take(0, Ok(LAST_END - 32)),
            end: LAST_END,
        },
    },
    Last {
        from: LAST_END - 32,
        row: Row {
            step: Step::Take(
                1,
                Err(Damaged {
                    place: LAST_END - 32,
                    name: 0,
                }),
            ),
            end: LAST_END - 32,
        },
    },
    Last {
        from: LAST_END,
        row: Row {
            step: Step::Take(
                0,
                Err(Damaged {
                    place: LAST_END,
                    name: 0,
                }),
            ),
            end: LAST_END,
        },
    },
    Last {
        from: u64::MAX,
        row: Row {
            step: Step::Take(
                14,
                Err(Damaged {
                    place: u64::MAX,
                    name: 0,
                }),
            ),
            end: u64::MAX,
        },
    },
];

#[test]
fn blocks_end_somewhere(rt: HostRuntime) -> Result<(), Fail> {
    for last in LAST {
        assert!(rt; last.from > 0);
        let rows = slice::from_ref(&last.row);
        assert_eq!(rt; first_wrong(rt.alloc(), &[], last.from, rows)?, None);
    }
    Ok(())
}

/// The smallest size class whose blocks have so many bytes.
struct Size {
    bytes: u64,
    class: Option<u8>,
}

const SIZES: &[Size] = &[
    Size {
        bytes: 0,
        class: Some(0),
    },
    Size {
        bytes: 32,
        class: Some(0),
    },
    Size {
        bytes: 33,
        class: Some(1),
    },
    Size {
        bytes: 64,
        class: Some(1),
    },
    Size {
        bytes: 65,
        class: Some(2),
    },
    Size {
        bytes: 262_160,
        class: Some(14),
    },
    Size {
        bytes: 524_288,
        class: Some(14),
    },
    Size {
        bytes: 524_289,
        class: None,
    },
    Size {
        bytes: u64::MAX,
        class: None,
    },
];

#[test]
fn size_classes_have_room(rt: HostRuntime) {
    let wrong = SIZES
        .iter()
        .position(|row| size_class_of(row.bytes) != row.class);
    assert_eq!(rt; wrong, None);
    assert_eq!(rt; (block_bytes(0), block_bytes(1)), (32, 64));
    assert_eq!(rt; (block_bytes(7), block_bytes(14)), (4_096, 524_288));
}
