// Images that differ from the base image, and what loading each of them answers.
use disk_objects::DiskObjects;
use image_reader::{LoadFault, load};
use long_names::Name;
use loom_outside::{DiskFault, Host, LyingHost, MemoryHost, Role};
use sample_images::{NEXT, base};
use std::alloc::Global;
use std::test::Fail;
use work_directory::MOST_NAMES;

/// The base image with other bytes at some offsets, and the rule that it breaks first, with its place.
struct Broken {
    changes: &'static [(usize, u8)],
    rule: u8,
    place: u64,
}

/// The base image with the bytes of a state behind its first 16, other bytes at some offsets, and so many bytes in all; how many objects
/// there is room for; and how many were loaded, or why none was.
struct Row {
    state: &'static [u8],
    changes: &'static [(usize, u8)],
    len: usize,
    room: u32,
    answer: Result<u32, LoadFault>,
}

fn change(bytes: &mut Vec<u8>, changes: &[(usize, u8)]) -> Result<(), Fail> {
    for (at, byte) in changes {
        match bytes.get_mut(*at) {
            Some(old) => *old = *byte,
            None => return Err("a change is within the image".into()),
        }
    }
    Ok(())
}

fn image(
    alloc: Global,
    state: &[u8],
    changes: &[(usize, u8)],
    len: usize,
) -> Result<Vec<u8>, Fail> {
    let Ok(octets) = base(alloc)?.finish(alloc, NEXT) else {
        return Err("the base image breaks no rule".into());
    };
    let (head, records) = octets.bytes().split_at(octets.len().min(16));
    let mut bytes = Vec::new(alloc);
    bytes.extend_from_slice(head)?;
    bytes.extend_from_slice(state)?;
    bytes.extend_from_slice(records)?;
    change(&mut bytes, changes)?;
    bytes.resize(len, 0)?;
    Ok(bytes)
}

/// A host with this image and an empty Work, of which the call of this number on a role fails, counted from 1.
fn host_with(alloc: Global, bytes: &[u8], failing: Option<(Role, u64)>) -> Result<LyingHost, Fail> {
    let mut host = MemoryHost::new(alloc, 1_000)?;
    host.add_file("image", bytes)?;
    host.attach(Role::Work, "work")?;
    host.attach(Role::Image, "image")?;
    if let Some((role, nth)) = failing {
        host.fail(role, nth)?;
    }
    Ok(LyingHost::new(host, 0, 0))
}

fn loaded(
    alloc: Global,
    bytes: &[u8],
    failing: Option<(Role, u64)>,
    room: u32,
) -> Result<Result<u32, LoadFault>, Fail> {
    if room == 0 || room > MOST_NAMES {
        return Err("a disk has room for 1 to 1,048,576 objects".into());
    }
    let mut host = host_with(alloc, bytes, failing)?;
    let mut disk = DiskObjects::begin(&mut host, room);
    match load(alloc, &mut disk, room) {
        Ok(image) => match disk.count(Name::NIL) {
            Ok(Some(_)) => Ok(Ok(image.objects)),
            _ => Err("nil is on the disk".into()),
        },
        Err(fault) => Ok(Err(fault)),
    }
}

fn breaks(alloc: Global, row: &Broken) -> Result<bool, Fail> {
    let bytes = image(alloc, &[], row.changes, 652)?;
    let answer = loaded(alloc, &bytes, None, 1_024)?;
    Ok(
        answer
            == Err(LoadFault::Bad {
                rule: row.rule,
                place: row.place,
            }),
    )
}

fn answers(alloc: Global, row: &Row) -> Result<bool, Fail> {
    let bytes = image(alloc, row.state, row.changes, row.len)?;
    let answer = loaded(alloc, &bytes, None, row.room)?;
    Ok(answer == row.answer)
}

// Each rule once, in the base image of version 1. Of the record of the name 2 the name stands at 16, the class at 20 and the kind at 32;
// of 8 the first field at 96; of the method the size at 546, the literal count at 548, the header at 552 and the code at 556.
const BROKEN: &[Broken] = &[
    Broken {
        changes: &[(0, 88)],
        rule: 1,
        place: 0,
    },
    Broken {
        changes: &[(7, 3)],
        rule: 2,
        place: 4,
    },
    Broken {
        changes: &[(11, 21)],
        rule: 3,
        place: 8,
    },
    Broken {
        changes: &[(15, 69)],
        rule: 3,
        place: 12,
    },
    Broken {
        changes: &[(19, 0)],
        rule: 4,
        place: 16,
    },
    // the name of the record before it, and then the next name
    Broken {
        changes: &[(39, 2)],
        rule: 4,
        place: 36,
    },
    Broken {
        changes: &[(15, 66)],
        rule: 4,
        place: 560,
    },
    Broken {
        changes: &[(33, 4)],
        rule: 5,
        place: 32,
    },
    Broken {
        changes: &[(23, 17)],
        rule: 6,
        place: 20,
    },
    Broken {
        changes: &[(99, 0)],
        rule: 6,
        place: 96,
    },
    Broken {
        changes: &[(546, 62), (547, 129)],
        rule: 7,
        place: 546,
    },
    Broken {
        changes: &[(551, 1)],
        rule: 7,
        place: 552,
    },
    // three bytes of code, and the fourth in the place of a zero
    Broken {
        changes: &[(547, 3)],
        rule: 8,
        place: 559,
    },
    // a field and a count: the object that holds a name of none has the higher name
    Broken {
        changes: &[(159, 25), (651, 70)],
        rule: 10,
        place: 66,
    },
    Broken {
        changes: &[(159, 25)],
        rule: 11,
        place: 16,
    },
    Broken {
        changes: &[(159, 23)],
        rule: 11,
        place: 16,
    },
    // the name 58 becomes 54, and a field that was nil holds it
    Broken {
        changes: &[(31, 18), (447, 54), (459, 1), (651, 54)],
        rule: 12,
        place: 58,
    },
    // an object that isn't known and that nothing holds
    Broken {
        changes: &[(447, 54)],
        rule: 11,
        place: 54,
    },
];

// Nothing of the state.
const STATE: [u8; 20] = [0; 20];

const FULL: LoadFault = LoadFault::Disk(DiskFault::Full { held: 26, room: 25 });

// Lengths, room and states.
const ROWS: &[Row] = &[
    Row {
        state: &[],
        changes: &[],
        len: 652,
        room: 26,
        answer: Ok(26),
    },
    Row {
        state: &STATE,
        changes: &[(7, 2)],
        len: 672,
        room: 1_024,
        answer: Ok(26),
    },
    // a display, and a timer with its tick
    Row {
        state: &STATE,
        changes: &[(7, 2), (23, 60), (31, 62), (35, 5)],
        len: 672,
        room: 1_024,
        answer: Ok(26),
    },
    // one more than there is room for, whatever breaks behind the first 16 bytes
    Row {
        state: &[],
        changes: &[],
        len: 652,
        room: 25,
        answer: Err(FULL),
    },
    Row {
        state: &[],
        changes: &[(19, 0)],
        len: 652,
        room: 25,
        answer: Err(FULL),
    },
    Row {
        state: &STATE,
        changes: &[(7, 2)],
        len: 16,
        room: 25,
        answer: Err(FULL),
    },
    Row {
        state: &STATE,
        changes: &[(7, 2), (35, 1)],
        len: 672,
        room: 25,
        answer: Err(FULL),
    },
    Row {
        state: &STATE,
        changes: &[(7, 2)],
        len: 16,
        room: 26,
        answer: Err(LoadFault::Bad { rule: 9, place: 16 }),
    },
    Row {
        state: &[],
        changes: &[],
        len: 15,
        room: 25,
        answer: Err(LoadFault::Bad { rule: 9, place: 15 }),
    },
    Row {
        state: &[],
        changes: &[],
        len: 0,
        room: 1_024,
        answer: Err(LoadFault::Bad { rule: 9, place: 0 }),
    },
    Row {
        state: &[],
        changes: &[],
        len: 651,
        room: 1_024,
        answer: Err(LoadFault::Bad {
            rule: 9,
            place: 651,
        }),
    },
    Row {
        state: &[],
        changes: &[],
        len: 653,
        room: 1_024,
        answer: Err(LoadFault::Bad {
            rule: 9,
            place: 652,
        }),
    },
    // more is stated than there is
    Row {
        state: &[],
        changes: &[(11, 27)],
        len: 652,
        room: 1_024,
        answer: Err(LoadFault::Bad {
            rule: 9,
            place: 652,
        }),
    },
    // the next name is no display, and a tick needs a timer
    Row {
        state: &STATE,
        changes: &[(7, 2), (23, 68)],
        len: 672,
        room: 1_024,
        answer: Err(LoadFault::Bad {
            rule: 13,
            place: 20,
        }),
    },
    Row {
        state: &STATE,
        changes: &[(7, 2), (35, 1)],
        len: 672,
        room: 1_024,
        answer: Err(LoadFault::Bad {
            rule: 13,
            place: 32,
        }),
    },
    // two names of no object, and then also a known object that is missing
    Row {
        state: &STATE,
        changes: &[(7, 2), (23, 20), (31, 10)],
        len: 672,
        room: 1_024,
        answer: Err(LoadFault::Bad {
            rule: 14,
            place: 10,
        }),
    },
    Row {
        state: &STATE,
        changes: &[(7, 2), (31, 10), (51, 18), (467, 54), (479, 1), (671, 54)],
        len: 672,
        room: 1_024,
        answer: Err(LoadFault::Bad {
            rule: 12,
            place: 58,
        }),
    },
];

#[test]
fn the_first_rule_that_breaks_is_told(rt: HostRuntime) -> Result<(), Fail> {
    for row in BROKEN {
        assert!(rt; breaks(rt.alloc(), row)?);
    }
    Ok(())
}

#[test]
fn images_are_loaded_where_there_is_room(rt: HostRuntime) -> Result<(), Fail> {
    for row in ROWS {
        assert!(rt; answers(rt.alloc(), row)?);
    }
    Ok(())
}

#[test]
fn a_call_on_image_fails(rt: HostRuntime) -> Result<(), Fail> {
    let bytes = image(rt.alloc(), &[], &[], 652)?;
    let failed = Err(LoadFault::Read { count: 1 });
    assert_eq!(rt;
        loaded(rt.alloc(), &bytes, Some((Role::Image, 1)), 1_024)?,
        failed
    );
    Ok(())
}

// The greatest number of objects is stated where the file ends: then there is no call on Work.
#[test]
fn what_is_only_stated_costs_nothing(rt: HostRuntime) -> Result<(), Fail> {
    let bytes = image(rt.alloc(), &[], &[(9, 16), (11, 0)], 16)?;
    let ends = Err(LoadFault::Bad { rule: 9, place: 16 });
    assert_eq!(rt;
        loaded(rt.alloc(), &bytes, Some((Role::Work, 1)), MOST_NAMES)?,
        ends
    );
    Ok(())
}
