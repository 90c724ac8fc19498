// Each cause of a refusal with its exact numbers, the row of a cache, and two objects that change places. The base image has 26 objects.
ghost use Rattle.std.specs.Prelude.{◌≡◌, None};
ghost use Rattle.object_memory.specs.Calls.{IsFit, KeepsFit};
ghost use Rattle.object_memory.specs.Plain.{plain_told};
ghost use Rattle.object_memory.specs.Told.{IsReady};
ghost use Rattle.contexts.specs.Calls.{StaysFit};

use crate::steps::{Object, Step, swap, take_all};
use bounded_memory::BoundedMemory;
use contexts::Stop;
use contexts::parts::{class_of, field, known, make_bytes, make_pointers, store_field};
use long_names::{LAST_NAME, Name};
use object_memory::{MemFault, Need, ObjectMemory, PlainMemory, Reg, shape};
use sample_images::{NEXT, base, memory};
use std::alloc::Global;
use std::test::Fail;

/// The objects of the base image.
const OBJECTS: u16 = 26;

/// A core of so many words and entries, the objects for which there is room, the next name, what is done, and why it is refused.
struct Row {
    core: u32,
    entries: u32,
    room: u16,
    next: u32,
    steps: &'static [Step],
    refused: Option<MemFault>,
}

const ROWS: &[Row] = &[
    Row {
        core: 6,
        entries: 51,
        room: OBJECTS,
        next: NEXT,
        steps: &[Step::Read(Object::Association)],
        refused: None,
    },
    Row {
        core: 5,
        entries: 51,
        room: OBJECTS,
        next: NEXT,
        steps: &[Step::Read(Object::Association)],
        refused: Some(MemFault::CoreFull(Need {
            object: 8,
            words: 6,
            entries: 51,
        })),
    },
    Row {
        core: 6,
        entries: 50,
        room: OBJECTS,
        next: NEXT,
        steps: &[Step::Read(Object::Association)],
        refused: Some(MemFault::CoreFull(Need {
            object: 8,
            words: 6,
            entries: 51,
        })),
    },
    Row {
        core: 10,
        entries: 55,
        room: OBJECTS,
        next: NEXT,
        steps: &[Step::Pin(Object::Association), Step::Read(Object::Empty)],
        refused: None,
    },
    Row {
        core: 9,
        entries: 55,
        room: OBJECTS,
        next: NEXT,
        steps: &[Step::Pin(Object::Association), Step::Read(Object::Empty)],
        refused: Some(MemFault::CoreFull(Need {
            object: 12,
            words: 10,
            entries: 55,
        })),
    },
    Row {
        core: 10,
        entries: 54,
        room: OBJECTS,
        next: NEXT,
        steps: &[Step::Pin(Object::Association), Step::Read(Object::Empty)],
        refused: Some(MemFault::CoreFull(Need {
            object: 12,
            words: 10,
            entries: 55,
        })),
    },
    Row {
        core: 6,
        entries: 55,
        room: OBJECTS,
        next: NEXT,
        steps: &[
            Step::Pin(Object::Association),
            Step::Read(Object::Association),
            Step::Unpin,
            Step::Read(Object::Empty),
        ],
        refused: None,
    },
    Row {
        core: 6,
        entries: 54,
        room: OBJECTS,
        next: NEXT,
        steps: &[
            Step::Pin(Object::Association),
            Step::Read(Object::Association),
            Step::Unpin,
            Step::Read(Object::Empty),
        ],
        refused: Some(MemFault::CoreFull(Need {
            object: 8,
            words: 6,
            entries: 55,
        })),
    },
    Row {
        core: 7,
        entries: 51,
        room: 28,
        next: NEXT,
        steps: &[Step::Make, Step::Make],
        refused: None,
    },
    Row {
        core: 7,
        entries: 51,
        room: 27,
        next: NEXT,
        steps: &[Step::Make, Step::Make],
        refused: Some(MemFault::WorkFull { live: 28, room: 27 }),
    },
    Row {
        core: 6,
        entries: 51,
        room: 28,
        next: NEXT,
        steps: &[Step::Make, Step::Make],
        refused: Some(MemFault::CoreFull(Need {
            object: 68,
            words: 7,
            entries: 51,
        })),
    },
    Row {
        core: 7,
        entries: 51,
        room: 28,
        next: NEXT,
        steps: &[Step::Make, Step::Settle, Step::Make],
        refused: None,
    },
    Row {
        core: 7,
        entries: 51,
        room: 27,
        next: NEXT,
        steps: &[Step::Make, Step::Settle, Step::Make],
        refused: Some(MemFault::WorkFull { live: 28, room: 27 }),
    },
    Row {
        core: 7,
        entries: 51,
        room: 29,
        next: NEXT,
        steps: &[Step::Make, Step::Make, Step::Settle, Step::Make, Step::Make],
        refused: None,
    },
    Row {
        core: 7,
        entries: 51,
        room: 28,
        next: NEXT,
        steps: &[Step::Make, Step::Make, Step::Settle, Step::Make, Step::Make],
        refused: Some(MemFault::WorkFull { live: 29, room: 28 }),
    },
    Row {
        core: 6,
        entries: 51,
        room: OBJECTS,
        next: NEXT,
        steps: &[Step::Swap(Object::Association, Object::Empty)],
        refused: None,
    },
    Row {
        core: 5,
        entries: 51,
        room: OBJECTS,
        next: NEXT,
        steps: &[Step::Swap(Object::Association, Object::Empty)],
        refused: Some(MemFault::CoreFull(Need {
            object: 8,
            words: 6,
            entries: 51,
        })),
    },
    Row {
        core: 6,
        entries: 50,
        room: OBJECTS,
        next: NEXT,
        steps: &[Step::Swap(Object::Association, Object::Empty)],
        refused: Some(MemFault::CoreFull(Need {
            object: 8,
            words: 6,
            entries: 51,
        })),
    },
    Row {
        core: 5,
        entries: 51,
        room: OBJECTS,
        next: NEXT,
        steps: &[Step::Swap(Object::Empty, Object::Association)],
        refused: Some(MemFault::CoreFull(Need {
            object: 8,
            words: 6,
            entries: 51,
        })),
    },
    Row {
        core: 6,
        entries: 51,
        room: OBJECTS,
        next: NEXT,
        steps: &[Step::Swap(Object::Association, Object::Association)],
        refused: None,
    },
    Row {
        core: 6,
        entries: 51,
        room: OBJECTS,
        next: LAST_NAME,
        steps: &[Step::Make],
        refused: Some(MemFault::NamesSpent),
    },
];

/// Why the steps of a row are refused.
fn refusal(plain: PlainMemory, row: &Row) -> Option<Stop>
    requires slots { (plain_told plain).slots ≡ (λ i. None) }
    requires ready { IsReady (plain_told plain) }
{
    let (room, objects) = (u32::from(row.room), u32::from(OBJECTS));
    let mut m = BoundedMemory::new(plain, row.core, row.entries, room, objects);
    take_all(&mut m, row.steps).err()
}

/// Whether a row is refused as it says.
fn is_right(alloc: Global, row: &Row) -> Result<bool, Fail> {
    let plain = memory(alloc, &base(alloc)?, row.next)?;
    Ok(refusal(plain, row) == row.refused.map(Stop::Mem))
}

/// The first row that comes out otherwise.
fn first_wrong(alloc: Global) -> Result<Option<usize>, Fail> {
    for (i, row) in ROWS.iter().enumerate() {
        if !is_right(alloc, row)? {
            return Ok(Some(i));
        }
    }
    Ok(None)
}

// An object takes 4 words and one for each field, and an access 51 entries, beside 2 for each pinned object and one for each of its fields.
#[test]
fn each_cause(rt: HostRuntime) -> Result<(), Fail> {
    assert_eq!(rt; first_wrong(rt.alloc())?, None);
    Ok(())
}

/// The association.
const R: Reg = Reg::R10;

/// What is found. It is 0 before.
const TO: Reg = Reg::R11;

/// Puts the association into the cache as the method of itself, and begins a new path. Whether it was put there.
fn cache<M: ObjectMemory>(m: &mut M) -> Result<bool, MemFault>
    requires fit { IsFit M.ObjectMemory m.old }
    ensures fit { KeepsFit M.ObjectMemory m.old m.new result }
{
    m.known(R, Name::SCHEDULER_ASSOCIATION)?;
    m.begin_path();
    if !shape::is_name(m, R) {
        return Ok(false);
    }
    m.mark(R)?;
    let put = m.cache_put(R, R, R);
    m.begin_path();
    Ok(put)
}

/// Whether the association is found as the method of itself and this selector.
fn finds<M: ObjectMemory>(m: &mut M, selector: Reg) -> bool
    requires fit { IsFit M.ObjectMemory m.old }
    ensures fit { IsFit M.ObjectMemory m.new }
{
    m.cache_find(TO, R, selector) && m.same(TO, R)
}

/// Whether it is found so and no other way, until it is stored into.
fn goes<M: ObjectMemory>(m: &mut M) -> Result<bool, Stop>
    requires fit { IsFit M.ObjectMemory m.old }
{
    let put = cache(m)?;
    let found = !finds(m, TO) && finds(m, R);
    store_field(m, R, 0, R)?;
    Ok(put && found && !finds(m, R))
}

// A row is found on a later path, and no other, until its object is stored into.
#[test]
fn one_row(rt: HostRuntime) -> Result<(), Fail> {
    let plain = memory(rt.alloc(), &base(rt.alloc())?, NEXT)?;
    let mut m = BoundedMemory::new(plain, 65_536, 65_536, 26, 26);
    assert!(rt; goes(&mut m)?);
    Ok(())
}

/// A class, or what a field holds.
const A: Reg = Reg::R10;

/// What names a String at first.
const B: Reg = Reg::R11;

/// What names an Array at first.
const C: Reg = Reg::R12;

/// Makes a String, and an Array whose field 1 names it.
fn make_two<M: ObjectMemory>(m: &mut M) -> Result<(), Stop>
    requires fit { IsFit M.ObjectMemory m.old }
    ensures fit { StaysFit M.ObjectMemory m.old m.new result }
{
    known(m, A, Name::STRING)?;
    make_bytes(m, B, A, 0)?;
    known(m, A, Name::ARRAY)?;
    make_pointers(m, C, A, 2)?;
    store_field(m, C, 1, B)
}

/// Once they have changed places, with class and body, the field names the Array itself.
fn are_swapped<M: ObjectMemory>(m: &mut M) -> Result<bool, Stop>
    requires fit { IsFit M.ObjectMemory m.old }
{
    class_of(m, A, C)?;
    let is_string = m.is(A, Name::STRING);
    field(m, A, B, 2, 1)?;
    Ok(is_string && m.same(A, B))
}

fn swap_two<M: ObjectMemory>(m: &mut M) -> Result<bool, Stop>
    requires fit { IsFit M.ObjectMemory m.old }
{
    make_two(m)?;
    swap(m, B, C)?;
    are_swapped(m)
}

// Over the memory with bounds, which has the other do it.
#[test]
fn two_objects_change_places(rt: HostRuntime) -> Result<(), Fail> {
    let plain = memory(rt.alloc(), &base(rt.alloc())?, NEXT)?;
    let mut m = BoundedMemory::new(plain, 65_536, 65_536, 28, 26);
    assert!(rt; swap_two(&mut m)?);
    Ok(())
}
