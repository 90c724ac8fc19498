// Rows of the method cache: a row is put and found, and goes where a marked object is stored into or leaves the core.
ghost use Rattle.loom_memory.specs.Memory.{loom_told, IsSound};
ghost use Rattle.object_memory.specs.Calls.{IsFit};
ghost use Rattle.object_memory.specs.Told.{IsReady};

use crate::calls::is_cached;
use crate::runs::host_with;
use crate::steps::{Object, R, Size, Slot, Step, take_all};
use contexts::Stop;
use disk_objects::DiskObjects;
use image_reader::load;
use loom_memory::LoomMemory;
use loom_outside::Host;
use object_memory::ObjectMemory;
use sample_images::NEXT;
use std::alloc::Global;
use std::test::Fail;

/// What is done before, with an object in A; then A is cached as the method of itself; what is done then; and whether the row stays.
struct Row {
    first: &'static [Step],
    then: &'static [Step],
    stays: bool,
}

const ROWS: &[Row] = &[
    Row {
        first: &[],
        then: &[],
        stays: true,
    },
    // another path begins, and an object is marked on it
    Row {
        first: &[],
        then: &[Step::Known(R::B, Object::Array), Step::Mark(R::B)],
        stays: true,
    },
    // what is stored into isn't marked
    Row {
        first: &[Step::Make(R::B, R::B, Size::Fields(1))],
        then: &[Step::Store(R::B, 0, R::A)],
        stays: true,
    },
    Row {
        first: &[],
        then: &[Step::Store(R::A, 0, R::A)],
        stays: false,
    },
    // of two objects that are marked one on the path of the row is stored into, or one that was marked later
    Row {
        first: &[Step::Make(R::B, R::B, Size::Fields(1)), Step::Mark(R::B)],
        then: &[Step::Store(R::B, 0, R::A)],
        stays: false,
    },
    Row {
        first: &[Step::Make(R::B, R::B, Size::Fields(1))],
        then: &[Step::Mark(R::B), Step::Store(R::B, 0, R::A)],
        stays: false,
    },
    // words and bytes
    Row {
        first: &[Step::Make(R::B, R::B, Size::Words(4)), Step::Mark(R::B)],
        then: &[Step::SetWord(R::B, 0, 1)],
        stays: false,
    },
    Row {
        first: &[Step::Make(R::B, R::B, Size::Words(4)), Step::Mark(R::B)],
        then: &[Step::WriteWords(R::B, 1, 2)],
        stays: false,
    },
    Row {
        first: &[Step::Make(R::B, R::B, Size::Bytes(4)), Step::Mark(R::B)],
        then: &[Step::SetByte(R::B, 0, 1)],
        stays: false,
    },
    Row {
        first: &[Step::Make(R::B, R::B, Size::Words(4)), Step::Mark(R::B)],
        then: &[Step::ReadWords(R::B), Step::Len(R::A)],
        stays: true,
    },
    // it changes places with another
    Row {
        first: &[Step::Make(R::B, R::B, Size::Fields(1))],
        then: &[Step::Swap(R::A, R::B)],
        stays: false,
    },
    // everything leaves the core, or everything but what is pinned
    Row {
        first: &[],
        then: &[Step::Purge],
        stays: false,
    },
    Row {
        first: &[Step::Pin(Slot::First, R::A)],
        then: &[Step::Purge],
        stays: true,
    },
    Row {
        first: &[],
        then: &[Step::Compact],
        stays: true,
    },
    Row {
        first: &[],
        then: &[Step::Settle],
        stays: true,
    },
    // a making for which there is room
    Row {
        first: &[],
        then: &[Step::Make(R::C, R::B, Size::Fields(1))],
        stays: true,
    },
];

/// What each row begins with: the association is in A, and a class in B.
const BEGIN: &[Step] = &[
    Step::Known(R::A, Object::Association),
    Step::Known(R::B, Object::Array),
    Step::Int(R::C, 0),
];

// Whether a row is found once it was put, and then what its line says.
fn goes<M: ObjectMemory>(m: &mut M, row: &Row) -> Result<bool, Stop>
    requires fit { IsFit M.ObjectMemory m.old }
{
    take_all(m, BEGIN)?;
    take_all(m, row.first)?;
    take_all(m, &[Step::Remember(R::A)])?;
    if !is_cached(m, R::A.reg()) {
        return Ok(false);
    }
    take_all(m, row.then)?;
    Ok(is_cached(m, R::A.reg()) == row.stays)
}

// The same over a memory of two levels.
fn goes_in<H: Host>(m: &mut LoomMemory<'_, H>, row: &Row) -> Result<bool, Stop>
    requires sound { IsSound H.Host m.old }
    requires ready { IsReady (loom_told H.Host m.old) }
{
    goes(m, row)
}

// The same, over a memory of its own.
fn is_right(alloc: Global, row: &Row) -> Result<bool, Fail> {
    let mut host = host_with(alloc, NEXT, 0, 0, 0)?;
    let mut disk = DiskObjects::begin(&mut host, 64);
    let Ok(_image) = load(alloc, &mut disk, 64) else {
        return Err("the image is loaded".into());
    };
    let mut m = LoomMemory::make(alloc, disk, NEXT, 512, 160)?;
    Ok(goes_in(&mut m, row)?)
}

// The first row that comes out otherwise.
fn first_wrong(alloc: Global) -> Result<Option<usize>, Fail> {
    for (i, row) in ROWS.iter().enumerate() {
        if !is_right(alloc, row)? {
            return Ok(Some(i));
        }
    }
    Ok(None)
}

#[test]
fn rows_go_with_their_objects(rt: HostRuntime) -> Result<(), Fail> {
    assert_eq!(rt; first_wrong(rt.alloc())?, None);
    Ok(())
}
