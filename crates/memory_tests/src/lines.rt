// A purge line of an event file purges: what was brought in leaves the core, unless it is pinned.
ghost use Rattle.object_memory.specs.Told.{IsReady};
ghost use Rattle.loom_memory.specs.Memory.{loom_told, IsSound};

use crate::runs::host_with;
use blue_model::{Cpu, Event, Line};
use contexts::{Stop, start};
use devices::due;
use disk_objects::DiskObjects;
use event_file::EventList;
use image_reader::load;
use long_names::Name;
use loom_memory::LoomMemory;
use loom_outside::{Host, LyingHost};
use sample_images::NEXT;
use std::alloc::Global;
use std::test::Fail;

const CORE: u32 = 4_096;

const ENTRIES: u16 = 512;

const ROOM: u32 = 1_024;

/// The scheduler of the base image.
const SCHEDULER: u32 = 60;

/// Whether an object is in the core once the machine has started, and once the lines are taken that are due then.
fn is_there<H: Host>(
    m: &mut LoomMemory<'_, H>,
    events: &EventList,
    name: Name,
) -> Result<(bool, bool), Stop>
    requires sound { IsSound H.Host m.old }
    requires ready { IsReady (loom_told H.Host m.old) }
{
    let mut cpu = Cpu::at_rest();
    start(m, &mut cpu)?;
    let first = m.resident(name);
    due(m, &mut cpu, events)?;
    Ok((first, m.resident(name)))
}

/// The same over the base image. None where it can't be loaded, or the machine doesn't start.
fn is_there_in_base(
    alloc: Global,
    host: &mut LyingHost,
    events: &EventList,
    name: Name,
) -> Result<Option<(bool, bool)>, Fail> {
    let mut disk = DiskObjects::begin(host, ROOM);
    let Ok(image) = load(alloc, &mut disk, ROOM) else {
        return Ok(None);
    };
    if image.next % 2 != 0 {
        return Ok(None);
    }
    let mut m = LoomMemory::make(alloc, disk, image.next, CORE, ENTRIES)?;
    Ok(is_there(&mut m, events, name).ok())
}

/// The same over a host of its own.
fn is_seen(alloc: Global, events: &EventList, name: Name) -> Result<Option<(bool, bool)>, Fail> {
    let mut host = host_with(alloc, NEXT, 0, 0, 0)?;
    is_there_in_base(alloc, &mut host, events, name)
}

#[test]
fn a_purge_line_purges(rt: HostRuntime) -> Result<(), Fail> {
    let scheduler = Name::new(SCHEDULER).ok_or("a name is even")?;
    let mut events = EventList::new(rt.alloc());
    let without = is_seen(rt.alloc(), &events, scheduler)?;
    events.push(Line {
        count: 0,
        event: Event::Purge,
    })?;
    let with = is_seen(rt.alloc(), &events, scheduler)?;
    assert_eq!(rt; (without, with), (Some((true, true)), Some((true, false))));
    Ok(())
}
