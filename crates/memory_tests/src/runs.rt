// Runs of steps over a memory of two levels and over one that is one map: what differs, and what is left.
ghost use Rattle.std.specs.Prelude.{All, OnOk};
ghost use Rattle.long_names.specs.Objects.{IsRecord};
ghost use Rattle.loom_memory.specs.Memory.{loom_told, IsSound};
ghost use Rattle.object_memory.specs.Calls.{IsFit};
ghost use Rattle.object_memory.specs.Told.{IsReady};

use crate::steps::{Step, take};
use contexts::Stop;
use core_segment::HEADER;
use disk_objects::DiskObjects;
use image_format::{Opening, STATE_VERSION, State, encode_rec};
use image_reader::load;
use image_writer::save;
use long_names::{Octets, RecList};
use loom_memory::LoomMemory;
use loom_outside::{Host, LyingHost, MemoryHost, Role};
use object_memory::{MemFault, ObjectMemory};
use object_table::MOST_ENTRIES;
use sample_images::{base, memory};
use std::alloc::{AllocError, Global};
use std::test::Fail;

/// The objects for which there is room, a core of so many words and entries, the next name, whether the core is purged and packed after each
/// step, and the steps: some, others so many times, and some more.
#[derive(Clone, Copy)]
pub(crate) struct Run {
    pub(crate) room: u16,
    pub(crate) core: u16,
    pub(crate) entries: u16,
    pub(crate) next: u32,
    pub(crate) purges: bool,
    pub(crate) first: &'static [Step],
    pub(crate) times: u16,
    pub(crate) again: &'static [Step],
    pub(crate) last: &'static [Step],
}

/// How a run ended.
#[derive(Clone, Copy, Debug, PartialEq, Eq)]
pub(crate) enum End {
    /// The image wasn't loaded.
    Unloaded,
    /// A step saw what it didn't see over one map.
    Differs,
    /// A call of the memory was refused.
    Refused(MemFault),
    Stuck,
    /// The memory wasn't wound up, or its image not saved.
    Unfinished,
    /// All steps saw the same, and the memory's image isn't that of one map.
    Other,
    /// All steps saw the same, and both have the same image, of so many objects.
    Same(u32),
}

// Takes steps over both memories, and where that is asked purges and packs the first after each. Whether both see the same.
fn agree<M: ObjectMemory, P: ObjectMemory>(
    m: &mut M,
    plain: &mut P,
    steps: &[Step],
    purges: bool,
) -> Result<bool, Stop>
    requires fit { IsFit M.ObjectMemory m.old }
    requires plain { IsFit P.ObjectMemory plain.old }
    ensures fit { OnOk result (IsFit M.ObjectMemory m.new) }
    ensures plain { OnOk result (IsFit P.ObjectMemory plain.new) }
{
    for step in steps {
        if take(m, *step)? != take(plain, *step)? {
            return Ok(false);
        }
        if purges {
            m.purge_all()?;
            m.compact();
        }
    }
    Ok(true)
}

// The same of some steps so many times over.
fn agree_times<M: ObjectMemory, P: ObjectMemory>(
    m: &mut M,
    plain: &mut P,
    run: &Run,
) -> Result<bool, Stop>
    requires fit { IsFit M.ObjectMemory m.old }
    requires plain { IsFit P.ObjectMemory plain.old }
    ensures fit { OnOk result (IsFit M.ObjectMemory m.new) }
    ensures plain { OnOk result (IsFit P.ObjectMemory plain.new) }
{
    for _ in 0..run.times {
        if !agree(m, plain, run.again, run.purges)? {
            return Ok(false);
        }
    }
    Ok(true)
}

// The same of a whole run.
fn agree_all<M: ObjectMemory, P: ObjectMemory>(
    m: &mut M,
    plain: &mut P,
    run: &Run,
) -> Result<bool, Stop>
    requires fit { IsFit M.ObjectMemory m.old }
    requires plain { IsFit P.ObjectMemory plain.old }
    ensures sound { OnOk result (M.sound m.new) }
{
    if !agree(m, plain, run.first, run.purges)? {
        return Ok(false);
    }
    if !agree_times(m, plain, run)? {
        return Ok(false);
    }
    agree(m, plain, run.last, run.purges)
}

// The same over a memory of two levels.
fn agree_in<H: Host, P: ObjectMemory>(
    m: &mut LoomMemory<'_, H>,
    plain: &mut P,
    run: &Run,
) -> Result<bool, Stop>
    requires sound { IsSound H.Host m.old }
    requires ready { IsReady (loom_told H.Host m.old) }
    requires plain { IsFit P.ObjectMemory plain.old }
    ensures sound { OnOk result (IsSound H.Host m.new) }
{
    agree_all(m, plain, run)
}

// A host with the base image and an empty Work, of which a call may fail, and a read may lie, counted from 1; 0 for none.
pub(crate) fn host_with(
    alloc: Global,
    next: u32,
    failing: u64,
    lying: u64,
    mask: u8,
) -> Result<LyingHost, Fail> {
    let Ok(image) = base(alloc)?.finish(alloc, next) else {
        return Err("the base image breaks no rule".into());
    };
    let mut host = MemoryHost::new(alloc, 1_000)?;
    host.add_file("image", image.bytes())?;
    host.attach(Role::Work, "work")?;
    host.attach(Role::Image, "image")?;
    host.attach(Role::Saved, "saved")?;
    host.fail(Role::Work, failing)?;
    Ok(LyingHost::new(host, lying, mask))
}

// The image of what one map keeps.
fn image_of(alloc: Global, recs: &RecList, next: u32) -> Result<Octets, AllocError>
    requires { All IsRecord recs.now }
{
    let Ok(objects) = u32::try_from(recs.len()) else {
        return Err(AllocError);
    };
    let opening = Opening {
        version: STATE_VERSION,
        objects,
        next,
    };
    let mut image = Octets::new(alloc);
    image.extend(&opening.bytes())?;
    image.extend(&State::NONE.bytes())?;
    for i in 0..recs.len() {
        encode_rec(recs.item(i), &mut image)?;
    }
    Ok(image)
}

// How a run over a host ends.
pub(crate) fn ends(alloc: Global, host: &mut LyingHost, run: &Run) -> Result<End, Fail> {
    let (room, core) = (u32::from(run.room), u32::from(run.core));
    if room == 0 || core < HEADER || run.entries > MOST_ENTRIES {
        return Ok(End::Unloaded);
    }
    let mut disk = DiskObjects::begin(host, room);
    let Ok(image) = load(alloc, &mut disk, room) else {
        return Ok(End::Unloaded);
    };
    if image.next != run.next || run.next % 2 != 0 {
        return Ok(End::Unloaded);
    }
    let mut m = LoomMemory::make(alloc, disk, run.next, core, run.entries)?;
    let mut plain = memory(alloc, &base(alloc)?, run.next)?;
    match agree_in(&mut m, &mut plain, run) {
        Ok(true) => {}
        Ok(false) => return Ok(End::Differs),
        Err(Stop::Mem(fault)) => return Ok(End::Refused(fault)),
        Err(Stop::Stuck(_)) => return Ok(End::Stuck),
    }
    let Ok(next) = m.wind_up() else {
        return Ok(End::Unfinished);
    };
    let mut disk = m.into_disk();
    if save(alloc, &mut disk, next, &State::NONE).is_err() {
        return Ok(End::Unfinished);
    }
    let objects = disk.len();
    let host = disk.into_host();
    let image = image_of(alloc, &plain.kept_recs(alloc)?, plain.next())?;
    if host.inner().file("saved") == Some(image.bytes()) {
        Ok(End::Same(objects))
    } else {
        Ok(End::Other)
    }
}
