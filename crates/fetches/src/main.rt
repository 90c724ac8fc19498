//! Counts what a run asks of the memory of two levels: how many objects it brings into the core, and how often it reads and writes Work.
//!
//!     fetches NUMBER CORE ENTRIES ROOM STEPS
//!     fetches log NUMBER CORE ENTRIES ROOM STEPS
//!
//! The image of the number is loaded over a host in memory, a memory of these sizes is made over it, and so many bytecodes are run, or fewer
//! where one ends the run. One line is printed, of the run alone, without loading and saving; or, behind `log`, a line for each object that an
//! access touched, one after another: its name, and the words that it takes in a core where it was made there, 0 else. From these lines
//! `tests/evictions.sh` reckons what other rules of eviction would fetch. The numbers belong to how the memory is written today, and no clause
//! says them: nothing is proved of this program but that it is safe.
//!
//! - Proved: That it is safe.
//! - Tested: A short run is in the gate. `tests/costs.sh` makes the large ones.
//! - Not said: Its numbers, which belong to how the memory is written today.
#![tactic(auto)]

mod counting;
mod logging;

ghost use Rattle.loom_memory.specs.Memory.{IsSound, loom_told};
ghost use Rattle.object_memory.specs.Calls.{IsFit};
ghost use Rattle.object_memory.specs.Told.{IsReady};

use crate::counting::CountingHost;
use crate::logging::{Log, LoggedMemory};
use contexts::{Cpu, Stop, start};
use core_segment::{HEADER, MOST_WORDS};
use disk_objects::DiskObjects;
use event_file::EventList;
use image_reader::load;
use loom_gen::{LAST_NUMBER, make};
use loom_memory::LoomMemory;
use loom_outside::{Host, MemoryHost, Role};
use machine_run::run;
use object_memory::ObjectMemory;
use object_table::MOST_ENTRIES;
use std::alloc::Global;
use std::env;
use std::process::ExitCode;
use work_directory::MOST_NAMES;

/// The number of an image, the words and entries of a core, for how many objects there is room, and how many bytecodes.
#[derive(Clone, Copy)]
struct Job {
    number: u8,
    core: u32,
    entries: u16,
    room: u32,
    steps: u32,
}

/// For how many touches of a bytecode a log has room, on average.
const TOUCHES: usize = 16;

/// The numbers that the words state; none where one is missing or out of its bounds.
fn job_of(words: &[String]) -> Option<Job> {
    let [number, core, entries, room, steps] = words else {
        return None;
    };
    Some(Job {
        number: number.parse().ok()?,
        core: core.parse().ok()?,
        entries: entries.parse().ok()?,
        room: room.parse().ok()?,
        steps: steps.parse().ok()?,
    })
}

/// Runs so many bytecodes.
fn spin<M: ObjectMemory>(m: &mut M, alloc: Global, steps: u32) -> Result<(), Stop>
    requires fit { IsFit M.ObjectMemory m.old }
{
    let mut cpu = Cpu::at_rest();
    start(m, &mut cpu)?;
    if cpu.ran > 0 {
        return Ok(());
    }
    run(m, &mut cpu, &EventList::new(alloc), steps)?;
    Ok(())
}

/// Runs so many bytecodes over a memory of two levels, and logs what they touch.
fn spin_logged<'h, H: Host>(
    inner: LoomMemory<'h, H>,
    log: Log,
    alloc: Global,
    steps: u32,
) -> Option<(LoomMemory<'h, H>, Log)>
    requires sound { IsSound H.Host inner }
    requires ready { IsReady (loom_told H.Host inner) }
{
    let mut memory = LoggedMemory { inner, log };
    spin(&mut memory, alloc, steps).ok()?;
    let LoggedMemory { inner, log } = memory;
    Some((inner, log))
}

/// What a run asked of its memory.
#[derive(Clone, Copy)]
struct Costs {
    fetches: u64,
    reads: u64,
    writes: u64,
}

/// The costs of a run over a host where Image has the image, and what it touched, where the log has room for so much; none where a memory
/// can't have these sizes or the run is refused.
fn run_over(alloc: Global, host: &mut CountingHost, job: Job, room: usize) -> Option<(Costs, Log)> {
    if job.room == 0 || job.room > MOST_NAMES || job.entries > MOST_ENTRIES {
        return None;
    }
    if job.core < HEADER || job.core > MOST_WORDS {
        return None;
    }
    let mut disk = DiskObjects::begin(host, job.room);
    let Ok(image) = load(alloc, &mut disk, job.room) else {
        return None;
    };
    if image.next % 2 != 0 {
        return None;
    }
    let (host, rest) = disk.apart();
    let (reads, writes) = (host.reads, host.writes);
    let disk = DiskObjects::again(host, rest);
    let Ok(inner) = LoomMemory::make(alloc, disk, image.next, job.core, job.entries) else {
        return None;
    };
    let log = Log::new(alloc, room).ok()?;
    let (inner, log) = spin_logged(inner, log, alloc, job.steps)?;
    let fetches = inner.fetches();
    let host = inner.into_disk().into_host();
    let costs = Costs {
        fetches,
        reads: host.reads.saturating_sub(reads),
        writes: host.writes.saturating_sub(writes),
    };
    Some((costs, log))
}

/// A host where Image has the image of a number.
fn host_of(alloc: Global, number: u8) -> Option<CountingHost> {
    if number > LAST_NUMBER {
        return None;
    }
    let image = make(alloc, number).ok()?;
    let mut inner = MemoryHost::new(alloc, 65_536).ok()?;
    inner.add_file("image", image.bytes()).ok()?;
    inner.attach(Role::Work, "work").ok()?;
    inner.attach(Role::Image, "image").ok()?;
    Some(CountingHost::new(inner))
}

/// Makes the image of a job, runs it, and prints its costs.
fn report(rt: HostRuntime, job: Job) -> Option<()> {
    let mut host = host_of(rt.alloc(), job.number)?;
    let (costs, _log) = run_over(rt.alloc(), &mut host, job, 0)?;
    let Job { core, steps, .. } = job;
    let Costs {
        fetches,
        reads,
        writes,
    } = costs;
    println!(rt;
        "{steps} bytecodes in {core} words: {fetches} fetches, {reads} reads, {writes} writes"
    ).ok()
}

/// The same, and prints what it touched.
fn tell(rt: HostRuntime, job: Job) -> Option<()> {
    let mut host = host_of(rt.alloc(), job.number)?;
    let room = (job.steps as usize).saturating_mul(TOUCHES);
    let (_costs, log) = run_over(rt.alloc(), &mut host, job, room)?;
    for touch in log.touches() {
        println!(rt; "{} {}", touch.name, touch.made).ok()?;
    }
    Some(())
}

/// Does what the words say.
fn take(rt: HostRuntime, words: &[String]) -> Option<()> {
    match words {
        [first, rest @ ..] if first.as_str() == "log" => tell(rt, job_of(rest)?),
        _ => report(rt, job_of(words)?),
    }
}

fn main(rt: HostRuntime) -> ExitCode {
    let Ok(args) = env::args(&rt) else {
        return ExitCode::FAILURE;
    };
    let Ok(words) = args.skip(1).collect::<Vec<String>>(rt.alloc()) else {
        return ExitCode::FAILURE;
    };
    match take(rt, &words) {
        Some(()) => ExitCode::SUCCESS,
        None => ExitCode::FAILURE,
    }
}
