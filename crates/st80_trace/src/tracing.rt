//! A trace over a host: the image and the events are read and the memory is made as a run does it.
ghost use Rattle.std.specs.Prelude.{◌≡◌, IsTrue, OnOk};
ghost use Rattle.long_names.specs.Heap.{Heap};
ghost use Rattle.loom_host.specs.declared.outside.Role.TheVariants as role;
ghost use Rattle.object_memory.specs.Calls.{IsFit};
ghost use Rattle.object_memory.specs.Told.{IsReady};
ghost use Rattle.loom_memory.specs.Memory.{IsSound, loom_told};
ghost use Rattle.image_memory.specs.Image.{HasImage};
ghost use Rattle.loom_words.specs.Command.{HasLimits};
ghost use Rattle.loom_run.specs.Steps.{BeginsImage};

use crate::options::Options;
use crate::stepping::{Following, Halt};
use contexts::{Cpu, Stop};
use disk_objects::{DiskObjects, DiskRest};
use event_file::EventList;
use image_format::State;
use image_memory::begin_memory;
use image_reader::Loaded;
use loom_host::Host;
use loom_memory::{CoreTables, LoomMemory};
use loom_run::steps::{read_all, status_of};
use loom_run::{Halted, Reason};
use loom_words::{Command, Status};
use machine_run::{Observer, Step, begin, is_last, tell};
use object_memory::ObjectMemory;
use st80_view::View;
use std::alloc::Global;
use std::io;
use std::io::Write;

/// Traces the run that a command asks for. Work, Image and Events are attached and read; Saved and Display aren't. The machine starts, and runs
/// so many bytecodes or until one ends it; the lines go to `out`, and what it says to Transcript. The observer is told at every 65,536th bytecode.
/// It isn't parked. The error is one of `out`.
pub fn trace<H: Host, W: Write, O: Observer>(
    alloc: Global,
    host: &mut H,
    command: &Command<'_>,
    view: &View,
    options: &Options,
    out: &mut W,
    observer: &mut O,
) -> io::Result<Status>
    requires limits { HasLimits command.now }
{
    match read_all(alloc, host, command) {
        Ok(read) => {
            let following = Following::new(alloc, view, *options);
            trace_under(
                alloc,
                host,
                read.rest,
                &read.loaded,
                &read.events,
                command,
                following,
                out,
                observer,
            )
        }
        Err(status) => Ok(status),
    }
}

/// The memory is made, and the machine runs.
fn trace_under<H: Host, W: Write, O: Observer>(
    alloc: Global,
    host: &mut H,
    rest: DiskRest,
    loaded: &Loaded,
    events: &EventList,
    command: &Command<'_>,
    following: Following<'_>,
    out: &mut W,
    observer: &mut O,
) -> io::Result<Status>
    requires limits { HasLimits command.now }
    requires image { HasImage H.Host host.old rest loaded.now }
{
    let Ok(tables) = CoreTables::new(alloc, command.core, command.entries) else {
        return Ok(Status::OutOfMemory);
    };
    let disk = DiskObjects::again(host, rest);
    let mut memory = begin_memory(disk, loaded, tables, command.core, command.entries);
    let status = trace_machine(
        alloc,
        &mut memory,
        events,
        &loaded.state,
        command.steps,
        following,
        out,
        observer,
    );
    let disk = memory.into_disk();
    let _host = disk.into_host();
    status
}

/// Starts with the state, and runs so many bytecodes.
fn trace_machine<H: Host, W: Write, O: Observer>(
    alloc: Global,
    memory: &mut LoomMemory<'_, H>,
    events: &EventList,
    state: &State,
    steps: u32,
    following: Following<'_>,
    out: &mut W,
    observer: &mut O,
) -> io::Result<Status>
    requires sound { IsSound H.Host memory.old }
    requires ready { IsReady (loom_told H.Host memory.old) }
    requires begins { IsTrue (H.tells role.Work) → (h : Heap) × BeginsImage h state.now (loom_told H.Host memory.old) }
{
    let mut cpu = Cpu::at_rest();
    if let Err(stop) = begin(memory, &mut cpu, state) {
        return Ok(stopped(stop, cpu.ran));
    }
    follow(
        alloc, memory, &mut cpu, events, steps, following, out, observer,
    )
}

/// Runs so many bytecodes, and writes the line of each that has one.
fn follow<M: ObjectMemory, W: Write, O: Observer>(
    alloc: Global,
    m: &mut M,
    cpu: &mut Cpu,
    events: &EventList,
    steps: u32,
    mut following: Following<'_>,
    out: &mut W,
    observer: &mut O,
) -> io::Result<Status>
    requires fit { IsFit M.ObjectMemory m.old }
{
    'steps: for _ in 0..steps {
        let mut line = String::new(alloc);
        match following.cycle(alloc, m, cpu, events, &mut line) {
            Ok(end) => {
                put(&mut line, "\n", out)?;
                if is_last(end) {
                    return Ok(ended(end, cpu.ran));
                }
                tell(observer, m, cpu);
            }
            Err(halt) => {
                put(&mut line, "  <- stopped here\n", out)?;
                return Ok(halted(halt, cpu.ran));
            }
        }
    }
    Ok(Status::Done { ran: cpu.ran })
}

/// Writes a line, unless it is empty, with what ends it.
fn put<W: Write>(line: &mut String, end: &str, out: &mut W) -> io::Result<()> {
    if line.is_empty() {
        return Ok(());
    }
    out.write_all(line.as_bytes())?;
    out.write_all(end.as_bytes())
}

/// The answer of a machine that ended.
fn ended(end: Step, ran: u32) -> Status {
    match end {
        Step::Next => Status::Done { ran },
        Step::Quit | Step::Keep => Status::Quit { ran },
    }
}

/// The answer of a machine that stopped after so many bytecodes.
fn halted(halt: Halt, ran: u32) -> Status {
    match halt {
        Halt::Stop(stop) => stopped(stop, ran),
        Halt::Memory => Status::OutOfMemory,
    }
}

fn stopped(stop: Stop, ran: u32) -> Status {
    status_of(&Halted {
        why: Reason::ByStop(stop),
        ran,
    })
}
