// What comes before a bytecode: the lines of the event list that are due, and then the timer.
ghost use Rattle.std.specs.Prelude.{◌≡◌, ◌<◌, Ok, IsTrue, OnOk, length};
ghost use Rattle.object_memory.specs.Told.{Told, IsReady};
ghost use Rattle.event_file.specs.declared.limits.TheConstants.{MOST_LINES};
ghost use Rattle.blue_model.specs.declared.cpu.Cpu.{Cpu as Numbers};
ghost use Rattle.blue_model.specs.Devices as model;
ghost use Rattle.contexts.specs.Serves.{Serves, StaysSound};
ghost use Rattle.devices.specs.Inside.{due_at};
ghost use Rattle.object_memory.specs.Calls.{IsFit};
ghost use Rattle.contexts.specs.Calls.{StaysFit};

use crate::input::raised;
use crate::ticks::clock;
use contexts::{Cpu, Stop};
use event_file::{Event, EventList, Line};
use object_memory::{ObjectMemory, Reg};
use process_sched::signal;

/// A word joins the queue, and the input semaphore is signaled where there is one.
fn join_queue<M: ObjectMemory>(m: &mut M, cpu: &mut Cpu) -> Result<(), Stop>
    requires fit { IsFit M.ObjectMemory m.old }
    ensures serves { Serves (M.told m.old) cpu.old (M.told m.new) cpu.new model.join_queue result }
    ensures fit { StaysFit M.ObjectMemory m.old m.new result }
{
    cpu.words_in = raised(cpu.words_in);
    if cpu.input {
        return signal(m, cpu, Reg::INPUT_SEMAPHORE);
    }
    Ok(())
}

/// What a line brings.
fn take_event<M: ObjectMemory>(m: &mut M, cpu: &mut Cpu, event: Event) -> Result<(), Stop>
    requires fit { IsFit M.ObjectMemory m.old }
    ensures serves { Serves (M.told m.old) cpu.old (M.told m.new) cpu.new (model.take_event event) result }
    ensures fit { StaysFit M.ObjectMemory m.old m.new result }
{
    match event {
        Event::Word(_) => join_queue(m, cpu),
        Event::Purge => {
            m.purge_all()?;
            Ok(())
        }
        Event::Compact => {
            m.compact();
            Ok(())
        }
    }
}

/// Takes a line.
#[cold]
#[inline(never)]
fn take_line<M: ObjectMemory>(m: &mut M, cpu: &mut Cpu, line: Line) -> Result<(), Stop>
    requires fit { IsFit M.ObjectMemory m.old }
    ensures serves { Serves (M.told m.old) cpu.old (M.told m.new) cpu.new (model.take_line line) result }
    ensures fit { StaysFit M.ObjectMemory m.old m.new result }
{
    cpu.line = raised(cpu.line);
    take_event(m, cpu, line.event)
}

/// Whether the line at a place is there, and comes at this count.
#[inline(always)]
fn is_due(events: &EventList, place: usize, count: u32) -> bool
    ensures due { result ≡ due_at events.now place count }
    ensures there { IsTrue result → place < length events.now }
    ensures few { IsTrue result → place < MOST_LINES }
{
    place < events.len() && events.item(place).count == count
}

/// Takes the lines that come at the number of bytecodes that were run.
#[inline(always)]
fn events_due<M: ObjectMemory>(m: &mut M, cpu: &mut Cpu, events: &EventList) -> Result<(), Stop>
    requires fit { IsFit M.ObjectMemory m.old }
    ensures serves { Serves (M.told m.old) cpu.old (M.told m.new) cpu.new (model.events_due events.now) result }
    ensures fit { StaysFit M.ObjectMemory m.old m.new result }
{
    let count = cpu.ran;
    let mut place = cpu.line as usize;
    'lines: while is_due(events, place, count) {
        take_line(m, cpu, *events.item(place))?;
        place += 1;
    }
    Ok(())
}

/// The timer signals its semaphore, and is cleared.
#[cold]
#[inline(never)]
fn fire<M: ObjectMemory>(m: &mut M, cpu: &mut Cpu) -> Result<(), Stop>
    requires fit { IsFit M.ObjectMemory m.old }
    ensures serves { Serves (M.told m.old) cpu.old (M.told m.new) cpu.new model.fire result }
    ensures fit { StaysFit M.ObjectMemory m.old m.new result }
{
    signal(m, cpu, Reg::TIMER_SEMAPHORE)?;
    m.int(Reg::TIMER_SEMAPHORE, 0);
    cpu.timer = None;
    Ok(())
}

/// Whether the timer's tick has come.
#[inline(always)]
fn is_reached(timer: Option<u32>, now: u32) -> bool
    ensures { result ≡ model.is_reached timer now }
{
    timer.is_some_and(|tick| tick <= now)
}

#[inline(always)]
fn check_timer<M: ObjectMemory>(m: &mut M, cpu: &mut Cpu) -> Result<(), Stop>
    requires fit { IsFit M.ObjectMemory m.old }
    ensures serves { Serves (M.told m.old) cpu.old (M.told m.new) cpu.new model.check_timer result }
    ensures fit { StaysFit M.ObjectMemory m.old m.new result }
{
    if is_reached(cpu.timer, clock(cpu)) {
        return fire(m, cpu);
    }
    Ok(())
}

/// Whether nothing is due before a bytecode: no line comes at this count, nor the timer's tick. Then `due` changes nothing.
#[inline(always)]
pub fn is_idle(cpu: &Cpu, events: &EventList) -> bool
    ensures { IsTrue result → (t : Told) → IsReady t → Serves t cpu.now t cpu.now (model.due events.now) (Ok tt) }
{
    let place = cpu.line as usize;
    if is_due(events, place, cpu.ran) {
        return false;
    }
    !is_reached(cpu.timer, clock(cpu))
}

/// Does what is due before a bytecode: the lines that come at this count, in order, and then the timer. A line's word joins the queue
/// and signals the input semaphore; at Purge and Compact the memory puts out what it can, or closes its gaps, which changes nothing of
/// the machine. In constant time where nothing is due.
pub fn due<M: ObjectMemory>(m: &mut M, cpu: &mut Cpu, events: &EventList) -> Result<(), Stop>
    requires fit { IsFit M.ObjectMemory m.old }
    ensures serves { Serves (M.told m.old) cpu.old (M.told m.new) cpu.new (model.due events.now) result }
    ensures fit { StaysFit M.ObjectMemory m.old m.new result }
{
    events_due(m, cpu, events)?;
    check_timer(m, cpu)
}
