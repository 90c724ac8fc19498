// Starts that go on from a state. The image is the base image, where true is a semaphore that was never signaled.
ghost use Rattle.std.specs.Prelude.{◌≡◌, true, None, IfOk, IfSome, OnOk};
ghost use Rattle.long_names.specs.Names.{is_known};
ghost use Rattle.object_memory.specs.Calls.{IsFit};
ghost use Rattle.object_memory.specs.Plain.{plain_told};
ghost use Rattle.object_memory.specs.Told.{IsReady};
ghost use Rattle.contexts.specs.Calls.{StaysFit};
ghost use Rattle.contexts.specs.Serves.{HasRest};

use blue_model::indexes::{EXCESS_SIGNALS_INDEX, SEMAPHORE_SIZE};
use contexts::parts::{field, known};
use contexts::{Cpu, Stop, start};
use devices::{clock, restore};
use event_file::EventList;
use long_names::{Name, Value};
use loom_run::run;
use object_memory::{ObjectMemory, PlainMemory, Reg};
use sample_images::{NEXT, NIL, add_pointers, base, memory};
use std::alloc::Global;
use std::test::Fail;

/// A state, how many bytecodes are run from it, and then the clock, the tick of the timer, and how often true was signaled.
struct Row {
    clock: u32,
    display: Option<Name>,
    input: Option<Name>,
    timer: Option<Name>,
    tick: u32,
    steps: u8,
    ends: u32,
    left: Option<u32>,
    signals: i16,
}

const ROWS: [Row; 7] = [
    Row {
        clock: 7,
        display: None,
        input: None,
        timer: None,
        tick: 0,
        steps: 0,
        ends: 7,
        left: None,
        signals: 0,
    },
    Row {
        clock: 7,
        display: Some(Name::STRING),
        input: Some(Name::FALSE),
        timer: Some(Name::TRUE),
        tick: 90,
        steps: 3,
        ends: 10,
        left: Some(90),
        signals: 0,
    },
    Row {
        clock: 0,
        display: None,
        input: Some(Name::TRUE),
        timer: None,
        tick: 5,
        steps: 9,
        ends: 9,
        left: None,
        signals: 0,
    },
    Row {
        clock: 4_294_967_290,
        display: None,
        input: None,
        timer: None,
        tick: 0,
        steps: 9,
        ends: 4_294_967_295,
        left: None,
        signals: 0,
    },
    Row {
        clock: 7,
        display: None,
        input: None,
        timer: Some(Name::TRUE),
        tick: 5,
        steps: 1,
        ends: 8,
        left: None,
        signals: 1,
    },
    Row {
        clock: 7,
        display: None,
        input: None,
        timer: Some(Name::TRUE),
        tick: 9,
        steps: 2,
        ends: 9,
        left: Some(9),
        signals: 0,
    },
    Row {
        clock: 7,
        display: None,
        input: None,
        timer: Some(Name::TRUE),
        tick: 9,
        steps: 3,
        ends: 10,
        left: None,
        signals: 1,
    },
];

/// The name, where it is that of a known object.
fn known_one(name: Option<Name>) -> Option<Name>
    ensures { IfSome result (λ n. is_known n ≡ true) }
{
    match name {
        Some(name) if name.is_known() => Some(name),
        _ => None,
    }
}

/// Starts, and goes on from the state of a row.
fn begin<M: ObjectMemory>(m: &mut M, cpu: &mut Cpu, row: &Row) -> Result<(), Stop>
    requires fit { IsFit M.ObjectMemory m.old }
    ensures rest { OnOk result (HasRest (M.told m.new)) }
    ensures fit { StaysFit M.ObjectMemory m.old m.new result }
{
    start(m, cpu)?;
    let display = known_one(row.display);
    let input = known_one(row.input);
    let timer = known_one(row.timer);
    restore(m, cpu, row.clock, display, input, timer, row.tick)
}

/// Whether a register holds this name, or is not in use where there is none.
fn holds<M: ObjectMemory>(m: &M, r: Reg, name: Option<Name>, in_use: bool) -> bool
    requires { M.sound m.now }
{
    match name {
        Some(name) => in_use && m.is(r, name),
        None => !in_use,
    }
}

/// Whether the machine knows what the state of a row has.
fn is_restored<M: ObjectMemory>(m: &M, cpu: &Cpu, row: &Row) -> bool
    requires { M.sound m.now }
{
    clock(cpu) == row.clock
        && holds(m, Reg::DISPLAY, row.display, cpu.display)
        && holds(m, Reg::INPUT_SEMAPHORE, row.input, cpu.input)
        && holds(m, Reg::TIMER_SEMAPHORE, row.timer, cpu.timer.is_some())
}

/// Runs bytecodes under no events, where none was run before. Whether all were run.
fn goes_on<M: ObjectMemory>(
    m: &mut M,
    cpu: &mut Cpu,
    alloc: Global,
    steps: u8,
) -> Result<bool, Stop>
    requires fit { IsFit M.ObjectMemory m.old }
    requires rest { HasRest (M.told m.old) }
    ensures fit { StaysFit M.ObjectMemory m.old m.new result }
{
    if cpu.ran > 0 {
        return Ok(false);
    }
    run(m, cpu, &EventList::new(alloc), u32::from(steps))?;
    Ok(cpu.ran == u32::from(steps))
}

/// Whether it ends as a row says.
fn ends<M: ObjectMemory>(m: &mut M, cpu: &Cpu, row: &Row) -> Result<bool, Stop>
    requires fit { IsFit M.ObjectMemory m.old }
{
    known(m, Reg::R10, Name::TRUE)?;
    field(m, Reg::R10, Reg::R10, SEMAPHORE_SIZE, EXCESS_SIGNALS_INDEX)?;
    Ok(m.as_int(Reg::R10) == Some(row.signals) && clock(cpu) == row.ends && cpu.timer == row.left)
}

/// Whether a row is right over a memory.
fn comes_out<M: ObjectMemory>(m: &mut M, alloc: Global, row: &Row) -> Result<bool, Stop>
    requires fit { IsFit M.ObjectMemory m.old }
{
    let mut cpu = Cpu::at_rest();
    begin(m, &mut cpu, row)?;
    if !is_restored(m, &cpu, row) || !goes_on(m, &mut cpu, alloc, row.steps)? {
        return Ok(false);
    }
    ends(m, &cpu, row)
}

/// The image in a memory.
fn with_semaphore(alloc: Global) -> Result<PlainMemory, Fail>
    ensures ready { IfOk result (λ m. IsReady (plain_told m)) }
{
    let mut builder = base(alloc)?;
    let fields = [NIL, NIL, Value::Int(0)];
    add_pointers(alloc, &mut builder, Name::TRUE, Name::SEMAPHORE, &fields)?;
    Ok(memory(alloc, &builder, NEXT)?)
}

fn is_right(alloc: Global, row: &Row) -> Result<bool, Fail> {
    let mut m = with_semaphore(alloc)?;
    Ok(comes_out(&mut m, alloc, row)?)
}

/// The first row that comes out otherwise.
fn first_wrong(alloc: Global) -> Result<Option<usize>, Fail> {
    for (i, row) in ROWS.iter().enumerate() {
        if !is_right(alloc, row)? {
            return Ok(Some(i));
        }
    }
    Ok(None)
}

// The clock stands still at its end; a tick counts only where there is a timer; and a timer whose tick has come is due at once.
#[test]
fn a_start_goes_on_from_a_state(rt: HostRuntime) -> Result<(), Fail> {
    assert_eq!(rt; first_wrong(rt.alloc())?, None);
    Ok(())
}
