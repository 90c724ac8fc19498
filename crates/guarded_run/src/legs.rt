// The legs of a guarded run.
ghost use Rattle.std.specs.Prelude.{◌≡◌, ℕ, ◌+◌, ◌<◌, ◌≤◌, nat_lt, List, IfErr, IfOk, IsTrue, OnOk};
ghost use Rattle.long_names.specs.Heap.{Heap};
ghost use Rattle.blue_model.specs.declared.event.Line.{Line};
ghost use Rattle.blue_model.specs.declared.limits.TheConstants.{LAST_SERIAL as last_serial};
ghost use Rattle.blue_model.specs.declared.step.Step.TheVariants as step;
ghost use Rattle.blue_model.specs.Endings.{HasCounted};
ghost use Rattle.blue_model.specs.Guarded.{Guarded};
ghost use Rattle.blue_model.specs.Logs.{Course};
ghost use Rattle.blue_model.specs.Machine.{Machine};
ghost use Rattle.contexts.specs.Calls.{StaysFit};
ghost use Rattle.contexts.specs.Keeping.{StepsBy};
ghost use Rattle.contexts.specs.Serves.{HasRest};
ghost use Rattle.machine_run.specs.Run.{Awaits, Begins, EndsAs, EndsFit, FaultsBy, HaltsBy};
ghost use Rattle.machine_run.specs.States.{KeepsState, model_state};
ghost use Rattle.object_memory.specs.Calls.{IsFit};
ghost use Rattle.object_memory.specs.Contract.{IsLater};
ghost use Rattle.object_memory.specs.Told.{Told};
ghost use Rattle.guarded_run.specs.Legs.{GoesOnFrom, IsAt, IsToKeep, KeepsSerial, Leaves, Starts, guarded_first, numbers_before};

use blue_model::limits::LAST_SERIAL;
use contexts::{Cpu, Stop, park};
use event_file::EventList;
use image_format::State;
use machine_run::{
    Finished, Halted, NoObserver, Observer, Step, begin, draw, run_observed, state_of,
};
use object_memory::ObjectMemory;
use std::alloc::Global;

/// Starts with a state, over a memory with which nothing was done yet. A checkpoint may be made as long as there are serials: `serial` is
/// that of the last one, 0 where there is none.
pub fn start_leg<M: ObjectMemory>(
    m: &mut M,
    cpu: &mut Cpu,
    state: &State,
    serial: u64,
) -> Result<(), Stop>
    requires fit { IsFit M.ObjectMemory m.old }
    requires state { IsTrue (M.told m.old).tells → KeepsState (M.told m.old) (model_state state.now) }
    ensures starts { IsTrue (M.told m.old).tells → (h : Heap) → Begins h (M.told m.old) → (events : List Line) (steps : ℕ) → Starts events steps (guarded_first serial (M.told m.old).transcript (model_state state.now) h) serial (M.told m.new) cpu.new result }
    ensures ran { cpu.new.ran ≡ 0 }
    ensures vault { OnOk result (cpu.new.vault ≡ nat_lt serial last_serial) }
    ensures rest { OnOk result (HasRest (M.told m.new)) }
    ensures fault { IfErr result (FaultsBy (M.told m.old) (M.told m.new)) }
    ensures later { IsLater (M.told m.old) (M.told m.new) }
    ensures fit { StaysFit M.ObjectMemory m.old m.new result }
{
    begin(m, cpu, state)?;
    cpu.vault = serial < LAST_SERIAL;
    Ok(())
}

// The numbers of a start, with those of the leg before where the run goes on with them.
fn going_on(before: Cpu, now: &Cpu, serial: u64) -> Cpu
    ensures { result ≡ numbers_before serial before now.now }
{
    let mut next = *now;
    next.base = before.base;
    next.ran = before.ran;
    next.line = before.line;
    next.words_in = before.words_in;
    next.words_out = before.words_out;
    next.vault = serial < LAST_SERIAL;
    next
}

/// Starts with the state of a machine that was kept under this serial, over a new memory of what was kept, and goes on with the numbers of
/// the leg before: `cpu.ran` stays, where the start is refused too.
pub fn continue_leg<M: ObjectMemory>(
    m: &mut M,
    cpu: &mut Cpu,
    state: &State,
    serial: u64,
) -> Result<(), Stop>
    requires fit { IsFit M.ObjectMemory m.old }
    requires state { IsTrue (M.told m.old).tells → KeepsState (M.told m.old) (model_state state.now) }
    ensures continues { IsTrue (M.told m.old).tells → (events : List Line) (steps : ℕ) (g : Guarded) (last : ℕ) (t : Told) (parked : Machine) → IsToKeep events g last t cpu.old parked → GoesOnFrom parked (model_state state.now) (M.told m.old) → serial ≡ last + 1 → cpu.old.ran ≤ steps → Starts events steps g serial (M.told m.new) cpu.new result }
    ensures ran { cpu.new.ran ≡ cpu.old.ran }
    ensures vault { OnOk result (cpu.new.vault ≡ nat_lt serial last_serial) }
    ensures rest { OnOk result (HasRest (M.told m.new)) }
    ensures fault { IfErr result (FaultsBy (M.told m.old) (M.told m.new)) }
    ensures later { IsLater (M.told m.old) (M.told m.new) }
    ensures fit { StaysFit M.ObjectMemory m.old m.new result }
{
    let before = *cpu;
    let begun = begin(m, cpu, state);
    *cpu = going_on(before, cpu, serial);
    begun
}

/// Runs as many bytecodes as are left of `steps`, or until one ends the machine or has it kept, and parks. `cpu.ran` says how many were
/// run in all legs. Keep comes only where a checkpoint may be made, so that each one raises the serial towards the last.
pub fn run_leg<M: ObjectMemory>(
    m: &mut M,
    cpu: &mut Cpu,
    events: &EventList,
    steps: u32,
) -> Result<Step, Stop>
    requires fit { IsFit M.ObjectMemory m.old }
    requires rest { HasRest (M.told m.old) }
    requires few { cpu.old.ran ≤ steps }
    ensures leaves { IsTrue (M.told m.old).tells → (g : Guarded) (serial : ℕ) → IsAt events.now g serial (M.told m.old) cpu.old → Leaves events.now steps g serial (M.told m.new) cpu.new result }
    ensures serial { IsTrue (M.told m.old).tells → (g : Guarded) (serial : ℕ) → IsAt events.now g serial (M.told m.old) cpu.old → KeepsSerial events.now g serial cpu.new.ran result }
    ensures counted { IfOk result (λ end. HasCounted end cpu.new.ran steps) }
    ensures few { cpu.new.ran ≤ steps }
    ensures keeps { StepsBy cpu.old.vault result }
    ensures fault { IfErr result (FaultsBy (M.told m.old) (M.told m.new)) }
    ensures later { IsLater (M.told m.old) (M.told m.new) }
    ensures fit { StaysFit M.ObjectMemory m.old m.new result }
{
    run_leg_observed(m, cpu, events, steps, &mut NoObserver)
}

/// Runs as `run_leg` does, and tells an observer at every 65,536th bytecode.
pub fn run_leg_observed<M: ObjectMemory, O: Observer>(
    m: &mut M,
    cpu: &mut Cpu,
    events: &EventList,
    steps: u32,
    observer: &mut O,
) -> Result<Step, Stop>
    requires fit { IsFit M.ObjectMemory m.old }
    requires rest { HasRest (M.told m.old) }
    requires few { cpu.old.ran ≤ steps }
    ensures leaves { IsTrue (M.told m.old).tells → (g : Guarded) (serial : ℕ) → IsAt events.now g serial (M.told m.old) cpu.old → Leaves events.now steps g serial (M.told m.new) cpu.new result }
    ensures serial { IsTrue (M.told m.old).tells → (g : Guarded) (serial : ℕ) → IsAt events.now g serial (M.told m.old) cpu.old → KeepsSerial events.now g serial cpu.new.ran result }
    ensures counted { IfOk result (λ end. HasCounted end cpu.new.ran steps) }
    ensures few { cpu.new.ran ≤ steps }
    ensures keeps { StepsBy cpu.old.vault result }
    ensures fault { IfErr result (FaultsBy (M.told m.old) (M.told m.new)) }
    ensures later { IsLater (M.told m.old) (M.told m.new) }
    ensures fit { StaysFit M.ObjectMemory m.old m.new result }
{
    let end = run_observed(m, cpu, events, steps - cpu.ran, observer)?;
    park(m, cpu)?;
    Ok(end)
}

/// Draws the display of a machine that is parked at the end of a run.
pub fn finish_leg<M: ObjectMemory>(
    alloc: Global,
    m: &mut M,
    cpu: &Cpu,
    end: Step,
) -> Result<Finished, Halted>
    requires fit { IsFit M.ObjectMemory m.old }
    ensures ends { IsTrue (M.told m.old).tells → (steps : ℕ) (c : Course) → Awaits (M.told m.old) cpu.now end c → EndsAs (M.told m.new) steps result c }
    ensures fault { IfErr result (λ halted. HaltsBy (M.told m.old) (M.told m.new) halted.why) }
    ensures ran { IfErr result (λ halted. halted.ran ≡ cpu.now.ran) }
    ensures finished { IfOk result (λ finished. (finished.end ≡ end) × (finished.ran ≡ cpu.now.ran)) }
    ensures later { IsLater (M.told m.old) (M.told m.new) }
    ensures fit { EndsFit M.ObjectMemory m.old m.new result }
{
    match draw(alloc, m, cpu) {
        Ok(picture) => Ok(Finished {
            end,
            ran: cpu.ran,
            picture,
            state: state_of(m, cpu),
        }),
        Err(why) => Err(Halted { why, ran: cpu.ran }),
    }
}
