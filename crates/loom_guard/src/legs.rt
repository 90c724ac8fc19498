// One leg of a guarded run, over any memory and over that of two levels.
ghost use Rattle.std.specs.Prelude.{◌≡◌, ℕ, ◌<◌, ◌≤◌, nat_lt, List, IfErr, IfOk, IsTrue, OnOk};
ghost use Rattle.long_names.specs.Heap.{Heap};
ghost use Rattle.loom_host.specs.declared.outside.Role.TheVariants as role;
ghost use Rattle.blue_model.specs.declared.event.Line.{Line};
ghost use Rattle.blue_model.specs.declared.limits.TheConstants.{LAST_SERIAL as last_serial};
ghost use Rattle.blue_model.specs.Earlier.{course_with_earlier};
ghost use Rattle.blue_model.specs.Guarded.{Guarded, guarded_on};
ghost use Rattle.blue_model.specs.Logs.{Course};
ghost use Rattle.contexts.specs.Calls.{StaysFit};
ghost use Rattle.contexts.specs.Keeping as keeping;
ghost use Rattle.contexts.specs.Serves.{HasRest};
ghost use Rattle.machine_run.specs.Run.{Begins, FaultsBy, HaltsBy};
ghost use Rattle.machine_run.specs.States.{KeepsState, model_state};
ghost use Rattle.machine_run.specs.declared.running.Reason.TheVariants as reason;
ghost use Rattle.object_memory.specs.Calls.{IsFit};
ghost use Rattle.object_memory.specs.Contract.{IfBounds, IsLater};
ghost use Rattle.object_memory.specs.Told.{IsReady};
ghost use Rattle.guarded_run.specs.Course.{course_on, serial_at};
ghost use Rattle.guarded_run.specs.Legs.{IsAt, Starts};
ghost use Rattle.loom_memory.specs.Memory.{loom_lender, loom_now, loom_told, IsSound};
ghost use Rattle.loom_words.specs.Command.{row_for};
ghost use Rattle.loom_run.specs.Meanings.{LeavesBut, meanings};
ghost use Rattle.loom_run.specs.Stages.{Running, roles_at};
ghost use Rattle.loom_run.specs.Steps.{BeginsImage, HasBounds, IsRefusal, IsSameFile};
ghost use Rattle.loom_guard.specs.Legs.{HasTick, IsCounted, KeepsWhere, LegAs, LegComes, LegFit, LegStops, SetsOut};
ghost use Rattle.loom_guard.specs.Moments.{StopsAt};

use contexts::{Cpu, Stop};
use event_file::EventList;
use guarded_run::{continue_leg, finish_leg, run_leg_observed, start_leg};
use image_format::State;
use loom_host::Host;
use loom_memory::LoomMemory;
use loom_run::steps::status_of;
use loom_words::{Command, Status};
use machine_run::{Finished, Halted, Observer, Reason, Step, state_of};
use object_memory::ObjectMemory;
use std::alloc::Global;

/// How a leg ended.
#[derive(Drop)]
pub(crate) enum Leg {
    /// The machine is to be kept, with this state.
    Kept(State),
    /// It was the last.
    Ended(Finished),
}

// Starts the machine, or has it go on from what was kept of it.
fn set_out<M: ObjectMemory>(
    m: &mut M,
    cpu: &mut Cpu,
    first: bool,
    state: &State,
    serial: u64,
) -> Result<(), Stop>
    requires fit { IsFit M.ObjectMemory m.old }
    requires state { IsTrue (M.told m.old).tells → KeepsState (M.told m.old) (model_state state.now) }
    ensures starts { IsTrue (M.told m.old).tells → (h : Heap) → Begins h (M.told m.old) → (events : List Line) (steps core : ℕ) (g : Guarded) → IfBounds (M.told m.old).bounds (λ b. b.core ≡ core)
        → SetsOut first events g serial cpu.old (M.told m.old).speaks (M.told m.old).transcript core (model_state state.now) h → cpu.old.ran ≤ steps → Starts events steps g serial (M.told m.new) cpu.new result }
    ensures serial { (h : Heap) (events : List Line) (core : ℕ) (g : Guarded) → SetsOut first events g serial cpu.old (M.told m.old).speaks (M.told m.old).transcript core (model_state state.now) h → serial_at (guarded_on events cpu.new.ran g) ≡ serial }
    ensures few { cpu.new.ran ≤ cpu.old.ran }
    ensures vault { OnOk result (cpu.new.vault ≡ nat_lt serial last_serial) }
    ensures rest { OnOk result (HasRest (M.told m.new)) }
    ensures fault { IfErr result (FaultsBy (M.told m.old) (M.told m.new)) }
    ensures later { IsLater (M.told m.old) (M.told m.new) }
    ensures fit { StaysFit M.ObjectMemory m.old m.new result }
{
    if first {
        start_leg(m, cpu, state, serial)
    } else {
        continue_leg(m, cpu, state, serial)
    }
}

// Whether the machine is to be kept.
fn is_kept(end: Step) -> bool
    ensures { result ≡ keeping.is_kept end }
{
    match end {
        Step::Next | Step::Quit => false,
        Step::Keep => true,
    }
}

fn halt_of(stop: Stop, ran: u32) -> Halted
    ensures { result ≡ record { why = reason.ByStop stop; ran = ran } }
{
    Halted {
        why: Reason::ByStop(stop),
        ran,
    }
}

// Runs the bytecodes of a leg, and ends it: at the end of the run the display is drawn.
fn run_on<M: ObjectMemory, O: Observer>(
    alloc: Global,
    m: &mut M,
    cpu: &mut Cpu,
    events: &EventList,
    steps: u32,
    observer: &mut O,
) -> Result<Leg, Halted>
    requires fit { IsFit M.ObjectMemory m.old }
    requires rest { HasRest (M.told m.old) }
    requires few { cpu.old.ran ≤ steps }
    ensures comes { IsTrue (M.told m.old).tells → (g : Guarded) (serial : ℕ) → IsAt events.now g serial (M.told m.old) cpu.old → LegAs events.now steps g serial (M.told m.new) cpu.new result (course_on events.now steps g) }
    ensures moment { IsTrue (M.told m.old).tells → (g : Guarded) (serial : ℕ) → IsAt events.now g serial (M.told m.old) cpu.old → IfErr result (LegStops events.now steps g serial (M.told m.new)) }
    ensures counted { IfOk result (IsCounted steps) }
    ensures tick { IfOk result HasTick }
    ensures keeps { IfOk result (KeepsWhere (IsTrue cpu.old.vault)) }
    ensures few { cpu.new.ran ≤ steps }
    ensures ran { IfErr result (λ halted. halted.ran ≤ steps) }
    ensures fault { IfErr result (λ halted. HaltsBy (M.told m.old) (M.told m.new) halted.why) }
    ensures later { IsLater (M.told m.old) (M.told m.new) }
    ensures fit { LegFit M.ObjectMemory m.old m.new result }
{
    let end = match run_leg_observed(m, cpu, events, steps, observer) {
        Ok(end) => end,
        Err(stop) => return Err(halt_of(stop, cpu.ran)),
    };
    if is_kept(end) {
        return Ok(Leg::Kept(state_of(m, cpu)));
    }
    match finish_leg(alloc, m, cpu, end) {
        Ok(finished) => Ok(Leg::Ended(finished)),
        Err(halted) => Err(halted),
    }
}

// A whole leg over any memory.
fn whole_leg<M: ObjectMemory, O: Observer>(
    alloc: Global,
    m: &mut M,
    cpu: &mut Cpu,
    first: bool,
    events: &EventList,
    state: &State,
    serial: u64,
    steps: u32,
    observer: &mut O,
) -> Result<Leg, Halted>
    requires fit { IsFit M.ObjectMemory m.old }
    requires state { IsTrue (M.told m.old).tells → KeepsState (M.told m.old) (model_state state.now) }
    requires few { cpu.old.ran ≤ steps }
    ensures comes { IsTrue (M.told m.old).tells → (h : Heap) → Begins h (M.told m.old) → (core : ℕ) (g : Guarded) → IfBounds (M.told m.old).bounds (λ b. b.core ≡ core)
        → SetsOut first events.now g serial cpu.old (M.told m.old).speaks (M.told m.old).transcript core (model_state state.now) h → LegAs events.now steps g serial (M.told m.new) cpu.new result (course_on events.now steps g) }
    ensures moment { IsTrue (M.told m.old).tells → (h : Heap) → Begins h (M.told m.old) → (core : ℕ) (g : Guarded) → IfBounds (M.told m.old).bounds (λ b. b.core ≡ core)
        → SetsOut first events.now g serial cpu.old (M.told m.old).speaks (M.told m.old).transcript core (model_state state.now) h → IfErr result (LegStops events.now steps g serial (M.told m.new)) }
    ensures counted { IfOk result (IsCounted steps) }
    ensures tick { IfOk result HasTick }
    ensures keeps { IfOk result (KeepsWhere (serial < last_serial)) }
    ensures few { cpu.new.ran ≤ steps }
    ensures ran { IfErr result (λ halted. halted.ran ≤ steps) }
    ensures fault { IfErr result (λ halted. HaltsBy (M.told m.old) (M.told m.new) halted.why) }
    ensures later { IsLater (M.told m.old) (M.told m.new) }
    ensures fit { LegFit M.ObjectMemory m.old m.new result }
{
    match set_out(m, cpu, first, state, serial) {
        Ok(()) => run_on(alloc, m, cpu, events, steps, observer),
        Err(stop) => Err(halt_of(stop, cpu.ran)),
    }
}

/// A leg of a guarded run: the machine starts with a state, in the first leg, or goes on with what was kept of it, and runs to the next checkpoint or to the
/// end. `serial` is that of the last checkpoint, 0 for none, and `cpu.ran` how many bytecodes were run in all legs.
pub(crate) fn loom_leg<H: Host, O: Observer>(
    alloc: Global,
    memory: &mut LoomMemory<'_, H>,
    cpu: &mut Cpu,
    first: bool,
    events: &EventList,
    state: &State,
    serial: u64,
    command: &Command<'_>,
    observer: &mut O,
) -> Result<Leg, Status>
    requires sound { IsSound H.Host memory.old }
    requires ready { IsReady (loom_told H.Host memory.old) }
    requires begins { IsTrue (H.tells role.Work) → (h : Heap) × BeginsImage h state.now (loom_told H.Host memory.old) }
    requires bounds { HasBounds (row_for command.now) (loom_told H.Host memory.old) }
    requires few { cpu.old.ran ≤ command.now.steps }
    ensures comes { IsTrue (H.tells role.Work) → (h : Heap) → BeginsImage h state.now (loom_told H.Host memory.old) → (g : Guarded) (said : List ℕ) (c : Course)
        → SetsOut first events.now g serial cpu.old (H.tells role.Transcript) (loom_told H.Host memory.old).transcript command.now.core (model_state state.now) h
        → course_on events.now command.now.steps g ≡ course_with_earlier said c
        → LegComes events.now g serial (loom_told H.Host memory.new) cpu.new (row_for command.now) result said c }
    ensures moment { IsTrue (H.tells role.Work) → (h : Heap) → BeginsImage h state.now (loom_told H.Host memory.old) → (g : Guarded) (said : List ℕ) (c : Course)
        → SetsOut first events.now g serial cpu.old (H.tells role.Transcript) (loom_told H.Host memory.old).transcript command.now.core (model_state state.now) h
        → course_on events.now command.now.steps g ≡ course_with_earlier said c
        → IfErr result (StopsAt (H.tells role.Transcript) command.now.steps events.now g c said (loom_told H.Host memory.new).transcript serial) }
    ensures counted { IfOk result (IsCounted command.now.steps) }
    ensures tick { IfOk result HasTick }
    ensures keeps { IfOk result (KeepsWhere (serial < last_serial)) }
    ensures few { cpu.new.ran ≤ command.now.steps }
    ensures bounds { HasBounds (row_for command.now) (loom_told H.Host memory.new) }
    ensures sound { OnOk result (IsSound H.Host memory.new) }
    ensures ready { OnOk result (IsReady (loom_told H.Host memory.new)) }
    ensures file { IsTrue (H.tells role.Work) → IsSameFile (H.roles (loom_now memory.old) role.Work) (H.roles (loom_now memory.new) role.Work) }
    ensures lender { loom_lender memory.new ≡ loom_lender memory.old }
    ensures others { LeavesBut (roles_at Running) (meanings H.Host (loom_now memory.old)) (meanings H.Host (loom_now memory.new)) }
    ensures refused { IfErr result (IsRefusal H.tells (meanings H.Host (loom_now memory.old)) (meanings H.Host (loom_now memory.new)) (row_for command.now) Running) }
{
    match whole_leg(
        alloc,
        memory,
        cpu,
        first,
        events,
        state,
        serial,
        command.steps,
        observer,
    ) {
        Ok(leg) => Ok(leg),
        Err(halted) => Err(status_of(&halted)),
    }
}
