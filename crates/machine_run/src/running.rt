// Runs over any memory.
ghost use Rattle.std.specs.Prelude.{◌≡◌, ◌≤◌, ◌<◌, ◌+◌, ◌^◌, false, IfErr, IfOk, IsTrue, OnOk, OnErr};
ghost use Rattle.long_names.specs.Heap.{Heap};
ghost use Rattle.object_memory.specs.Told.{IsReady};
ghost use Rattle.object_memory.specs.Contract.{Called, IsLater, Settles};
ghost use Rattle.blue_model.specs.Machine.{Machine};
ghost use Rattle.blue_model.specs.Processes as processes;
ghost use Rattle.blue_model.specs.Cycle as model;
ghost use Rattle.blue_model.specs.declared.step.Step.TheVariants as step;
ghost use Rattle.contexts.specs.Serves.{Serves, Speaks, Stands, HasRest};
ghost use Rattle.blue_model.specs.Endings as endings;
ghost use Rattle.blue_model.specs.Endings.{HasCounted};
ghost use Rattle.blue_model.specs.Logs.{course};
ghost use Rattle.blue_model.specs.Earlier.{course_with_earlier};
ghost use Rattle.contexts.specs.Keeping.{StepsBy, is_kept};
ghost use Rattle.machine_run.specs.States.{KeepsState, model_state};
ghost use Rattle.machine_run.specs.Run.{Begins, DrawsAs, EndsAs, DrawsFit, EndsFit, FaultsBy, GoesAs, HaltsBy, IsSettled, RunsAs};
ghost use Rattle.object_memory.specs.Calls.{IsFit, KeepsFit};
ghost use Rattle.contexts.specs.Calls.{StaysFit};

use crate::observer::{NoObserver, Observer, tell};
use crate::states::{begin, state_of};
use bytecodes::{Step, step};
use contexts::{Cpu, Stop, park};
use devices::{PictureFault, due, is_idle, picture};
use event_file::EventList;
use image_format::State;
use long_names::Octets;
use object_memory::{MemFault, ObjectMemory};
use process_sched::switch;
use std::alloc::Global;

/// A process switch, where one waits (checkProcessSwitch, chapter 28).
#[inline(always)]
pub(crate) fn check_switch<M: ObjectMemory>(m: &mut M, cpu: &mut Cpu) -> Result<(), Stop>
    requires fit { IsFit M.ObjectMemory m.old }
    ensures serves { Serves (M.told m.old) cpu.old (M.told m.new) cpu.new processes.check_switch result }
    ensures fit { StaysFit M.ObjectMemory m.old m.new result }
{
    if cpu.waiting {
        switch(m, cpu)?;
    }
    Ok(())
}

/// The lines that are due, the timer, a process switch where one waits, and one bytecode.
#[inline(never)]
fn whole_turn<M: ObjectMemory>(m: &mut M, cpu: &mut Cpu, events: &EventList) -> Result<Step, Stop>
    requires fit { IsFit M.ObjectMemory m.old }
    ensures serves { Speaks step.Next (M.told m.old) cpu.old (M.told m.new) cpu.new (model.turn events.now) result }
    ensures rest { OnOk result (HasRest (M.told m.new)) }
    ensures keeps { StepsBy cpu.old.vault result }
    ensures fit { StaysFit M.ObjectMemory m.old m.new result }
{
    due(m, cpu, events)?;
    check_switch(m, cpu)?;
    step(m, cpu, events)
}

/// The same, at once where there is nothing before the bytecode.
#[inline(always)]
fn turn<M: ObjectMemory>(m: &mut M, cpu: &mut Cpu, events: &EventList) -> Result<Step, Stop>
    requires fit { IsFit M.ObjectMemory m.old }
    ensures serves { Speaks step.Next (M.told m.old) cpu.old (M.told m.new) cpu.new (model.turn events.now) result }
    ensures rest { OnOk result (HasRest (M.told m.new)) }
    ensures keeps { StepsBy cpu.old.vault result }
    ensures fit { StaysFit M.ObjectMemory m.old m.new result }
{
    if cpu.waiting {
        return whole_turn(m, cpu, events);
    }
    if !is_idle(cpu, events) {
        return whole_turn(m, cpu, events);
    }
    step(m, cpu, events)
}

/// One cycle of the machine. Its bytecode is counted unless it stopped.
#[inline(always)]
fn cycle<M: ObjectMemory>(m: &mut M, cpu: &mut Cpu, events: &EventList) -> Result<Step, Stop>
    requires fit { IsFit M.ObjectMemory m.old }
    requires room { cpu.old.ran + 1 < 2 ^ 32 }
    ensures serves { Speaks step.Next (M.told m.old) cpu.old (M.told m.new) cpu.new (model.cycle events.now) result }
    ensures counted { OnOk result (cpu.new.ran ≡ cpu.old.ran + 1) }
    ensures kept { OnErr result (cpu.new.ran ≡ cpu.old.ran) }
    ensures rest { OnOk result (HasRest (M.told m.new)) }
    ensures keeps { StepsBy cpu.old.vault result }
    ensures fit { StaysFit M.ObjectMemory m.old m.new result }
{
    let ran = cpu.ran;
    match turn(m, cpu, events) {
        Ok(step) => {
            cpu.ran = ran + 1;
            Ok(step)
        }
        Err(stop) => {
            cpu.ran = ran;
            Err(stop)
        }
    }
}

/// The end of a bytecode: what nothing holds any more may go, and no making is counted then.
#[tactic(auto, using(crate::proofs::RunningLaws::settled_by))]
#[inline(always)]
pub fn settle<M: ObjectMemory>(m: &mut M) -> Result<(), MemFault>
    requires fit { IsFit M.ObjectMemory m.old }
    ensures called { Called (M.told m.old) (M.told m.new) Settles result }
    ensures settled { OnOk result (IsSettled (M.told m.new)) }
    ensures fit { KeepsFit M.ObjectMemory m.old m.new result }
{
    m.settle()
}

/// One cycle of the machine, and the settling behind it.
#[inline(always)]
fn settled_cycle<M: ObjectMemory>(
    m: &mut M,
    cpu: &mut Cpu,
    events: &EventList,
) -> Result<Step, Stop>
    requires fit { IsFit M.ObjectMemory m.old }
    requires rest { HasRest (M.told m.old) }
    requires room { cpu.old.ran + 1 < 2 ^ 32 }
    ensures runs { IsTrue (M.told m.old).tells → (machine : Machine) → Stands (M.told m.old) cpu.old machine → RunsAs events.now (M.told m.old) (M.told m.new) cpu.new 1 machine result }
    ensures fault { IfErr result (FaultsBy (M.told m.old) (M.told m.new)) }
    ensures counted { OnOk result (cpu.new.ran ≡ cpu.old.ran + 1) }
    ensures few { cpu.new.ran ≤ cpu.old.ran + 1 }
    ensures settled { OnOk result (IsSettled (M.told m.new)) }
    ensures vault { OnOk result (IsTrue cpu.new.vault → IsTrue cpu.old.vault) }
    ensures keeps { StepsBy cpu.old.vault result }
    ensures later { IsLater (M.told m.old) (M.told m.new) }
    ensures rest { OnOk result (HasRest (M.told m.new)) }
    ensures fit { StaysFit M.ObjectMemory m.old m.new result }
{
    let step = cycle(m, cpu, events)?;
    settle(m)?;
    Ok(step)
}

/// Whether no bytecode follows: the machine ended, or is to be kept.
#[inline(always)]
pub fn is_last(step: Step) -> bool
    ensures { result ≡ endings.is_last step }
{
    match step {
        Step::Next => false,
        Step::Quit | Step::Keep => true,
    }
}

/// Runs so many bytecodes under an event list, or until one ends the machine or has it kept (interpret, chapter 28). The memory settles
/// after each. `cpu.ran` says how many were run, where it stops too. Quit and Keep come exactly where the last bytecode gave them, and
/// Keep only with an open vault.
pub fn run<M: ObjectMemory>(
    m: &mut M,
    cpu: &mut Cpu,
    events: &EventList,
    steps: u32,
) -> Result<Step, Stop>
    requires fit { IsFit M.ObjectMemory m.old }
    requires rest { HasRest (M.told m.old) }
    requires room { cpu.old.ran + steps < 2 ^ 32 }
    ensures runs { IsTrue (M.told m.old).tells → (machine : Machine) → Stands (M.told m.old) cpu.old machine → RunsAs events.now (M.told m.old) (M.told m.new) cpu.new steps machine result }
    ensures fault { IfErr result (FaultsBy (M.told m.old) (M.told m.new)) }
    ensures counted { IfOk result (λ end. HasCounted end cpu.new.ran (cpu.old.ran + steps)) }
    ensures few { cpu.new.ran ≤ cpu.old.ran + steps }
    ensures settled { OnOk result (0 < steps → IsSettled (M.told m.new)) }
    ensures keeps { StepsBy cpu.old.vault result }
    ensures later { IsLater (M.told m.old) (M.told m.new) }
    ensures rest { OnOk result (HasRest (M.told m.new)) }
    ensures fit { StaysFit M.ObjectMemory m.old m.new result }
{
    run_observed(m, cpu, events, steps, &mut NoObserver)
}

/// Runs as `run` does, and tells an observer at every 65,536th bytecode.
pub fn run_observed<M: ObjectMemory, O: Observer>(
    m: &mut M,
    cpu: &mut Cpu,
    events: &EventList,
    steps: u32,
    observer: &mut O,
) -> Result<Step, Stop>
    requires fit { IsFit M.ObjectMemory m.old }
    requires rest { HasRest (M.told m.old) }
    requires room { cpu.old.ran + steps < 2 ^ 32 }
    ensures runs { IsTrue (M.told m.old).tells → (machine : Machine) → Stands (M.told m.old) cpu.old machine → RunsAs events.now (M.told m.old) (M.told m.new) cpu.new steps machine result }
    ensures fault { IfErr result (FaultsBy (M.told m.old) (M.told m.new)) }
    ensures counted { IfOk result (λ end. HasCounted end cpu.new.ran (cpu.old.ran + steps)) }
    ensures few { cpu.new.ran ≤ cpu.old.ran + steps }
    ensures settled { OnOk result (0 < steps → IsSettled (M.told m.new)) }
    ensures keeps { StepsBy cpu.old.vault result }
    ensures later { IsLater (M.told m.old) (M.told m.new) }
    ensures rest { OnOk result (HasRest (M.told m.new)) }
    ensures fit { StaysFit M.ObjectMemory m.old m.new result }
{
    for turn in 0..steps {
        let step = settled_cycle(m, cpu, events)?;
        if is_last(step) {
            return Ok(step);
        }
        tell(observer, m, cpu);
    }
    Ok(Step::Next)
}

/// How a whole run went through.
#[derive(Debug, Drop)]
pub struct Finished {
    /// Next where all bytecodes were run, Quit where the last one ended the machine.
    pub end: Step,
    /// How many bytecodes were run.
    pub ran: u32,
    /// The picture of the display, or nothing where it has none.
    pub picture: Octets,
    /// The state that the machine was left with, as it stands: a name whose object nothing holds any more is still there.
    pub state: State,
}

/// Why a whole run ended before its end.
#[derive(Clone, Copy, Debug, PartialEq, Eq)]
pub enum Reason {
    ByStop(Stop),
    /// There was no memory for the picture.
    NoMemory,
}

/// Where a whole run ended before its end, and why.
#[derive(Clone, Copy, Debug, PartialEq, Eq)]
pub struct Halted {
    pub why: Reason,
    /// How many bytecodes were run.
    pub ran: u32,
}

/// Starts with a state, runs so many bytecodes, and parks. The vault is shut. `cpu.ran` says how many were run.
fn go_through<M: ObjectMemory, O: Observer>(
    m: &mut M,
    cpu: &mut Cpu,
    events: &EventList,
    steps: u32,
    state: &State,
    observer: &mut O,
) -> Result<Step, Stop>
    requires fit { IsFit M.ObjectMemory m.old }
    requires state { IsTrue (M.told m.old).tells → KeepsState (M.told m.old) (model_state state.now) }
    ensures ends { IsTrue (M.told m.old).tells → (h : Heap) → Begins h (M.told m.old) → GoesAs (M.told m.new) cpu.new steps result (course_with_earlier (M.told m.old).transcript (course events.now steps (model_state state.now) h)) }
    ensures fault { IfErr result (FaultsBy (M.told m.old) (M.told m.new)) }
    ensures few { cpu.new.ran ≤ steps }
    ensures counted { IfOk result (λ end. HasCounted end cpu.new.ran steps) }
    ensures keeps { StepsBy cpu.old.vault result }
    ensures later { IsLater (M.told m.old) (M.told m.new) }
    ensures fit { StaysFit M.ObjectMemory m.old m.new result }
{
    begin(m, cpu, state)?;
    let step = run_observed(m, cpu, events, steps, observer)?;
    park(m, cpu)?;
    Ok(step)
}

/// Draws the display of a machine that is parked.
pub fn draw<M: ObjectMemory>(alloc: Global, m: &mut M, cpu: &Cpu) -> Result<Octets, Reason>
    requires fit { IsFit M.ObjectMemory m.old }
    ensures draws { DrawsAs (M.told m.old) cpu.now (M.told m.new) result }
    ensures fit { DrawsFit M.ObjectMemory m.old m.new result }
{
    match picture(alloc, m, cpu) {
        Ok(bytes) => Ok(bytes),
        Err(PictureFault::Stop(stop)) => Err(Reason::ByStop(stop)),
        Err(PictureFault::Memory) => Err(Reason::NoMemory),
    }
}

/// Starts with a state and a vault that is shut, runs so many bytecodes under an event list, parks, and draws the display. The names of
/// the state are of objects that are kept with no roots, over a memory that has cached nothing; `State::NONE` has none.
pub fn whole_run<M: ObjectMemory>(
    alloc: Global,
    m: &mut M,
    events: &EventList,
    steps: u32,
    state: &State,
) -> Result<Finished, Halted>
    requires fit { IsFit M.ObjectMemory m.old }
    requires state { IsTrue (M.told m.old).tells → KeepsState (M.told m.old) (model_state state.now) }
    ensures ends { IsTrue (M.told m.old).tells → (h : Heap) → Begins h (M.told m.old) → EndsAs (M.told m.new) steps result (course_with_earlier (M.told m.old).transcript (course events.now steps (model_state state.now) h)) }
    ensures fault { IfErr result (λ halted. HaltsBy (M.told m.old) (M.told m.new) halted.why) }
    ensures ran { IfErr result (λ halted. halted.ran ≤ steps) }
    ensures counted { IfOk result (λ finished. HasCounted finished.end finished.ran steps) }
    ensures kept { IfOk result (λ finished. is_kept finished.end ≡ false) }
    ensures later { IsLater (M.told m.old) (M.told m.new) }
    ensures fit { EndsFit M.ObjectMemory m.old m.new result }
{
    whole_run_observed(alloc, m, events, steps, state, &mut NoObserver)
}

/// Runs whole as `whole_run` does, and tells an observer at every 65,536th bytecode.
pub fn whole_run_observed<M: ObjectMemory, O: Observer>(
    alloc: Global,
    m: &mut M,
    events: &EventList,
    steps: u32,
    state: &State,
    observer: &mut O,
) -> Result<Finished, Halted>
    requires fit { IsFit M.ObjectMemory m.old }
    requires state { IsTrue (M.told m.old).tells → KeepsState (M.told m.old) (model_state state.now) }
    ensures ends { IsTrue (M.told m.old).tells → (h : Heap) → Begins h (M.told m.old) → EndsAs (M.told m.new) steps result (course_with_earlier (M.told m.old).transcript (course events.now steps (model_state state.now) h)) }
    ensures fault { IfErr result (λ halted. HaltsBy (M.told m.old) (M.told m.new) halted.why) }
    ensures ran { IfErr result (λ halted. halted.ran ≤ steps) }
    ensures counted { IfOk result (λ finished. HasCounted finished.end finished.ran steps) }
    ensures kept { IfOk result (λ finished. is_kept finished.end ≡ false) }
    ensures later { IsLater (M.told m.old) (M.told m.new) }
    ensures fit { EndsFit M.ObjectMemory m.old m.new result }
{
    let mut cpu = Cpu::at_rest();
    let end = match go_through(m, &mut cpu, events, steps, state, observer) {
        Ok(end) => end,
        Err(stop) => return Err(halt_of(Reason::ByStop(stop), cpu.ran)),
    };
    match draw(alloc, m, &cpu) {
        Ok(picture) => Ok(Finished {
            end,
            ran: cpu.ran,
            picture,
            state: state_of(m, &cpu),
        }),
        Err(why) => Err(halt_of(why, cpu.ran)),
    }
}

fn halt_of(why: Reason, ran: u32) -> Halted
    ensures { result ≡ record { why = why; ran = ran } }
{
    Halted { why, ran }
}
