// The state with which a run begins, and the one that it leaves.
ghost use Rattle.std.specs.Prelude.{◌≡◌, IfErr, IsTrue, OnOk};
ghost use Rattle.blue_model.specs.State as model;
ghost use Rattle.contexts.specs.Serves.{Serves, HasRest};
ghost use Rattle.contexts.specs.Calls.{StaysFit};
ghost use Rattle.object_memory.specs.Calls.{IsFit};
ghost use Rattle.machine_run.specs.Run.{FaultsBy};
ghost use Rattle.machine_run.specs.States.{KeepsState, model_state, state_held, word_held};

use contexts::{Cpu, Stop, start};
use devices::{clock, restore};
use image_format::State;
use long_names::Name;
use object_memory::{ObjectMemory, Reg};

/// Starts, and goes on from a state. Nothing was run then, and the vault is shut.
pub fn begin<M: ObjectMemory>(m: &mut M, cpu: &mut Cpu, state: &State) -> Result<(), Stop>
    requires fit { IsFit M.ObjectMemory m.old }
    requires state { IsTrue (M.told m.old).tells → KeepsState (M.told m.old) (model_state state.now) }
    ensures serves { Serves (M.told m.old) cpu.old (M.told m.new) cpu.new (model.begin (model_state state.now)) result }
    ensures rest { OnOk result (HasRest (M.told m.new)) }
    ensures ran { cpu.new.ran ≡ 0 }
    ensures fault { IfErr result (FaultsBy (M.told m.old) (M.told m.new)) }
    ensures fit { StaysFit M.ObjectMemory m.old m.new result }
{
    start(m, cpu)?;
    let display = Name::new(state.display);
    let input = Name::new(state.input);
    let timer = Name::new(state.timer);
    restore(m, cpu, state.clock, display, input, timer, state.tick)
}

/// The name in a register, as a word of a state; 0 where it holds none, or isn't in use.
pub(crate) fn word_in<M: ObjectMemory>(m: &M, r: Reg, in_use: bool) -> u32
    requires { M.sound m.now }
    ensures { result ≡ word_held in_use ((M.told m.now).regs r) }
{
    if !in_use || m.as_int(r).is_some() {
        return 0;
    }
    match Name::new(m.hash(r).wrapping_mul(2)) {
        Some(name) if m.is(r, name) => name.get(),
        _ => 0,
    }
}

/// The state that a machine is left with, as it stands: a name whose object nothing holds any more is still there.
pub fn state_of<M: ObjectMemory>(m: &M, cpu: &Cpu) -> State
    requires { M.sound m.now }
    ensures { model_state result ≡ state_held (M.told m.now).regs cpu.now }
{
    State {
        clock: clock(cpu),
        display: word_in(m, Reg::DISPLAY, cpu.display),
        input: word_in(m, Reg::INPUT_SEMAPHORE, cpu.input),
        timer: word_in(m, Reg::TIMER_SEMAPHORE, cpu.timer.is_some()),
        tick: cpu.timer.unwrap_or(0),
    }
}
