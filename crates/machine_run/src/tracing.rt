// One cycle of a run that is traced: as any other, and it tells where the machine stood before its bytecode.
ghost use Rattle.std.specs.Prelude.{◌≡◌, ◌+◌, ◌<◌, ◌^◌, [], ℕ, Err, IfErr, IfOk, IsTrue, OnErr, OnOk, unsigned_abs};
ghost use Rattle.long_names.specs.State.{ACTIVE_CONTEXT};
ghost use Rattle.object_memory.specs.Calls.{IsFit};
ghost use Rattle.object_memory.specs.Shape.{Looks};
ghost use Rattle.blue_model.specs.Contexts.{fetch};
ghost use Rattle.blue_model.specs.Cycle as model;
ghost use Rattle.blue_model.specs.Machine.{Machine};
ghost use Rattle.blue_model.specs.declared.cpu.Cpu.{Cpu as Numbers};
ghost use Rattle.blue_model.specs.declared.step.Step.TheVariants as step;
ghost use Rattle.contexts.specs.Calls.{StaysFit};
ghost use Rattle.contexts.specs.Keeping.{StepsBy};
ghost use Rattle.contexts.specs.Serves.{HasRest, Serves, Speaks, Stands};
ghost use Rattle.machine_run.specs.Sights.{IsSeen, context_in, end_of, sight, sight_in};

use crate::running::check_switch;
use crate::states::word_in;
use bytecodes::{Step, step};
use contexts::{Cpu, Stop, fetch};
use devices::due;
use event_file::EventList;
use long_names::Name;
use object_memory::{ObjectMemory, Reg};

/// Where the machine stands when it comes to a bytecode.
#[derive(Clone, Copy, Debug, PartialEq, Eq)]
pub struct Sight {
    /// The active context.
    pub context: Name,
    /// The instruction pointer: field 1 of the context less 1.
    pub ip: u32,
    /// The byte there.
    pub byte: u8,
}

/// A bytecode that was run: how it ended, and where the machine stood before it.
#[derive(Clone, Copy, Debug, PartialEq, Eq)]
pub struct Traced {
    pub end: Step,
    pub sight: Sight,
}

/// The active context.
fn active_context<M: ObjectMemory>(m: &M) -> Name
    requires { M.sound m.now }
    ensures { result ≡ context_in ((M.told m.now).regs ACTIVE_CONTEXT) }
{
    Name::new(word_in(m, Reg::ACTIVE_CONTEXT, true)).unwrap_or(Name::NIL)
}

/// The instruction pointer, which is no less than 0 where a byte is.
fn place_of(cpu: &Cpu) -> u32
    ensures { result ≡ unsigned_abs cpu.now.ip }
{
    cpu.ip.unsigned_abs()
}

/// Where the machine stands. Its byte is fetched for that, and fetched again with the bytecode.
fn look<M: ObjectMemory>(m: &mut M, cpu: &Cpu) -> Result<Sight, Stop>
    requires fit { IsFit M.ObjectMemory m.old }
    ensures serves { (ahead : Numbers) × Serves (M.told m.old) cpu.now (M.told m.new) ahead sight result }
    ensures looks { OnOk result (Looks [] (M.told m.old) (M.told m.new)) }
    ensures stops { IfErr result (λ stop. Serves {A = ℕ} (M.told m.old) cpu.now (M.told m.new) cpu.now fetch (Err stop)) }
    ensures fit { StaysFit M.ObjectMemory m.old m.new result }
{
    let context = active_context(m);
    let mut ahead = *cpu;
    let byte = fetch(m, &mut ahead)?;
    let ip = place_of(cpu);
    Ok(Sight { context, ip, byte })
}

/// The lines that are due, the timer, a process switch where one waits, and one bytecode, with where the machine stood before that.
fn traced_turn<M: ObjectMemory>(
    m: &mut M,
    cpu: &mut Cpu,
    events: &EventList,
) -> Result<Traced, Stop>
    requires fit { IsFit M.ObjectMemory m.old }
    ensures serves { Speaks step.Next (M.told m.old) cpu.old (M.told m.new) cpu.new (model.turn events.now) (end_of result) }
    ensures sees { IsTrue (M.told m.old).tells → (machine : Machine) → Stands (M.told m.old) cpu.old machine → IfOk result (λ traced. IsSeen traced.sight (sight_in events.now machine)) }
    ensures rest { OnOk result (HasRest (M.told m.new)) }
    ensures keeps { StepsBy cpu.old.vault (end_of result) }
    ensures fit { StaysFit M.ObjectMemory m.old m.new result }
{
    due(m, cpu, events)?;
    check_switch(m, cpu)?;
    let sight = look(m, cpu)?;
    let end = step(m, cpu, events)?;
    Ok(Traced { end, sight })
}

/// One cycle of the machine, with where it stood before its bytecode. The bytecode is counted unless it stopped. The memory doesn't settle.
pub fn traced_cycle<M: ObjectMemory>(
    m: &mut M,
    cpu: &mut Cpu,
    events: &EventList,
) -> Result<Traced, Stop>
    requires fit { IsFit M.ObjectMemory m.old }
    requires room { cpu.old.ran + 1 < 2 ^ 32 }
    ensures serves { Speaks step.Next (M.told m.old) cpu.old (M.told m.new) cpu.new (model.cycle events.now) (end_of result) }
    ensures sees { IsTrue (M.told m.old).tells → (machine : Machine) → Stands (M.told m.old) cpu.old machine → IfOk result (λ traced. IsSeen traced.sight (sight_in events.now machine)) }
    ensures counted { OnOk result (cpu.new.ran ≡ cpu.old.ran + 1) }
    ensures kept { OnErr result (cpu.new.ran ≡ cpu.old.ran) }
    ensures rest { OnOk result (HasRest (M.told m.new)) }
    ensures keeps { StepsBy cpu.old.vault (end_of result) }
    ensures fit { StaysFit M.ObjectMemory m.old m.new result }
{
    let ran = cpu.ran;
    match traced_turn(m, cpu, events) {
        Ok(traced) => {
            cpu.ran = ran + 1;
            Ok(traced)
        }
        Err(stop) => {
            cpu.ran = ran;
            Err(stop)
        }
    }
}
