// What primitives answer (chapter 29).
ghost use Rattle.std.specs.Prelude.{◌≡◌, ◌≤◌, ◌<◌, [], ◌∷◌, OnOk, IfOk};
ghost use Rattle.object_memory.specs.Told.{IsReady};
ghost use Rattle.object_memory.specs.Shape.{Looks};
ghost use Rattle.blue_model.specs.declared.cpu.Cpu.{Cpu as Numbers};
ghost use Rattle.long_names.specs.declared.limits.TheConstants.{MACHINE_REGISTERS};
ghost use Rattle.blue_model.specs.Trials as model;
ghost use Rattle.contexts.specs.Serves.{Serves, StaysSound, with_value};
ghost use Rattle.object_memory.specs.Calls.{IsFit};
ghost use Rattle.contexts.specs.Calls.{StaysFit};
ghost use Rattle.contexts.specs.Keeping.{NeverKeeps};

use crate::parts::known;
use crate::stacks::{pop, push};
use crate::stop::Stop;
use blue_model::{Answer, Cpu};
use long_names::Name;
use object_memory::{ObjectMemory, Reg};

/// Pops n arguments and the receiver, and pushes the answer that a register holds. Stuck with Stack where the stack has fewer.
pub fn answer<M: ObjectMemory>(m: &mut M, cpu: &mut Cpu, n: u32, from: Reg) -> Result<Answer, Stop>
    requires fit { IsFit M.ObjectMemory m.old }
    requires few { n < 256 }
    ensures serves { Serves (M.told m.old) cpu.old (M.told m.new) cpu.new (model.answer n ((M.told m.old).regs from)) result }
    ensures done { IfOk result (λ a. a ≡ Answer.Done) }
    ensures never_keeps { NeverKeeps result }
    ensures fit { StaysFit M.ObjectMemory m.old m.new result }
{
    pop(cpu, n + 1)?;
    push(m, cpu, from)?;
    Ok(Answer::Done)
}

/// Loads true or false.
pub fn boolean<M: ObjectMemory>(m: &mut M, to: Reg, b: bool) -> Result<(), Stop>
    requires fit { IsFit M.ObjectMemory m.old }
    requires scratch { MACHINE_REGISTERS ≤ to }
    ensures serves { (cpu : Numbers) → Serves (M.told m.old) cpu (M.told m.new) cpu (model.boolean b) (with_value result ((M.told m.new).regs to)) }
    ensures looks { OnOk result (Looks (to ∷ []) (M.told m.old) (M.told m.new)) }
    ensures fit { StaysFit M.ObjectMemory m.old m.new result }
{
    if b {
        known(m, to, Name::TRUE)
    } else {
        known(m, to, Name::FALSE)
    }
}
