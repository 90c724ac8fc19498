// A run over the memory of two levels, with a line on Saved for each of its bytecodes.
ghost use Rattle.std.specs.Prelude.{◌≡◌, ◌+◌, ◌<◌, ◌≤◌, ◌^◌, IfErr, IfOk, IsTrue, OnOk};
ghost use Rattle.loom_host.specs.Outside.{SameBut};
ghost use Rattle.object_memory.specs.Contract.{IsLater};
ghost use Rattle.object_memory.specs.Fit.{MayCall};
ghost use Rattle.blue_model.specs.Endings.{HasCounted};
ghost use Rattle.blue_model.specs.Machine.{Machine};
ghost use Rattle.contexts.specs.Keeping.{is_kept};
ghost use Rattle.contexts.specs.Serves.{HasRest, Stands};
ghost use Rattle.contexts.specs.declared.stop.Stop.TheVariants.{Mem};
ghost use Rattle.loom_memory.specs.Memory.{IsSound, loom_lender, loom_outside, loom_told};
ghost use Rattle.loom_words.specs.Trace.{trace_text};
ghost use Rattle.machine_run.specs.Run.{IsSettled};
ghost use Rattle.loom_run.specs.Traces.{EndsBy, HasTraced, IsUnwritten, OnlyPut, PutsText, TraceFit, TracesAs};
ghost use Rattle.loom_run.specs.declared.tracing.TraceStop.TheVariants as variants;

use contexts::{Cpu, Stop};
use event_file::EventList;
use loom_host::{Host, Role};
use loom_memory::LoomMemory;
use loom_words::trace_line;
use machine_run::{Sight, Step, is_last, settle, traced_cycle};
use object_memory::MemFault;

/// Why a trace ended before its end.
#[derive(Clone, Copy, Debug, PartialEq, Eq)]
pub enum TraceStop {
    /// The run was stopped, as one that isn't traced.
    Stop(Stop),
    /// A line couldn't be put whole to Saved; `count` is its fault count since then.
    Write { count: u64 },
}

impl From<Stop> for TraceStop {
    ghost from_gives = { λ stop e. e ≡ variants.Stop stop };

    fn from(stop: Stop) -> TraceStop {
        TraceStop::Stop(stop)
    }
}

impl From<MemFault> for TraceStop {
    ghost from_gives = { λ fault e. e ≡ variants.Stop (Mem fault) };

    fn from(fault: MemFault) -> TraceStop {
        TraceStop::Stop(Stop::Mem(fault))
    }
}

// Puts the line of a bytecode.
fn put_line<H: Host>(m: &mut LoomMemory<'_, H>, k: u32, sight: &Sight) -> Result<(), TraceStop>
    requires sound { IsSound H.Host m.old }
    ensures told { loom_told H.Host m.new ≡ loom_told H.Host m.old }
    ensures sound { IsSound H.Host m.new }
    ensures line { IsTrue (H.tells Role.Saved) → PutsText result (trace_text k sight.now.context sight.now.ip sight.now.byte) (loom_outside H.Host m.old Role.Saved).role (loom_outside H.Host m.new Role.Saved).role }
    ensures only { IsTrue (H.tells Role.Saved) → OnlyPut (loom_outside H.Host m.old Role.Saved).role (loom_outside H.Host m.new Role.Saved).role }
    ensures faults { (loom_outside H.Host m.old Role.Saved).faults ≤ (loom_outside H.Host m.new Role.Saved).faults }
    ensures cause { IfErr result (IsUnwritten (loom_outside H.Host m.old Role.Saved).faults (loom_outside H.Host m.new Role.Saved).faults) }
    ensures others { SameBut Role.Saved (loom_outside H.Host m.old) (loom_outside H.Host m.new) }
    ensures lender { loom_lender m.new ≡ loom_lender m.old }
{
    let mut line = [0; 40];
    let len = trace_line(k, sight.context, sight.ip, sight.byte, &mut line) as usize;
    match m.write_to(Role::Saved, &line[..len]) {
        Ok(()) => Ok(()),
        Err(_) => Err(TraceStop::Write {
            count: m.fault_count(Role::Saved),
        }),
    }
}

// One cycle of the machine, its line, and the settling behind it.
fn trace_cycle<H: Host>(
    m: &mut LoomMemory<'_, H>,
    cpu: &mut Cpu,
    events: &EventList,
) -> Result<Step, TraceStop>
    requires fit { MayCall (IsSound H.Host) (loom_told H.Host) m.old }
    requires rest { HasRest (loom_told H.Host m.old) }
    requires room { cpu.old.ran + 1 < 2 ^ 32 }
    ensures traces { IsTrue (H.tells Role.Work) → (machine : Machine) → Stands (loom_told H.Host m.old) cpu.old machine → TracesAs events.now (loom_told H.Host m.old) (loom_told H.Host m.new) cpu.new 1 machine result }
    ensures lines { IsTrue (H.tells Role.Work) → IsTrue (H.tells Role.Saved) → (machine : Machine) → Stands (loom_told H.Host m.old) cpu.old machine → HasTraced events.now result cpu.old.ran cpu.new.ran machine (loom_outside H.Host m.old Role.Saved).role (loom_outside H.Host m.new Role.Saved).role }
    ensures cause { IfErr result (EndsBy (loom_told H.Host m.old) (loom_told H.Host m.new) (loom_outside H.Host m.old Role.Saved).faults (loom_outside H.Host m.new Role.Saved).faults) }
    ensures counted { OnOk result (cpu.new.ran ≡ cpu.old.ran + 1) }
    ensures few { cpu.new.ran ≤ cpu.old.ran + 1 }
    ensures settled { OnOk result (IsSettled (loom_told H.Host m.new)) }
    ensures vault { OnOk result (IsTrue cpu.new.vault → IsTrue cpu.old.vault) }
    ensures keeps { IfOk result (λ end. IsTrue (is_kept end) → IsTrue cpu.old.vault) }
    ensures later { IsLater (loom_told H.Host m.old) (loom_told H.Host m.new) }
    ensures rest { OnOk result (HasRest (loom_told H.Host m.new)) }
    ensures fit { TraceFit H.Host m.old m.new result }
{
    let traced = traced_cycle(m, cpu, events)?;
    put_line(m, cpu.ran, &traced.sight)?;
    settle(m)?;
    Ok(traced.end)
}

/// Runs so many bytecodes under an event list, or until one ends the machine, as `run` does, and puts the line of each to Saved behind it:
/// `k CONTEXT IP BYTE`. It takes no memory. After a refusal the lines are those of the bytecodes that were run, which `cpu.ran` counts; where
/// one couldn't be put whole, a first part of it is there, and those before it are whole.
pub fn trace<H: Host>(
    m: &mut LoomMemory<'_, H>,
    cpu: &mut Cpu,
    events: &EventList,
    steps: u32,
) -> Result<Step, TraceStop>
    requires fit { MayCall (IsSound H.Host) (loom_told H.Host) m.old }
    requires rest { HasRest (loom_told H.Host m.old) }
    requires room { cpu.old.ran + steps < 2 ^ 32 }
    ensures traces { IsTrue (H.tells Role.Work) → (machine : Machine) → Stands (loom_told H.Host m.old) cpu.old machine → TracesAs events.now (loom_told H.Host m.old) (loom_told H.Host m.new) cpu.new steps machine result }
    ensures lines { IsTrue (H.tells Role.Work) → IsTrue (H.tells Role.Saved) → (machine : Machine) → Stands (loom_told H.Host m.old) cpu.old machine → HasTraced events.now result cpu.old.ran cpu.new.ran machine (loom_outside H.Host m.old Role.Saved).role (loom_outside H.Host m.new Role.Saved).role }
    ensures cause { IfErr result (EndsBy (loom_told H.Host m.old) (loom_told H.Host m.new) (loom_outside H.Host m.old Role.Saved).faults (loom_outside H.Host m.new Role.Saved).faults) }
    ensures counted { IfOk result (λ end. HasCounted end cpu.new.ran (cpu.old.ran + steps)) }
    ensures few { cpu.new.ran ≤ cpu.old.ran + steps }
    ensures settled { OnOk result (0 < steps → IsSettled (loom_told H.Host m.new)) }
    ensures keeps { IfOk result (λ end. IsTrue (is_kept end) → IsTrue cpu.old.vault) }
    ensures later { IsLater (loom_told H.Host m.old) (loom_told H.Host m.new) }
    ensures rest { OnOk result (HasRest (loom_told H.Host m.new)) }
    ensures fit { TraceFit H.Host m.old m.new result }
{
    for turn in 0..steps {
        let end = trace_cycle(m, cpu, events)?;
        if is_last(end) {
            return Ok(end);
        }
    }
    Ok(Step::Next)
}
