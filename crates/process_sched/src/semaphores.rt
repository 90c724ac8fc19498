// Semaphores (chapter 29). The semaphore is in R11. Numbers are read into R16.
ghost use Rattle.std.specs.Prelude.{◌≡◌, pos, OnOk};
ghost use Rattle.std.specs.Int.Signed.{lt_z};
ghost use Rattle.long_names.specs.Words.{IsSmallInteger};
ghost use Rattle.object_memory.specs.Told.{IsReady};
ghost use Rattle.blue_model.specs.declared.cpu.Cpu.{Cpu as Numbers};
ghost use Rattle.blue_model.specs.Processes as model;
ghost use Rattle.contexts.specs.Serves.{Serves, StaysSound};
ghost use Rattle.object_memory.specs.Calls.{IsFit};
ghost use Rattle.contexts.specs.Calls.{StaysFit};

use crate::lists::{add, take};
use crate::switches::{current_process, resume, suspend_active};
use blue_model::indexes::{EXCESS_SIGNALS_INDEX, FIRST_LINK_INDEX};
use contexts::parts::{field, number, store_field};
use contexts::{Cpu, Stop};
use long_names::{Name, SMALL_INTEGERS};
use object_memory::{ObjectMemory, Reg};

/// One signal more that nobody waited for, as far as a SmallInteger can say.
fn one_more(excess: i16) -> i16
    requires range { IsSmallInteger excess }
    ensures number { result ≡ model.one_more excess }
    ensures range { IsSmallInteger result }
{
    if excess < SMALL_INTEGERS as i16 - 1 {
        excess + 1
    } else {
        excess
    }
}

/// The semaphore has one signal more that nobody waited for.
fn add_signal<M: ObjectMemory>(m: &mut M) -> Result<(), Stop>
    requires fit { IsFit M.ObjectMemory m.old }
    ensures serves { (cpu : Numbers) → Serves (M.told m.old) cpu (M.told m.new) cpu (model.add_signal ((M.told m.old).regs 11)) result }
    ensures fit { StaysFit M.ObjectMemory m.old m.new result }
{
    let excess = number(m, Reg::R16, Reg::R11, 0, EXCESS_SIGNALS_INDEX)?;
    m.int(Reg::R16, one_more(excess));
    store_field(m, Reg::R11, EXCESS_SIGNALS_INDEX, Reg::R16)
}

/// Signals the semaphore in a register (synchronousSignal:): the first process that waits there is resumed, and where none waits, the
/// semaphore has one signal more. Stuck with Shape where it is no semaphore.
pub fn signal<M: ObjectMemory>(m: &mut M, cpu: &mut Cpu, semaphore: Reg) -> Result<(), Stop>
    requires fit { IsFit M.ObjectMemory m.old }
    ensures serves { Serves (M.told m.old) cpu.old (M.told m.new) cpu.new (model.signal ((M.told m.old).regs semaphore)) result }
    ensures fit { StaysFit M.ObjectMemory m.old m.new result }
{
    m.copy(Reg::R11, semaphore);
    field(m, Reg::R12, Reg::R11, 0, FIRST_LINK_INDEX)?;
    if m.is(Reg::R12, Name::NIL) {
        return add_signal(m);
    }
    take(m)?;
    resume(m, cpu)
}

/// The current process waits at the semaphore, and another goes on.
fn sleep_at<M: ObjectMemory>(m: &mut M, cpu: &mut Cpu) -> Result<(), Stop>
    requires fit { IsFit M.ObjectMemory m.old }
    ensures serves { Serves (M.told m.old) cpu.old (M.told m.new) cpu.new (model.sleep_at ((M.told m.old).regs 11)) result }
    ensures fit { StaysFit M.ObjectMemory m.old m.new result }
{
    current_process(m, cpu)?;
    add(m)?;
    suspend_active(m, cpu)
}

/// Whether there are signals that nobody waited for.
#[inline(always)]
fn has_signal(excess: i16) -> bool
    ensures { result ≡ lt_z (pos 0) excess }
{
    excess > 0
}

/// Takes one of the signals that nobody waited for, or waits.
pub(crate) fn wait<M: ObjectMemory>(m: &mut M, cpu: &mut Cpu) -> Result<(), Stop>
    requires fit { IsFit M.ObjectMemory m.old }
    ensures serves { Serves (M.told m.old) cpu.old (M.told m.new) cpu.new (model.wait ((M.told m.old).regs 11)) result }
    ensures fit { StaysFit M.ObjectMemory m.old m.new result }
{
    let excess = number(m, Reg::R16, Reg::R11, 0, EXCESS_SIGNALS_INDEX)?;
    if has_signal(excess) {
        m.int(Reg::R16, excess - 1);
        return store_field(m, Reg::R11, EXCESS_SIGNALS_INDEX, Reg::R16);
    }
    sleep_at(m, cpu)
}
