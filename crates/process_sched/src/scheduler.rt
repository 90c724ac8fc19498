// The scheduler's lists of processes, one for each priority from 1 on (chapter 29). Their Array is in R15, and numbers are read into
// R16.
ghost use Rattle.std.specs.Prelude.{◌≡◌, ◌<◌, [], ◌∷◌, OnOk, IfSome, is_some};
ghost use Rattle.long_names.specs.Words.{IsSmallInteger};
ghost use Rattle.object_memory.specs.Told.{IsReady};
ghost use Rattle.object_memory.specs.Shape.{Looks};
ghost use Rattle.blue_model.specs.declared.cpu.Cpu.{Cpu as Numbers};
ghost use Rattle.blue_model.specs.Processes as model;
ghost use Rattle.contexts.specs.Serves.{Serves, StaysSound, with_value};
ghost use Rattle.object_memory.specs.Calls.{IsFit};
ghost use Rattle.contexts.specs.Calls.{StaysFit};

use crate::lists::{add, take};
use blue_model::indexes::{FIRST_LINK_INDEX, PRIORITY_INDEX, PROCESS_LISTS_INDEX};
use contexts::parts::{field, number, size};
use contexts::{Cause, Stop, scheduler};
use long_names::Name;
use object_memory::{ObjectMemory, Reg};

/// Loads the Array of the scheduler's lists into R15.
#[inline(always)]
fn process_lists<M: ObjectMemory>(m: &mut M) -> Result<(), Stop>
    requires fit { IsFit M.ObjectMemory m.old }
    ensures serves { (cpu : Numbers) → Serves (M.told m.old) cpu (M.told m.new) cpu model.process_lists (with_value result ((M.told m.new).regs 15)) }
    ensures looks { OnOk result (Looks (15 ∷ []) (M.told m.old) (M.told m.new)) }
    ensures fit { StaysFit M.ObjectMemory m.old m.new result }
{
    scheduler(m, Reg::R15)?;
    field(m, Reg::R15, Reg::R15, 0, PROCESS_LISTS_INDEX)?;
    Ok(())
}

/// The index of the list of a priority, where there are so many lists.
#[inline(always)]
fn list_index(priority: i16, count: u32) -> Option<u32>
    requires range { IsSmallInteger priority }
    ensures index { result ≡ model.list_index priority count }
    ensures within { IfSome result (λ i. i < count) }
{
    if priority < 1 {
        return None;
    }
    let i = priority as u32 - 1;
    if i < count { Some(i) } else { None }
}

/// The process in R10 becomes the last on the list of its priority (sleep:). Stuck with Shape where its priority has no list.
#[inline(always)]
pub(crate) fn sleep<M: ObjectMemory>(m: &mut M) -> Result<(), Stop>
    requires fit { IsFit M.ObjectMemory m.old }
    ensures serves { (cpu : Numbers) → Serves (M.told m.old) cpu (M.told m.new) cpu (model.sleep ((M.told m.old).regs 10)) result }
    ensures other { OnOk result ((M.told m.new).regs 17 ≡ (M.told m.old).regs 17) }
    ensures fit { StaysFit M.ObjectMemory m.old m.new result }
{
    let priority = number(m, Reg::R16, Reg::R10, 0, PRIORITY_INDEX)?;
    process_lists(m)?;
    let count = size(m, Reg::R15, 0)?;
    let Some(i) = list_index(priority, count) else {
        return Err(Stop::Stuck(Cause::Shape));
    };
    field(m, Reg::R11, Reg::R15, 0, i)?;
    add(m)
}

/// Takes the first process off the highest of so many lists that isn't empty, into R17. Stuck with NoProcess where all are empty.
fn wake_among<M: ObjectMemory>(m: &mut M, count: u32) -> Result<(), Stop>
    requires fit { IsFit M.ObjectMemory m.old }
    ensures serves { (cpu : Numbers) → Serves (M.told m.old) cpu (M.told m.new) cpu (model.wake_among count ((M.told m.old).regs 15)) (with_value result ((M.told m.new).regs 17)) }
    ensures fit { StaysFit M.ObjectMemory m.old m.new result }
{
    for turn in 0..count {
        field(m, Reg::R11, Reg::R15, 0, count - 1 - turn)?;
        field(m, Reg::R12, Reg::R11, 0, FIRST_LINK_INDEX)?;
        if !m.is(Reg::R12, Name::NIL) {
            return take(m);
        }
    }
    Err(Stop::Stuck(Cause::NoProcess))
}

/// Takes the first of the processes of the highest priority off its list, into R17 (wakeHighestPriority). Stuck with NoProcess where
/// all lists are empty.
pub(crate) fn wake<M: ObjectMemory>(m: &mut M) -> Result<(), Stop>
    requires fit { IsFit M.ObjectMemory m.old }
    ensures serves { (cpu : Numbers) → Serves (M.told m.old) cpu (M.told m.new) cpu model.wake (with_value result ((M.told m.new).regs 17)) }
    ensures fit { StaysFit M.ObjectMemory m.old m.new result }
{
    process_lists(m)?;
    let count = size(m, Reg::R15, 0)?;
    wake_among(m, count)
}

/// Whether a priority has its list.
pub(crate) fn has_list<M: ObjectMemory>(m: &mut M, priority: i16) -> Result<bool, Stop>
    requires fit { IsFit M.ObjectMemory m.old }
    requires range { IsSmallInteger priority }
    ensures serves { (cpu : Numbers) → Serves (M.told m.old) cpu (M.told m.new) cpu (model.has_list priority) result }
    ensures looks { OnOk result (Looks (15 ∷ []) (M.told m.old) (M.told m.new)) }
    ensures fit { StaysFit M.ObjectMemory m.old m.new result }
{
    process_lists(m)?;
    let count = size(m, Reg::R15, 0)?;
    Ok(list_index(priority, count).is_some())
}
