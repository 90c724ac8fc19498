// Lists of processes (chapter 29), which semaphores are too: a process is linked to the next by its first field. The process that joins
// a list is in R10, the list in R11, its first process in R12, the last or the next in R13, nil in R14, and
// the process that leaves a list in R17.
ghost use Rattle.std.specs.Prelude.{◌≡◌, OnOk};
ghost use Rattle.object_memory.specs.Told.{IsReady};
ghost use Rattle.blue_model.specs.declared.cpu.Cpu.{Cpu as Numbers};
ghost use Rattle.blue_model.specs.Machine.{pick};
ghost use Rattle.blue_model.specs.Parts.{is_nil};
ghost use Rattle.blue_model.specs.Contexts as contexts;
ghost use Rattle.blue_model.specs.Storage.{is_same};
ghost use Rattle.blue_model.specs.Processes as model;
ghost use Rattle.contexts.specs.Serves.{Serves, StaysSound, with_value};
ghost use Rattle.object_memory.specs.Calls.{IsFit};
ghost use Rattle.contexts.specs.Calls.{StaysFit};

use blue_model::indexes::{FIRST_LINK_INDEX, LAST_LINK_INDEX, MY_LIST_INDEX, NEXT_LINK_INDEX};
use contexts::Stop;
use contexts::parts::{field, known, store_field};
use long_names::Name;
use object_memory::{ObjectMemory, Reg};

/// The process becomes the next of the last of the list.
fn link_behind<M: ObjectMemory>(m: &mut M) -> Result<(), Stop>
    requires fit { IsFit M.ObjectMemory m.old }
    ensures serves { (cpu : Numbers) → Serves (M.told m.old) cpu (M.told m.new) cpu (model.link_behind ((M.told m.old).regs 10) ((M.told m.old).regs 11)) result }
    ensures process { OnOk result ((M.told m.new).regs 10 ≡ (M.told m.old).regs 10) }
    ensures list { OnOk result ((M.told m.new).regs 11 ≡ (M.told m.old).regs 11) }
    ensures other { OnOk result ((M.told m.new).regs 17 ≡ (M.told m.old).regs 17) }
    ensures fit { StaysFit M.ObjectMemory m.old m.new result }
{
    field(m, Reg::R13, Reg::R11, 0, LAST_LINK_INDEX)?;
    store_field(m, Reg::R13, NEXT_LINK_INDEX, Reg::R10)?;
    Ok(())
}

/// The process becomes the first of a list that is empty, as its first process in R12 says, or the next of the last.
fn link<M: ObjectMemory>(m: &mut M) -> Result<(), Stop>
    requires fit { IsFit M.ObjectMemory m.old }
    ensures serves { (cpu : Numbers) → Serves (M.told m.old) cpu (M.told m.new) cpu (pick (is_nil ((M.told m.old).regs 12)) (contexts.store_field ((M.told m.old).regs 11) 0 ((M.told m.old).regs 10)) (model.link_behind ((M.told m.old).regs 10) ((M.told m.old).regs 11))) result }
    ensures process { OnOk result ((M.told m.new).regs 10 ≡ (M.told m.old).regs 10) }
    ensures list { OnOk result ((M.told m.new).regs 11 ≡ (M.told m.old).regs 11) }
    ensures other { OnOk result ((M.told m.new).regs 17 ≡ (M.told m.old).regs 17) }
    ensures fit { StaysFit M.ObjectMemory m.old m.new result }
{
    if m.is(Reg::R12, Name::NIL) {
        store_field(m, Reg::R11, FIRST_LINK_INDEX, Reg::R10)?;
        return Ok(());
    }
    link_behind(m)
}

/// The process becomes the last of the list, which is its own from then on (addLastLink:toList:).
pub(crate) fn add<M: ObjectMemory>(m: &mut M) -> Result<(), Stop>
    requires fit { IsFit M.ObjectMemory m.old }
    ensures serves { (cpu : Numbers) → Serves (M.told m.old) cpu (M.told m.new) cpu (model.add ((M.told m.old).regs 10) ((M.told m.old).regs 11)) result }
    ensures other { OnOk result ((M.told m.new).regs 17 ≡ (M.told m.old).regs 17) }
    ensures fit { StaysFit M.ObjectMemory m.old m.new result }
{
    field(m, Reg::R12, Reg::R11, 0, FIRST_LINK_INDEX)?;
    link(m)?;
    store_field(m, Reg::R11, LAST_LINK_INDEX, Reg::R10)?;
    store_field(m, Reg::R10, MY_LIST_INDEX, Reg::R11)?;
    Ok(())
}

/// No process is on the list any more.
fn empty_list<M: ObjectMemory>(m: &mut M) -> Result<(), Stop>
    requires fit { IsFit M.ObjectMemory m.old }
    ensures serves { (cpu : Numbers) → Serves (M.told m.old) cpu (M.told m.new) cpu (model.empty_list ((M.told m.old).regs 11)) result }
    ensures first { OnOk result ((M.told m.new).regs 17 ≡ (M.told m.old).regs 17) }
    ensures fit { StaysFit M.ObjectMemory m.old m.new result }
{
    known(m, Reg::R14, Name::NIL)?;
    store_field(m, Reg::R11, FIRST_LINK_INDEX, Reg::R14)?;
    store_field(m, Reg::R11, LAST_LINK_INDEX, Reg::R14)?;
    Ok(())
}

/// The next of the first process becomes the first of the list.
fn shorten<M: ObjectMemory>(m: &mut M) -> Result<(), Stop>
    requires fit { IsFit M.ObjectMemory m.old }
    ensures serves { (cpu : Numbers) → Serves (M.told m.old) cpu (M.told m.new) cpu (model.shorten ((M.told m.old).regs 11) ((M.told m.old).regs 17)) result }
    ensures first { OnOk result ((M.told m.new).regs 17 ≡ (M.told m.old).regs 17) }
    ensures fit { StaysFit M.ObjectMemory m.old m.new result }
{
    field(m, Reg::R13, Reg::R17, 0, NEXT_LINK_INDEX)?;
    store_field(m, Reg::R11, FIRST_LINK_INDEX, Reg::R13)?;
    Ok(())
}

/// The list is without its first process, which is in R17; the last is in R13.
#[inline(always)]
fn unlink<M: ObjectMemory>(m: &mut M) -> Result<(), Stop>
    requires fit { IsFit M.ObjectMemory m.old }
    ensures serves { (cpu : Numbers) → Serves (M.told m.old) cpu (M.told m.new) cpu (pick (is_same ((M.told m.old).regs 17) ((M.told m.old).regs 13)) (model.empty_list ((M.told m.old).regs 11)) (model.shorten ((M.told m.old).regs 11) ((M.told m.old).regs 17))) result }
    ensures first { OnOk result ((M.told m.new).regs 17 ≡ (M.told m.old).regs 17) }
    ensures fit { StaysFit M.ObjectMemory m.old m.new result }
{
    if m.same(Reg::R17, Reg::R13) {
        empty_list(m)
    } else {
        shorten(m)
    }
}

/// Takes the first process off the list, into R17 (removeFirstLinkOfList:).
pub(crate) fn take<M: ObjectMemory>(m: &mut M) -> Result<(), Stop>
    requires fit { IsFit M.ObjectMemory m.old }
    ensures serves { (cpu : Numbers) → Serves (M.told m.old) cpu (M.told m.new) cpu (model.take ((M.told m.old).regs 11)) (with_value result ((M.told m.new).regs 17)) }
    ensures fit { StaysFit M.ObjectMemory m.old m.new result }
{
    field(m, Reg::R17, Reg::R11, 0, FIRST_LINK_INDEX)?;
    field(m, Reg::R13, Reg::R11, 0, LAST_LINK_INDEX)?;
    unlink(m)?;
    known(m, Reg::R14, Name::NIL)?;
    store_field(m, Reg::R17, NEXT_LINK_INDEX, Reg::R14)?;
    Ok(())
}
