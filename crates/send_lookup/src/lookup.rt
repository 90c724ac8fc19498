// The lookup along the superclass chain, and the method cache in front of it.
ghost use Rattle.std.specs.Prelude.{◌≡◌, ◌<◌, [], ◌∷◌, Ok, OnOk, IfOk, IsTrue, MatchBool};
ghost use Rattle.long_names.specs.State.{SELECTOR, NEW_METHOD};
ghost use Rattle.object_memory.specs.Calls.{IsFit};
ghost use Rattle.object_memory.specs.Contract.{IsFound, IsUnknown};
ghost use Rattle.blue_model.specs.declared.cpu.Cpu.{Cpu as Numbers};
ghost use Rattle.blue_model.specs.Lookup as model;
ghost use Rattle.contexts.specs.Serves.{Serves, with_found};
ghost use Rattle.contexts.specs.Calls.{StaysFit};
ghost use Rattle.send_lookup.specs.Found.{KeepsBelow, KeepsButMethod, AnswersPair};
ghost use Rattle.send_lookup.specs.Path.{Passes, IsOnPath, Walks};

use crate::classes::find_in;
use blue_model::indexes::{CLASS_SIZE, SUPERCLASS_INDEX};
use blue_model::limits::LONGEST_CHAIN;
use contexts::parts::field;
use contexts::{Cause, Stop};
use long_names::Name;
use object_memory::{ObjectMemory, Reg};

/// Looks the selector in R23 up from the class in R20 on, and loads the method into R22. False where the chain ends before. All that it
/// looks at is marked.
fn go_up<M: ObjectMemory>(m: &mut M) -> Result<bool, Stop>
    requires fit { IsFit M.ObjectMemory m.old }
    ensures walks { (cpu : Numbers) → Walks (M.told m.old) cpu (M.told m.new) (model.lookup ((M.told m.old).regs 23) ((M.told m.old).regs 20)) (with_found result ((M.told m.new).regs 22)) }
    ensures passes { OnOk result (Passes (20 ∷ 21 ∷ 22 ∷ []) (M.told m.old) (M.told m.new)) }
    ensures class { IfOk result (λ found. IsTrue found → IsOnPath (M.told m.new) ((M.told m.old).regs 20)) }
    ensures selector { IfOk result (λ found. IsTrue found → IsOnPath (M.told m.new) ((M.told m.old).regs 23)) }
    ensures method { IfOk result (λ found. IsTrue found → IsOnPath (M.told m.new) ((M.told m.new).regs 22)) }
    ensures fit { StaysFit M.ObjectMemory m.old m.new result }
{
    for _turn in 0..LONGEST_CHAIN {
        if m.is(Reg::R20, Name::NIL) {
            return Ok(false);
        }
        if find_in(m)? {
            return Ok(true);
        }
        field(m, Reg::R20, Reg::R20, CLASS_SIZE, SUPERCLASS_INDEX)?;
    }
    if !m.is(Reg::R20, Name::NIL) {
        return Err(Stop::Stuck(Cause::Chain));
    }
    Ok(false)
}

/// Looks the selector in a register up from the class in another on, whatever the cache has, and loads the method into R22. False where
/// the chain ends before. The row is put into the cache, where no mark of the path was taken away on the way.
fn look_up_whole<M: ObjectMemory>(m: &mut M, selector: Reg, class: Reg) -> Result<bool, Stop>
    requires fit { IsFit M.ObjectMemory m.old }
    requires selector { selector < 20 }
    ensures serves { (cpu : Numbers) → Serves (M.told m.old) cpu (M.told m.new) cpu (model.lookup ((M.told m.old).regs selector) ((M.told m.old).regs class)) (with_found result ((M.told m.new).regs 22)) }
    ensures others { OnOk result (KeepsBelow 19 (M.told m.old) (M.told m.new)) }
    ensures fit { StaysFit M.ObjectMemory m.old m.new result }
{
    m.copy(Reg::R20, class);
    m.copy(Reg::R23, selector);
    m.copy(Reg::R19, Reg::R20);
    m.begin_path();
    if !go_up(m)? {
        return Ok(false);
    }
    m.cache_put(Reg::R19, Reg::R23, Reg::R22);
    Ok(true)
}

/// Whether the cache has the pair of a class and a selector in two registers. Where it has, the method is in a third.
#[inline(always)]
fn ask_cache<M: ObjectMemory>(m: &mut M, to: Reg, class: Reg, selector: Reg) -> bool
    requires fit { IsFit M.ObjectMemory m.old }
    ensures found { MatchBool result (IsFound (M.told m.old) (M.told m.new) to class selector) (IsUnknown (M.told m.old) (M.told m.new) class selector) }
    ensures fit { StaysFit M.ObjectMemory m.old m.new (Ok result) }
{
    m.cache_find(to, class, selector)
}

/// Loads the method that the class in a register, or the first class above it that has one, has for the selector in another into
/// R22: the cached one, where the cache has the pair. False where the chain ends before. The scratch registers from 19 on are used.
pub fn look_up<M: ObjectMemory>(m: &mut M, selector: Reg, class: Reg) -> Result<bool, Stop>
    requires fit { IsFit M.ObjectMemory m.old }
    requires selector { selector < 20 }
    ensures serves { (cpu : Numbers) → Serves (M.told m.old) cpu (M.told m.new) cpu (model.lookup ((M.told m.old).regs selector) ((M.told m.old).regs class)) (with_found result ((M.told m.new).regs 22)) }
    ensures cached { AnswersPair (M.told m.old) (M.told m.new) 22 class selector result }
    ensures others { OnOk result (KeepsBelow 19 (M.told m.old) (M.told m.new)) }
    ensures fit { StaysFit M.ObjectMemory m.old m.new result }
{
    if ask_cache(m, Reg::R22, class, selector) {
        return Ok(true);
    }
    look_up_whole(m, selector, class)
}

/// Looks the message's selector (register 4) up from the class in a register, and puts the method into register 5 (lookupMethodInClass:,
/// chapter 28): the cached one, where the cache has the pair, and then no access is made. False exactly where the chain's end was met. A
/// class or dictionary that isn't one, a selector that is a number and a method that isn't one are stuck with Shape, and a chain of more
/// than 1,024 classes with Chain. The scratch registers from 19 on are used.
#[inline(always)]
pub fn find<M: ObjectMemory>(m: &mut M, class: Reg) -> Result<bool, Stop>
    requires fit { IsFit M.ObjectMemory m.old }
    ensures serves { (cpu : Numbers) → Serves (M.told m.old) cpu (M.told m.new) cpu (model.find ((M.told m.old).regs class)) result }
    ensures cached { AnswersPair (M.told m.old) (M.told m.new) NEW_METHOD class SELECTOR result }
    ensures others { OnOk result (KeepsButMethod 19 (M.told m.old) (M.told m.new)) }
    ensures fit { StaysFit M.ObjectMemory m.old m.new result }
{
    if ask_cache(m, Reg::NEW_METHOD, class, Reg::SELECTOR) {
        return Ok(true);
    }
    if !look_up_whole(m, Reg::SELECTOR, class)? {
        return Ok(false);
    }
    m.copy(Reg::NEW_METHOD, Reg::R22);
    Ok(true)
}
