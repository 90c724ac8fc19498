// The clock (chapter 29): the primitives 99 and 100. A tick is a bytecode, of this run or an earlier one. The object of bytes is in R10,
// the semaphore in R11.
ghost use Rattle.std.specs.Prelude.{◌≡◌, [], OnOk, Some};
ghost use Rattle.object_memory.specs.Told.{IsReady};
ghost use Rattle.object_memory.specs.Shape.{Looks};
ghost use Rattle.blue_model.specs.declared.cpu.Cpu.{Cpu as Numbers};
ghost use Rattle.blue_model.specs.Trials.{peek};
ghost use Rattle.blue_model.specs.Devices as model;
ghost use Rattle.contexts.specs.Serves.{Serves, StaysSound};
ghost use Rattle.devices.specs.Inside.{found_tick};
ghost use Rattle.object_memory.specs.Calls.{IsFit};
ghost use Rattle.contexts.specs.Calls.{StaysFit};
ghost use Rattle.contexts.specs.Keeping.{NeverKeeps};

use crate::input::{put_semaphore, semaphore_or_nil};
use contexts::data::store_byte;
use contexts::{Answer, Cpu, Stop, pop, stack};
use long_names::Kind;
use object_memory::{ObjectMemory, Reg, shape};

/// The clock: how many bytecodes were run, by earlier runs of the machine and by this one. It stands still at the greatest number.
#[inline(always)]
pub fn clock(cpu: &Cpu) -> u32
    ensures { result ≡ model.clock cpu.now }
{
    cpu.base.saturating_add(cpu.ran)
}

/// Whether an object of this kind and length has a tick: at least four bytes.
fn has_tick(found: Option<(Kind, u32)>) -> bool
    ensures { result ≡ found_tick found }
{
    match found {
        Some((Kind::Bytes, len)) => 4 <= len,
        _ => false,
    }
}

/// The tick of four bytes, the lowest first.
fn tick_from(bytes: [u8; 4]) -> u32
    ensures { Some result ≡ model.four_bytes bytes }
{
    let [a, b, c, d] = bytes;
    u32::from(a) + 256 * u32::from(b) + 65_536 * u32::from(c) + 16_777_216 * u32::from(d)
}

/// The tick that the first four bytes are, lowest first, of the object of bytes that a register names. None of anything else.
fn tick_of<M: ObjectMemory>(m: &mut M, of: Reg) -> Result<Option<u32>, Stop>
    requires fit { IsFit M.ObjectMemory m.old }
    ensures serves { (cpu : Numbers) → Serves (M.told m.old) cpu (M.told m.new) cpu (peek model.tick_of ((M.told m.old).regs of)) result }
    ensures looks { OnOk result (Looks [] (M.told m.old) (M.told m.new)) }
    ensures fit { StaysFit M.ObjectMemory m.old m.new result }
{
    let found = shape::shape(m, of)?;
    if !has_tick(found) {
        return Ok(None);
    }
    let mut bytes = [0; 4];
    m.read_bytes(of, 0, &mut bytes)?;
    Ok(Some(tick_from(bytes)))
}

/// A tick becomes the first four bytes, lowest first, of the object that a register names.
fn put_tick<M: ObjectMemory>(m: &mut M, of: Reg, tick: u32) -> Result<(), Stop>
    requires fit { IsFit M.ObjectMemory m.old }
    ensures serves { (cpu : Numbers) → Serves (M.told m.old) cpu (M.told m.new) cpu (model.put_tick ((M.told m.old).regs of) tick) result }
    ensures fit { StaysFit M.ObjectMemory m.old m.new result }
{
    store_byte(m, of, 0, (tick % 256) as u8)?;
    store_byte(m, of, 1, (tick / 256 % 256) as u8)?;
    store_byte(m, of, 2, (tick / 65_536 % 256) as u8)?;
    store_byte(m, of, 3, (tick / 16_777_216 % 256) as u8)
}

/// Stores the clock before this bytecode into the argument (primitiveTickWordsInto).
pub(crate) fn tick_words<M: ObjectMemory>(m: &mut M, cpu: &mut Cpu) -> Result<Answer, Stop>
    requires fit { IsFit M.ObjectMemory m.old }
    ensures serves { Serves (M.told m.old) cpu.old (M.told m.new) cpu.new model.tick_words result }
    ensures never_keeps { NeverKeeps result }
    ensures fit { StaysFit M.ObjectMemory m.old m.new result }
{
    stack(m, cpu, Reg::R10, 0)?;
    let Some(_) = tick_of(m, Reg::R10)? else {
        return Ok(Answer::Failed);
    };
    put_tick(m, Reg::R10, clock(cpu))?;
    pop(cpu, 1)?;
    Ok(Answer::Done)
}

/// The tick of the timer, where there is a semaphore for it.
pub(crate) fn timer_at(there: bool, tick: u32) -> Option<u32>
    ensures { result ≡ model.timer_at there tick }
{
    if there { Some(tick) } else { None }
}

/// The timer signals the semaphore in R11 at this tick, or is cleared.
fn set_timer<M: ObjectMemory>(
    m: &mut M,
    cpu: &mut Cpu,
    there: bool,
    tick: u32,
) -> Result<Answer, Stop>
    requires fit { IsFit M.ObjectMemory m.old }
    ensures serves { Serves (M.told m.old) cpu.old (M.told m.new) cpu.new (model.set_timer ((M.told m.old).regs 11) there tick) result }
    ensures never_keeps { NeverKeeps result }
    ensures fit { StaysFit M.ObjectMemory m.old m.new result }
{
    put_semaphore(m, Reg::TIMER_SEMAPHORE, Reg::R11, there);
    cpu.timer = timer_at(there, tick);
    pop(cpu, 2)?;
    Ok(Answer::Done)
}

/// Sets the timer to a tick, or clears it where the semaphore is nil (primitiveSignalAtTick).
pub(crate) fn signal_at_tick<M: ObjectMemory>(m: &mut M, cpu: &mut Cpu) -> Result<Answer, Stop>
    requires fit { IsFit M.ObjectMemory m.old }
    ensures serves { Serves (M.told m.old) cpu.old (M.told m.new) cpu.new model.signal_at_tick result }
    ensures never_keeps { NeverKeeps result }
    ensures fit { StaysFit M.ObjectMemory m.old m.new result }
{
    stack(m, cpu, Reg::R11, 1)?;
    stack(m, cpu, Reg::R10, 0)?;
    let Some(there) = semaphore_or_nil(m, Reg::R11)? else {
        return Ok(Answer::Failed);
    };
    let Some(tick) = tick_of(m, Reg::R10)? else {
        return Ok(Answer::Failed);
    };
    set_timer(m, cpu, there, tick)
}
