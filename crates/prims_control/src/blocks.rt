// New blocks (chapter 29, primitiveBlockCopy). The context is in R10, the number argument in R11, the home in R12, the
// block in R13.
ghost use Rattle.std.specs.Prelude.{◌≡◌, ◌<◌, ◌≤◌, OnOk, IfSome};
ghost use Rattle.long_names.specs.declared.limits.TheConstants.{SMALL_INTEGERS, MOST_FIELDS};
ghost use Rattle.object_memory.specs.Told.{IsReady};
ghost use Rattle.blue_model.specs.Control as model;
ghost use Rattle.contexts.specs.Serves.{Serves, StaysSound, with_value};
ghost use Rattle.object_memory.specs.Calls.{IsFit};
ghost use Rattle.contexts.specs.Calls.{StaysFit};
ghost use Rattle.contexts.specs.Keeping.{NeverKeeps};

use crate::numbers::{block_pointer, natural};
use crate::parts::{peek_home, store_number};
use blue_model::indexes::{
    BLOCK_ARGUMENT_COUNT_INDEX, HOME_INDEX, INITIAL_IP_INDEX, INSTRUCTION_POINTER_INDEX,
    STACK_POINTER_INDEX, TEMP_FRAME_START,
};
use contexts::parts::{known, make_pointers, store_field};
use contexts::peeks::peek_size;
use contexts::{Answer, Cause, Cpu, Stop, answer, stack};
use long_names::Name;
use object_memory::{ObjectMemory, Reg};

/// Makes a block of the home in R12, of so many fields and for so many arguments, in R13. Stuck with Pointer where its first
/// instruction pointer can't be stated.
fn make_block<M: ObjectMemory>(m: &mut M, cpu: &Cpu, len: u32, n: u32) -> Result<(), Stop>
    requires fit { IsFit M.ObjectMemory m.old }
    requires fields { len ≤ MOST_FIELDS }
    requires few { n < SMALL_INTEGERS }
    ensures serves { Serves (M.told m.old) cpu.now (M.told m.new) cpu.now (model.make_block ((M.told m.old).regs 12) len n) (with_value result ((M.told m.new).regs 13)) }
    ensures fit { StaysFit M.ObjectMemory m.old m.new result }
{
    known(m, Reg::R19, Name::BLOCK_CONTEXT)?;
    make_pointers(m, Reg::R13, Reg::R19, len)?;
    let Some(ip) = block_pointer(cpu) else {
        return Err(Stop::Stuck(Cause::Pointer));
    };
    store_number(m, Reg::R13, INSTRUCTION_POINTER_INDEX, ip)?;
    store_number(m, Reg::R13, STACK_POINTER_INDEX, 0)?;
    store_number(m, Reg::R13, BLOCK_ARGUMENT_COUNT_INDEX, n as i16)?;
    store_number(m, Reg::R13, INITIAL_IP_INDEX, ip)?;
    store_field(m, Reg::R13, HOME_INDEX, Reg::R12)?;
    Ok(())
}

/// How many arguments the number in R11 says.
fn argument_number<M: ObjectMemory>(m: &M) -> Option<u32>
    requires { M.sound m.now }
    ensures number { result ≡ model.argument_number ((M.told m.now).regs 11) }
    ensures few { IfSome result (λ n. n < SMALL_INTEGERS) }
{
    let number = m.as_int(Reg::R11)?;
    natural(number)
}

/// Answers a new block of the receiver's home, or of the receiver where that is a home, for so many arguments (primitiveBlockCopy).
pub(crate) fn block_copy<M: ObjectMemory>(m: &mut M, cpu: &mut Cpu) -> Result<Answer, Stop>
    requires fit { IsFit M.ObjectMemory m.old }
    ensures serves { Serves (M.told m.old) cpu.old (M.told m.new) cpu.new model.block_copy result }
    ensures never_keeps { NeverKeeps result }
    ensures fit { StaysFit M.ObjectMemory m.old m.new result }
{
    stack(m, cpu, Reg::R10, 1)?;
    stack(m, cpu, Reg::R11, 0)?;
    if !peek_home(m)? {
        return Ok(Answer::Failed);
    }
    let Some(n) = argument_number(m) else {
        return Ok(Answer::Failed);
    };
    let Some(len) = peek_size(m, Reg::R12, TEMP_FRAME_START)? else {
        return Ok(Answer::Failed);
    };
    make_block(m, cpu, len, n)?;
    answer(m, cpu, 1, Reg::R13)
}
