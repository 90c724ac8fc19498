// The table of bytecodes, and one step of the machine.
ghost use Rattle.std.specs.Prelude.{◌≡◌, ◌≤◌, true, false, List, Some, Ok, OnOk};
ghost use Rattle.object_memory.specs.Told.{IsReady};
ghost use Rattle.blue_model.specs.declared.event.Line.{Line};
ghost use Rattle.blue_model.specs.declared.step.Step.TheVariants.{Next};
ghost use Rattle.blue_model.specs.Bytecodes as model;
ghost use Rattle.blue_model.specs.Cycle as cycle;
ghost use Rattle.contexts.specs.Serves.{Serves, ServesAs, Speaks, StaysSound, HasRest};
ghost use Rattle.blue_model.specs.declared.cpu.Cpu.{Cpu as Numbers};
ghost use Rattle.blue_model.specs.Machine as machine;
ghost use Rattle.bytecodes.specs.Steps as steps;
ghost use Rattle.bytecodes.specs.Steps.{next_by};
ghost use Rattle.object_memory.specs.Calls.{IsFit};
ghost use Rattle.contexts.specs.Calls.{StaysFit};
ghost use Rattle.contexts.specs.Keeping.{StepsBy};

use crate::jumps::{jump_on, long_jump, long_jump_on, short_jump};
use crate::returns::{return_from_block, return_known, return_receiver, return_top};
use crate::sends::{
    arithmetic_send, block_send, context_send, double_extended_send, double_extended_super,
    send_literal, single_extended_send, single_extended_super, special_send, tried_for,
};
use crate::stacks::{
    duplicate_top, extended_push, extended_store, extended_store_and_pop, push_active_context,
    push_known, push_number, push_receiver, push_variable, store_and_pop,
};
use crate::variables::Variable;
use blue_model::Step;
use blue_model::primitives::{
    FIRST_LONG_JUMP, FIRST_UNUSED, LAST_EXTENDED_STORE, LAST_LONG_JUMP, LAST_PUSH, LAST_SHORT_JUMP,
    POP_STACK, PRIMITIVE_CLASS, PRIMITIVE_EQUIVALENT, SPECIAL_AT, SPECIAL_CLASS, SPECIAL_DO,
    SPECIAL_EQUIVALENT, SPECIAL_VALUE, SPECIAL_VALUE_WITH_ARGUMENT,
};
use contexts::{Cause, Cpu, Stop, fetch, pop};
use event_file::EventList;
use long_names::Name;
use object_memory::{ObjectMemory, Reg};

/// Whether a byte says a push, a store, a pop or an unconditional jump, or is unused.
#[inline(always)]
fn is_plain(byte: u8) -> bool
    ensures { result ≡ steps.is_plain byte }
{
    matches!(
        byte,
        0..=LAST_PUSH | FIRST_UNUSED..=LAST_EXTENDED_STORE | POP_STACK..=LAST_SHORT_JUMP | FIRST_LONG_JUMP..=LAST_LONG_JUMP
    )
}

/// Does what a byte says that is a push, a store, a pop, an unconditional jump or unused: rows of the table of bytecodes, each with its
/// name in the book.
fn plain_bytecode<M: ObjectMemory>(m: &mut M, cpu: &mut Cpu, byte: u8) -> Result<(), Stop>
    requires fit { IsFit M.ObjectMemory m.old }
    requires plain { steps.is_plain byte ≡ true }
    ensures serves { (events : List Line) → ServesAs (Some Next) (M.told m.old) cpu.old (M.told m.new) cpu.new (model.bytecode events byte) (next_by result) }
    ensures fit { StaysFit M.ObjectMemory m.old m.new result }
{
    match byte {
        // pushReceiverVariableBytecode
        0..=15 => push_variable(m, cpu, Variable::Receiver, u32::from(byte)),
        // pushTemporaryVariableBytecode
        16..=31 => push_variable(m, cpu, Variable::Temporary, u32::from(byte - 16)),
        // pushLiteralConstantBytecode
        32..=63 => push_variable(m, cpu, Variable::Literal, u32::from(byte - 32)),
        // pushLiteralVariableBytecode
        64..=95 => push_variable(m, cpu, Variable::LiteralVariable, u32::from(byte - 64)),
        // storeAndPopReceiverVariableBytecode
        96..=103 => store_and_pop(m, cpu, Variable::Receiver, u32::from(byte - 96)),
        // storeAndPopTemporaryVariableBytecode
        104..=111 => store_and_pop(m, cpu, Variable::Temporary, u32::from(byte - 104)),
        // pushReceiverBytecode
        112 => push_receiver(m, cpu),
        // pushConstantBytecode: true
        113 => push_known(m, cpu, Name::TRUE),
        // pushConstantBytecode: false
        114 => push_known(m, cpu, Name::FALSE),
        // pushConstantBytecode: nil
        115 => push_known(m, cpu, Name::NIL),
        // pushConstantBytecode: -1, 0, 1, 2
        116..=119 => push_number(m, cpu, byte - 116),
        // unused
        126..=127 => Err(Stop::Stuck(Cause::Unused)),
        // extendedPushBytecode
        128 => extended_push(m, cpu),
        // extendedStoreBytecode
        129 => extended_store(m, cpu),
        // extendedStoreAndPopBytecode
        130 => extended_store_and_pop(m, cpu),
        // popStackBytecode
        135 => pop(cpu, 1),
        // duplicateTopBytecode
        136 => duplicate_top(m, cpu),
        // pushActiveContextBytecode
        137 => push_active_context(m, cpu),
        // unused
        138..=143 => Err(Stop::Stuck(Cause::Unused)),
        // shortUnconditionalJump
        144..=151 => short_jump(m, cpu, u32::from(byte - 144) + 1),
        // longUnconditionalJump
        160..=167 => long_jump(m, cpu, u32::from(byte - 160)),
        _ => unreachable!(),
    }
}

/// Does what a byte says (dispatchOnThisBytecode, chapter 28): the other rows of the table of bytecodes, each with its name in the book.
fn bytecode<M: ObjectMemory>(
    m: &mut M,
    cpu: &mut Cpu,
    events: &EventList,
    byte: u8,
) -> Result<Step, Stop>
    requires fit { IsFit M.ObjectMemory m.old }
    requires other { steps.is_plain byte ≡ false }
    ensures serves { Speaks Next (M.told m.old) cpu.old (M.told m.new) cpu.new (model.bytecode events.now byte) result }
    ensures keeps { StepsBy cpu.old.vault result }
    ensures fit { StaysFit M.ObjectMemory m.old m.new result }
{
    match byte {
        // returnBytecode: the receiver
        120 => return_receiver(m, cpu, events),
        // returnBytecode: true
        121 => return_known(m, cpu, events, Name::TRUE),
        // returnBytecode: false
        122 => return_known(m, cpu, events, Name::FALSE),
        // returnBytecode: nil
        123 => return_known(m, cpu, events, Name::NIL),
        // returnBytecode: the top, from the home
        124 => return_top(m, cpu, events),
        // returnBytecode: the top, from the block
        125 => return_from_block(m, cpu, events),
        // singleExtendedSendBytecode
        131 => single_extended_send(m, cpu, events),
        // doubleExtendedSendBytecode
        132 => double_extended_send(m, cpu, events),
        // singleExtendedSuperBytecode
        133 => single_extended_super(m, cpu, events),
        // doubleExtendedSuperBytecode
        134 => double_extended_super(m, cpu, events),
        // shortConditionalJump: where false
        152..=159 => jump_on(
            m,
            cpu,
            events,
            Name::FALSE,
            Name::TRUE,
            u32::from(byte - 152) + 1,
        ),
        // longConditionalJump: where true
        168..=171 => long_jump_on(
            m,
            cpu,
            events,
            Name::TRUE,
            Name::FALSE,
            u32::from(byte - 168),
        ),
        // longConditionalJump: where false
        172..=175 => long_jump_on(
            m,
            cpu,
            events,
            Name::FALSE,
            Name::TRUE,
            u32::from(byte - 172),
        ),
        // arithmeticSelectorPrimitive
        176..=191 => arithmetic_send(m, cpu, events, u32::from(byte - 176)),
        // sendSpecialSelectorBytecode: at: at:put: size next nextPut: atEnd
        192..=197 => special_send(m, cpu, events, SPECIAL_AT + u32::from(byte - 192)),
        // commonSelectorPrimitive: ==
        198 => tried_for(m, cpu, events, PRIMITIVE_EQUIVALENT, 1, SPECIAL_EQUIVALENT),
        // commonSelectorPrimitive: class
        199 => tried_for(m, cpu, events, PRIMITIVE_CLASS, 0, SPECIAL_CLASS),
        // commonSelectorPrimitive: blockCopy:
        200 => context_send(m, cpu, events),
        // commonSelectorPrimitive: value
        201 => block_send(m, cpu, events, 0, SPECIAL_VALUE),
        // commonSelectorPrimitive: value:
        202 => block_send(m, cpu, events, 1, SPECIAL_VALUE_WITH_ARGUMENT),
        // sendSpecialSelectorBytecode: do: new new: x y
        203..=207 => special_send(m, cpu, events, SPECIAL_DO + u32::from(byte - 203)),
        // sendLiteralSelectorBytecode: without arguments
        208..=223 => send_literal(m, cpu, events, u32::from(byte - 208), 0),
        // sendLiteralSelectorBytecode: with one
        224..=239 => send_literal(m, cpu, events, u32::from(byte - 224), 1),
        // sendLiteralSelectorBytecode: with two
        240..=255 => send_literal(m, cpu, events, u32::from(byte - 240), 2),
        _ => unreachable!(),
    }
}

/// No message is left in its registers, and no value in a scratch register.
#[inline(always)]
fn rest<M: ObjectMemory>(m: &mut M)
    requires fit { IsFit M.ObjectMemory m.old }
    ensures serves { (cpu : Numbers) → Serves (M.told m.old) cpu (M.told m.new) cpu (machine.clear cycle.is_message) (Ok tt) }
    ensures rest { HasRest (M.told m.new) }
    ensures fit { StaysFit M.ObjectMemory m.old m.new (Ok result) }
{
    m.int(Reg::SELECTOR, 0);
    m.int(Reg::NEW_METHOD, 0);
    m.clear_scratch();
}

/// Fetches a bytecode and does it (interpret, chapter 28). Input comes from the event list. The bytecode isn't counted here.
/// It ends with Keep only where a checkpoint may be made.
pub fn step<M: ObjectMemory>(m: &mut M, cpu: &mut Cpu, events: &EventList) -> Result<Step, Stop>
    requires fit { IsFit M.ObjectMemory m.old }
    ensures serves { Speaks Next (M.told m.old) cpu.old (M.told m.new) cpu.new (cycle.step events.now) result }
    ensures rest { OnOk result (HasRest (M.told m.new)) }
    ensures keeps { StepsBy cpu.old.vault result }
    ensures fit { StaysFit M.ObjectMemory m.old m.new result }
{
    let byte = fetch(m, cpu)?;
    if is_plain(byte) {
        plain_bytecode(m, cpu, byte)?;
        rest(m);
        return Ok(Step::Next);
    }
    match bytecode(m, cpu, events, byte) {
        Ok(step) => {
            rest(m);
            Ok(step)
        }
        Err(stop) => Err(stop.again()),
    }
}
