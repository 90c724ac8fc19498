// Bytes of code as instructions.
ghost use Rattle.std.specs.Prelude.{◌≡◌, ◌+◌, ◌<◌, ◌≤◌, All, length, IfOk};
ghost use Rattle.st80_code.specs.Decoding.{place_of, constant_of, plain_of, middle_of, jump_of, send_of, instruction_of, length_of, line_at, Covers};
ghost use Rattle.st80_code.specs.Decoding as table;

use crate::instruction::{Constant, Instruction, Line, Place};
use std::alloc::{AllocError, Global};

/// The place that the byte behind an extended push or store names.
fn extended_place(byte: u8) -> Place
    ensures { result ≡ place_of byte }
{
    let number = byte % 64;
    match byte / 64 {
        0 => Place::ReceiverVariable(number),
        1 => Place::Temporary(number),
        2 => Place::Literal(number),
        _ => Place::LiteralVariable(number),
    }
}

/// Constant i of those that are pushed.
fn constant(i: u8) -> Constant
    ensures { result ≡ constant_of i }
{
    match i {
        0 => Constant::Receiver,
        1 => Constant::True,
        2 => Constant::False,
        3 => Constant::Nil,
        4 => Constant::MinusOne,
        5 => Constant::Zero,
        6 => Constant::One,
        _ => Constant::Two,
    }
}

/// The bytes up to 119: pushes and stores of variables and constants.
#[tactic(auto, unfolding(crate::specs::Decoding::plain_of))]
fn plain(byte: u8) -> Instruction
    requires { byte ≤ 119 }
    ensures { result ≡ plain_of byte }
{
    match byte {
        0..=15 => Instruction::Push(Place::ReceiverVariable(byte)),
        16..=31 => Instruction::Push(Place::Temporary(byte - 16)),
        32..=63 => Instruction::Push(Place::Literal(byte - 32)),
        64..=95 => Instruction::Push(Place::LiteralVariable(byte - 64)),
        96..=103 => Instruction::StoreAndPop(Place::ReceiverVariable(byte - 96)),
        104..=111 => Instruction::StoreAndPop(Place::Temporary(byte - 104)),
        _ => Instruction::PushConstant(constant(byte - 112)),
    }
}

/// The instruction that pushes, or stores into, the place that the next byte names.
fn extended(byte: u8, next: Option<u8>) -> Instruction
    requires low { 128 ≤ byte }
    requires high { byte ≤ 130 }
    ensures { result ≡ table.extended_of byte next }
{
    let Some(next) = next else {
        return Instruction::Cut;
    };
    if byte == 128 {
        return Instruction::Push(extended_place(next));
    }
    if next / 64 == 2 {
        return Instruction::Unused;
    }
    if byte == 129 {
        Instruction::Store(extended_place(next))
    } else {
        Instruction::StoreAndPop(extended_place(next))
    }
}

/// The send of a literal with its number of arguments in the next byte.
fn single_extended_send(is_super: bool, next: Option<u8>) -> Instruction
    ensures { result ≡ table.single_extended is_super next }
{
    let Some(next) = next else {
        return Instruction::Cut;
    };
    let literal = next % 32;
    let arguments = next / 32;
    if is_super {
        Instruction::SendSuper { literal, arguments }
    } else {
        Instruction::Send { literal, arguments }
    }
}

/// The send of the literal in the byte after the next, which is the number of arguments.
fn double_extended_send(is_super: bool, next: Option<u8>, last: Option<u8>) -> Instruction
    ensures { result ≡ table.double_extended is_super next last }
{
    let Some(arguments) = next else {
        return Instruction::Cut;
    };
    let Some(literal) = last else {
        return Instruction::Cut;
    };
    if is_super {
        Instruction::SendSuper { literal, arguments }
    } else {
        Instruction::Send { literal, arguments }
    }
}

/// The bytes from 120 to 143: returns, the extended forms, and the stack.
#[tactic(auto, unfolding(crate::specs::Decoding::middle_of))]
fn middle(byte: u8, next: Option<u8>, last: Option<u8>) -> Instruction
    requires low { 120 ≤ byte }
    requires high { byte ≤ 143 }
    ensures { result ≡ middle_of byte next last }
{
    match byte {
        120..=123 => Instruction::Return(constant(byte - 120)),
        124 => Instruction::ReturnTop,
        125 => Instruction::ReturnTopFromBlock,
        128..=130 => extended(byte, next),
        131 => single_extended_send(false, next),
        132 => double_extended_send(false, next, last),
        133 => single_extended_send(true, next),
        134 => double_extended_send(true, next, last),
        135 => Instruction::Pop,
        136 => Instruction::Duplicate,
        137 => Instruction::PushActiveContext,
        _ => Instruction::Unused,
    }
}

/// The jumps over so many times 256 bytes and as many as the next byte says: 160 to 175.
#[tactic(auto, unfolding(crate::specs::Decoding::long_jump_of))]
fn long_jump(byte: u8, next: Option<u8>) -> Instruction
    requires low { 160 ≤ byte }
    requires high { byte ≤ 175 }
    ensures { result ≡ table.long_jump_of byte next }
{
    let Some(next) = next else {
        return Instruction::Cut;
    };
    let bytes = i16::from(next);
    match byte {
        160..=167 => Instruction::Jump(i16::from(byte - 160) * 256 + bytes - 1024),
        168..=171 => Instruction::JumpOnTrue(i16::from(byte - 168) * 256 + bytes),
        _ => Instruction::JumpOnFalse(i16::from(byte - 172) * 256 + bytes),
    }
}

/// The jumps: 144 to 175.
#[tactic(auto, unfolding(crate::specs::Decoding::jump_of))]
fn jump(byte: u8, next: Option<u8>) -> Instruction
    requires low { 144 ≤ byte }
    requires high { byte ≤ 175 }
    ensures { result ≡ jump_of byte next }
{
    match byte {
        144..=151 => Instruction::Jump(i16::from(byte - 143)),
        152..=159 => Instruction::JumpOnFalse(i16::from(byte - 151)),
        _ => long_jump(byte, next),
    }
}

/// The sends of one byte: 176 to 255.
#[tactic(auto, unfolding(crate::specs::Decoding::send_of))]
fn send(byte: u8) -> Instruction
    requires { 176 ≤ byte }
    ensures { result ≡ send_of byte }
{
    match byte {
        176..=207 => Instruction::SendSpecial(byte - 176),
        208..=223 => Instruction::Send {
            literal: byte - 208,
            arguments: 0,
        },
        224..=239 => Instruction::Send {
            literal: byte - 224,
            arguments: 1,
        },
        _ => Instruction::Send {
            literal: byte - 240,
            arguments: 2,
        },
    }
}

/// The instruction of a byte, with the two behind it, if they are there.
#[tactic(auto, unfolding(crate::specs::Decoding::instruction_of))]
fn instruction(byte: u8, next: Option<u8>, last: Option<u8>) -> Instruction
    ensures { result ≡ instruction_of byte next last }
{
    match byte {
        0..=119 => plain(byte),
        120..=143 => middle(byte, next, last),
        144..=175 => jump(byte, next),
        _ => send(byte),
    }
}

/// How many bytes the instruction of a byte has.
#[tactic(auto, unfolding(crate::specs::Decoding::length_of))]
fn length(byte: u8) -> usize
    ensures value { result ≡ length_of byte }
    ensures some { 0 < result }
{
    match byte {
        132 | 134 => 3,
        128..=134 | 160..=175 => 2,
        _ => 1,
    }
}

/// The instruction that begins at a byte of the code.
#[tactic(auto, unfolding(crate::specs::Decoding::line_at))]
pub fn decode(code: &[u8], at: usize) -> Line
    requires { at < length code.now }
    ensures line { result ≡ line_at code.now at }
    ensures begins { result.at ≡ at }
    ensures some { 0 < result.len }
    ensures within { at + result.len ≤ length code.now }
{
    let byte = code[at];
    let rest = &code[at..];
    Line {
        at,
        len: length(byte).min(rest.len()),
        instruction: instruction(byte, rest.get(1).copied(), rest.get(2).copied()),
    }
}

/// The code instruction by instruction. Each byte belongs to one.
pub fn lines(alloc: Global, code: &[u8]) -> Result<Vec<Line>, AllocError>
    // Each line begins where the one before ends, the first at 0, and the last ends with the code.
    ensures cover { IfOk result (λ lines. Covers 0 lines.items (length code.now)) }
    ensures each { IfOk result (λ lines. All (λ line. line ≡ line_at code.now line.at) lines.items) }
{
    let mut lines = Vec::new(alloc);
    let mut at = 0;
    while at < code.len() {
        let line = decode(code, at);
        at += line.len;
        lines.push(line)?;
    }
    Ok(lines)
}
