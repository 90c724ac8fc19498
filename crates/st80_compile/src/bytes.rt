// The bytes of instructions.
ghost use Rattle.std.specs.Prelude.{◌≡◌, ◌<◌, ◌≤◌};
ghost use Rattle.st80_compile.specs.Bytes as rules;

use crate::step::{Op, Place, Step};
use st80_tree::Constant;

/// The bytes of an instruction, in order.
#[derive(Clone, Copy, Debug, PartialEq, Eq)]
pub enum Bytes {
    One(u8),
    Two(u8, u8),
    Three(u8, u8, u8),
}

/// Why a method has no code.
#[derive(Clone, Copy, Debug, PartialEq, Eq)]
pub enum Refusal {
    /// More than 31 arguments.
    TooManyArguments,
    /// More than 31 temporaries, arguments among them.
    TooManyTemporaries,
    /// More than 63 literals.
    TooManyLiterals,
    /// A field behind the sixty-fourth.
    FieldTooFar,
    /// A temporary that the method doesn't have.
    UnknownTemporary,
    /// A literal that the method doesn't have.
    UnknownLiteral,
    /// A jump over more than 1,023 bytes, or back over more than 1,024.
    JumpTooLong,
    /// More than 32 temporaries and values on the stack.
    StackTooDeep,
}

fn counted(bytes: Bytes) -> usize
    ensures { result ≡ rules.counted bytes }
{
    match bytes {
        Bytes::One(_) => 1,
        Bytes::Two(_, _) => 2,
        Bytes::Three(_, _, _) => 3,
    }
}

fn number_of(constant: Constant) -> u8
    ensures value { result ≡ rules.number_of constant }
    ensures few { result < 8 }
{
    match constant {
        Constant::Receiver => 0,
        Constant::True => 1,
        Constant::False => 2,
        Constant::Nil => 3,
        Constant::MinusOne => 4,
        Constant::Zero => 5,
        Constant::One => 6,
        Constant::Two => 7,
    }
}

fn extended(place: Place) -> u8
    ensures { result ≡ rules.extended place }
{
    match place {
        Place::OfReceiver(n) => n % 64,
        Place::OfHome(n) => 64 + (n % 64) as u8,
        Place::OfFrame(n) => 128 + (n % 64) as u8,
        Place::OfAssociation(n) => 192 + (n % 64) as u8,
    }
}

fn push_bytes(place: Place) -> Bytes
    ensures { result ≡ rules.push_bytes place }
{
    match place {
        Place::OfReceiver(n) => {
            if n < 16 {
                Bytes::One(n)
            } else {
                Bytes::Two(128, n % 64)
            }
        }
        Place::OfHome(n) => {
            if n < 16 {
                Bytes::One(16 + n as u8)
            } else {
                Bytes::Two(128, 64 + (n % 64) as u8)
            }
        }
        Place::OfFrame(n) => {
            if n < 32 {
                Bytes::One(32 + n as u8)
            } else {
                Bytes::Two(128, 128 + (n % 64) as u8)
            }
        }
        Place::OfAssociation(n) => {
            if n < 32 {
                Bytes::One(64 + n as u8)
            } else {
                Bytes::Two(128, 192 + (n % 64) as u8)
            }
        }
    }
}

fn pop_bytes(place: Place) -> Bytes
    ensures { result ≡ rules.pop_bytes place }
{
    match place {
        Place::OfReceiver(n) => {
            if n < 8 {
                Bytes::One(96 + n)
            } else {
                Bytes::Two(130, n % 64)
            }
        }
        Place::OfHome(n) => {
            if n < 8 {
                Bytes::One(104 + n as u8)
            } else {
                Bytes::Two(130, 64 + (n % 64) as u8)
            }
        }
        Place::OfFrame(n) => Bytes::Two(130, 128 + (n % 64) as u8),
        Place::OfAssociation(n) => Bytes::Two(130, 192 + (n % 64) as u8),
    }
}

fn message_bytes(to_super: bool, literal: usize, arguments: u8) -> Bytes
    ensures { result ≡ rules.message_bytes to_super literal arguments }
{
    if !to_super && literal < 16 && arguments < 3 {
        return Bytes::One(208 + 16 * arguments + literal as u8);
    }
    if literal < 32 && arguments < 8 {
        return Bytes::Two(
            if to_super { 133 } else { 131 },
            32 * arguments + literal as u8,
        );
    }
    Bytes::Three(
        if to_super { 134 } else { 132 },
        arguments,
        (literal % 64) as u8,
    )
}

fn is_short(n: usize) -> bool
    ensures { result ≡ rules.is_short n }
{
    0 < n && n < 9
}

fn long_bytes(base: u8, n: usize) -> Bytes
    requires { base ≤ 172 }
    ensures { result ≡ rules.long_bytes base n }
{
    Bytes::Two(base + (n / 256 % 4) as u8, (n % 256) as u8)
}

fn branch_bytes(on: bool, n: usize) -> Bytes
    ensures { result ≡ rules.branch_bytes on n }
{
    if !on {
        return long_bytes(168, n);
    }
    if is_short(n) {
        return Bytes::One(151 + n as u8);
    }
    long_bytes(172, n)
}

fn jump_bytes(n: usize) -> Bytes
    ensures { result ≡ rules.jump_bytes n }
{
    if is_short(n) {
        return Bytes::One(143 + n as u8);
    }
    long_bytes(164, n)
}

/// The bytes of an instruction. Numbers that are too large for them are cut.
pub fn bytes_of(op: Op) -> Bytes
    ensures { result ≡ rules.bytes_of op }
{
    match op {
        Op::Push(place) => push_bytes(place),
        Op::PushConstant(constant) => Bytes::One(112 + number_of(constant)),
        Op::PushContext => Bytes::One(137),
        Op::Store(place) => Bytes::Two(129, extended(place)),
        Op::StorePop(place) => pop_bytes(place),
        Op::Pop => Bytes::One(135),
        Op::Duplicate => Bytes::One(136),
        Op::Message {
            to_super,
            literal,
            arguments,
        } => message_bytes(to_super, literal, arguments),
        Op::Special(selector) => Bytes::One(176 + (selector % 32) as u8),
        Op::Jump(n) => jump_bytes(n),
        Op::Over(n) => long_bytes(164, n),
        Op::Back(n) => long_bytes(160, if n < 1024 { 1024 - n } else { 0 }),
        Op::Branch { on, distance } => branch_bytes(on, distance),
        Op::ReturnConstant(constant) => Bytes::One(120 + number_of(constant) % 4),
        Op::ReturnTop => Bytes::One(124),
        Op::ReturnFromBlock => Bytes::One(125),
    }
}

/// How many bytes an instruction has.
pub fn width(op: Op) -> usize
    ensures value { result ≡ rules.width op }
    ensures few { result ≤ 3 }
{
    counted(bytes_of(op))
}

/// How many bytes instructions have, up to 1,025, over which no jump goes.
pub fn far(steps: &[Step]) -> usize
    ensures value { result ≡ rules.far steps.now }
    ensures most { result ≤ 1025 }
{
    steps
        .iter()
        .fold(0, |n, step| n.min(1025) + width(step.op))
        .min(1025)
}
