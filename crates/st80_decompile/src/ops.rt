// Bytes of code as instructions.
use st80_compile::{Op, Place};
use st80_tree::Constant;
use std::alloc::{AllocError, Global};

/// An instruction, and where the byte behind it is.
#[derive(Clone, Copy, Debug, PartialEq, Eq)]
pub(crate) struct Read {
    pub(crate) op: Op,
    pub(crate) behind: usize,
}

fn constant_of(number: u8) -> Constant {
    match number {
        0 => Constant::Receiver,
        1 => Constant::True,
        2 => Constant::False,
        3 => Constant::Nil,
        4 => Constant::MinusOne,
        5 => Constant::Zero,
        6 => Constant::One,
        _ => Constant::Two,
    }
}

/// What the byte behind an extended push or store names.
fn place_of(byte: u8) -> Place {
    let number = byte % 64;
    match byte / 64 {
        0 => Place::OfReceiver(number),
        1 => Place::OfHome(usize::from(number)),
        2 => Place::OfFrame(usize::from(number)),
        _ => Place::OfAssociation(usize::from(number)),
    }
}

/// Pushes, and the stores of one byte: 0 to 119.
fn plain(byte: u8) -> Op {
    match byte {
        0..=15 => Op::Push(Place::OfReceiver(byte)),
        16..=31 => Op::Push(Place::OfHome(usize::from(byte - 16))),
        32..=63 => Op::Push(Place::OfFrame(usize::from(byte - 32))),
        64..=95 => Op::Push(Place::OfAssociation(usize::from(byte - 64))),
        96..=103 => Op::StorePop(Place::OfReceiver(byte - 96)),
        104..=111 => Op::StorePop(Place::OfHome(usize::from(byte - 104))),
        _ => Op::PushConstant(constant_of(byte % 8)),
    }
}

fn sent(to_super: bool, byte: u8) -> Op {
    Op::Message {
        to_super,
        literal: usize::from(byte % 32),
        arguments: byte / 32,
    }
}

/// A jump of two bytes. Of those backwards the distance is counted from the byte behind it, as of all.
fn long_jump(byte: u8, next: u8) -> Op {
    let distance = usize::from(byte % 4) * 256 + usize::from(next);
    match byte {
        160..=163 => Op::Back(1024 - distance),
        164..=167 => Op::Over(distance),
        168..=171 => Op::Branch {
            on: false,
            distance,
        },
        _ => Op::Branch { on: true, distance },
    }
}

fn two(byte: u8, next: u8) -> Option<Op> {
    match byte {
        128 => Some(Op::Push(place_of(next))),
        129 => Some(Op::Store(place_of(next))),
        130 => Some(Op::StorePop(place_of(next))),
        131 => Some(sent(false, next)),
        133 => Some(sent(true, next)),
        160..=175 => Some(long_jump(byte, next)),
        _ => None,
    }
}

fn one(byte: u8) -> Option<Op> {
    match byte {
        0..=119 => Some(plain(byte)),
        120..=123 => Some(Op::ReturnConstant(constant_of(byte - 120))),
        124 => Some(Op::ReturnTop),
        125 => Some(Op::ReturnFromBlock),
        135 => Some(Op::Pop),
        136 => Some(Op::Duplicate),
        137 => Some(Op::PushContext),
        144..=151 => Some(Op::Jump(usize::from(byte - 143))),
        152..=159 => Some(Op::Branch {
            on: true,
            distance: usize::from(byte - 151),
        }),
        176..=207 => Some(Op::Special(u32::from(byte - 176))),
        208..=255 => Some(Op::Message {
            to_super: false,
            literal: usize::from(byte % 16),
            arguments: (byte - 208) / 16,
        }),
        _ => None,
    }
}

/// The instruction at a byte, and how many bytes it has.
fn read_at(code: &[u8], at: usize) -> Option<(Op, usize)> {
    let byte = *code.get(at)?;
    if let Some(op) = one(byte) {
        return Some((op, 1));
    }
    let next = *code.get(at.checked_add(1)?)?;
    if let Some(op) = two(byte, next) {
        return Some((op, 2));
    }
    let literal = usize::from(*code.get(at.checked_add(2)?)?);
    if byte != 132 && byte != 134 {
        return None;
    }
    let op = Op::Message {
        to_super: byte == 134,
        literal,
        arguments: next,
    };
    Some((op, 3))
}

/// Code as instructions, or nothing where some bytes are none.
pub(crate) fn instructions(alloc: Global, code: &[u8]) -> Result<Option<Vec<Read>>, AllocError> {
    let mut found = Vec::new(alloc);
    let mut at = 0usize;
    for _ in 0..code.len() {
        if at < code.len() {
            let Some((op, width)) = read_at(code, at) else {
                return Ok(None);
            };
            at = at.saturating_add(width);
            found.push(Read { op, behind: at })?;
        }
    }
    Ok(Some(found))
}
