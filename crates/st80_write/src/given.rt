// A method's object as what a compiler makes.
use crate::stop::Stop;
use long_names::{Name, Value, Values};
use st80_code::{Instruction, code_of, lines};
use st80_compile::{Answers, Compiled};
use st80_objects::item_of;
use st80_tree::{FIRST_INTEGER, INTEGERS};
use st80_view::{MethodHeader, View};
use std::alloc::{AllocError, Global};

/// The number of the first literal that is no integer with a number of its own.
const FIRST_LITERAL: u32 = FIRST_INTEGER + INTEGERS;

/// The number in a pool of a literal: that of an integer, or one by its place.
fn number_of(literals: &Values, i: usize) -> u32 {
    match item_of(literals, i) {
        Some(Value::Int(n)) if 0 <= n && n < 32 => FIRST_INTEGER + (n as u32),
        _ => FIRST_LITERAL.saturating_add(u32::try_from(i).unwrap_or(0)),
    }
}

/// The literal of a number in the pool.
pub(crate) fn literal_of(literals: &Values, number: u32) -> Option<Value> {
    if number < FIRST_INTEGER {
        return None;
    }
    if number < FIRST_LITERAL {
        return Some(Value::Int((number - FIRST_INTEGER) as i16));
    }
    let i = usize::try_from(number - FIRST_LITERAL).ok()?;
    item_of(literals, i)
}

/// The name that a literal of a number is, if it is one.
pub(crate) fn literal_name(literals: &Values, number: u32) -> Option<Name> {
    literal_of(literals, number)?.name()
}

fn numbers_of(alloc: Global, literals: &Values, count: usize) -> Result<Vec<u32>, AllocError> {
    let mut numbers = Vec::new(alloc);
    for i in 0..literals.len() {
        if i < count {
            numbers.push(number_of(literals, i))?;
        }
    }
    Ok(numbers)
}

fn has_super(alloc: Global, code: &[u8]) -> Result<bool, AllocError> {
    let lines = lines(alloc, code)?;
    Ok(lines.iter().any(|line| matches!(line.instruction, Instruction::SendSuper { .. })))
}

fn byte(number: u16) -> u8 {
    u8::try_from(number).unwrap_or(255)
}

/// How many literals stand behind those of the code: a header's extension and the class, or the class for sends to super.
fn extra(header: &MethodHeader, sends_super: bool) -> usize {
    if header.flag == 7 {
        return 2;
    }
    usize::from(sends_super)
}

fn without_code(alloc: Global, answers: Answers) -> Compiled {
    Compiled {
        answers,
        arguments: 0,
        temporaries: 0,
        primitive: 0,
        is_large: false,
        sends_super: false,
        literals: Vec::new(alloc),
        code: Vec::new(alloc),
    }
}

/// What a compiler made, where this is its object.
pub(crate) fn given_of(alloc: Global, view: &View, method: Name) -> Result<Compiled, Stop> {
    let header = view.method_header(method).ok_or(Stop::NoSource)?;
    let (literals, code) = code_of(view, method).ok_or(Stop::NoSource)?;
    match header.flag {
        5 => return Ok(without_code(alloc, Answers::Receiver)),
        6 => return Ok(without_code(alloc, Answers::Field(byte(header.temporaries)))),
        _ => {}
    }
    let sends_super = has_super(alloc, code)?;
    let count = literals.len().saturating_sub(extra(&header, sends_super));
    Ok(Compiled {
        answers: Answers::Code,
        arguments: byte(header.arguments),
        temporaries: byte(header.temporaries),
        primitive: byte(header.primitive),
        is_large: header.is_large,
        sends_super,
        literals: numbers_of(alloc, literals, count)?,
        code: Vec::from_slice(alloc, code)?,
    })
}
