// Instructions in the Blue Book's words.
use crate::decoding::lines;
use crate::instruction::{Constant, Instruction, Line, Place};
use crate::special::{special_arguments, special_selector};
use long_names::{Body, Name, Value, Values};
use st80_view::View;
use std::alloc::{AllocError, Global};

/// The literals and the code of a method.
pub fn code_of(view: &View, method: Name) -> Option<(&Values, &[u8])> {
    match &view.image().find(method)?.body {
        Body::Method { literals, code, .. } => Some((literals, code.bytes())),
        Body::Pointers(_) | Body::Words(_) | Body::Bytes(_) => None,
    }
}

/// The number of the first byte of the code of a method with these literals.
pub fn first_pointer(literals: &Values) -> usize {
    literals.len().saturating_add(1).saturating_mul(2)
}

fn literal_of(literals: &Values, i: u8) -> Option<Value> {
    let i = usize::from(i);
    if i < literals.len() {
        Some(*literals.item(i))
    } else {
        None
    }
}

/// The name that a literal is, if it is one.
fn literal_name(literals: &Values, i: u8) -> Option<Name> {
    literal_of(literals, i)?.name()
}

/// Puts what a literal is, behind a comma.
fn put_literal(out: &mut String, view: &View, literals: &Values, i: u8) -> Result<(), AllocError> {
    match literal_of(literals, i) {
        Some(value) => {
            out.push_str(", ")?;
            view.put_value(out, value)
        }
        None => out.push_str(", which isn't there"),
    }
}

/// Puts the key of an association that is a literal, behind a comma, where it has one.
fn put_association(
    out: &mut String,
    view: &View,
    literals: &Values,
    i: u8,
) -> Result<(), AllocError> {
    let Some(association) = literal_name(literals, i) else {
        return out.push_str(", which is no association");
    };
    match view.image().field(association, 0) {
        Some(key) if key != Value::Ref(Name::NIL) => {
            out.push_str(", ")?;
            view.put_value(out, key)
        }
        _ => {
            let number = association.get();
            write!(out, ", field 1 of {number}")
        }
    }
}

fn put_place(
    out: &mut String,
    view: &View,
    literals: &Values,
    place: &Place,
) -> Result<(), AllocError> {
    match place {
        Place::ReceiverVariable(i) => write!(out, "receiver variable {i}"),
        Place::Temporary(i) => write!(out, "temporary {i}"),
        Place::Literal(i) => {
            write!(out, "literal {i}")?;
            put_literal(out, view, literals, *i)
        }
        Place::LiteralVariable(i) => {
            write!(out, "literal variable {i}")?;
            put_association(out, view, literals, *i)
        }
    }
}

fn constant_word(constant: &Constant) -> &'static str {
    match constant {
        Constant::Receiver => "receiver",
        Constant::True => "true",
        Constant::False => "false",
        Constant::Nil => "nil",
        Constant::MinusOne => "-1",
        Constant::Zero => "0",
        Constant::One => "1",
        Constant::Two => "2",
    }
}

fn put_arguments(out: &mut String, arguments: u8) -> Result<(), AllocError> {
    match arguments {
        0 => out.push_str(", no arguments"),
        1 => out.push_str(", 1 argument"),
        _ => write!(out, ", {arguments} arguments"),
    }
}

/// Puts the selector that a literal is.
fn put_literal_selector(
    out: &mut String,
    view: &View,
    literals: &Values,
    i: u8,
) -> Result<(), AllocError> {
    match literal_of(literals, i) {
        Some(selector) => {
            out.push('#')?;
            view.put_selector(out, selector)
        }
        None => write!(out, "literal {i}, which isn't there"),
    }
}

/// Puts special selector i as the image has it, or as the Blue Book has it, and its number of arguments.
fn put_special(out: &mut String, view: &View, i: u8) -> Result<(), AllocError> {
    let place = usize::from(i) * 2;
    out.push_str("send #")?;
    match view.image().name_in(Name::SPECIAL_SELECTORS, place) {
        Some(selector) if view.selector_text(selector).is_some() => {
            view.put_selector(out, Value::Ref(selector))?;
        }
        _ => out.push_str(special_selector(i))?,
    }
    match view.image().number_in(Name::SPECIAL_SELECTORS, place + 1) {
        Some(arguments) if 0 <= arguments && arguments <= 255 => {
            put_arguments(out, arguments as u8)
        }
        _ => put_arguments(out, special_arguments(i)),
    }
}

/// Puts where a jump goes: the number of the byte, counted as the machine counts.
fn put_target(
    out: &mut String,
    literals: &Values,
    line: &Line,
    distance: i16,
) -> Result<(), AllocError> {
    let behind = first_pointer(literals)
        .saturating_add(line.at)
        .saturating_add(line.len);
    let target = (behind as i128) + i128::from(distance);
    write!(out, "{target}")
}

/// Puts an instruction in words, as `push receiver variable 2` and `send #at:put:, 2 arguments`.
pub fn put_instruction(
    out: &mut String,
    view: &View,
    literals: &Values,
    line: &Line,
) -> Result<(), AllocError> {
    match &line.instruction {
        Instruction::Push(place) => {
            out.push_str("push ")?;
            put_place(out, view, literals, place)
        }
        Instruction::Store(place) => {
            out.push_str("store ")?;
            put_place(out, view, literals, place)
        }
        Instruction::StoreAndPop(place) => {
            out.push_str("pop and store ")?;
            put_place(out, view, literals, place)
        }
        Instruction::Send { literal, arguments } => {
            out.push_str("send ")?;
            put_literal_selector(out, view, literals, *literal)?;
            put_arguments(out, *arguments)
        }
        Instruction::SendSuper { literal, arguments } => {
            out.push_str("send to super ")?;
            put_literal_selector(out, view, literals, *literal)?;
            put_arguments(out, *arguments)
        }
        Instruction::SendSpecial(i) => put_special(out, view, *i),
        Instruction::Jump(_) | Instruction::JumpOnTrue(_) | Instruction::JumpOnFalse(_) => {
            put_jump(out, literals, line)
        }
        _ => put_plain(out, &line.instruction),
    }
}

fn put_jump(out: &mut String, literals: &Values, line: &Line) -> Result<(), AllocError> {
    match line.instruction {
        Instruction::Jump(distance) => {
            out.push_str("jump to ")?;
            put_target(out, literals, line, distance)
        }
        Instruction::JumpOnTrue(distance) => {
            out.push_str("pop and jump to ")?;
            put_target(out, literals, line, distance)?;
            out.push_str(" on true")
        }
        Instruction::JumpOnFalse(distance) => {
            out.push_str("pop and jump to ")?;
            put_target(out, literals, line, distance)?;
            out.push_str(" on false")
        }
        _ => Ok(()),
    }
}

/// Puts an instruction that names nothing.
fn put_plain(out: &mut String, instruction: &Instruction) -> Result<(), AllocError> {
    match instruction {
        Instruction::PushConstant(constant) => {
            out.push_str("push ")?;
            out.push_str(constant_word(constant))
        }
        Instruction::Return(constant) => {
            out.push_str("return ")?;
            out.push_str(constant_word(constant))
        }
        Instruction::PushActiveContext => out.push_str("push active context"),
        Instruction::Pop => out.push_str("pop stack top"),
        Instruction::Duplicate => out.push_str("duplicate stack top"),
        Instruction::ReturnTop => out.push_str("return stack top"),
        Instruction::ReturnTopFromBlock => out.push_str("return stack top from block"),
        Instruction::Cut => out.push_str("cut: the code ends within this instruction"),
        _ => out.push_str("unused"),
    }
}

/// Puts the bytes of an instruction as hexadecimal digits, in nine columns.
fn put_code(out: &mut String, code: &[u8], line: &Line) -> Result<(), AllocError> {
    for i in 0..3 {
        let at = line.at.saturating_add(i);
        match code.get(at) {
            Some(byte) if i < line.len => write!(out, "{byte:02x} ")?,
            _ => out.push_str("   ")?,
        }
    }
    Ok(())
}

/// Puts a line of a method: the number of its first byte, its bytes, and the instruction in words.
pub fn put_method_line(
    out: &mut String,
    view: &View,
    literals: &Values,
    code: &[u8],
    line: &Line,
) -> Result<(), AllocError> {
    let number = first_pointer(literals).saturating_add(line.at);
    write!(out, "{number:>6}  ")?;
    put_code(out, code, line)?;
    out.push(' ')?;
    put_instruction(out, view, literals, line)?;
    out.push('\n')
}

/// Puts what a method's header says, in a line.
fn put_header(out: &mut String, view: &View, method: Name) -> Result<(), AllocError> {
    let Some(header) = view.method_header(method) else {
        return Ok(());
    };
    match header.flag {
        5 => return out.push_str("  it answers its receiver, and no code is run\n"),
        6 => {
            let field = header.temporaries;
            return write!(
                out,
                "  it answers receiver variable {field}, and no code is run\n"
            );
        }
        _ => {}
    }
    let arguments = header.arguments;
    let temporaries = header.temporaries.saturating_sub(arguments);
    write!(
        out,
        "  arguments {arguments}, other temporaries {temporaries}"
    )?;
    if header.primitive > 0 {
        let primitive = header.primitive;
        write!(out, ", primitive {primitive}")?;
    }
    if header.is_large {
        out.push_str(", a large context")?;
    }
    out.push('\n')
}

fn put_literals(out: &mut String, view: &View, literals: &Values) -> Result<(), AllocError> {
    for i in 0..literals.len() {
        let value = *literals.item(i);
        write!(out, "  literal {i}: ")?;
        view.put_value(out, value)?;
        out.push('\n')?;
    }
    Ok(())
}

/// Puts a whole method: its name, its header, its literals, and its code line by line. Nothing where the object is no method.
pub fn put_method(
    alloc: Global,
    out: &mut String,
    view: &View,
    method: Name,
) -> Result<(), AllocError> {
    let Some((literals, code)) = code_of(view, method) else {
        return Ok(());
    };
    let number = method.get();
    view.put_method_name(out, method)?;
    write!(out, " ({number})\n")?;
    put_header(out, view, method)?;
    put_literals(out, view, literals)?;
    let lines = lines(alloc, code)?;
    for line in lines.iter() {
        put_method_line(out, view, literals, code, line)?;
    }
    Ok(())
}
