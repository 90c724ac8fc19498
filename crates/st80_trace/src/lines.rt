//! The words of a line.
use long_names::{Name, Value};
use st80_code::{code_of, decode, first_pointer, put_instruction};
use st80_view::{Frame, View};
use std::alloc::AllocError;

/// How many levels of depth are shown by spaces.
const DEEPEST_INDENT: usize = 30;

/// In which columns the place and the top begin, where there is room.
const PLACE_COLUMN: usize = 46;

const TOP_COLUMN: usize = 92;

/// Where the machine stands before a bytecode.
#[derive(Clone, Copy, Debug, Drop)]
pub(crate) struct Sight {
    pub(crate) context: Name,
    pub(crate) home: Name,
    pub(crate) method: Name,
    pub(crate) receiver: Value,
    /// The number of the byte, as the machine counts.
    pub(crate) place: u32,
    pub(crate) byte: u8,
}

/// Puts spaces up to a column, and one at least.
fn put_spaces(line: &mut String, column: usize) -> Result<(), AllocError> {
    line.push(' ')?;
    for _ in line.len()..column {
        line.push(' ')?;
    }
    Ok(())
}

/// Puts number, depth and place of a bytecode, and its instruction.
pub(crate) fn put_sight(
    line: &mut String,
    view: &View,
    number: u32,
    depth: usize,
    sight: &Sight,
) -> Result<(), AllocError> {
    write!(line, "{number:>8}  ")?;
    for _ in 1..depth.min(DEEPEST_INDENT) {
        line.push_str("  ")?;
    }
    view.put_frame_name(line, &frame_of(sight))?;
    put_spaces(line, PLACE_COLUMN)?;
    let place = sight.place;
    write!(line, "{place:>5}  ")?;
    put_code(line, view, sight)
}

/// The frame of a context, as far as its name tells.
fn frame_of(sight: &Sight) -> Frame {
    Frame {
        context: sight.context,
        is_block: sight.context != sight.home,
        home: sight.home,
        method: sight.method,
        receiver: sight.receiver,
        pointer: None,
        depth: None,
        sender: None,
    }
}

/// Puts the instruction in words, where the image has the method and its byte is still there.
fn put_code(line: &mut String, view: &View, sight: &Sight) -> Result<(), AllocError> {
    let byte = sight.byte;
    let Some((literals, code)) = code_of(view, sight.method) else {
        return write!(line, "bytecode {byte}");
    };
    let at = (sight.place as usize).saturating_sub(first_pointer(literals));
    if code.get(at) != Some(&byte) {
        return write!(line, "bytecode {byte}");
    }
    put_instruction(line, view, literals, &decode(code, at))
}

/// Puts the top of the stack behind a bytecode: a value of the image by its words, and a new object by its class.
pub(crate) fn put_top(
    line: &mut String,
    view: &View,
    top: Value,
    class: Name,
) -> Result<(), AllocError> {
    put_spaces(line, TOP_COLUMN)?;
    match top {
        Value::Ref(name) if view.image().find(name).is_none() => {
            let number = name.get();
            write!(line, "new {number}, of class ")?;
            view.put_class_name(line, class)
        }
        _ => view.put_value(line, top),
    }
}
