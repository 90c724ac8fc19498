// The base image: the known objects, and a process whose method does nothing for ever.
use crate::notation::{Header, NIL, add_method, add_pointers, name, object};
use image_builder::Builder;
use long_names::{Name, Value};
use std::alloc::{AllocError, Global};

/// The word of the scheduler's name.
pub const SCHEDULER: u32 = 60;

/// The word of the active process's name.
pub const PROCESS: u32 = 62;

/// The word of the method's name.
pub const METHOD: u32 = 64;

/// The word of the active context's name.
pub const CONTEXT: u32 = 66;

/// The next name.
pub const NEXT: u32 = 68;

/// The 26 objects of the base image. All known objects are arrays, and but for the scheduler's association they are empty.
pub fn base(alloc: Global) -> Result<Builder, AllocError> {
    let mut builder = Builder::new(alloc)?;
    for known in Name::known() {
        add_pointers(alloc, &mut builder, known, Name::ARRAY, &[])?;
    }
    let association = Name::SCHEDULER_ASSOCIATION;
    add_pointers(
        alloc,
        &mut builder,
        association,
        Name::ARRAY,
        &[NIL, object(SCHEDULER)],
    )?;
    add_pointers(
        alloc,
        &mut builder,
        name(SCHEDULER),
        Name::ARRAY,
        &[NIL, object(PROCESS)],
    )?;
    let process = [NIL, object(CONTEXT), Value::Int(1), NIL];
    add_pointers(alloc, &mut builder, name(PROCESS), Name::ARRAY, &process)?;
    // It pushes the receiver, pops it, and jumps back.
    add_method(
        alloc,
        &mut builder,
        name(METHOD),
        Header::PLAIN,
        &[],
        &[112, 135, 163, 252],
    )?;
    add_pointers(
        alloc,
        &mut builder,
        name(CONTEXT),
        Name::METHOD_CONTEXT,
        &context(),
    )?;
    Ok(builder)
}

// Its sender is nil, its instruction pointer 3, its stack pointer 0.
fn context() -> [Value; 18] {
    let mut fields = [NIL; 18];
    fields[1] = Value::Int(3);
    fields[2] = Value::Int(0);
    fields[3] = object(METHOD);
    fields
}
