// Processes and stacks.
ghost use Rattle.std.specs.Prelude.{◌≡◌, IfOk};
ghost use Rattle.st80_show.specs.Answers.{stack_found};
ghost use Rattle.st80_view.specs.Viewed.{recs_of};

use crate::ask::Found;
use long_names::{Name, Value, Values};
use st80_code::{code_of, decode, first_pointer, put_method_line};
use st80_view::{Frame, Process, Standing, View};
use std::alloc::{AllocError, Global};

/// How many frames of a stack are put.
const MOST_FRAMES: usize = 100;

/// Puts a process in a line: its name, where it stands, its priority, and where it goes on.
pub fn put_process(out: &mut String, view: &View, process: &Process) -> Result<(), AllocError> {
    let number = process.name.get();
    write!(out, "  process {number}")?;
    match &process.standing {
        Standing::Active => out.push_str(": active")?,
        Standing::Ready(list) => write!(out, ": ready on list {list}")?,
        Standing::Waiting(semaphore) => {
            out.push_str(": waits on ")?;
            view.put_object(out, *semaphore)?;
        }
    }
    if let Some(priority) = process.priority {
        write!(out, ", priority {priority}")?;
    }
    put_place(out, view, process)?;
    out.push('\n')
}

/// Puts the method in which a process goes on.
fn put_place(out: &mut String, view: &View, process: &Process) -> Result<(), AllocError> {
    let Some(context) = process.context else {
        return out.push_str(", without a context");
    };
    match view.frame(context) {
        Some(frame) => {
            out.push_str(", in ")?;
            view.put_frame_name(out, &frame)
        }
        None => {
            out.push_str(", in ")?;
            view.put_object(out, context)?;
            out.push_str(", which is no context")
        }
    }
}

/// Puts each process with its stack.
pub fn show_processes(alloc: Global, out: &mut String, view: &View) -> Result<(), AllocError> {
    let processes = view.processes(alloc)?;
    for process in processes.iter() {
        put_process(out, view, process)?;
        if let Some(context) = process.context {
            put_frames(alloc, out, view, context)?;
        }
    }
    if processes.is_empty() {
        out.push_str("no process: field 1 of object 8 is no scheduler\n")?;
    }
    Ok(())
}

/// Puts the stack of the active process, context by context, with arguments, temporaries and what stands on each stack.
pub fn show_stack(alloc: Global, out: &mut String, view: &View) -> Result<Found, AllocError>
    ensures { IfOk result (λ found. found ≡ stack_found (recs_of view.now)) }
{
    let Some(process) = view.active_process() else {
        out.push_str("no active process: field 1 of object 8 is no scheduler\n")?;
        return Ok(Found::Nothing);
    };
    let Some(context) = view.active_context() else {
        out.push_str("the active process has no context\n")?;
        return Ok(Found::Nothing);
    };
    let number = process.get();
    write!(out, "the stack of process {number}, the active one\n")?;
    put_frames(alloc, out, view, context)?;
    Ok(Found::Shown)
}

fn put_frames(
    alloc: Global,
    out: &mut String,
    view: &View,
    context: Name,
) -> Result<(), AllocError> {
    let frames = view.stack(alloc, context)?;
    for (i, frame) in frames.iter().enumerate() {
        if i < MOST_FRAMES {
            put_frame(out, view, frame)?;
        }
    }
    crate::columns::put_left_out(out, frames.len().saturating_sub(MOST_FRAMES), "contexts")
}

/// Puts a context: where it is, its receiver, its arguments and temporaries, and what stands on its stack.
pub fn put_frame(out: &mut String, view: &View, frame: &Frame) -> Result<(), AllocError> {
    out.push_str("    ")?;
    view.put_frame_name(out, frame)?;
    let number = frame.context.get();
    match frame.pointer {
        Some(pointer) => write!(out, " at {pointer} (context {number})\n")?,
        None => write!(out, ", ended (context {number})\n")?,
    }
    out.push_str("      receiver: ")?;
    view.put_value(out, frame.receiver)?;
    out.push('\n')?;
    put_temporaries(out, view, frame)?;
    put_stacked(out, view, frame)?;
    put_next(out, view, frame)
}

/// Puts the instruction with which a frame goes on.
fn put_next(out: &mut String, view: &View, frame: &Frame) -> Result<(), AllocError> {
    let Some((literals, code)) = code_of(view, frame.method) else {
        return Ok(());
    };
    match place_in(literals, frame) {
        Some(at) if at < code.len() => {
            out.push_str("      next:")?;
            put_method_line(out, view, literals, code, &decode(code, at))
        }
        _ => Ok(()),
    }
}

/// The byte of the code at which a frame goes on.
fn place_in(literals: &Values, frame: &Frame) -> Option<usize> {
    let pointer = usize::try_from(frame.pointer?).ok()?;
    pointer.checked_sub(first_pointer(literals))
}

/// How many arguments, and how many temporaries with them, the home of a frame has.
fn sizes_of(view: &View, frame: &Frame) -> (usize, usize) {
    match view.method_header(frame.method) {
        Some(header) => (
            usize::from(header.arguments),
            usize::from(header.temporaries),
        ),
        None => (0, 0),
    }
}

fn put_temporaries(out: &mut String, view: &View, frame: &Frame) -> Result<(), AllocError> {
    let (arguments, temporaries) = sizes_of(view, frame);
    for i in 0..temporaries.max(arguments) {
        if let Some(value) = view.temporary(frame, i) {
            let word = if i < arguments {
                "argument"
            } else {
                "temporary"
            };
            write!(out, "      {word} {i}: ")?;
            view.put_value(out, value)?;
            out.push('\n')?;
        }
    }
    Ok(())
}

/// Puts what stands on the stack of a frame above its temporaries, the lowest first.
fn put_stacked(out: &mut String, view: &View, frame: &Frame) -> Result<(), AllocError> {
    let (_, temporaries) = sizes_of(view, frame);
    let first = if frame.is_block { 0 } else { temporaries };
    let depth = usize::from(frame.depth.unwrap_or(0).max(0) as u16);
    for i in first..depth {
        if let Some(value) = view.stacked(frame, i) {
            put_stack_value(out, view, value)?;
        }
    }
    Ok(())
}

fn put_stack_value(out: &mut String, view: &View, value: Value) -> Result<(), AllocError> {
    out.push_str("      on the stack: ")?;
    view.put_value(out, value)?;
    out.push('\n')
}
