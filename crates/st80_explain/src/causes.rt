//! Why a machine is stuck, and where it stands.
ghost use Rattle.std.specs.Prelude.{◌≡◌, ◌≢◌, IfSome, IsNone};
ghost use Rattle.blue_model.specs.Cause.{cause_number};
ghost use Rattle.blue_model.specs.declared.cause.Cause.{Cause};
ghost use Rattle.st80_explain.specs.Sentences.{cause_meaning, cause_name};

use blue_model::Cause;
use long_names::{Name, Value};
use st80_code::{Instruction, code_of, decode, first_pointer, put_instruction, special_arguments};
use st80_view::{Frame, Process, Standing, View};
use std::alloc::{AllocError, Global};

/// The cause of a number.
fn cause_of(number: u8) -> Option<Cause>
    ensures known { IfSome result (λ cause. cause_number cause ≡ number) }
    ensures unknown { IsNone result → (cause : Cause) → cause_number cause ≢ number }
{
    match number {
        1 => Some(Cause::Pointer),
        2 => Some(Cause::Unused),
        3 => Some(Cause::Stack),
        4 => Some(Cause::Shape),
        5 => Some(Cause::NotUnderstood),
        6 => Some(Cause::NoProcess),
        7 => Some(Cause::Chain),
        _ => None,
    }
}

/// What a cause is called, and what it means.
fn cause_words(cause: Cause) -> (&'static str, &'static str)
    ensures name { result.0.now ≡ cause_name cause }
    ensures meaning { result.1.now ≡ cause_meaning cause }
{
    match cause {
        Cause::Pointer => (
            "Pointer",
            "a byte is to be fetched, or a jump goes, outside the method's code. A method ends with a return",
        ),
        Cause::Unused => (
            "Unused",
            "the byte is no instruction, or stores into a literal",
        ),
        Cause::Stack => (
            "Stack",
            "a value is taken from an empty stack, pushed on a full one, or a temporary is read that the context doesn't have",
        ),
        Cause::Shape => (
            "Shape",
            "an object that is read is of another kind, has too few fields, or has a value of another sort in one of them",
        ),
        Cause::NotUnderstood => (
            "NotUnderstood",
            "a message was sent that no class understands, and the class has no doesNotUnderstand: either",
        ),
        Cause::NoProcess => (
            "NoProcess",
            "the active process waits, ends or suspends itself, and no other process is ready",
        ),
        Cause::Chain => (
            "Chain",
            "a class has more than 1,023 superclasses: their chain probably goes round",
        ),
    }
}

/// Puts what a cause of `stuck` is called, and what it means.
pub fn put_cause(out: &mut String, cause: u8) -> Result<(), AllocError> {
    match cause_of(cause) {
        Some(which) => {
            let (name, words) = cause_words(which);
            write!(out, "Cause {cause}, {name}: {words}.\n")
        }
        None => write!(out, "Cause {cause}.\n"),
    }
}

fn put_process(out: &mut String, view: &View, process: &Process) -> Result<(), AllocError> {
    let number = process.name.get();
    write!(out, "process {number}")?;
    if let Some(priority) = process.priority {
        write!(out, ", priority {priority}")?;
    }
    match process.standing {
        Standing::Active => out.push_str(", active")?,
        Standing::Ready(_) => out.push_str(", ready")?,
        Standing::Waiting(semaphore) => {
            let semaphore = semaphore.get();
            write!(out, ", waits on semaphore {semaphore}")?;
        }
    }
    put_context(out, view, process.context)
}

/// Puts in which method a context is.
fn put_context(out: &mut String, view: &View, context: Option<Name>) -> Result<(), AllocError> {
    let Some(context) = context else {
        return out.push_str(", without a context");
    };
    match view.frame(context) {
        Some(frame) => {
            out.push_str(", in ")?;
            view.put_frame_name(out, &frame)
        }
        None => {
            let number = context.get();
            write!(out, ", in {number}, which is no context")
        }
    }
}

/// The instruction that comes next in a frame.
fn next_of(view: &View, frame: &Frame) -> Option<st80_code::Line> {
    let (literals, code) = code_of(view, frame.method)?;
    let pointer = usize::try_from(frame.pointer?).ok()?;
    let at = pointer.checked_sub(first_pointer(literals))?;
    if at < code.len() {
        Some(decode(code, at))
    } else {
        None
    }
}

/// Puts the instruction that comes next, and its place.
fn put_next(out: &mut String, view: &View, frame: &Frame) -> Result<(), AllocError> {
    let method = frame.method.get();
    let context = frame.context.get();
    match frame.pointer {
        Some(pointer) => write!(
            out,
            "The next byte is number {pointer} of method {method} (context {context})"
        )?,
        None => write!(
            out,
            "The next byte is in method {method} (context {context})"
        )?,
    }
    match (next_of(view, frame), code_of(view, frame.method)) {
        (Some(line), Some((literals, _))) => {
            out.push_str(": ")?;
            put_instruction(out, view, literals, &line)?;
            out.push_str(".\n")
        }
        _ => out.push_str(", which isn't there.\n"),
    }
}

/// The selector and the number of arguments of a send.
fn message_of(view: &View, frame: &Frame) -> Option<(Value, u8)> {
    let (literals, _) = code_of(view, frame.method)?;
    match next_of(view, frame)?.instruction {
        Instruction::Send { literal, arguments } | Instruction::SendSuper { literal, arguments } =>
            {
                let literal = usize::from(literal);
                if literal < literals.len() {
                    Some((*literals.item(literal), arguments))
                } else {
                    None
                }
            }
        Instruction::SendSpecial(i) => {
            let selector = view
                .image()
                .field(Name::SPECIAL_SELECTORS, usize::from(i) * 2)?;
            Some((selector, special_arguments(i)))
        }
        _ => None,
    }
}

/// The value so much below the top of a frame's stack.
fn below_top(view: &View, frame: &Frame, depth: u8) -> Option<Value> {
    let held = usize::try_from(frame.depth?).ok()?;
    let place = held.checked_sub(usize::from(depth).saturating_add(1))?;
    view.stacked(frame, place)
}

/// The class of the value so much below the top of a frame's stack.
fn class_below(view: &View, frame: &Frame, depth: u8) -> Option<Name> {
    view.image().class_of(below_top(view, frame, depth)?)
}

/// Puts which message isn't understood, and by what.
fn put_message(out: &mut String, view: &View, frame: &Frame) -> Result<(), AllocError> {
    let Some((selector, arguments)) = message_of(view, frame) else {
        return Ok(());
    };
    let Some(receiver) = below_top(view, frame, arguments) else {
        return Ok(());
    };
    out.push_str("The receiver is ")?;
    view.put_value(out, receiver)?;
    if let Some(class) = class_below(view, frame, arguments) {
        out.push_str(", of class ")?;
        view.put_class_name(out, class)?;
    }
    out.push_str(", and the message is #")?;
    view.put_selector(out, selector)?;
    out.push_str(".\n")
}

/// Puts what stands on top of the stack.
fn put_stack_top(out: &mut String, view: &View, frame: &Frame) -> Result<(), AllocError> {
    match frame.depth {
        Some(depth) => write!(out, "Its stack has {depth} values, temporaries among them")?,
        None => return Ok(()),
    }
    if let Some(top) = below_top(view, frame, 0) {
        out.push_str("; on top stands ")?;
        view.put_value(out, top)?;
    }
    out.push_str(".\n")
}

/// Puts all processes.
fn put_processes(alloc: Global, out: &mut String, view: &View) -> Result<(), AllocError> {
    let processes = view.processes(alloc)?;
    out.push_str("The processes are:\n")?;
    for process in processes.iter() {
        out.push_str("  ")?;
        put_process(out, view, process)?;
        out.push('\n')?;
    }
    Ok(())
}

/// Puts where the active process stands.
fn put_active(alloc: Global, out: &mut String, view: &View) -> Result<(), AllocError> {
    let processes = view.processes(alloc)?;
    match processes.first() {
        Some(process) if process.standing == Standing::Active => {
            out.push_str("It is in ")?;
            put_process(out, view, process)?;
            out.push_str(".\n")
        }
        _ => out.push_str("There is no active process.\n"),
    }
}

/// Puts where a machine stands that is stuck, of the view of its image before the bytecode that stopped: its process, the instruction, and by the cause
/// the message that isn't understood, the processes and what they wait on, or the stack.
pub fn put_stuck(
    alloc: Global,
    out: &mut String,
    view: &View,
    cause: u8,
) -> Result<(), AllocError> {
    put_active(alloc, out, view)?;
    let frame = match view.active_context() {
        Some(context) => view.frame(context),
        None => None,
    };
    let Some(frame) = frame else {
        return out.push_str("The active process has no context that could go on.\n");
    };
    put_next(out, view, &frame)?;
    match cause {
        5 | 7 => put_message(out, view, &frame),
        6 => put_processes(alloc, out, view),
        _ => put_stack_top(out, view, &frame),
    }
}
