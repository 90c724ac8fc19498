// What an image begins with: a method, its context, and the process that runs it.
use crate::heap::{Heap, NIL, Stop};
use crate::methods::body_of;
use crate::plan::Plan;
use long_names::{Body, Name, Value, literal_count};
use st80_compile::Compiled;
use st80_program::{Program, Trees};

/// The method that an image begins with, and its context.
#[derive(Clone, Copy, Debug)]
pub(crate) struct Beginning {
    pub method: Name,
    pub context: Name,
}

/// So many fields a context has, large or not.
const LARGE_CONTEXT: usize = 38;

const SMALL_CONTEXT: usize = 18;

/// The priority of the process.
const USER_PRIORITY: i16 = 4;
/// So many lists of processes that wait the scheduler has, one for each priority.
const PRIORITIES: usize = 8;

/// How many literals a method's object has.
fn literals_in(body: &Body) -> usize {
    match body {
        Body::Method { header, .. } => literal_count(*header),
        _ => 0,
    }
}

/// The context of what the program begins with, whose receiver is nil.
fn context_of(
    heap: &mut Heap,
    made: &Compiled,
    method: Name,
    literals: usize,
) -> Result<Name, Stop> {
    let size = if made.is_large {
        LARGE_CONTEXT
    } else {
        SMALL_CONTEXT
    };
    let pointer = i16::try_from(literals.saturating_mul(2).saturating_add(3)).unwrap_or(0);
    let mut fields = Vec::new(heap.alloc);
    fields.push(NIL)?;
    fields.push(Value::Int(pointer))?;
    fields.push(Value::Int(i16::from(made.temporaries)))?;
    fields.push(Value::Ref(method))?;
    for _ in 4..size {
        fields.push(NIL)?;
    }
    heap.made(Name::METHOD_CONTEXT, fields.as_slice())
}

/// The method of what the program begins with, and its context.
pub(crate) fn add_beginning(
    heap: &mut Heap,
    plan: &Plan,
    trees: &Trees,
    values: &[Value],
    made: &Compiled,
) -> Result<Beginning, Stop> {
    let class = plan.shared_at(trees.of_classes);
    let body = body_of(heap, made, values, class, trees.methods.len())?;
    let literals = literals_in(&body);
    let method = heap.name()?;
    heap.put(method, Name::COMPILED_METHOD, body)?;
    let context = context_of(heap, made, method, literals)?;
    Ok(Beginning { method, context })
}

/// The lists of processes that wait.
fn add_lists(heap: &mut Heap, list: Name) -> Result<Name, Stop> {
    let mut lists = Vec::new(heap.alloc);
    for _ in 0..PRIORITIES {
        lists.push(Value::Ref(heap.made(list, &[NIL, NIL])?))?;
    }
    heap.made(Name::ARRAY, lists.as_slice())
}

/// The scheduler, with the process that runs a context.
pub(crate) fn add_scheduler(
    heap: &mut Heap,
    plan: &Plan,
    program: &Program,
    context: Name,
) -> Result<Name, Stop> {
    let lists = add_lists(heap, plan.class(program, b"LinkedList"))?;
    let class = plan.class(program, b"Process");
    let fields = [NIL, Value::Ref(context), Value::Int(USER_PRIORITY), NIL];
    let process = heap.made(class, &fields)?;
    let class = plan.class(program, b"ProcessorScheduler");
    heap.made(class, &[Value::Ref(lists), Value::Ref(process)])
}
