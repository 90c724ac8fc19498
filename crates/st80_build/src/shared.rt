// The variables that methods share, and what holds them.
use crate::classes::field_count;
use crate::heap::{Heap, NIL, Stop};
use crate::plan::Plan;
use long_names::{Name, Value};
use st80_program::{Program, Trees};

/// Smalltalk: it holds all symbols, and the associations of all shared variables.
fn add_smalltalk(heap: &mut Heap, plan: &Plan, program: &Program, name: Name) -> Result<(), Stop> {
    let mut symbols = Vec::new(heap.alloc);
    for symbol in &plan.symbols {
        symbols.push(Value::Ref(symbol.name))?;
    }
    let mut shared = Vec::new(heap.alloc);
    for association in &plan.shared {
        shared.push(Value::Ref(*association))?;
    }
    let symbols = heap.made(Name::ARRAY, symbols.as_slice())?;
    let shared = heap.made(Name::ARRAY, shared.as_slice())?;
    let fields = [Value::Ref(symbols), Value::Ref(shared)];
    heap.put_fields(name, plan.class(program, b"SystemDictionary"), &fields)
}

/// An instance of a class, whose fields are nil.
fn instance(heap: &mut Heap, plan: &Plan, program: &Program, class: usize) -> Result<Value, Stop> {
    let mut fields = Vec::new(heap.alloc);
    for _ in 0..field_count(program, class).min(2047) {
        fields.push(NIL)?;
    }
    let class = plan.class_at(class);
    Ok(Value::Ref(heap.made(class, fields.as_slice())?))
}

/// The objects that some globals stand for.
#[derive(Drop)]
struct Globals {
    scheduler: Name,
    smalltalk: Name,
}

/// What a global is: Processor, Smalltalk, Transcript; others are nil.
fn global_value(
    heap: &mut Heap,
    plan: &Plan,
    program: &Program,
    globals: &Globals,
    name: &[u8],
) -> Result<Value, Stop> {
    if name == b"Processor".as_slice() {
        return Ok(Value::Ref(globals.scheduler));
    }
    if name == b"Smalltalk".as_slice() {
        return Ok(Value::Ref(globals.smalltalk));
    }
    match program.class_of(b"TranscriptStream") {
        Some(class) if name == b"Transcript".as_slice() => instance(heap, plan, program, class),
        _ => Ok(NIL),
    }
}

/// The value of a shared variable by its number. Variables of classes are nil.
fn value_of(
    heap: &mut Heap,
    plan: &Plan,
    program: &Program,
    trees: &Trees,
    globals: &Globals,
    number: usize,
    name: &[u8],
) -> Result<Value, Stop> {
    match number.checked_sub(trees.of_classes) {
        None => Ok(NIL),
        Some(class) if class < program.classes.len() => Ok(Value::Ref(plan.class_at(class))),
        Some(_) => global_value(heap, plan, program, globals, name),
    }
}

/// The association of a shared variable.
fn add_association(
    heap: &mut Heap,
    plan: &mut Plan,
    kind: Name,
    number: usize,
    name: &[u8],
    value: Value,
) -> Result<(), Stop> {
    let key = plan.symbol(heap, name)?;
    match plan.shared_at(number) {
        Value::Ref(association) => { heap.put_fields(association, kind, &[Value::Ref(key), value]) }
        Value::Int(_) => Ok(()),
    }
}

/// The associations of the shared variables.
pub(crate) fn add_shared(
    heap: &mut Heap,
    plan: &mut Plan,
    program: &Program,
    trees: &Trees,
    scheduler: Name,
) -> Result<(), Stop> {
    let kind = plan.class(program, b"Association");
    let smalltalk = heap.name()?;
    let globals = Globals {
        scheduler,
        smalltalk,
    };
    for (i, spelled) in trees.shared.iter().enumerate() {
        let value = value_of(heap, plan, program, trees, &globals, i, spelled.as_slice())?;
        add_association(heap, plan, kind, i, spelled.as_slice(), value)?;
    }
    add_smalltalk(heap, plan, program, smalltalk)
}
