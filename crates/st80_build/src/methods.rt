// The objects of methods.
use crate::heap::{Heap, NIL, Stop};
use crate::plan::Plan;
use long_names::{Body, Name, Value};
use st80_compile::Compiled;
use st80_methods::{NoBody, method_body};
use st80_program::{Tree, Trees};
use std::alloc::AllocError;

/// The body of a method's object.
pub(crate) fn body_of(
    heap: &Heap,
    made: &Compiled,
    values: &[Value],
    class: Value,
    number: usize,
) -> Result<Body, Stop> {
    match method_body(heap.alloc, made, values, class) {
        Ok(body) => Ok(body),
        Err(NoBody::UnknownLiteral) => Err(Stop::Literal(number)),
        Err(NoBody::NoMemory) => Err(Stop::Memory(AllocError)),
    }
}

/// The association by which methods of a class reach the superclass: of the class itself where it is a global, and otherwise one of its own.
fn association_of(heap: &mut Heap, plan: &Plan, trees: &Trees, tree: &Tree) -> Result<Value, Stop> {
    if tree.is_meta {
        let value = Value::Ref(plan.meta_at(tree.class));
        return Ok(Value::Ref(heap.made(Name::ARRAY, &[NIL, value])?));
    }
    Ok(plan.shared_at(trees.of_classes.saturating_add(tree.class)))
}

/// Whether a method holds its class: one without super and without an extension doesn't.
fn holds_class(made: &Compiled) -> bool {
    made.sends_super || made.arguments > 4 || made.primitive > 0
}

/// A method, as an object with a name.
fn add_method(
    heap: &mut Heap,
    plan: &Plan,
    trees: &Trees,
    values: &[Value],
    number: usize,
    made: &Compiled,
) -> Result<Name, Stop> {
    let class = match trees.methods.get(number) {
        Some(tree) if holds_class(made) => association_of(heap, plan, trees, tree)?,
        _ => NIL,
    };
    let body = body_of(heap, made, values, class, number)?;
    let name = heap.name()?;
    heap.put(name, Name::COMPILED_METHOD, body)?;
    Ok(name)
}

/// All methods, as objects: their names.
pub(crate) fn add_methods(
    heap: &mut Heap,
    plan: &Plan,
    trees: &Trees,
    values: &[Value],
    codes: &[Compiled],
) -> Result<Vec<Name>, Stop> {
    let mut methods = Vec::new(heap.alloc);
    for (number, made) in codes.iter().enumerate() {
        methods.push(add_method(heap, plan, trees, values, number, made)?)?;
    }
    Ok(methods)
}
