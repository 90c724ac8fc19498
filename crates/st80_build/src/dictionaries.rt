// Method dictionaries, as the lookup wants them.
use crate::heap::{Heap, NIL, Stop};
use long_names::{Name, Value};
use std::alloc::{AllocError, Global};

/// A selector and its method.
#[derive(Clone, Copy, Debug)]
pub(crate) struct Row {
    pub selector: Name,
    pub method: Name,
}

/// How many slots a dictionary of so many rows has: a power of two, and more than half as many again.
fn slots_for(rows: usize) -> usize {
    let mut slots: usize = 2;
    for _ in 0..15 {
        if slots <= rows.saturating_add(rows / 2) {
            slots = slots.saturating_mul(2);
        }
    }
    slots
}

/// The slot that a selector goes to: the first free one from its own on.
fn free_slot(taken: &[Value], selector: Name) -> Option<usize> {
    let count = taken.len();
    if count == 0 {
        return None;
    }
    let from = selector.index() as usize % count;
    for i in 0..count {
        let at = from.saturating_add(i) % count;
        if taken[at] == Value::Ref(Name::NIL) {
            return Some(at);
        }
    }
    None
}

/// So many slots, all of them free.
fn free_slots(alloc: Global, count: usize) -> Result<Vec<Value>, AllocError> {
    let mut slots = Vec::new(alloc);
    for _ in 0..count {
        slots.push(NIL)?;
    }
    Ok(slots)
}

/// Writes a value into a slot, if it is there.
fn put_slot(slots: &mut Vec<Value>, at: usize, name: Name) {
    if at < slots.len() {
        slots[at] = Value::Ref(name);
    }
}

/// Puts a row into the first slot that is free from its own on.
fn put_row(selectors: &mut Vec<Value>, methods: &mut Vec<Value>, row: Row) -> Result<(), Stop> {
    match free_slot(selectors.as_slice(), row.selector) {
        Some(at) => {
            put_slot(selectors, at, row.selector);
            put_slot(methods, at, row.method);
            Ok(())
        }
        None => Err(Stop::Full),
    }
}

/// The fields of a dictionary: how many rows it has, its methods, and its selectors.
fn fields_of(
    alloc: Global,
    rows: usize,
    methods: Name,
    selectors: &[Value],
) -> Result<Vec<Value>, AllocError> {
    let tally = i16::try_from(rows).unwrap_or(0);
    let mut fields = Vec::new(alloc);
    fields.push(Value::Int(tally))?;
    fields.push(Value::Ref(methods))?;
    fields.extend_from_slice(selectors)?;
    Ok(fields)
}

/// A dictionary of these rows.
pub(crate) fn dictionary(heap: &mut Heap, class: Name, rows: &[Row]) -> Result<Name, Stop> {
    let count = slots_for(rows.len());
    let mut selectors = free_slots(heap.alloc, count)?;
    let mut methods = free_slots(heap.alloc, count)?;
    for row in rows {
        put_row(&mut selectors, &mut methods, *row)?;
    }
    let array = heap.made(Name::ARRAY, methods.as_slice())?;
    let fields = fields_of(heap.alloc, rows.len(), array, selectors.as_slice())?;
    heap.made(class, fields.as_slice())
}
