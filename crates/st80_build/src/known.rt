// The objects that the machine knows, and those that every image has.
use crate::heap::{Heap, NIL, Stop};
use crate::plan::Plan;
use long_names::{Name, Value};
use st80_pool::Entry;
use st80_program::{Program, Trees};
use st80_tree::arguments_of;

/// The 256 characters, and their table.
pub(crate) fn add_characters(heap: &mut Heap) -> Result<Vec<Name>, Stop> {
    let mut names = Vec::new(heap.alloc);
    let mut table = Vec::new(heap.alloc);
    for code in 0..256 {
        let value = Value::Int(i16::try_from(code).unwrap_or(0));
        let name = heap.made(Name::CHARACTER, &[value])?;
        names.push(name)?;
        table.push(Value::Ref(name))?;
    }
    heap.put_fields(Name::CHARACTER_TABLE, Name::ARRAY, table.as_slice())?;
    Ok(names)
}

/// The symbols. They are Strings where the program has no class Symbol.
pub(crate) fn add_symbols(heap: &mut Heap, plan: &Plan, program: &Program) -> Result<(), Stop> {
    let class = match program.class_of(b"Symbol") {
        Some(number) => plan.class_at(number),
        None => Name::STRING,
    };
    for symbol in &plan.symbols {
        heap.put_bytes(symbol.name, class, symbol.spelled.as_slice())?;
    }
    Ok(())
}

/// The special selectors, each with how many arguments it has.
pub(crate) fn add_special(heap: &mut Heap, plan: &mut Plan, trees: &Trees) -> Result<(), Stop> {
    let mut fields = Vec::new(heap.alloc);
    for number in 0..32u32 {
        match trees.pool.entries.get(number as usize) {
            Some(Entry::Symbol(spelled)) => {
                let name = plan.symbol(heap, spelled.as_slice())?;
                fields.push(Value::Ref(name))?;
            }
            _ => fields.push(NIL)?,
        }
        fields.push(Value::Int(i16::from(arguments_of(number))))?;
    }
    heap.put_fields(Name::SPECIAL_SELECTORS, Name::ARRAY, fields.as_slice())
}

/// Whether the program has the class of this name.
fn has_class(plan: &Plan, name: Name) -> bool {
    for pair in &plan.classes {
        if pair.class == name {
            return true;
        }
    }
    false
}

fn add_constants(heap: &mut Heap, plan: &Plan, program: &Program) -> Result<(), Stop> {
    let nil = plan.class(program, b"UndefinedObject");
    heap.put_fields(Name::NIL, nil, &[])?;
    let yes = plan.class(program, b"True");
    heap.put_fields(Name::TRUE, yes, &[])?;
    let no = plan.class(program, b"False");
    heap.put_fields(Name::FALSE, no, &[])
}

/// Known objects, but for classes of the program: they have no fields, unless others take their places.
pub(crate) fn add_known(heap: &mut Heap, plan: &Plan, program: &Program) -> Result<(), Stop> {
    for known in Name::known() {
        if !has_class(plan, known) {
            heap.put_fields(known, Name::ARRAY, &[])?;
        }
    }
    add_constants(heap, plan, program)
}
