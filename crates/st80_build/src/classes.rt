// The objects of classes and metaclasses.
ghost use Rattle.std.specs.Prelude.{◌<◌};

use crate::dictionaries::{Row, dictionary};
use crate::heap::{Heap, NIL, Stop};
use crate::plan::{Pair, Plan};
use long_names::{Name, Value};
use st80_program::{Class, Program, Shape, Trees};

/// So many fields a class has at least: up to its name at 6, and two more.
const LEAST_FIELDS: usize = 9;

/// The value of each number of the pool, and the name of each method.
#[derive(Clone, Copy)]
pub(crate) struct Methods<'m> {
    pub values: &'m [Value],
    pub names: &'m [Name],
}

impl Methods<'_> {
    /// The selector and the object of a method.
    fn row(&self, number: usize, selector: u32) -> Option<Row> {
        match (self.values.get(selector as usize), self.names.get(number)) {
            (Some(Value::Ref(selector)), Some(method)) => Some(Row {
                selector: *selector,
                method: *method,
            }),
            _ => None,
        }
    }
}

/// The methods of a class, or of the class itself.
fn rows_of(
    heap: &Heap,
    trees: &Trees,
    methods: Methods<'_>,
    class: usize,
    is_meta: bool,
) -> Result<Vec<Row>, Stop> {
    let mut rows = Vec::new(heap.alloc);
    for (i, tree) in trees.methods.iter().enumerate() {
        if tree.class == class && tree.is_meta == is_meta {
            if let Some(row) = methods.row(i, tree.selector) {
                rows.push(row)?;
            }
        }
    }
    Ok(rows)
}

/// How many fields the instances of a class have.
pub(crate) fn field_count(program: &Program, class: usize) -> usize {
    let mut count: usize = 0;
    let mut at = Some(class);
    for _ in 0..program.classes.len() {
        if let Some(one) = at.and_then(|number| program.classes.get(number)) {
            count = count.saturating_add(one.fields.len());
            at = one.superclass;
        }
    }
    count
}

/// What an instance specification says in its sixteen bits: pointers, words, indexable, and fields.
fn bits_of(shape: Shape, fields: u16) -> u16
    requires { fields < 2048 }
    ensures { result < 32768 }
{
    match shape {
        Shape::Fields => 16384 + fields,
        Shape::Pointers => 16384 + 4096 + fields,
        Shape::Words => 8192 + 4096 + fields,
        Shape::Bytes => 4096 + fields,
    }
}

/// Fifteen bits in two's complement.
fn signed(bits: u16) -> i16
    requires { bits < 32768 }
{
    if bits < 16384 {
        return bits as i16;
    }
    (i32::from(bits) - 32768) as i16
}

/// An instance specification, as a SmallInteger.
fn specification(shape: Shape, fields: usize) -> Value {
    let count = fields.min(2047) as u16;
    Value::Int(signed(bits_of(shape, count)))
}

/// How many fields a class itself has by its definition and those of its superclasses.
fn class_field_count(program: &Program, class: usize) -> usize {
    let mut count: usize = 0;
    let mut at = Some(class);
    for _ in 0..program.classes.len() {
        if let Some(one) = at.and_then(|number| program.classes.get(number)) {
            count = count.saturating_add(one.class_fields.len());
            at = one.superclass;
        }
    }
    count
}

/// The class and the metaclass above those of a class.
fn above(plan: &Plan, program: &Program, class: &Class) -> Pair {
    match class.superclass {
        Some(number) => Pair {
            class: plan.class_at(number),
            meta: plan.meta_at(number),
        },
        None => Pair {
            class: Name::NIL,
            meta: plan.class(program, b"Class"),
        },
    }
}

/// So many fields a class has by its place among classes: those that the lookup and printing need, and those of Class.
fn least_fields(program: &Program) -> usize {
    match program.class_of(b"Class") {
        Some(class) => field_count(program, class).max(LEAST_FIELDS),
        None => LEAST_FIELDS,
    }
}

/// The fields of a class: what is above it, its methods, its specification, and at 6 its name.
fn class_fields(
    heap: &Heap,
    first: &[Value; 3],
    spelled: Name,
    count: usize,
) -> Result<Vec<Value>, Stop> {
    let mut fields = Vec::from_slice(heap.alloc, first)?;
    for _ in 3..6 {
        fields.push(NIL)?;
    }
    fields.push(Value::Ref(spelled))?;
    for _ in 7..count {
        fields.push(NIL)?;
    }
    Ok(fields)
}

/// A class: its superclass, methods, specification and name, and its fields of its own.
fn add_class(
    heap: &mut Heap,
    plan: &Plan,
    program: &Program,
    number: usize,
    class: &Class,
    methods: Name,
) -> Result<(), Stop> {
    let spelled = heap.name()?;
    heap.put_bytes(spelled, Name::STRING, class.name.as_slice())?;
    let first = [
        Value::Ref(above(plan, program, class).class),
        Value::Ref(methods),
        specification(class.shape, field_count(program, number)),
    ];
    let count = least_fields(program).saturating_add(class_field_count(program, number));
    let fields = class_fields(heap, &first, spelled, count)?;
    heap.put_fields(
        plan.class_at(number),
        plan.meta_at(number),
        fields.as_slice(),
    )
}

/// A metaclass: at 6 it has its class.
fn add_metaclass(
    heap: &mut Heap,
    plan: &Plan,
    program: &Program,
    number: usize,
    class: &Class,
    methods: Name,
) -> Result<(), Stop> {
    let count = least_fields(program).saturating_add(class_field_count(program, number));
    let fields = [
        Value::Ref(above(plan, program, class).meta),
        Value::Ref(methods),
        specification(Shape::Fields, count),
        NIL,
        NIL,
        NIL,
        Value::Ref(plan.class_at(number)),
    ];
    let kind = plan.class(program, b"Metaclass");
    heap.put_fields(plan.meta_at(number), kind, &fields)
}

/// The methods of a class, or of the class itself, as a dictionary.
fn add_dictionary(
    heap: &mut Heap,
    kind: Name,
    trees: &Trees,
    methods: Methods<'_>,
    class: usize,
    is_meta: bool,
) -> Result<Name, Stop> {
    let rows = rows_of(heap, trees, methods, class, is_meta)?;
    dictionary(heap, kind, rows.as_slice())
}

/// All classes and metaclasses, with their methods.
pub(crate) fn add_classes(
    heap: &mut Heap,
    plan: &Plan,
    program: &Program,
    trees: &Trees,
    methods: Methods<'_>,
) -> Result<(), Stop> {
    let kind = plan.class(program, b"MethodDictionary");
    for (number, class) in program.classes.iter().enumerate() {
        let own = add_dictionary(heap, kind, trees, methods, number, false)?;
        let meta = add_dictionary(heap, kind, trees, methods, number, true)?;
        add_class(heap, plan, program, number, class, own)?;
        add_metaclass(heap, plan, program, number, class, meta)?;
    }
    Ok(())
}
