// Which name each class, symbol and variable has.
use crate::heap::{Heap, Stop};
use long_names::{Name, Value};
use st80_pool::Entry;
use st80_program::{Program, Trees};
use std::alloc::{AllocError, Global};

/// The names of a class and of its metaclass.
#[derive(Clone, Copy, Debug)]
pub(crate) struct Pair {
    pub class: Name,
    pub meta: Name,
}

/// A symbol and its name.
#[derive(Debug, Drop)]
pub(crate) struct Symbol {
    pub spelled: Vec<u8>,
    pub name: Name,
}

/// Which name each thing has.
#[derive(Drop)]
pub(crate) struct Plan {
    pub classes: Vec<Pair>,
    pub symbols: Vec<Symbol>,
    /// The associations of the shared variables.
    pub shared: Vec<Name>,
}

/// The name that the machine knows a class by, if it knows it.
fn known_class(name: &[u8]) -> Option<Name> {
    let known: [(&[u8], Name); 13] = [
        (b"SmallInteger", Name::SMALL_INTEGER),
        (b"String", Name::STRING),
        (b"Array", Name::ARRAY),
        (b"MethodContext", Name::METHOD_CONTEXT),
        (b"BlockContext", Name::BLOCK_CONTEXT),
        (b"Point", Name::POINT),
        (b"LargePositiveInteger", Name::LARGE_POSITIVE_INTEGER),
        (b"DisplayBitmap", Name::DISPLAY_BITMAP),
        (b"Message", Name::MESSAGE),
        (b"CompiledMethod", Name::COMPILED_METHOD),
        (b"Semaphore", Name::SEMAPHORE),
        (b"Character", Name::CHARACTER),
        (b"LargeNegativeInteger", Name::LARGE_NEGATIVE_INTEGER),
    ];
    for (spelled, class) in &known {
        if *spelled == name {
            return Some(*class);
        }
    }
    None
}

impl Plan {
    /// The symbol of a spelling, which is made if it isn't there.
    pub(crate) fn symbol(&mut self, heap: &mut Heap, spelled: &[u8]) -> Result<Name, Stop> {
        for symbol in &self.symbols {
            if symbol.spelled.as_slice() == spelled {
                return Ok(symbol.name);
            }
        }
        let name = heap.name()?;
        self.add_symbol(heap.alloc, spelled, name)?;
        Ok(name)
    }

    fn add_symbol(&mut self, alloc: Global, spelled: &[u8], name: Name) -> Result<(), AllocError> {
        let spelled = Vec::from_slice(alloc, spelled)?;
        self.symbols.push(Symbol { spelled, name })?;
        Ok(())
    }

    /// The class of a name, or Array where the program has none.
    pub(crate) fn class(&self, program: &Program, name: &[u8]) -> Name {
        match program.class_of(name) {
            Some(number) => self.class_at(number),
            None => Name::ARRAY,
        }
    }

    pub(crate) fn class_at(&self, number: usize) -> Name {
        match self.classes.get(number) {
            Some(pair) => pair.class,
            None => Name::ARRAY,
        }
    }

    pub(crate) fn meta_at(&self, number: usize) -> Name {
        match self.classes.get(number) {
            Some(pair) => pair.meta,
            None => Name::ARRAY,
        }
    }

    /// The association of a shared variable.
    pub(crate) fn shared_at(&self, number: usize) -> Value {
        match self.shared.get(number) {
            Some(name) => Value::Ref(*name),
            None => Value::Ref(Name::NIL),
        }
    }
}

fn names_of_classes(heap: &mut Heap, program: &Program) -> Result<Vec<Pair>, Stop> {
    let mut pairs = Vec::new(heap.alloc);
    for class in &program.classes {
        let name = match known_class(class.name.as_slice()) {
            Some(name) => name,
            None => heap.name()?,
        };
        let meta = heap.name()?;
        pairs.push(Pair { class: name, meta })?;
    }
    Ok(pairs)
}

/// The associations of the shared variables; that of Processor is known.
fn names_of_shared(heap: &mut Heap, trees: &Trees) -> Result<Vec<Name>, Stop> {
    let mut names = Vec::new(heap.alloc);
    for (i, name) in trees.shared.iter().enumerate() {
        let is_processor = trees.of_classes <= i && name.as_slice() == b"Processor".as_slice();
        let name = if is_processor {
            Name::SCHEDULER_ASSOCIATION
        } else {
            heap.name()?
        };
        names.push(name)?;
    }
    Ok(names)
}

/// The names of all that a program has.
pub(crate) fn plan_of(heap: &mut Heap, program: &Program, trees: &Trees) -> Result<Plan, Stop> {
    let classes = names_of_classes(heap, program)?;
    let shared = names_of_shared(heap, trees)?;
    let mut plan = Plan {
        classes,
        symbols: Vec::new(heap.alloc),
        shared,
    };
    plan.add_symbol(heap.alloc, b"doesNotUnderstand:", Name::DOES_NOT_UNDERSTAND)?;
    plan.add_symbol(heap.alloc, b"cannotReturn:", Name::CANNOT_RETURN)?;
    plan.add_symbol(heap.alloc, b"mustBeBoolean", Name::MUST_BE_BOOLEAN)?;
    for entry in &trees.pool.entries {
        if let Entry::Symbol(spelled) = entry {
            plan.symbol(heap, spelled.as_slice())?;
        }
    }
    Ok(plan)
}
