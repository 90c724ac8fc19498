// The image of a program.
ghost use Rattle.std.specs.Prelude.{IfOk};
ghost use Rattle.st80_build.specs.Built.{IsBuiltOf};
ghost use Rattle.st80_program.specs.declared.trees.Trees.{Trees};

use crate::classes::{Methods, add_classes};
use crate::codes::{Codes, NoCode, codes_of};
use crate::heap::{Heap, Stop};
use crate::known::{add_characters, add_known, add_special, add_symbols};
use crate::literals::values_of;
use crate::methods::add_methods;
use crate::names::names_file;
use crate::plan::{Plan, plan_of};
use crate::shared::add_shared;
use crate::starting::{Beginning, add_beginning, add_scheduler};
use image_builder::BuildFault;
use long_names::{Name, Octets, Value};
use st80_compile::Refusal;
use st80_program::{Program, Trees};
use std::alloc::{AllocError, Global};

/// An image, and a file of names for it.
#[derive(Debug, Drop)]
pub struct Made {
    pub image: Octets,
    pub names: Vec<u8>,
}

/// What a program is built as.
#[derive(Debug, Drop)]
pub enum Built {
    Image(Made),
    /// A method has no code: its number in the program, or their number for what it begins with, and why.
    Refused(usize, Refusal),
    /// A method names a literal that isn't there.
    Literal(usize),
    /// More objects, or larger ones, than an image has.
    Full,
    /// What the program has is no image: the rule of images that it breaks, and the object.
    NoImage(u8, u32),
    /// There is nothing to begin with.
    NoStart,
}

/// The objects of a program: those of its methods, and what it begins with.
#[derive(Drop)]
struct Objects {
    values: Vec<Value>,
    methods: Vec<Name>,
    beginning: Beginning,
}

/// The methods and what the program begins with.
fn add_code(
    heap: &mut Heap,
    plan: &mut Plan,
    trees: &Trees,
    codes: &Codes,
) -> Result<Objects, Stop> {
    let characters = add_characters(heap)?;
    let values = values_of(heap, plan, trees, characters.as_slice())?;
    let methods = add_methods(
        heap,
        plan,
        trees,
        values.as_slice(),
        codes.methods.as_slice(),
    )?;
    let beginning = add_beginning(heap, plan, trees, values.as_slice(), &codes.start)?;
    Ok(Objects {
        values,
        methods,
        beginning,
    })
}

/// All objects, and the names of those that the image itself has no names for.
fn whole(
    alloc: Global,
    program: &Program,
    trees: &Trees,
    codes: &Codes,
) -> Result<(Heap, Vec<u8>), Stop> {
    let mut heap = Heap::new(alloc)?;
    let mut plan = plan_of(&mut heap, program, trees)?;
    add_known(&mut heap, &plan, program)?;
    let made = add_code(&mut heap, &mut plan, trees, codes)?;
    add_rest(&mut heap, &mut plan, program, trees, &made)?;
    let methods = made.methods.as_slice();
    let names = names_file(alloc, program, trees, methods, made.beginning.method)?;
    Ok((heap, names))
}

/// All other objects.
fn add_rest(
    heap: &mut Heap,
    plan: &mut Plan,
    program: &Program,
    trees: &Trees,
    made: &Objects,
) -> Result<(), Stop> {
    let methods = Methods {
        values: made.values.as_slice(),
        names: made.methods.as_slice(),
    };
    add_classes(heap, plan, program, trees, methods)?;
    add_special(heap, plan, trees)?;
    let scheduler = add_scheduler(heap, plan, program, made.beginning.context)?;
    add_shared(heap, plan, program, trees, scheduler)?;
    add_symbols(heap, plan, program)
}

/// The image of a heap, or the rule that it would break.
fn finished(alloc: Global, heap: &Heap, names: Vec<u8>) -> Result<Built, AllocError>
    ensures { IfOk result (λ built. (trees : Trees) → IsBuiltOf trees built) }
{
    match heap.builder.finish(alloc, heap.next) {
        Ok(image) => Ok(Built::Image(Made { image, names })),
        Err(BuildFault::Rule { rule, name }) => Ok(Built::NoImage(rule, name)),
        Err(BuildFault::Memory) => Err(AllocError),
    }
}

/// The image of a program by the code of its methods.
fn image_by(
    alloc: Global,
    program: &Program,
    trees: &Trees,
    codes: &Codes,
) -> Result<Built, AllocError>
    ensures { IfOk result (IsBuiltOf trees.now) }
{
    match whole(alloc, program, trees, codes) {
        Ok((heap, names)) => finished(alloc, &heap, names),
        Err(Stop::Memory(error)) => Err(error),
        Err(Stop::Full) => Ok(Built::Full),
        Err(Stop::Literal(number)) => Ok(Built::Literal(number)),
    }
}

/// The image of a program, or why there is none.
pub fn image_of(alloc: Global, program: &Program, trees: &Trees) -> Result<Built, AllocError>
    ensures { IfOk result (IsBuiltOf trees.now) }
{
    let Some(start) = &trees.start else {
        return Ok(Built::NoStart);
    };
    match codes_of(alloc, trees, start) {
        Ok(codes) => image_by(alloc, program, trees, &codes),
        Err(NoCode::Memory) => Err(AllocError),
        Err(NoCode::Refused(number, refusal)) => Ok(Built::Refused(number, refusal)),
    }
}
