// A lookup through the method cache of one row. The image is that of the drawing: an array understands copyBits.
ghost use Rattle.object_memory.specs.Calls.{IsFit};
ghost use Rattle.contexts.specs.Calls.{StaysFit};

use blue_model::indexes::{
    CLASS_SIZE, DICTIONARY_SIZE, METHOD_ARRAY_INDEX, METHOD_DICTIONARY_INDEX,
};
use bounded_memory::BoundedMemory;
use contexts::Stop;
use contexts::parts::{field, known, store_field};
use long_names::Name;
use object_memory::{ObjectMemory, Reg};
use sample_images::{BLIT_NEXT, blit, memory};
use send_lookup::find;
use std::alloc::Global;
use std::test::Fail;

/// How many objects the image has.
const OBJECTS: u32 = 38;

/// Where copyBits stands in the dictionary.
const COPY_BITS_INDEX: u32 = 6;

/// The class, from which the lookup begins.
const CLASS: Reg = Reg::R10;

/// Its dictionary.
const DICTIONARY: Reg = Reg::R11;

/// Its method array.
const METHODS: Reg = Reg::R12;

/// What no lookup looks at.
const APART: Reg = Reg::R13;

/// What is read.
const VALUE: Reg = Reg::R14;

/// Loads all these, and the selector.
fn load<M: ObjectMemory>(m: &mut M) -> Result<(), Stop>
    requires fit { IsFit M.ObjectMemory m.old }
    ensures fit { StaysFit M.ObjectMemory m.old m.new result }
{
    known(m, CLASS, Name::ARRAY)?;
    known(m, APART, Name::SCHEDULER_ASSOCIATION)?;
    field(m, DICTIONARY, CLASS, CLASS_SIZE, METHOD_DICTIONARY_INDEX)?;
    field(m, METHODS, DICTIONARY, DICTIONARY_SIZE, METHOD_ARRAY_INDEX)?;
    field(m, VALUE, DICTIONARY, 0, COPY_BITS_INDEX)?;
    m.copy(Reg::SELECTOR, VALUE);
    Ok(())
}

/// An object, into whose field its own value is stored, and whether the row goes by that.
struct Row {
    of: Reg,
    index: u32,
    goes: bool,
}

const ROWS: [Row; 4] = [
    Row {
        of: CLASS,
        index: 0,
        goes: true,
    },
    Row {
        of: DICTIONARY,
        index: 0,
        goes: true,
    },
    Row {
        of: METHODS,
        index: 0,
        goes: true,
    },
    Row {
        of: APART,
        index: 0,
        goes: false,
    },
];

/// Whether the cache has the method that was found last. What it has goes into a register of its own.
fn is_cached<M: ObjectMemory>(m: &mut M) -> bool
    requires fit { IsFit M.ObjectMemory m.old }
    ensures fit { StaysFit M.ObjectMemory m.old m.new (Ok result) }
{
    m.cache_find(VALUE, CLASS, Reg::SELECTOR) && m.same(VALUE, Reg::NEW_METHOD)
}

/// Whether the selector is found, and the cache has the method then.
fn is_found<M: ObjectMemory>(m: &mut M) -> Result<bool, Stop>
    requires fit { IsFit M.ObjectMemory m.old }
    ensures fit { StaysFit M.ObjectMemory m.old m.new result }
{
    Ok(find(m, CLASS)? && is_cached(m))
}

/// Stores a field's value into it.
fn store<M: ObjectMemory>(m: &mut M, row: &Row) -> Result<(), Stop>
    requires fit { IsFit M.ObjectMemory m.old }
    ensures fit { StaysFit M.ObjectMemory m.old m.new result }
{
    field(m, VALUE, row.of, 0, row.index)?;
    store_field(m, row.of, row.index, VALUE)
}

/// Whether what is found and cached is what a row says.
fn goes<M: ObjectMemory>(m: &mut M, row: &Row) -> Result<bool, Stop>
    requires fit { IsFit M.ObjectMemory m.old }
{
    load(m)?;
    if !is_found(m)? {
        return Ok(false);
    }
    store(m, row)?;
    if is_cached(m) == row.goes {
        return Ok(false);
    }
    is_found(m)
}

/// The same, over a memory of its own.
fn is_right(alloc: Global, row: &Row) -> Result<bool, Fail> {
    let plain = memory(alloc, &blit(alloc)?, BLIT_NEXT)?;
    let mut m = BoundedMemory::new(plain, 65_536, 65_536, OBJECTS, OBJECTS);
    Ok(goes(&mut m, row)?)
}

/// The first row that comes out otherwise.
fn first_wrong(alloc: Global) -> Result<Option<usize>, Fail> {
    for (i, row) in ROWS.iter().enumerate() {
        if !is_right(alloc, row)? {
            return Ok(Some(i));
        }
    }
    Ok(None)
}

// A row is found until an object that the lookup looked at is stored into. Then it is found in full, and cached anew.
#[test]
fn a_row_goes_with_its_objects(rt: HostRuntime) -> Result<(), Fail> {
    assert_eq!(rt; first_wrong(rt.alloc())?, None);
    Ok(())
}
