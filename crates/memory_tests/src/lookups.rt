// Lookups along a chain of classes: what was found is cached, until an object that the lookup looked at is stored into or leaves the core.
ghost use Rattle.loom_memory.specs.Memory.{loom_told, IsSound};
ghost use Rattle.object_memory.specs.Calls.{IsFit};
ghost use Rattle.object_memory.specs.Told.{IsReady};
ghost use Rattle.contexts.specs.Calls.{StaysFit};

use crate::calls::make;
use crate::runs::host_with;
use crate::steps::Size;
use blue_model::indexes::{
    METHOD_ARRAY_INDEX, METHOD_DICTIONARY_INDEX, SELECTOR_START, SUPERCLASS_INDEX,
};
use contexts::Stop;
use contexts::parts::{known, store_field, swap};
use disk_objects::DiskObjects;
use image_reader::load;
use long_names::Name;
use loom_memory::LoomMemory;
use loom_outside::Host;
use object_memory::{ObjectMemory, Reg};
use sample_images::NEXT;
use send_lookup::find;
use std::alloc::Global;
use std::test::Fail;

/// The class of all that is made.
const KIND: Reg = Reg::R10;

/// The method, in an array of one, in a dictionary of one selector.
const METHOD: Reg = Reg::R11;

const METHODS: Reg = Reg::R12;

const DICTIONARY: Reg = Reg::R13;

/// The class, from which the lookup begins.
const CLASS: Reg = Reg::R14;

/// An array like that of the method, at which no lookup looks.
const APART: Reg = Reg::R15;

/// A dictionary of no selector.
const EMPTY: Reg = Reg::R16;

/// What is made last.
const NEW: Reg = Reg::R17;

/// What is read.
const VALUE: Reg = Reg::R18;

/// A class has three fields, and so has a dictionary of one slot.
const FIELDS: Size = Size::Fields(3);

/// What is done between two lookups.
#[derive(Clone, Copy)]
enum Step {
    Nothing,
    /// Store(of, index, from)
    Store(Reg, u32, Reg),
    Swap(Reg, Reg),
    Purge,
    Pack,
}

/// What is done between two lookups in a large core, and whether the row is cached after it.
struct Row {
    then: Step,
    stays: bool,
}

const ROWS: [Row; 12] = [
    Row {
        then: Step::Nothing,
        stays: true,
    },
    Row {
        then: Step::Store(CLASS, SUPERCLASS_INDEX, EMPTY),
        stays: false,
    },
    Row {
        then: Step::Store(CLASS, METHOD_DICTIONARY_INDEX, DICTIONARY),
        stays: false,
    },
    Row {
        then: Step::Store(DICTIONARY, 0, CLASS),
        stays: false,
    },
    Row {
        then: Step::Store(DICTIONARY, METHOD_ARRAY_INDEX, METHODS),
        stays: false,
    },
    Row {
        then: Step::Store(DICTIONARY, SELECTOR_START, Reg::SELECTOR),
        stays: false,
    },
    Row {
        then: Step::Store(METHODS, 0, METHOD),
        stays: false,
    },
    Row {
        then: Step::Store(APART, 0, METHOD),
        stays: true,
    },
    Row {
        then: Step::Swap(METHODS, APART),
        stays: false,
    },
    Row {
        then: Step::Swap(EMPTY, APART),
        stays: true,
    },
    Row {
        then: Step::Purge,
        stays: false,
    },
    Row {
        then: Step::Pack,
        stays: true,
    },
];

/// Classes below the one that has the method, whether the core has 65,536 words or 4,096, and whether a lookup is cached: where the core has
/// no room for all that the lookup looks at, a mark of its path is lost on the way.
struct Chain {
    classes: u32,
    is_large: bool,
    cached: bool,
}

const CHAINS: &[Chain] = &[
    Chain {
        classes: 600,
        is_large: true,
        cached: true,
    },
    Chain {
        classes: 600,
        is_large: false,
        cached: false,
    },
    Chain {
        classes: 100,
        is_large: false,
        cached: true,
    },
];

/// A method in an array, and another array like it.
fn make_methods<M: ObjectMemory>(m: &mut M) -> Result<(), Stop>
    requires fit { IsFit M.ObjectMemory m.old }
    ensures fit { StaysFit M.ObjectMemory m.old m.new result }
{
    make(m, METHOD, KIND, Size::Code(1))?;
    make(m, METHODS, KIND, Size::Fields(1))?;
    store_field(m, METHODS, 0, METHOD)?;
    make(m, APART, KIND, Size::Fields(1))?;
    store_field(m, APART, 0, METHOD)
}

/// A dictionary of the selector, and one of none.
fn make_dictionaries<M: ObjectMemory>(m: &mut M) -> Result<(), Stop>
    requires fit { IsFit M.ObjectMemory m.old }
    ensures fit { StaysFit M.ObjectMemory m.old m.new result }
{
    known(m, VALUE, Name::DOES_NOT_UNDERSTAND)?;
    m.copy(Reg::SELECTOR, VALUE);
    make(m, DICTIONARY, KIND, FIELDS)?;
    store_field(m, DICTIONARY, METHOD_ARRAY_INDEX, METHODS)?;
    store_field(m, DICTIONARY, SELECTOR_START, Reg::SELECTOR)?;
    make(m, EMPTY, KIND, FIELDS)
}

/// A class of a dictionary, below the last one.
fn make_class<M: ObjectMemory>(m: &mut M, dictionary: Reg) -> Result<(), Stop>
    requires fit { IsFit M.ObjectMemory m.old }
    ensures fit { StaysFit M.ObjectMemory m.old m.new result }
{
    make(m, NEW, KIND, FIELDS)?;
    store_field(m, NEW, SUPERCLASS_INDEX, CLASS)?;
    store_field(m, NEW, METHOD_DICTIONARY_INDEX, dictionary)?;
    m.copy(CLASS, NEW);
    Ok(())
}

/// A chain of classes, the highest of which has the method.
fn make_classes<M: ObjectMemory>(m: &mut M, classes: u32) -> Result<(), Stop>
    requires fit { IsFit M.ObjectMemory m.old }
    ensures fit { StaysFit M.ObjectMemory m.old m.new result }
{
    known(m, KIND, Name::ARRAY)?;
    make_methods(m)?;
    make_dictionaries(m)?;
    known(m, CLASS, Name::NIL)?;
    make_class(m, DICTIONARY)?;
    for _ in 0..classes {
        make_class(m, EMPTY)?;
        m.settle()?;
    }
    Ok(())
}

/// Takes a step between two lookups.
fn take<M: ObjectMemory>(m: &mut M, step: Step) -> Result<(), Stop>
    requires fit { IsFit M.ObjectMemory m.old }
    ensures fit { StaysFit M.ObjectMemory m.old m.new result }
{
    match step {
        Step::Nothing => {}
        Step::Store(of, index, from) => store_field(m, of, index, from)?,
        Step::Swap(a, b) => swap(m, a, b)?,
        Step::Purge => m.purge_all()?,
        Step::Pack => m.compact(),
    }
    Ok(())
}

/// Whether the cache has the method. What it has goes into a register of its own.
fn is_cached<M: ObjectMemory>(m: &mut M) -> bool
    requires fit { IsFit M.ObjectMemory m.old }
    ensures fit { StaysFit M.ObjectMemory m.old m.new (Ok result) }
{
    m.cache_find(VALUE, CLASS, Reg::SELECTOR) && m.same(VALUE, METHOD)
}

/// Whether the method is found.
fn is_found<M: ObjectMemory>(m: &mut M) -> Result<bool, Stop>
    requires fit { IsFit M.ObjectMemory m.old }
    ensures fit { StaysFit M.ObjectMemory m.old m.new result }
{
    m.int(Reg::NEW_METHOD, 0);
    Ok(find(m, CLASS)? && m.same(Reg::NEW_METHOD, METHOD))
}

/// Whether the method is found and cached, then cached as a row says, and found again.
fn goes<M: ObjectMemory>(m: &mut M, row: &Row) -> Result<bool, Stop>
    requires fit { IsFit M.ObjectMemory m.old }
{
    make_classes(m, 0)?;
    if !is_found(m)? || !is_cached(m) {
        return Ok(false);
    }
    take(m, row.then)?;
    if is_cached(m) != row.stays {
        return Ok(false);
    }
    is_found(m)
}

/// Whether the method is found along a chain, and cached as its line says.
fn is_along<M: ObjectMemory>(m: &mut M, chain: &Chain) -> Result<bool, Stop>
    requires fit { IsFit M.ObjectMemory m.old }
{
    make_classes(m, chain.classes)?;
    Ok(is_found(m)? && is_cached(m) == chain.cached)
}

/// A row over a memory of two levels.
fn goes_in<H: Host>(m: &mut LoomMemory<'_, H>, row: &Row) -> Result<bool, Stop>
    requires sound { IsSound H.Host m.old }
    requires ready { IsReady (loom_told H.Host m.old) }
{
    goes(m, row)
}

/// A chain over a memory of two levels.
fn is_along_in<H: Host>(m: &mut LoomMemory<'_, H>, chain: &Chain) -> Result<bool, Stop>
    requires sound { IsSound H.Host m.old }
    requires ready { IsReady (loom_told H.Host m.old) }
{
    is_along(m, chain)
}

/// A row over a memory of its own.
fn is_right(alloc: Global, row: &Row) -> Result<bool, Fail> {
    let mut host = host_with(alloc, NEXT, 0, 0, 0)?;
    let mut disk = DiskObjects::begin(&mut host, 64);
    let Ok(_image) = load(alloc, &mut disk, 64) else {
        return Err("the image is loaded".into());
    };
    let mut m = LoomMemory::make(alloc, disk, NEXT, 65_536, 512)?;
    Ok(goes_in(&mut m, row)?)
}

/// A chain over a memory of its own.
fn is_right_along(alloc: Global, chain: &Chain) -> Result<bool, Fail> {
    let mut host = host_with(alloc, NEXT, 0, 0, 0)?;
    let mut disk = DiskObjects::begin(&mut host, 1_024);
    let Ok(_image) = load(alloc, &mut disk, 1_024) else {
        return Err("the image is loaded".into());
    };
    let core = if chain.is_large { 65_536 } else { 4_096 };
    let mut m = LoomMemory::make(alloc, disk, NEXT, core, 2_048)?;
    Ok(is_along_in(&mut m, chain)?)
}

/// The first row that comes out otherwise.
fn first_wrong(alloc: Global) -> Result<Option<usize>, Fail> {
    for (i, row) in ROWS.iter().enumerate() {
        if !is_right(alloc, row)? {
            return Ok(Some(i));
        }
    }
    Ok(None)
}

/// The first chain that comes out otherwise.
fn first_wrong_chain(alloc: Global) -> Result<Option<usize>, Fail> {
    for (i, chain) in CHAINS.iter().enumerate() {
        if !is_right_along(alloc, chain)? {
            return Ok(Some(i));
        }
    }
    Ok(None)
}

#[test]
fn a_lookup_is_cached_while_its_objects_stay(rt: HostRuntime) -> Result<(), Fail> {
    assert_eq!(rt; first_wrong(rt.alloc())?, None);
    assert_eq!(rt; first_wrong_chain(rt.alloc())?, None);
    Ok(())
}
