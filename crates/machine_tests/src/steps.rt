// Calls of a memory as data.
ghost use Rattle.std.specs.Prelude.{◌≡◌, true};
ghost use Rattle.long_names.specs.Names.{is_known};
ghost use Rattle.object_memory.specs.Calls.{IsFit};
ghost use Rattle.contexts.specs.Calls.{StaysFit};

use contexts::parts::{known, make_words, size};
use contexts::{Cause, Stop};
use long_names::Name;
use object_memory::{ObjectMemory, Reg, shape};

/// Two objects of the base image.
#[derive(Clone, Copy)]
pub(crate) enum Object {
    /// The scheduler's association, of two fields. The word of its name is 8.
    Association,
    /// The class SmallInteger, of no field. The word of its name is 12.
    Empty,
}

impl Object {
    fn name(self) -> Name
        ensures { is_known result ≡ true }
    {
        match self {
            Object::Association => Name::SCHEDULER_ASSOCIATION,
            Object::Empty => Name::SMALL_INTEGER,
        }
    }
}

/// A call, or a few that belong together.
#[derive(Clone, Copy)]
pub(crate) enum Step {
    /// Asks how many fields an object has.
    Read(Object),
    Pin(Object),
    Unpin,
    /// Makes an object of 3 words, in place of the one that was made before.
    Make,
    Settle,
    Swap(Object, Object),
}

/// Asks how many fields an object has.
fn read<M: ObjectMemory>(m: &mut M, object: Object) -> Result<(), Stop>
    requires fit { IsFit M.ObjectMemory m.old }
    ensures fit { StaysFit M.ObjectMemory m.old m.new result }
{
    known(m, Reg::R10, object.name())?;
    size(m, Reg::R10, 0)?;
    Ok(())
}

/// Pins an object.
fn pin<M: ObjectMemory>(m: &mut M, object: Object) -> Result<(), Stop>
    requires fit { IsFit M.ObjectMemory m.old }
    ensures fit { StaysFit M.ObjectMemory m.old m.new result }
{
    known(m, Reg::R10, object.name())?;
    m.pin(1, Reg::R10)?;
    Ok(())
}

/// Makes an object of 3 words.
fn make<M: ObjectMemory>(m: &mut M) -> Result<(), Stop>
    requires fit { IsFit M.ObjectMemory m.old }
    ensures fit { StaysFit M.ObjectMemory m.old m.new result }
{
    known(m, Reg::R10, Name::DISPLAY_BITMAP)?;
    make_words(m, Reg::R11, Reg::R10, 3)
}

/// Lets the objects that two registers name change places, once nothing is pinned. A number is Shape.
pub(crate) fn swap<M: ObjectMemory>(m: &mut M, a: Reg, b: Reg) -> Result<(), Stop>
    requires fit { IsFit M.ObjectMemory m.old }
    ensures fit { StaysFit M.ObjectMemory m.old m.new result }
{
    m.unpin(0);
    m.unpin(1);
    m.unpin(2);
    if !shape::is_name(m, a) {
        return Err(Stop::Stuck(Cause::Shape));
    }
    if !shape::is_name(m, b) {
        return Err(Stop::Stuck(Cause::Shape));
    }
    m.swap(a, b)?;
    Ok(())
}

/// Lets two objects change places.
fn swap_objects<M: ObjectMemory>(m: &mut M, a: Object, b: Object) -> Result<(), Stop>
    requires fit { IsFit M.ObjectMemory m.old }
    ensures fit { StaysFit M.ObjectMemory m.old m.new result }
{
    known(m, Reg::R10, a.name())?;
    known(m, Reg::R11, b.name())?;
    swap(m, Reg::R10, Reg::R11)
}

/// Takes a step.
fn take<M: ObjectMemory>(m: &mut M, step: Step) -> Result<(), Stop>
    requires fit { IsFit M.ObjectMemory m.old }
    ensures fit { StaysFit M.ObjectMemory m.old m.new result }
{
    match step {
        Step::Read(object) => read(m, object),
        Step::Pin(object) => pin(m, object),
        Step::Unpin => {
            m.unpin(1);
            Ok(())
        }
        Step::Make => make(m),
        Step::Settle => {
            m.settle()?;
            Ok(())
        }
        Step::Swap(a, b) => swap_objects(m, a, b),
    }
}

/// Takes steps in turn, up to the first that stops.
pub(crate) fn take_all<M: ObjectMemory>(m: &mut M, steps: &[Step]) -> Result<(), Stop>
    requires fit { IsFit M.ObjectMemory m.old }
{
    for step in steps {
        take(m, *step)?;
    }
    Ok(())
}
