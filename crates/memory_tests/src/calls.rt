// Calls that ask first what a register names. Where it names something else, they are stuck with Shape.
ghost use Rattle.std.specs.Prelude.{◌≤◌, ◌<◌};
ghost use Rattle.object_memory.specs.Calls.{IsFit};
ghost use Rattle.long_names.specs.declared.limits.TheConstants.{MACHINE_REGISTERS};
ghost use Rattle.contexts.specs.Calls.{StaysFit};

use crate::steps::{Seen, Size};
use contexts::parts::{field, make_bytes, make_method, make_pointers, make_words};
use contexts::{Cause, Stop};
use long_names::{Name, REGISTERS};
use object_memory::{ObjectMemory, Reg, shape};

/// The header of a method of two literals.
const HEADER: i16 = 2;

const LAST_REGISTER: u8 = REGISTERS as u8 - 1;

/// The register into which `fill` puts the scheduler's association, the fourth of the known objects.
const ASSOCIATION: Reg = Reg::RECEIVER;

/// Into what a row of the cache is found.
pub(crate) const FOUND: Reg = Reg::R13;

/// Makes an object of a class.
pub(crate) fn make<M: ObjectMemory>(m: &mut M, to: Reg, class: Reg, size: Size) -> Result<(), Stop>
    requires fit { IsFit M.ObjectMemory m.old }
    requires scratch { MACHINE_REGISTERS ≤ to }
    ensures fit { StaysFit M.ObjectMemory m.old m.new result }
{
    if !shape::is_name(m, class) {
        return Err(Stop::Stuck(Cause::Shape));
    }
    match size {
        Size::Fields(n) => make_pointers(m, to, class, u32::from(n)),
        Size::Words(n) => make_words(m, to, class, u32::from(n)),
        Size::Bytes(n) => make_bytes(m, to, class, u32::from(n)),
        Size::Code(n) => make_method(m, to, class, HEADER, u32::from(n)),
    }
}

/// Words 1 to 3 of an object, as one run.
pub(crate) fn read_words<M: ObjectMemory>(m: &mut M, of: Reg) -> Result<Seen, Stop>
    requires fit { IsFit M.ObjectMemory m.old }
    ensures fit { StaysFit M.ObjectMemory m.old m.new result }
{
    if !shape::has_words(m, of, 1, 3)? {
        return Err(Stop::Stuck(Cause::Shape));
    }
    let mut words = [0; 3];
    m.read_words(of, 1, &mut words)?;
    Ok(Seen::Three(words[0], words[1], words[2]))
}

/// Bytes 1 to 3 of an object, as one run.
pub(crate) fn read_bytes<M: ObjectMemory>(m: &mut M, of: Reg) -> Result<Seen, Stop>
    requires fit { IsFit M.ObjectMemory m.old }
    ensures fit { StaysFit M.ObjectMemory m.old m.new result }
{
    if !shape::has_bytes(m, of, 1, 3)? {
        return Err(Stop::Stuck(Cause::Shape));
    }
    let mut bytes = [0; 3];
    m.read_bytes(of, 1, &mut bytes)?;
    Ok(Seen::Three(
        u16::from(bytes[0]),
        u16::from(bytes[1]),
        u16::from(bytes[2]),
    ))
}

/// Stores words 2 and 3 of an object, as one run.
pub(crate) fn write_words<M: ObjectMemory>(
    m: &mut M,
    of: Reg,
    first: u16,
    second: u16,
) -> Result<(), Stop>
    requires fit { IsFit M.ObjectMemory m.old }
    ensures fit { StaysFit M.ObjectMemory m.old m.new result }
{
    if !shape::has_words(m, of, 2, 2)? {
        return Err(Stop::Stuck(Cause::Shape));
    }
    m.write_words(of, 2, &[first, second])?;
    Ok(())
}

/// Pins an object.
pub(crate) fn pin<M: ObjectMemory>(m: &mut M, slot: u8, of: Reg) -> Result<(), Stop>
    requires fit { IsFit M.ObjectMemory m.old }
    requires slot { slot < 3 }
    ensures fit { StaysFit M.ObjectMemory m.old m.new result }
{
    if !shape::is_name(m, of) {
        return Err(Stop::Stuck(Cause::Shape));
    }
    m.pin(slot, of)?;
    Ok(())
}

/// Marks an object on the path.
pub(crate) fn mark<M: ObjectMemory>(m: &mut M, of: Reg) -> Result<(), Stop>
    requires fit { IsFit M.ObjectMemory m.old }
    ensures fit { StaysFit M.ObjectMemory m.old m.new result }
{
    if !shape::is_name(m, of) {
        return Err(Stop::Stuck(Cause::Shape));
    }
    m.mark(of)?;
    Ok(())
}

/// Marks an object on a new path, and caches it as the method of itself.
pub(crate) fn remember<M: ObjectMemory>(m: &mut M, of: Reg) -> Result<(), Stop>
    requires fit { IsFit M.ObjectMemory m.old }
    ensures fit { StaysFit M.ObjectMemory m.old m.new result }
{
    m.begin_path();
    if !shape::is_name(m, of) {
        return Err(Stop::Stuck(Cause::Shape));
    }
    m.mark(of)?;
    let _put = m.cache_put(of, of, of);
    Ok(())
}

/// Whether an object is cached as the method of itself.
pub(crate) fn is_cached<M: ObjectMemory>(m: &mut M, of: Reg) -> bool
    requires fit { IsFit M.ObjectMemory m.old }
    ensures fit { IsFit M.ObjectMemory m.new }
{
    m.cache_find(FOUND, of, of) && m.same(FOUND, of)
}

/// A known object's name comes into a register.
fn know<M: ObjectMemory>(m: &mut M, to: Reg, name: Name) -> Result<(), Stop>
    requires fit { IsFit M.ObjectMemory m.old }
    ensures fit { StaysFit M.ObjectMemory m.old m.new result }
{
    if !name.is_known() {
        return Err(Stop::Stuck(Cause::Shape));
    }
    m.known(to, name)?;
    Ok(())
}

/// The names of the known objects come into the registers from the first on.
fn fill_known<M: ObjectMemory>(m: &mut M) -> Result<(), Stop>
    requires fit { IsFit M.ObjectMemory m.old }
    ensures fit { StaysFit M.ObjectMemory m.old m.new result }
{
    let mut to = 0;
    for name in Name::known() {
        know(m, Reg::new(to), name)?;
        if to < LAST_REGISTER {
            to += 1;
        }
    }
    Ok(())
}

/// All registers get names, no two of them the same.
pub(crate) fn fill<M: ObjectMemory>(m: &mut M) -> Result<(), Stop>
    requires fit { IsFit M.ObjectMemory m.old }
    ensures fit { StaysFit M.ObjectMemory m.old m.new result }
{
    fill_known(m)?;
    field(m, Reg::R22, ASSOCIATION, 0, 1)?;
    field(m, Reg::R23, Reg::R22, 0, 1)
}
