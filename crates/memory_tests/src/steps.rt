// Calls of a memory as data.
ghost use Rattle.std.specs.Prelude.{◌≡◌, ◌≤◌, true};
ghost use Rattle.long_names.specs.Names.{is_known};
ghost use Rattle.object_memory.specs.Calls.{IsFit};
ghost use Rattle.long_names.specs.declared.limits.TheConstants.{MACHINE_REGISTERS};
ghost use Rattle.contexts.specs.Calls.{StaysFit};

use crate::calls::{fill, make, mark, pin, read_bytes, read_words, remember, write_words};
use contexts::Stop;
use contexts::data::{byte, say, store_byte, store_word, word};
use contexts::parts::{class_of, field, header, known, size, store_field, swap};
use long_names::Name;
use object_memory::{ObjectMemory, Reg, shape};

/// Three scratch registers.
#[derive(Clone, Copy)]
pub(crate) enum R {
    A,
    B,
    C,
}

impl R {
    pub(crate) fn reg(self) -> Reg
        ensures { MACHINE_REGISTERS ≤ result }
    {
        match self {
            R::A => Reg::R10,
            R::B => Reg::R11,
            R::C => Reg::R12,
        }
    }
}

/// Two slots.
#[derive(Clone, Copy)]
pub(crate) enum Slot {
    First,
    Second,
}

/// Objects of the base image.
#[derive(Clone, Copy)]
pub(crate) enum Object {
    /// Of two fields, the second of which is the scheduler. All others have none.
    Association,
    SmallInteger,
    String,
    Array,
    Method,
    Bitmap,
}

impl Object {
    fn name(self) -> Name
        ensures { is_known result ≡ true }
    {
        match self {
            Object::Association => Name::SCHEDULER_ASSOCIATION,
            Object::SmallInteger => Name::SMALL_INTEGER,
            Object::String => Name::STRING,
            Object::Array => Name::ARRAY,
            Object::Method => Name::COMPILED_METHOD,
            Object::Bitmap => Name::DISPLAY_BITMAP,
        }
    }
}

/// What a new object is: so many fields, words or bytes, or a method of two literals with so much code.
#[derive(Clone, Copy)]
pub(crate) enum Size {
    Fields(u16),
    Words(u16),
    Bytes(u16),
    Code(u8),
}

/// A call, or a few that belong together.
#[derive(Clone, Copy)]
pub(crate) enum Step {
    /// Known(to, object)
    Known(R, Object),
    Int(R, i8),
    /// Copy(to, from)
    Copy(R, R),
    Value(R),
    Is(R, Object),
    Same(R, R),
    IsPinned(R),
    /// Class(to, of)
    Class(R, R),
    Len(R),
    Header(R),
    /// Field(to, of, i)
    Field(R, R, u8),
    /// Store(of, i, from)
    Store(R, u8, R),
    Word(R, u8),
    SetWord(R, u8, u16),
    Byte(R, u8),
    SetByte(R, u8, u8),
    /// Reads words 1 to 3 as one run.
    ReadWords(R),
    /// Stores words 2 and 3 as one run.
    WriteWords(R, u16, u16),
    /// Reads bytes 1 to 3 as one run.
    ReadBytes(R),
    /// Make(to, class, size)
    Make(R, R, Size),
    Swap(R, R),
    Pin(Slot, R),
    Unpin(Slot),
    /// Marks an object on a new path, and caches it as the method of itself.
    Remember(R),
    /// Marks an object on the path.
    Mark(R),
    Say(R),
    Settle,
    Purge,
    Compact,
    /// All registers get names, no two of them the same: the 22 that are known, the scheduler and the process.
    Fill,
}

/// What a step saw.
#[derive(Clone, Copy, PartialEq, Eq)]
pub(crate) enum Seen {
    Nothing,
    Truth(bool),
    /// A SmallInteger.
    Number(i16),
    /// Half of a name.
    Name(u32),
    /// How many there are, or a word or a byte.
    Count(u32),
    Three(u16, u16, u16),
}

/// The number or the name of a register.
fn value<M: ObjectMemory>(m: &M, r: Reg) -> Seen
    requires { M.sound m.now }
{
    match m.as_int(r) {
        Some(number) => Seen::Number(number),
        None => {
            if shape::is_name(m, r) {
                return Seen::Name(m.hash(r));
            }
            Seen::Nothing
        }
    }
}

/// Whether a register holds the name of a pinned object.
fn is_pinned<M: ObjectMemory>(m: &M, r: Reg) -> bool
    requires { M.sound m.now }
{
    shape::is_name(m, r) && m.is_pinned(r)
}

/// What registers and slots tell. No object is touched.
fn glance<M: ObjectMemory>(m: &M, step: Step) -> Seen
    requires { M.sound m.now }
{
    match step {
        Step::Value(of) => value(m, of.reg()),
        Step::Is(of, object) => Seen::Truth(m.is(of.reg(), object.name())),
        Step::Same(a, b) => Seen::Truth(m.same(a.reg(), b.reg())),
        Step::IsPinned(of) => Seen::Truth(is_pinned(m, of.reg())),
        _ => Seen::Nothing,
    }
}

/// What is read of an object, or of a register.
fn look<M: ObjectMemory>(m: &mut M, step: Step) -> Result<Seen, Stop>
    requires fit { IsFit M.ObjectMemory m.old }
    ensures fit { StaysFit M.ObjectMemory m.old m.new result }
{
    match step {
        Step::Len(of) => Ok(Seen::Count(size(m, of.reg(), 0)?)),
        Step::Header(of) => Ok(Seen::Number(header(m, of.reg())?)),
        Step::Word(of, i) => Ok(Seen::Count(u32::from(word(m, of.reg(), u32::from(i))?))),
        Step::Byte(of, i) => Ok(Seen::Count(u32::from(byte(m, of.reg(), u32::from(i))?))),
        Step::ReadWords(of) => read_words(m, of.reg()),
        Step::ReadBytes(of) => read_bytes(m, of.reg()),
        _ => Ok(glance(m, step)),
    }
}

/// What comes into a register.
fn bring<M: ObjectMemory>(m: &mut M, step: Step) -> Result<(), Stop>
    requires fit { IsFit M.ObjectMemory m.old }
    ensures fit { StaysFit M.ObjectMemory m.old m.new result }
{
    match step {
        Step::Known(to, object) => known(m, to.reg(), object.name()),
        Step::Int(to, number) => {
            m.int(to.reg(), i16::from(number));
            Ok(())
        }
        Step::Copy(to, from) => {
            m.copy(to.reg(), from.reg());
            Ok(())
        }
        Step::Class(to, of) => class_of(m, to.reg(), of.reg()),
        Step::Field(to, of, i) => field(m, to.reg(), of.reg(), 0, u32::from(i)),
        Step::Make(to, class, size) => make(m, to.reg(), class.reg(), size),
        Step::Fill => fill(m),
        _ => Ok(()),
    }
}

/// What is stored.
fn store<M: ObjectMemory>(m: &mut M, step: Step) -> Result<(), Stop>
    requires fit { IsFit M.ObjectMemory m.old }
    ensures fit { StaysFit M.ObjectMemory m.old m.new result }
{
    match step {
        Step::Store(of, i, from) => store_field(m, of.reg(), u32::from(i), from.reg()),
        Step::SetWord(of, i, w) => store_word(m, of.reg(), u32::from(i), w),
        Step::SetByte(of, i, b) => store_byte(m, of.reg(), u32::from(i), b),
        Step::WriteWords(of, first, second) => write_words(m, of.reg(), first, second),
        Step::Swap(a, b) => swap(m, a.reg(), b.reg()),
        Step::Say(of) => say(m, of.reg()),
        _ => Ok(()),
    }
}

/// What pins and marks.
fn keep<M: ObjectMemory>(m: &mut M, step: Step) -> Result<(), Stop>
    requires fit { IsFit M.ObjectMemory m.old }
    ensures fit { StaysFit M.ObjectMemory m.old m.new result }
{
    match step {
        Step::Pin(Slot::First, of) => pin(m, 0, of.reg()),
        Step::Pin(Slot::Second, of) => pin(m, 1, of.reg()),
        Step::Unpin(Slot::First) => {
            m.unpin(0);
            Ok(())
        }
        Step::Unpin(Slot::Second) => {
            m.unpin(1);
            Ok(())
        }
        Step::Remember(of) => remember(m, of.reg()),
        Step::Mark(of) => mark(m, of.reg()),
        _ => Ok(()),
    }
}

/// What goes over the whole memory.
fn tidy<M: ObjectMemory>(m: &mut M, step: Step) -> Result<(), Stop>
    requires fit { IsFit M.ObjectMemory m.old }
    ensures fit { StaysFit M.ObjectMemory m.old m.new result }
{
    match step {
        Step::Settle => {
            m.settle()?;
            Ok(())
        }
        Step::Purge => {
            m.purge_all()?;
            Ok(())
        }
        Step::Compact => {
            m.compact();
            Ok(())
        }
        _ => Ok(()),
    }
}

/// What a step changes.
fn change<M: ObjectMemory>(m: &mut M, step: Step) -> Result<(), Stop>
    requires fit { IsFit M.ObjectMemory m.old }
    ensures fit { StaysFit M.ObjectMemory m.old m.new result }
{
    bring(m, step)?;
    store(m, step)?;
    keep(m, step)
}

/// Takes a step, and tells what it saw.
pub(crate) fn take<M: ObjectMemory>(m: &mut M, step: Step) -> Result<Seen, Stop>
    requires fit { IsFit M.ObjectMemory m.old }
    ensures fit { StaysFit M.ObjectMemory m.old m.new result }
{
    let seen = look(m, step)?;
    change(m, step)?;
    tidy(m, step)?;
    Ok(seen)
}

/// Takes steps.
pub(crate) fn take_all<M: ObjectMemory>(m: &mut M, steps: &[Step]) -> Result<(), Stop>
    requires fit { IsFit M.ObjectMemory m.old }
    ensures fit { StaysFit M.ObjectMemory m.old m.new result }
{
    for step in steps {
        take(m, *step)?;
    }
    Ok(())
}
