// How many elements an object has, of which kind, and where they stand (chapter 29, lengthOf:).
ghost use Rattle.std.specs.Prelude.{◌≡◌, ◌≤◌, ◌+◌, ◌*◌, [], OnOk, IfOk, IfSome};
ghost use Rattle.std.specs.Option.{option_and_then};
ghost use Rattle.long_names.specs.declared.limits.TheConstants.{MOST_FIELDS, MOST_LITERALS};
ghost use Rattle.object_memory.specs.Told.{IsReady};
ghost use Rattle.object_memory.specs.Shape.{Looks};
ghost use Rattle.blue_model.specs.declared.cpu.Cpu.{Cpu as Numbers};
ghost use Rattle.blue_model.specs.Trials.{peek};
ghost use Rattle.blue_model.specs.Elements as model;
ghost use Rattle.blue_model.specs.Storage as storage;
ghost use Rattle.contexts.specs.Serves.{Serves, StaysSound};
ghost use Rattle.prims_object.specs.Extents as extents;
ghost use Rattle.object_memory.specs.Calls.{IsFit};
ghost use Rattle.contexts.specs.Calls.{StaysFit};

use blue_model::Spot;
use contexts::Stop;
use contexts::peeks::peek_size;
use long_names::Kind;
use object_memory::{ObjectMemory, Reg, shape};

/// The elements of an object: of which kind, and how many. Those of a method are its bytes of code, which are numbered from behind its
/// header and literals.
#[derive(Clone, Copy)]
pub(crate) struct Extent {
    kind: Kind,
    start: u32,
    len: u32,
}

impl Extent {
    /// How many elements there are, what stands before a method's code among them.
    #[inline(always)]
    fn length(&self) -> u32
        requires start { self.now.start ≤ 2 * (MOST_LITERALS + 1) }
        requires len { self.now.len ≤ MOST_FIELDS }
        ensures { result ≡ extents.length_by self.now }
    {
        self.start + self.len
    }

    /// How many are behind so many fixed fields, where there are as many.
    fn behind(&self, fixed: u32) -> Option<u32>
        requires start { self.now.start ≤ 2 * (MOST_LITERALS + 1) }
        requires len { self.now.len ≤ MOST_FIELDS }
        ensures behind { result ≡ extents.behind fixed self.now }
        ensures few { IfSome result (λ n. n ≤ 2 * (MOST_LITERALS + 1) + MOST_FIELDS) }
    {
        let length = self.length();
        if fixed <= length {
            Some(length - fixed)
        } else {
            None
        }
    }

    /// Where element e stands, e from 1 on.
    #[inline(always)]
    fn spot(&self, e: u32) -> Option<Spot>
        requires start { self.now.start ≤ 2 * (MOST_LITERALS + 1) }
        requires len { self.now.len ≤ MOST_FIELDS }
        requires first { 1 ≤ e }
        ensures { result ≡ extents.spot_by e self.now }
    {
        if e <= self.start || self.length() < e {
            return None;
        }
        let i = e - self.start - 1;
        match self.kind {
            Kind::Pointers => Some(Spot::Field(i)),
            Kind::Words => Some(Spot::Word(i)),
            Kind::Bytes | Kind::Method => Some(Spot::Byte(i)),
        }
    }

    /// How many bytes an object of bytes has.
    fn text(&self) -> Option<u32>
        ensures { result ≡ extents.text_by self.now }
    {
        if self.kind == Kind::Bytes {
            Some(self.len)
        } else {
            None
        }
    }
}

/// How many bytes a method's header and literals take; none where there are no literals.
#[inline(always)]
fn code_start(literals: Option<u32>) -> u32
    requires { IfSome literals (λ n. n ≤ MOST_LITERALS) }
    ensures start { result ≡ extents.start_by literals }
    ensures few { result ≤ 2 * (MOST_LITERALS + 1) }
{
    match literals {
        Some(count) => 2 * (count + 1),
        None => 0,
    }
}

/// The elements of the object that a register names. None where it holds a number.
#[inline(always)]
fn extent_of<M: ObjectMemory>(m: &mut M, of: Reg) -> Result<Option<Extent>, Stop>
    requires fit { IsFit M.ObjectMemory m.old }
    ensures serves { (cpu : Numbers) → Serves (M.told m.old) cpu (M.told m.new) cpu (peek extents.extent_of ((M.told m.old).regs of)) result }
    ensures looks { OnOk result (Looks [] (M.told m.old) (M.told m.new)) }
    ensures start { IfOk result (λ found. IfSome found (λ x. x.start ≤ 2 * (MOST_LITERALS + 1))) }
    ensures len { IfOk result (λ found. IfSome found (λ x. x.len ≤ MOST_FIELDS)) }
    ensures fit { StaysFit M.ObjectMemory m.old m.new result }
{
    let Some((kind, len)) = shape::shape(m, of)? else {
        return Ok(None);
    };
    let start = code_start(shape::literals(m, of)?);
    Ok(Some(Extent { kind, start, len }))
}

/// How many elements the object that a register names has behind so many fixed fields, where it has as many.
pub(crate) fn size_behind<M: ObjectMemory>(
    m: &mut M,
    of: Reg,
    fixed: u32,
) -> Result<Option<u32>, Stop>
    requires fit { IsFit M.ObjectMemory m.old }
    ensures serves { (cpu : Numbers) → Serves (M.told m.old) cpu (M.told m.new) cpu (peek (storage.size_behind fixed) ((M.told m.old).regs of)) result }
    ensures looks { OnOk result (Looks [] (M.told m.old) (M.told m.new)) }
    ensures fit { StaysFit M.ObjectMemory m.old m.new result }
{
    let Some(extent) = extent_of(m, of)? else {
        return Ok(None);
    };
    Ok(extent.behind(fixed))
}

/// How many elements the object that a register names has (lengthOf:). None where it holds a number.
pub(crate) fn length<M: ObjectMemory>(m: &mut M, of: Reg) -> Result<Option<u32>, Stop>
    requires fit { IsFit M.ObjectMemory m.old }
    ensures serves { (cpu : Numbers) → Serves (M.told m.old) cpu (M.told m.new) cpu (peek model.length_of ((M.told m.old).regs of)) result }
    ensures looks { OnOk result (Looks [] (M.told m.old) (M.told m.new)) }
    ensures fit { StaysFit M.ObjectMemory m.old m.new result }
{
    let Some(extent) = extent_of(m, of)? else {
        return Ok(None);
    };
    Ok(Some(extent.length()))
}

/// Where element e of the object that a register names stands, where it has it, e from 1 on.
pub(crate) fn spot_of<M: ObjectMemory>(m: &mut M, of: Reg, e: u32) -> Result<Option<Spot>, Stop>
    requires fit { IsFit M.ObjectMemory m.old }
    requires first { 1 ≤ e }
    ensures serves { (cpu : Numbers) → Serves (M.told m.old) cpu (M.told m.new) cpu (peek (model.spot_of e) ((M.told m.old).regs of)) result }
    ensures looks { OnOk result (Looks [] (M.told m.old) (M.told m.new)) }
    ensures fit { StaysFit M.ObjectMemory m.old m.new result }
{
    let Some(extent) = extent_of(m, of)? else {
        return Ok(None);
    };
    Ok(extent.spot(e))
}

/// How many bytes the object of bytes has that a register names. None where it names another object, or holds a number.
pub(crate) fn text_length<M: ObjectMemory>(m: &mut M, of: Reg) -> Result<Option<u32>, Stop>
    requires fit { IsFit M.ObjectMemory m.old }
    ensures serves { (cpu : Numbers) → Serves (M.told m.old) cpu (M.told m.new) cpu (peek extents.text_length ((M.told m.old).regs of)) result }
    ensures looks { OnOk result (Looks [] (M.told m.old) (M.told m.new)) }
    ensures fit { StaysFit M.ObjectMemory m.old m.new result }
{
    let Some(extent) = extent_of(m, of)? else {
        return Ok(None);
    };
    Ok(extent.text())
}

/// Whether the object that a register names is text, where it is an object of bytes.
pub(crate) fn peek_text<M: ObjectMemory>(m: &mut M, of: Reg) -> Result<Option<bool>, Stop>
    requires fit { IsFit M.ObjectMemory m.old }
    ensures serves { (cpu : Numbers) → Serves (M.told m.old) cpu (M.told m.new) cpu (peek storage.is_text ((M.told m.old).regs of)) result }
    ensures looks { OnOk result (Looks [] (M.told m.old) (M.told m.new)) }
    ensures fit { StaysFit M.ObjectMemory m.old m.new result }
{
    let Some(_) = text_length(m, of)? else {
        return Ok(None);
    };
    Ok(Some(true))
}

/// Whether the object that a register names is text, where it is an object of values, which is none.
pub(crate) fn peek_array<M: ObjectMemory>(m: &mut M, of: Reg) -> Result<Option<bool>, Stop>
    requires fit { IsFit M.ObjectMemory m.old }
    ensures serves { (cpu : Numbers) → Serves (M.told m.old) cpu (M.told m.new) cpu (peek storage.is_array ((M.told m.old).regs of)) result }
    ensures looks { OnOk result (Looks [] (M.told m.old) (M.told m.new)) }
    ensures fit { StaysFit M.ObjectMemory m.old m.new result }
{
    let Some(_) = peek_size(m, of, 0)? else {
        return Ok(None);
    };
    Ok(Some(false))
}
