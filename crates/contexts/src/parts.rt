// Parts of objects that rules read, and the store into a field.
ghost use Rattle.std.specs.Prelude.{◌≡◌, ◌+◌, ◌≤◌, ◌<◌, ℕ, [], ◌∷◌, OnOk, OnErr, IfOk, IfSome, length, true};
ghost use Rattle.long_names.specs.Names.{is_known};
ghost use Rattle.long_names.specs.Objects.{pointers_of, OfPointers, OfWords, OfBytes, OfMethod};
ghost use Rattle.long_names.specs.declared.limits.TheConstants.{MACHINE_REGISTERS, MOST_CODE, MOST_FIELDS};
ghost use Rattle.long_names.specs.State.{IsRef};
ghost use Rattle.long_names.specs.Words.{IsSmallInteger};
ghost use Rattle.long_names.specs.declared.value.Value.TheVariants.{Ref};
ghost use Rattle.object_memory.specs.Told.{IsReady};
ghost use Rattle.object_memory.specs.Shape.{field_count, FindsPart, HasPartAt, Looks, ReadsObject};
ghost use Rattle.blue_model.specs.declared.cause.Cause.TheVariants.{Shape};
ghost use Rattle.blue_model.specs.declared.indexes.TheConstants.{TEMP_FRAME_START as CONTEXT_FIELDS};
ghost use Rattle.blue_model.specs.declared.cpu.Cpu.{Cpu as Numbers};
ghost use Rattle.blue_model.specs.Machine.{part, known, class_of, make, store, is_unpinned, swap};
ghost use Rattle.blue_model.specs.Messages.{last_literal, literal_before_last, extension};
ghost use Rattle.blue_model.specs.Parts.{size, field, number, heading, literal, home_of};
ghost use Rattle.blue_model.specs.Contexts.{store_field, need_method};
ghost use Rattle.contexts.specs.Serves.{Serves, StaysSound, with_value};
ghost use Rattle.object_memory.specs.Calls.{IsFit, KeepsFit};
ghost use Rattle.contexts.specs.Calls.{StaysFit};

use crate::stop::Stop;
use blue_model::Cause;
use blue_model::indexes::{HOME_INDEX, METHOD_INDEX, TEMP_FRAME_START};
use long_names::Name;
use object_memory::{MemFault, ObjectMemory, Reg, shape};

/// How many fields the object of pointers has that a register names, which comes in unless it is at hand. None where the register names
/// no such object.
#[inline(always)]
pub(crate) fn fields_of<M: ObjectMemory>(m: &mut M, of: Reg) -> Result<Option<u32>, MemFault>
    requires fit { IsFit M.ObjectMemory m.old }
    ensures looks { OnOk result (Looks [] (M.told m.old) (M.told m.new)) }
    ensures fields { IfOk result (FindsPart (M.told m.old) (M.told m.new) of field_count) }
    ensures bound { IfOk result (λ len. IfSome len (λ n. n < MOST_FIELDS + 1)) }
    ensures refused { OnErr result (ReadsObject (M.told m.old) (M.told m.new) of result) }
    ensures fit { KeepsFit M.ObjectMemory m.old m.new result }
{
    if let Some(len) = m.field_count(of) {
        return Ok(Some(len));
    }
    shape::fields(m, of)
}

/// How many fields the object of pointers has that a register names. It has at least so many.
#[inline(always)]
pub fn size<M: ObjectMemory>(m: &mut M, of: Reg, least: u32) -> Result<u32, Stop>
    requires fit { IsFit M.ObjectMemory m.old }
    ensures serves { (cpu : Numbers) → Serves (M.told m.old) cpu (M.told m.new) cpu (part Shape (size least) ((M.told m.old).regs of)) result }
    ensures looks { OnOk result (Looks [] (M.told m.old) (M.told m.new)) }
    ensures there { IfOk result (λ len. HasPartAt (M.told m.new) of pointers_of (λ xs. length xs ≡ len)) }
    ensures least { IfOk result (λ len. least ≤ len) }
    ensures bound { IfOk result (λ len. len < MOST_FIELDS + 1) }
    ensures fit { StaysFit M.ObjectMemory m.old m.new result }
{
    let Some(len) = fields_of(m, of)? else {
        return Err(Stop::Stuck(Cause::Shape));
    };
    if len < least {
        return Err(Stop::Stuck(Cause::Shape));
    }
    Ok(len)
}

/// Loads field i of the object of pointers that a register names. It has at least so many fields.
#[inline(always)]
pub fn field<M: ObjectMemory>(m: &mut M, to: Reg, of: Reg, least: u32, i: u32) -> Result<(), Stop>
    requires fit { IsFit M.ObjectMemory m.old }
    requires scratch { MACHINE_REGISTERS ≤ to }
    ensures serves { (cpu : Numbers) → Serves (M.told m.old) cpu (M.told m.new) cpu (part Shape (field least i) ((M.told m.old).regs of)) (with_value result ((M.told m.new).regs to)) }
    ensures looks { OnOk result (Looks (to ∷ []) (M.told m.old) (M.told m.new)) }
    ensures fit { StaysFit M.ObjectMemory m.old m.new result }
{
    let Some(len) = fields_of(m, of)? else {
        return Err(Stop::Stuck(Cause::Shape));
    };
    if len < least || len <= i {
        return Err(Stop::Stuck(Cause::Shape));
    }
    m.field(to, of, i)?;
    Ok(())
}

/// Loads field i of an object of pointers that was asked for its length: it has at least so many fields, and this one.
#[inline(always)]
pub(crate) fn field_within<M: ObjectMemory>(
    m: &mut M,
    to: Reg,
    of: Reg,
    least: u32,
    i: u32,
) -> Result<(), Stop>
    requires fit { IsFit M.ObjectMemory m.old }
    requires scratch { MACHINE_REGISTERS ≤ to }
    requires within { HasPartAt (M.told m.old) of pointers_of (λ xs. (least ≤ length xs) × (i < length xs)) }
    ensures serves { (cpu : Numbers) → Serves (M.told m.old) cpu (M.told m.new) cpu (part Shape (field least i) ((M.told m.old).regs of)) (with_value result ((M.told m.new).regs to)) }
    ensures looks { OnOk result (Looks (to ∷ []) (M.told m.old) (M.told m.new)) }
    ensures fit { StaysFit M.ObjectMemory m.old m.new result }
{
    m.field(to, of, i)?;
    Ok(())
}

/// The number in field i of the object of pointers that a register names. It has at least so many fields. The field is loaded into a
/// scratch register, unless the number is at hand.
#[inline(always)]
pub fn number<M: ObjectMemory>(m: &mut M, to: Reg, of: Reg, least: u32, i: u32) -> Result<i16, Stop>
    requires fit { IsFit M.ObjectMemory m.old }
    requires scratch { MACHINE_REGISTERS ≤ to }
    ensures serves { (cpu : Numbers) → Serves (M.told m.old) cpu (M.told m.new) cpu (part Shape (number least i) ((M.told m.old).regs of)) result }
    ensures looks { OnOk result (Looks (to ∷ []) (M.told m.old) (M.told m.new)) }
    ensures range { IfOk result IsSmallInteger }
    ensures fit { StaysFit M.ObjectMemory m.old m.new result }
{
    let Some(len) = fields_of(m, of)? else {
        return Err(Stop::Stuck(Cause::Shape));
    };
    if len < least || len <= i {
        return Err(Stop::Stuck(Cause::Shape));
    }
    number_within(m, to, of, least, i)
}

/// The number in field i of an object of pointers that was asked for its length: it has at least so many fields, and this one. The field
/// is loaded into a scratch register, unless the number is at hand.
#[inline(always)]
pub(crate) fn number_within<M: ObjectMemory>(
    m: &mut M,
    to: Reg,
    of: Reg,
    least: u32,
    i: u32,
) -> Result<i16, Stop>
    requires fit { IsFit M.ObjectMemory m.old }
    requires scratch { MACHINE_REGISTERS ≤ to }
    requires within { HasPartAt (M.told m.old) of pointers_of (λ xs. (least ≤ length xs) × (i < length xs)) }
    ensures serves { (cpu : Numbers) → Serves (M.told m.old) cpu (M.told m.new) cpu (part Shape (number least i) ((M.told m.old).regs of)) result }
    ensures looks { OnOk result (Looks (to ∷ []) (M.told m.old) (M.told m.new)) }
    ensures range { IfOk result IsSmallInteger }
    ensures fit { StaysFit M.ObjectMemory m.old m.new result }
{
    if let Some(number) = m.number_at(of, i) {
        return Ok(number);
    }
    field_within(m, to, of, least, i)?;
    let Some(number) = m.as_int(to) else {
        return Err(Stop::Stuck(Cause::Shape));
    };
    Ok(number)
}

/// Loads literal i of the method that a register names.
#[inline(always)]
pub fn literal<M: ObjectMemory>(m: &mut M, to: Reg, of: Reg, i: u32) -> Result<(), Stop>
    requires fit { IsFit M.ObjectMemory m.old }
    requires scratch { MACHINE_REGISTERS ≤ to }
    ensures serves { (cpu : Numbers) → Serves (M.told m.old) cpu (M.told m.new) cpu (part Shape (literal i) ((M.told m.old).regs of)) (with_value result ((M.told m.new).regs to)) }
    ensures looks { OnOk result (Looks (to ∷ []) (M.told m.old) (M.told m.new)) }
    ensures fit { StaysFit M.ObjectMemory m.old m.new result }
{
    if !shape::has_literal(m, of, i)? {
        return Err(Stop::Stuck(Cause::Shape));
    }
    m.field(to, of, i)?;
    Ok(())
}

/// Whether a register names a method: it is stuck where it doesn't.
#[inline(always)]
pub fn need_method<M: ObjectMemory>(m: &mut M, of: Reg) -> Result<(), Stop>
    requires fit { IsFit M.ObjectMemory m.old }
    ensures serves { (cpu : Numbers) → Serves (M.told m.old) cpu (M.told m.new) cpu (need_method ((M.told m.old).regs of)) result }
    ensures looks { OnOk result (Looks [] (M.told m.old) (M.told m.new)) }
    ensures fit { StaysFit M.ObjectMemory m.old m.new result }
{
    if shape::literals(m, of)?.is_none() {
        return Err(Stop::Stuck(Cause::Shape));
    }
    Ok(())
}

/// The header of the method that a register names.
#[inline(always)]
pub fn header<M: ObjectMemory>(m: &mut M, of: Reg) -> Result<i16, Stop>
    requires fit { IsFit M.ObjectMemory m.old }
    ensures serves { (cpu : Numbers) → Serves (M.told m.old) cpu (M.told m.new) cpu (part Shape heading ((M.told m.old).regs of)) result }
    ensures range { IfOk result IsSmallInteger }
    ensures looks { OnOk result (Looks [] (M.told m.old) (M.told m.new)) }
    ensures fit { StaysFit M.ObjectMemory m.old m.new result }
{
    let Some(_) = shape::literals(m, of)? else {
        return Err(Stop::Stuck(Cause::Shape));
    };
    let header = m.header(of)?;
    Ok(header)
}

/// Loads the class of what a register holds (fetchClassOf:, chapter 30).
#[inline(always)]
pub fn class_of<M: ObjectMemory>(m: &mut M, to: Reg, of: Reg) -> Result<(), Stop>
    requires fit { IsFit M.ObjectMemory m.old }
    requires scratch { MACHINE_REGISTERS ≤ to }
    ensures serves { (cpu : Numbers) → Serves (M.told m.old) cpu (M.told m.new) cpu (class_of ((M.told m.old).regs of)) (with_value result ((M.told m.new).regs to)) }
    ensures looks { OnOk result (Looks (to ∷ []) (M.told m.old) (M.told m.new)) }
    ensures fit { StaysFit M.ObjectMemory m.old m.new result }
{
    m.class(to, of)?;
    Ok(())
}

/// Loads the last literal of the method that a register names.
pub fn last_literal<M: ObjectMemory>(m: &mut M, to: Reg, of: Reg) -> Result<(), Stop>
    requires fit { IsFit M.ObjectMemory m.old }
    requires scratch { MACHINE_REGISTERS ≤ to }
    ensures serves { (cpu : Numbers) → Serves (M.told m.old) cpu (M.told m.new) cpu (part Shape last_literal ((M.told m.old).regs of)) (with_value result ((M.told m.new).regs to)) }
    ensures looks { OnOk result (Looks (to ∷ []) (M.told m.old) (M.told m.new)) }
    ensures fit { StaysFit M.ObjectMemory m.old m.new result }
{
    let Some(count) = shape::literals(m, of)? else {
        return Err(Stop::Stuck(Cause::Shape));
    };
    if count < 1 {
        return Err(Stop::Stuck(Cause::Shape));
    }
    m.field(to, of, count - 1)?;
    Ok(())
}

/// Loads the literal before the last of the method that a register names.
pub fn literal_before_last<M: ObjectMemory>(m: &mut M, to: Reg, of: Reg) -> Result<(), Stop>
    requires fit { IsFit M.ObjectMemory m.old }
    requires scratch { MACHINE_REGISTERS ≤ to }
    ensures serves { (cpu : Numbers) → Serves (M.told m.old) cpu (M.told m.new) cpu (part Shape literal_before_last ((M.told m.old).regs of)) (with_value result ((M.told m.new).regs to)) }
    ensures looks { OnOk result (Looks (to ∷ []) (M.told m.old) (M.told m.new)) }
    ensures fit { StaysFit M.ObjectMemory m.old m.new result }
{
    let Some(count) = shape::literals(m, of)? else {
        return Err(Stop::Stuck(Cause::Shape));
    };
    if count < 2 {
        return Err(Stop::Stuck(Cause::Shape));
    }
    m.field(to, of, count - 2)?;
    Ok(())
}

/// The header extension of the method that a register names: the number that is its literal before the last.
#[inline(always)]
pub fn extension<M: ObjectMemory>(m: &mut M, to: Reg, of: Reg) -> Result<i16, Stop>
    requires fit { IsFit M.ObjectMemory m.old }
    requires scratch { MACHINE_REGISTERS ≤ to }
    ensures serves { (cpu : Numbers) → Serves (M.told m.old) cpu (M.told m.new) cpu (part Shape extension ((M.told m.old).regs of)) result }
    ensures looks { OnOk result (Looks (to ∷ []) (M.told m.old) (M.told m.new)) }
    ensures range { IfOk result IsSmallInteger }
    ensures fit { StaysFit M.ObjectMemory m.old m.new result }
{
    literal_before_last(m, to, of)?;
    let Some(number) = m.as_int(to) else {
        return Err(Stop::Stuck(Cause::Shape));
    };
    Ok(number)
}

/// Loads the home of the context that a register names: of a block, whose field 3 is a number, field 5, and otherwise the context.
pub fn home<M: ObjectMemory>(m: &mut M, to: Reg, context: Reg) -> Result<(), Stop>
    requires fit { IsFit M.ObjectMemory m.old }
    requires scratch { MACHINE_REGISTERS ≤ to }
    requires apart { to ≡ context → ⊥ }
    ensures serves { (cpu : Numbers) → Serves (M.told m.old) cpu (M.told m.new) cpu (part Shape (home_of ((M.told m.old).regs context)) ((M.told m.old).regs context)) (with_value result ((M.told m.new).regs to)) }
    ensures looks { OnOk result (Looks (to ∷ []) (M.told m.old) (M.told m.new)) }
    ensures fit { StaysFit M.ObjectMemory m.old m.new result }
{
    size(m, context, TEMP_FRAME_START)?;
    home_within(m, to, context)?;
    Ok(())
}

/// The same of a context that was asked for its length, and has the fields of one.
#[inline(always)]
pub(crate) fn home_within<M: ObjectMemory>(m: &mut M, to: Reg, context: Reg) -> Result<(), Stop>
    requires fit { IsFit M.ObjectMemory m.old }
    requires scratch { MACHINE_REGISTERS ≤ to }
    requires apart { to ≡ context → ⊥ }
    requires within { HasPartAt (M.told m.old) context pointers_of (λ xs. CONTEXT_FIELDS ≤ length xs) }
    ensures serves { (cpu : Numbers) → Serves (M.told m.old) cpu (M.told m.new) cpu (part Shape (home_of ((M.told m.old).regs context)) ((M.told m.old).regs context)) (with_value result ((M.told m.new).regs to)) }
    ensures looks { OnOk result (Looks (to ∷ []) (M.told m.old) (M.told m.new)) }
    ensures fit { StaysFit M.ObjectMemory m.old m.new result }
{
    m.field(to, context, METHOD_INDEX)?;
    if m.as_int(to).is_some() {
        m.field(to, context, HOME_INDEX)?;
    } else {
        m.copy(to, context);
    }
    Ok(())
}

/// Loads the name of a known object.
#[inline(always)]
pub fn known<M: ObjectMemory>(m: &mut M, to: Reg, name: Name) -> Result<(), Stop>
    requires fit { IsFit M.ObjectMemory m.old }
    requires scratch { MACHINE_REGISTERS ≤ to }
    requires name { is_known name ≡ true }
    ensures serves { (cpu : Numbers) → Serves (M.told m.old) cpu (M.told m.new) cpu (known name) (with_value result ((M.told m.new).regs to)) }
    ensures name { OnOk result ((M.told m.new).regs to ≡ Ref name) }
    ensures looks { OnOk result (Looks (to ∷ []) (M.told m.old) (M.told m.new)) }
    ensures fit { StaysFit M.ObjectMemory m.old m.new result }
{
    m.known(to, name)?;
    Ok(())
}

/// Stores into field i of the object of pointers that a register names.
#[inline(always)]
pub fn store_field<M: ObjectMemory>(m: &mut M, of: Reg, i: u32, from: Reg) -> Result<(), Stop>
    requires fit { IsFit M.ObjectMemory m.old }
    ensures serves { (cpu : Numbers) → Serves (M.told m.old) cpu (M.told m.new) cpu (store_field ((M.told m.old).regs of) i ((M.told m.old).regs from)) result }
    ensures regs { OnOk result ((M.told m.new).regs ≡ (M.told m.old).regs) }
    ensures fit { StaysFit M.ObjectMemory m.old m.new result }
{
    let Some(len) = fields_of(m, of)? else {
        return Err(Stop::Stuck(Cause::Shape));
    };
    if len <= i {
        return Err(Stop::Stuck(Cause::Shape));
    }
    m.set_field(of, i, from)?;
    Ok(())
}

/// Stores into field i of an object of pointers that was asked for its length, and has the field.
#[inline(always)]
pub(crate) fn store_within<M: ObjectMemory>(
    m: &mut M,
    of: Reg,
    i: u32,
    from: Reg,
) -> Result<(), Stop>
    requires fit { IsFit M.ObjectMemory m.old }
    requires within { HasPartAt (M.told m.old) of pointers_of (λ xs. i < length xs) }
    ensures serves { (cpu : Numbers) → Serves (M.told m.old) cpu (M.told m.new) cpu (store_field ((M.told m.old).regs of) i ((M.told m.old).regs from)) result }
    ensures regs { OnOk result ((M.told m.new).regs ≡ (M.told m.old).regs) }
    ensures counted { OnOk result ((n : ℕ) → HasPartAt (M.told m.old) of pointers_of (λ xs. length xs ≡ n) → HasPartAt (M.told m.new) of pointers_of (λ xs. length xs ≡ n)) }
    ensures fit { StaysFit M.ObjectMemory m.old m.new result }
{
    m.set_field(of, i, from)?;
    Ok(())
}

/// Stores into field i of an object of pointers that was asked for its length, and has so many fields.
#[inline(always)]
pub(crate) fn store_below<M: ObjectMemory>(
    m: &mut M,
    of: Reg,
    len: u32,
    i: u32,
    from: Reg,
) -> Result<(), Stop>
    requires fit { IsFit M.ObjectMemory m.old }
    requires counted { HasPartAt (M.told m.old) of pointers_of (λ xs. length xs ≡ len) }
    ensures serves { (cpu : Numbers) → Serves (M.told m.old) cpu (M.told m.new) cpu (store_field ((M.told m.old).regs of) i ((M.told m.old).regs from)) result }
    ensures regs { OnOk result ((M.told m.new).regs ≡ (M.told m.old).regs) }
    ensures counted { OnOk result (HasPartAt (M.told m.new) of pointers_of (λ xs. length xs ≡ len)) }
    ensures fit { StaysFit M.ObjectMemory m.old m.new result }
{
    if len <= i {
        return Err(Stop::Stuck(Cause::Shape));
    }
    store_within(m, of, i, from)?;
    Ok(())
}

/// Stores into value or literal i of the object that a register names.
pub fn store_value<M: ObjectMemory>(m: &mut M, of: Reg, i: u32, from: Reg) -> Result<(), Stop>
    requires fit { IsFit M.ObjectMemory m.old }
    ensures serves { (cpu : Numbers) → Serves (M.told m.old) cpu (M.told m.new) cpu (store ((M.told m.old).regs of) i ((M.told m.old).regs from)) result }
    ensures regs { OnOk result ((M.told m.new).regs ≡ (M.told m.old).regs) }
    ensures fit { StaysFit M.ObjectMemory m.old m.new result }
{
    if !shape::has_field(m, of, i)? && !shape::has_literal(m, of, i)? {
        return Err(Stop::Stuck(Cause::Shape));
    }
    m.set_field(of, i, from)?;
    Ok(())
}

/// Whether a register holds a name that no slot has.
fn is_unpinned<M: ObjectMemory>(m: &M, r: Reg) -> bool
    requires sound { M.sound m.now }
    ensures { result ≡ is_unpinned (M.told m.now).slots ((M.told m.now).regs r) }
{
    shape::is_name(m, r) && !m.is_pinned(r)
}

/// Lets the objects that two registers name change places (swapPointersOf:and:, chapter 30). It is stuck where one of them is pinned.
pub fn swap<M: ObjectMemory>(m: &mut M, a: Reg, b: Reg) -> Result<(), Stop>
    requires fit { IsFit M.ObjectMemory m.old }
    ensures serves { (cpu : Numbers) → Serves (M.told m.old) cpu (M.told m.new) cpu (swap ((M.told m.old).regs a) ((M.told m.old).regs b)) result }
    ensures regs { OnOk result ((M.told m.new).regs ≡ (M.told m.old).regs) }
    ensures fit { StaysFit M.ObjectMemory m.old m.new result }
{
    if !is_unpinned(m, a) || !is_unpinned(m, b) {
        return Err(Stop::Stuck(Cause::Shape));
    }
    m.swap(a, b)?;
    Ok(())
}

/// Makes an object of so many nils (instantiateClass:withPointers:, chapter 30). Its class stands in a register.
pub fn make_pointers<M: ObjectMemory>(m: &mut M, to: Reg, class: Reg, n: u32) -> Result<(), Stop>
    requires fit { IsFit M.ObjectMemory m.old }
    requires scratch { MACHINE_REGISTERS ≤ to }
    requires class { IsRef ((M.told m.old).regs class) }
    requires few { n < MOST_FIELDS + 1 }
    ensures serves { (cpu : Numbers) → Serves (M.told m.old) cpu (M.told m.new) cpu (make ((M.told m.old).regs class) (OfPointers n)) (with_value result ((M.told m.new).regs to)) }
    ensures regs { OnOk result ((r : ℕ) → (r ≡ to → ⊥) → (M.told m.new).regs r ≡ (M.told m.old).regs r) }
    ensures fit { StaysFit M.ObjectMemory m.old m.new result }
{
    m.new_pointers(to, class, n)?;
    Ok(())
}

/// Makes an object of so many words that are 0 (instantiateClass:withWords:, chapter 30). Its class stands in a register.
pub fn make_words<M: ObjectMemory>(m: &mut M, to: Reg, class: Reg, n: u32) -> Result<(), Stop>
    requires fit { IsFit M.ObjectMemory m.old }
    requires scratch { MACHINE_REGISTERS ≤ to }
    requires class { IsRef ((M.told m.old).regs class) }
    requires few { n < MOST_FIELDS + 1 }
    ensures serves { (cpu : Numbers) → Serves (M.told m.old) cpu (M.told m.new) cpu (make ((M.told m.old).regs class) (OfWords n)) (with_value result ((M.told m.new).regs to)) }
    ensures regs { OnOk result ((r : ℕ) → (r ≡ to → ⊥) → (M.told m.new).regs r ≡ (M.told m.old).regs r) }
    ensures fit { StaysFit M.ObjectMemory m.old m.new result }
{
    m.new_words(to, class, n)?;
    Ok(())
}

/// Makes an object of so many bytes that are 0 (instantiateClass:withBytes:, chapter 30). Its class stands in a register.
pub fn make_bytes<M: ObjectMemory>(m: &mut M, to: Reg, class: Reg, n: u32) -> Result<(), Stop>
    requires fit { IsFit M.ObjectMemory m.old }
    requires scratch { MACHINE_REGISTERS ≤ to }
    requires class { IsRef ((M.told m.old).regs class) }
    requires few { n < MOST_FIELDS + 1 }
    ensures serves { (cpu : Numbers) → Serves (M.told m.old) cpu (M.told m.new) cpu (make ((M.told m.old).regs class) (OfBytes n)) (with_value result ((M.told m.new).regs to)) }
    ensures regs { OnOk result ((r : ℕ) → (r ≡ to → ⊥) → (M.told m.new).regs r ≡ (M.told m.old).regs r) }
    ensures fit { StaysFit M.ObjectMemory m.old m.new result }
{
    m.new_bytes(to, class, n)?;
    Ok(())
}

/// Makes a method with this header, literals that are nil and so much code of zeros (chapter 30, methods). Its class stands in a
/// register.
pub fn make_method<M: ObjectMemory>(
    m: &mut M,
    to: Reg,
    class: Reg,
    header: i16,
    code: u32,
) -> Result<(), Stop>
    requires fit { IsFit M.ObjectMemory m.old }
    requires scratch { MACHINE_REGISTERS ≤ to }
    requires class { IsRef ((M.told m.old).regs class) }
    requires header { IsSmallInteger header }
    requires few { code ≤ MOST_CODE }
    ensures serves { (cpu : Numbers) → Serves (M.told m.old) cpu (M.told m.new) cpu (make ((M.told m.old).regs class) (OfMethod header code)) (with_value result ((M.told m.new).regs to)) }
    ensures regs { OnOk result ((r : ℕ) → (r ≡ to → ⊥) → (M.told m.new).regs r ≡ (M.told m.old).regs r) }
    ensures fit { StaysFit M.ObjectMemory m.old m.new result }
{
    m.new_method(to, class, header, code)?;
    Ok(())
}
