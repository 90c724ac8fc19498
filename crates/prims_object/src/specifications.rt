// What a class says of its instances (chapter 27, classes).
ghost use Rattle.std.specs.Prelude.{◌≡◌, ◌<◌, [], ◌∷◌, OnOk, IfOk, IfSome, IsSome};
ghost use Rattle.long_names.specs.State.{IsRef};
ghost use Rattle.long_names.specs.Words.{IsSmallInteger, unsigned_of};
ghost use Rattle.object_memory.specs.Told.{IsReady};
ghost use Rattle.object_memory.specs.Shape.{Looks};
ghost use Rattle.blue_model.specs.declared.cpu.Cpu.{Cpu as Numbers};
ghost use Rattle.blue_model.specs.declared.limits.TheConstants.{FIXED_FIELDS};
ghost use Rattle.blue_model.specs.Elements as model;
ghost use Rattle.contexts.specs.Serves.{Serves, StaysSound};
ghost use Rattle.object_memory.specs.Calls.{IsFit};
ghost use Rattle.contexts.specs.Calls.{StaysFit};

use blue_model::indexes::{CLASS_SIZE, INSTANCE_SPECIFICATION_INDEX};
use blue_model::limits::{FIXED_FIELDS, INDEXABLE_BIT, POINTERS_BIT, WORDS_BIT};
use contexts::Stop;
use contexts::parts::class_of;
use contexts::peeks::peek_number;
use long_names::SMALL_INTEGERS;
use object_memory::{ObjectMemory, Reg, shape};

/// The fifteen bits of a SmallInteger.
#[inline(always)]
fn bits(specification: i16) -> u32
    requires { IsSmallInteger specification }
    ensures { result ≡ unsigned_of specification }
{
    (specification as i32).rem_euclid(2 * SMALL_INTEGERS as i32) as u32
}

/// Whether instances are objects of values.
pub(crate) fn has_pointers(specification: i16) -> bool
    requires { IsSmallInteger specification }
    ensures { result ≡ model.has_pointers specification }
{
    bits(specification) / POINTERS_BIT == 1
}

/// Whether instances that have no values have words, and not bytes.
pub(crate) fn has_words(specification: i16) -> bool
    requires { IsSmallInteger specification }
    ensures { result ≡ model.has_words specification }
{
    bits(specification) / WORDS_BIT % 2 == 1
}

/// Whether instances have elements behind their fixed fields.
pub(crate) fn is_indexable(specification: i16) -> bool
    requires { IsSmallInteger specification }
    ensures { result ≡ model.is_indexable specification }
{
    bits(specification) / INDEXABLE_BIT % 2 == 1
}

/// How many fixed fields instances have.
#[inline(always)]
pub(crate) fn fixed_fields(specification: i16) -> u32
    requires { IsSmallInteger specification }
    ensures fixed { result ≡ model.fixed_fields specification }
    ensures few { result < FIXED_FIELDS }
{
    bits(specification) % FIXED_FIELDS
}

/// The instance specification of the class that a register names. None where it names nothing of a class's shape, or where no number
/// is there. R19 is used.
pub(crate) fn specification_of<M: ObjectMemory>(m: &mut M, class: Reg) -> Result<Option<i16>, Stop>
    requires fit { IsFit M.ObjectMemory m.old }
    ensures serves { (cpu : Numbers) → Serves (M.told m.old) cpu (M.told m.new) cpu (model.specification_of ((M.told m.old).regs class)) result }
    ensures looks { OnOk result (Looks (19 ∷ []) (M.told m.old) (M.told m.new)) }
    ensures range { IfOk result (λ found. IfSome found IsSmallInteger) }
    ensures named { IfOk result (λ found. IsSome found → IsRef ((M.told m.old).regs class)) }
    ensures fit { StaysFit M.ObjectMemory m.old m.new result }
{
    if !shape::is_name(m, class) {
        return Ok(None);
    }
    peek_number(m, Reg::R19, class, CLASS_SIZE, INSTANCE_SPECIFICATION_INDEX)
}

/// How many fixed fields the object has that a register names (fixedFieldsOf:). None where it holds a number, or where the class says
/// nothing. R19 is used.
#[inline(always)]
pub(crate) fn fixed_of<M: ObjectMemory>(m: &mut M, of: Reg) -> Result<Option<u32>, Stop>
    requires fit { IsFit M.ObjectMemory m.old }
    ensures serves { (cpu : Numbers) → Serves (M.told m.old) cpu (M.told m.new) cpu (model.fixed_of ((M.told m.old).regs of)) result }
    ensures looks { OnOk result (Looks (19 ∷ []) (M.told m.old) (M.told m.new)) }
    ensures few { IfOk result (λ found. IfSome found (λ n. n < FIXED_FIELDS)) }
    ensures fit { StaysFit M.ObjectMemory m.old m.new result }
{
    if !shape::is_name(m, of) {
        return Ok(None);
    }
    class_of(m, Reg::R19, of)?;
    let Some(specification) = specification_of(m, Reg::R19)? else {
        return Ok(None);
    };
    Ok(Some(fixed_fields(specification)))
}
