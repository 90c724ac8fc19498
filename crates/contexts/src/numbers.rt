// The instruction pointer and the stack pointer.
ghost use Rattle.std.specs.Prelude.{◌≡◌, ◌+ℤ◌, ◌-ℤ◌, ◌<ℤ◌, ◌≤ℤ◌, ◌<◌, ◌≤◌, ◌+◌, pos, Some, None, IfSome, OnSome, MatchBool};
ghost use Rattle.std.specs.Bool.{OnFalse};
ghost use Rattle.long_names.specs.Words.{IsSmallInteger};
ghost use Rattle.long_names.specs.declared.limits.TheConstants.{MOST_LITERALS};
ghost use Rattle.blue_model.specs.declared.limits.TheConstants.{FULL_STACK, LAST_BYTE};
ghost use Rattle.blue_model.specs.declared.indexes.TheConstants.{EMPTY_STACK};
ghost use Rattle.blue_model.specs.Contexts.{stack_place, lowered, stated, stack_pointer};
ghost use Rattle.contexts.specs.Places.{code_place, code_index};

use blue_model::Cpu;
use blue_model::indexes::{EMPTY_STACK, TEMP_FRAME_START};
use blue_model::limits::{FULL_STACK, LAST_BYTE};
use long_names::SMALL_INTEGERS;

/// The field above the top of the stack, of a context with so many fields, if it is one of the stack.
#[inline(always)]
pub(crate) fn place_above(cpu: &Cpu, len: u32) -> Option<u32>
    ensures place { result ≡ stack_place (cpu.now.sp +ℤ pos 1) len }
    ensures within { IfSome result (λ place. place < len) }
    ensures small { OnSome result (cpu.now.sp <ℤ pos FULL_STACK) }
{
    if cpu.sp < EMPTY_STACK as i32 || cpu.sp >= FULL_STACK as i32 {
        return None;
    }
    let place = cpu.sp as u32 + 1;
    if place < len { Some(place) } else { None }
}

/// The field so much below the top of the stack, of a context with so many fields, if it is one of the stack.
#[inline(always)]
pub(crate) fn place_at(cpu: &Cpu, depth: u32, len: u32) -> Option<u32>
    ensures place { result ≡ stack_place (cpu.now.sp -ℤ pos depth) len }
    ensures within { IfSome result (λ place. place < len) }
{
    if cpu.sp < TEMP_FRAME_START as i32 || cpu.sp as u32 - TEMP_FRAME_START < depth {
        return None;
    }
    let place = cpu.sp as u32 - depth;
    if place <= FULL_STACK && place < len {
        Some(place)
    } else {
        None
    }
}

/// One value more is on the stack.
#[inline(always)]
pub(crate) fn raise(cpu: &mut Cpu)
    requires { cpu.old.sp <ℤ pos FULL_STACK }
    ensures { cpu.new ≡ record cpu.old { sp = cpu.old.sp +ℤ pos 1 } }
{
    cpu.sp += 1;
}

/// So many values fewer are on the stack, if it has them.
#[inline(always)]
pub(crate) fn lower(cpu: &mut Cpu, count: u32) -> bool
    ensures lowered { MatchBool result (lowered cpu.old.sp count ≡ Some cpu.new.sp) (lowered cpu.old.sp count ≡ None) }
    ensures rest { cpu.new ≡ record cpu.old { sp = cpu.new.sp } }
    ensures unchanged { OnFalse result (cpu.new ≡ cpu.old) }
{
    if cpu.sp < EMPTY_STACK as i32 || cpu.sp as u32 - EMPTY_STACK < count {
        return false;
    }
    cpu.sp = (cpu.sp as u32 - count) as i32;
    true
}

/// The number of the byte at the instruction pointer, if it may be one of code.
#[inline(always)]
pub(crate) fn place_here(cpu: &Cpu) -> Option<u32>
    ensures { result ≡ code_place cpu.now.ip }
{
    if cpu.ip < 0 || cpu.ip > LAST_BYTE as i32 {
        None
    } else {
        Some(cpu.ip as u32)
    }
}

/// The number of the byte so far from the instruction pointer, if it may be one of code.
#[inline(always)]
pub(crate) fn place_from(cpu: &Cpu, distance: &i32) -> Option<u32>
    ensures place { result ≡ code_place (cpu.now.ip +ℤ distance.now) }
{
    let place = i64::from(cpu.ip) + i64::from(*distance);
    if place < 0 || place > i64::from(LAST_BYTE) {
        None
    } else {
        Some(place as u32)
    }
}

/// The index in a method's code of the byte of a number, if there is one: of a method with so many literals and bytes.
pub(crate) fn index_of(place: Option<u32>, literals: u32, len: u32) -> Option<u32>
    requires { literals < MOST_LITERALS + 1 }
    ensures index { result ≡ code_index literals len place }
    ensures within { IfSome result (λ i. i < len) }
{
    let first = 2 * (literals + 1);
    let place = place?;
    if place < first || place - first >= len {
        return None;
    }
    Some(place - first)
}

/// The instruction pointer goes on by one byte.
#[inline(always)]
pub(crate) fn advance(cpu: &mut Cpu)
    requires { cpu.old.ip ≤ℤ pos LAST_BYTE }
    ensures { cpu.new ≡ record cpu.old { ip = cpu.old.ip +ℤ pos 1 } }
{
    cpu.ip += 1;
}

/// The instruction pointer goes to the byte of this number.
#[inline(always)]
pub(crate) fn go_to(cpu: &mut Cpu, place: u32)
    requires { place ≤ LAST_BYTE }
    ensures { cpu.new ≡ record cpu.old { ip = pos place } }
{
    cpu.ip = place as i32;
}

/// The pointers become those that a context states in its fields 1 and 2, if the second is a number of values.
#[inline(always)]
pub(crate) fn take_stated(cpu: &mut Cpu, ip: &i16, depth: &i16) -> bool
    ensures depth { MatchBool result (stack_pointer depth.now ≡ Some cpu.new.sp) (stack_pointer depth.now ≡ None) }
    ensures numbers { MatchBool result (cpu.new ≡ record cpu.old { ip = ip.now -ℤ pos 1; sp = cpu.new.sp }) (cpu.new ≡ cpu.old) }
{
    if *depth < 0 {
        return false;
    }
    cpu.ip = i32::from(*ip) - 1;
    cpu.sp = i32::from(*depth) + EMPTY_STACK as i32;
    true
}

/// The instruction pointer as a context states it, if it can be stated.
#[inline(always)]
pub(crate) fn stated_ip(cpu: &Cpu) -> Option<i16>
    ensures value { result ≡ stated (cpu.now.ip +ℤ pos 1) }
    ensures range { IfSome result IsSmallInteger }
{
    if cpu.ip < -(SMALL_INTEGERS as i32) - 1 || cpu.ip >= SMALL_INTEGERS as i32 - 1 {
        None
    } else {
        Some((cpu.ip + 1) as i16)
    }
}

/// The stack pointer as a context states it, if it can be stated.
#[inline(always)]
pub(crate) fn stated_depth(cpu: &Cpu) -> Option<i16>
    ensures value { result ≡ stated (cpu.now.sp -ℤ pos EMPTY_STACK) }
    ensures range { IfSome result IsSmallInteger }
{
    if cpu.sp < EMPTY_STACK as i32 - SMALL_INTEGERS as i32 || cpu.sp > FULL_STACK as i32 {
        None
    } else {
        Some((cpu.sp - EMPTY_STACK as i32) as i16)
    }
}
