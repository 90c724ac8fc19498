// Numbers of arguments, and the pointers of blocks.
ghost use Rattle.std.specs.Prelude.{◌≡◌, ◌<◌, ◌+ℤ◌, pos, IfSome, IsTrue};
ghost use Rattle.long_names.specs.declared.limits.TheConstants.{SMALL_INTEGERS};
ghost use Rattle.long_names.specs.Words.{IsSmallInteger};
ghost use Rattle.blue_model.specs.Contexts.{stated};
ghost use Rattle.blue_model.specs.Elements as elements;
ghost use Rattle.blue_model.specs.Control as model;
ghost use Rattle.blue_model.specs.Messages as messages;

use blue_model::limits::{FULL_STACK, SELF_FLAG};
use contexts::Cpu;
use long_names::SMALL_INTEGERS;
use send_lookup::header::bits;

/// The first instruction pointer of a block, behind the jump that follows the bytecode, if it can be stated.
pub(crate) fn block_pointer(cpu: &Cpu) -> Option<i16>
    ensures value { result ≡ stated (cpu.now.ip +ℤ pos 3) }
    ensures range { IfSome result IsSmallInteger }
{
    if cpu.ip < -(SMALL_INTEGERS as i32) - 3 || cpu.ip >= SMALL_INTEGERS as i32 - 3 {
        None
    } else {
        Some((cpu.ip + 3) as i16)
    }
}

/// A number that isn't negative.
pub(crate) fn natural(number: i16) -> Option<u32>
    requires { IsSmallInteger number }
    ensures value { result ≡ elements.natural number }
    ensures few { IfSome result (λ n. n < SMALL_INTEGERS) }
{
    if number < 0 {
        None
    } else {
        Some(number as u32)
    }
}

/// Whether it is the number of so many.
#[inline(always)]
pub(crate) fn states(n: u32, count: Option<i16>) -> bool
    requires { IfSome count IsSmallInteger }
    ensures states { result ≡ model.states n count }
    ensures few { IsTrue result → n < SMALL_INTEGERS }
{
    match count {
        Some(number) => i64::from(number) == i64::from(n),
        None => false,
    }
}

/// How many arguments a method takes, by its header extension.
pub(crate) fn extension_arguments(extension: i16) -> u32
    requires { IsSmallInteger extension }
    ensures { result ≡ messages.extension_arguments extension }
{
    bits(extension) / 256 % 32
}

/// How many arguments a method takes that has no header extension.
pub(crate) fn flag_arguments(flag: u32) -> u32
    ensures { result ≡ messages.flag_arguments flag }
{
    if flag < SELF_FLAG { flag } else { 0 }
}

/// Whether n values fit in place of the two on top, on the stack of a context of so many fields.
pub(crate) fn fits(cpu: &Cpu, n: u32, len: u32) -> bool
    ensures { result ≡ model.fits cpu.now.sp n len }
{
    let above = i64::from(cpu.sp) + i64::from(n);
    above < i64::from(len) + 2 && above < i64::from(FULL_STACK) + 3
}
