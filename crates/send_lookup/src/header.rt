// What a method's header says (chapter 27, compiled methods).
ghost use Rattle.std.specs.Prelude.{◌≡◌, ◌≤◌, ◌<◌};
ghost use Rattle.long_names.specs.Words.{IsSmallInteger, unsigned_of};
ghost use Rattle.blue_model.specs.Messages as model;
ghost use Rattle.blue_model.specs.declared.indexes.TheConstants.{LARGE_CONTEXT_SIZE};

use blue_model::indexes::{LARGE_CONTEXT_SIZE, SMALL_CONTEXT_SIZE};
use blue_model::limits::{FLAG_UNIT, LARGE_CONTEXT_BIT, TEMPORARIES_UNIT};
use long_names::{SMALL_INTEGERS, literal_count};

/// The fifteen bits of a SmallInteger.
#[inline(always)]
pub fn bits(number: i16) -> u32
    requires { IsSmallInteger number }
    ensures { result ≡ unsigned_of number }
{
    (number as i32).rem_euclid(2 * SMALL_INTEGERS as i32) as u32
}

/// How a method is executed: 0 to 4 say so many arguments and no primitive; 5 answers self, 6 a field of the receiver; 7 has a header
/// extension.
#[inline(always)]
pub fn flag(header: i16) -> u32
    requires { IsSmallInteger header }
    ensures flag { result ≡ model.flag_of header }
    ensures few { result < 8 }
{
    bits(header) / FLAG_UNIT
}

/// How many temporaries a method has, arguments among them; of a method that answers a field, the field's number.
#[inline(always)]
pub fn temporaries(header: i16) -> u32
    requires { IsSmallInteger header }
    ensures temporaries { result ≡ model.temporaries_of header }
    ensures few { result < 32 }
{
    bits(header) / TEMPORARIES_UNIT % 32
}

/// How many fields a method's context has.
#[inline(always)]
pub(crate) fn context_size(header: i16) -> u32
    requires { IsSmallInteger header }
    ensures size { result ≡ model.context_size header }
    ensures few { result ≤ LARGE_CONTEXT_SIZE }
{
    if bits(header) / LARGE_CONTEXT_BIT % 2 == 1 {
        LARGE_CONTEXT_SIZE
    } else {
        SMALL_CONTEXT_SIZE
    }
}

/// The instruction pointer that a method's context states at first.
#[inline(always)]
pub(crate) fn first_pointer(header: i16) -> i16
    requires { IsSmallInteger header }
    ensures pointer { result ≡ model.first_pointer header }
    ensures range { IsSmallInteger result }
{
    2 * (literal_count(header) as i16 + 1) + 1
}
