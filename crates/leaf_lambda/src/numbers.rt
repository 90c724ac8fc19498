// SmallIntegers as short words.
ghost use Rattle.std.specs.Prelude.{◌≡◌, ◌%◌};
ghost use Rattle.long_names.specs.Words.{IsSmallInteger};
ghost use Rattle.core_view.specs.Words.{int_of_short};

use long_names::SMALL_INTEGERS;

/// The short word of a SmallInteger.
#[inline(always)]
pub fn short_int(number: i16) -> u16
    ensures odd { result % 2 ≡ 1 }
    ensures value { IsSmallInteger number → int_of_short result ≡ number }
{
    if number >= 0 {
        2 * (number as u16) + 1
    } else {
        u16::MAX - 2 * ((-1 - number) as u16)
    }
}

/// The number of an odd short word.
#[inline(always)]
pub fn int_short(word: u16) -> i16
    ensures { result ≡ int_of_short word }
{
    let half = word / 2;
    if half < SMALL_INTEGERS as u16 {
        half as i16
    } else {
        -1 - ((u16::MAX / 2 - half) as i16)
    }
}
