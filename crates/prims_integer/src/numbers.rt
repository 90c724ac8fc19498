// The arithmetic of SmallIntegers. None: there is no result, or it is no SmallInteger.
ghost use Rattle.std.specs.Prelude.{◌≡◌, ◌≤◌, ◌^◌, ◌-ℤ◌, ◌*ℤ◌, pos, IfSome};
ghost use Rattle.std.specs.Int.{int_div_euclid};
ghost use Rattle.std.specs.Option.{option_and_then};
ghost use Rattle.long_names.specs.Words.{IsSmallInteger};
ghost use Rattle.blue_model.specs.Contexts.{stated};
ghost use Rattle.blue_model.specs.Arithmetic as model;
ghost use Rattle.prims_integer.specs.declared.numbers.TheConstants.{SMALL_BITS};

use long_names::SMALL_INTEGERS;

/// A SmallInteger has so many bits.
const SMALL_BITS: u32 = 15;

/// The number, where it is a SmallInteger.
#[inline(always)]
pub(crate) fn small(z: i32) -> Option<i16>
    ensures small { result ≡ stated z }
    ensures range { IfSome result IsSmallInteger }
{
    if z < -(SMALL_INTEGERS as i32) || z >= SMALL_INTEGERS as i32 {
        None
    } else {
        Some(z as i16)
    }
}

#[inline(always)]
pub(crate) fn sum(a: i16, b: i16) -> Option<i16>
    requires receiver { IsSmallInteger a }
    requires argument { IsSmallInteger b }
    ensures sum { result ≡ option_and_then stated (model.sum a b) }
    ensures range { IfSome result IsSmallInteger }
{
    small(i32::from(a) + i32::from(b))
}

pub(crate) fn difference(a: i16, b: i16) -> Option<i16>
    requires receiver { IsSmallInteger a }
    requires argument { IsSmallInteger b }
    ensures difference { result ≡ option_and_then stated (model.difference a b) }
    ensures range { IfSome result IsSmallInteger }
{
    small(i32::from(a) - i32::from(b))
}

pub(crate) fn product(a: i16, b: i16) -> Option<i16>
    requires receiver { IsSmallInteger a }
    requires argument { IsSmallInteger b }
    ensures product { result ≡ option_and_then stated (model.product a b) }
    ensures range { IfSome result IsSmallInteger }
{
    small(i32::from(a) * i32::from(b))
}

/// The quotient, where nothing is left (/).
pub(crate) fn exact_quotient(a: i16, b: i16) -> Option<i16>
    requires receiver { IsSmallInteger a }
    requires argument { IsSmallInteger b }
    ensures quotient { result ≡ option_and_then stated (model.divided model.exact_quotient a b) }
    ensures range { IfSome result IsSmallInteger }
{
    if b == 0 || a % b != 0 {
        return None;
    }
    quotient_to_zero(a, b)
}

/// The quotient rounded down, by a divisor other than 0.
fn rounded_down(a: i16, b: i16) -> i32
    requires receiver { IsSmallInteger a }
    requires argument { IsSmallInteger b }
    requires divisor { b ≡ pos 0 → ⊥ }
    ensures { result ≡ model.rounded_down a b }
{
    if b < 0 {
        (-i32::from(a)).div_euclid(-i32::from(b))
    } else {
        i32::from(a).div_euclid(i32::from(b))
    }
}

/// The quotient rounded down (//).
pub(crate) fn quotient_down(a: i16, b: i16) -> Option<i16>
    requires receiver { IsSmallInteger a }
    requires argument { IsSmallInteger b }
    ensures quotient { result ≡ option_and_then stated (model.divided model.quotient_down a b) }
    ensures range { IfSome result IsSmallInteger }
{
    if b == 0 {
        return None;
    }
    small(rounded_down(a, b))
}

/// What is left of the quotient rounded down, by a divisor other than 0.
fn rest(a: i16, b: i16) -> i32
    requires receiver { IsSmallInteger a }
    requires argument { IsSmallInteger b }
    requires divisor { b ≡ pos 0 → ⊥ }
    ensures { result ≡ a -ℤ (model.rounded_down a b *ℤ b) }
{
    i32::from(a) - rounded_down(a, b) * i32::from(b)
}

/// What is left of the quotient rounded down: it has the sign of the divisor (\\).
pub(crate) fn remainder_down(a: i16, b: i16) -> Option<i16>
    requires receiver { IsSmallInteger a }
    requires argument { IsSmallInteger b }
    ensures remainder { result ≡ option_and_then stated (model.divided model.remainder_down a b) }
    ensures range { IfSome result IsSmallInteger }
{
    if b == 0 {
        return None;
    }
    small(rest(a, b))
}

/// The quotient rounded toward 0 (quo:).
pub(crate) fn quotient_to_zero(a: i16, b: i16) -> Option<i16>
    requires receiver { IsSmallInteger a }
    requires argument { IsSmallInteger b }
    ensures quotient { result ≡ option_and_then stated (model.divided model.quotient_to_zero a b) }
    ensures range { IfSome result IsSmallInteger }
{
    if b == 0 {
        return None;
    }
    small(i32::from(a) / i32::from(b))
}

pub(crate) fn bits_and(a: i16, b: i16) -> Option<i16>
    requires receiver { IsSmallInteger a }
    requires argument { IsSmallInteger b }
    ensures bits { result ≡ option_and_then stated (model.bits_and a b) }
    ensures range { IfSome result IsSmallInteger }
{
    small(i32::from(a & b))
}

pub(crate) fn bits_or(a: i16, b: i16) -> Option<i16>
    requires receiver { IsSmallInteger a }
    requires argument { IsSmallInteger b }
    ensures bits { result ≡ option_and_then stated (model.bits_or a b) }
    ensures range { IfSome result IsSmallInteger }
{
    small(i32::from(a | b))
}

pub(crate) fn bits_xor(a: i16, b: i16) -> Option<i16>
    requires receiver { IsSmallInteger a }
    requires argument { IsSmallInteger b }
    ensures bits { result ≡ option_and_then stated (model.bits_xor a b) }
    ensures range { IfSome result IsSmallInteger }
{
    small(i32::from(a ^ b))
}

/// 2 to the power n.
fn power(n: u32) -> i32
    requires { n ≤ SMALL_BITS }
    ensures { result ≡ pos (2 ^ n) }
{
    1 << n
}

/// Times 2 to the power n. From 15 places on no number but 0 stays a SmallInteger.
fn shifted_left(a: i16, n: u32) -> Option<i16>
    requires { IsSmallInteger a }
    ensures shifted { result ≡ stated (a *ℤ pos (2 ^ n)) }
    ensures range { IfSome result IsSmallInteger }
{
    small(i32::from(a) * power(n.min(SMALL_BITS)))
}

/// Divided by 2 to the power n, rounded down. From 15 places on nothing is left but the sign.
fn shifted_right(a: i16, n: u32) -> i32
    requires { IsSmallInteger a }
    ensures { result ≡ int_div_euclid a (pos (2 ^ n)) }
{
    i32::from(a).div_euclid(power(n.min(SMALL_BITS)))
}

/// Times 2 to the power of the argument, rounded down (bitShift:).
pub(crate) fn shifted(a: i16, b: i16) -> Option<i16>
    requires receiver { IsSmallInteger a }
    requires argument { IsSmallInteger b }
    ensures shifted { result ≡ option_and_then stated (model.shifted a b) }
    ensures range { IfSome result IsSmallInteger }
{
    let places = u32::from(b.unsigned_abs());
    if b < 0 {
        small(shifted_right(a, places))
    } else {
        shifted_left(a, places)
    }
}
