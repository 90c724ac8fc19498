// The arithmetic of large integers. None: there is no result, or it is out of range.
ghost use Rattle.std.specs.Prelude.{◌≡◌, ◌<◌, ◌≤◌, ◌^◌, ◌-ℤ◌, ◌*ℤ◌, pos, negsuc, IfSome};
ghost use Rattle.std.specs.Int.{w128, int_div_euclid};
ghost use Rattle.std.specs.Int.RustNames.{FitsSigned};
ghost use Rattle.blue_model.specs.declared.limits.TheConstants.{LARGE_BITS};
ghost use Rattle.blue_model.specs.Arithmetic as model;
ghost use Rattle.blue_model.specs.LargeInts.{in_range, large_and, large_or, large_xor, large_result};
ghost use Rattle.large_ints.specs.Operations.{with_sign, is_below, differ};

use blue_model::limits::LARGE_BITS;

/// The first magnitude that is out of range, but for that of the lowest number.
const PAST: u128 = 1 << LARGE_BITS;

/// -1 less a number: the number with all its bits turned.
fn turned(n: u128) -> i128
    requires { n < 2 ^ LARGE_BITS }
    ensures { result ≡ negsuc n }
{
    -1 - n as i128
}

/// A magnitude, where it is in range.
fn natural(size: u128) -> Option<i128>
    ensures { result ≡ in_range (pos size) }
{
    if size < PAST {
        Some(size as i128)
    } else {
        None
    }
}

/// The number of a magnitude and a sign.
pub(crate) fn signed(negative: bool, size: u128) -> Option<i128>
    ensures number { result ≡ in_range (with_sign negative size) }
    ensures range { IfSome result (FitsSigned w128) }
{
    if !negative || size == 0 {
        natural(size)
    } else if size <= PAST {
        Some(turned(size - 1))
    } else {
        None
    }
}

/// Whether a number is below 0.
fn is_below(a: i128) -> bool
    ensures { result ≡ is_below a }
{
    a < 0
}

pub(crate) fn sum(a: i128, b: i128) -> Option<i128>
    ensures { result ≡ large_result model.sum a b }
{
    a.checked_add(b)
}

pub(crate) fn difference(a: i128, b: i128) -> Option<i128>
    ensures { result ≡ large_result model.difference a b }
{
    a.checked_sub(b)
}

pub(crate) fn product(a: i128, b: i128) -> Option<i128>
    ensures { result ≡ large_result model.product a b }
{
    a.checked_mul(b)
}

/// The quotient, where nothing is left (/).
pub(crate) fn exact_quotient(a: i128, b: i128) -> Option<i128>
    ensures { result ≡ large_result (model.divided model.exact_quotient) a b }
{
    match a.checked_rem(b) {
        Some(0) => quotient_to_zero(a, b),
        _ => None,
    }
}

/// Whether a quotient is below 0 before it is rounded.
fn differ(a: i128, b: i128) -> bool
    ensures { result ≡ differ a b }
{
    a != 0 && is_below(a) != is_below(b)
}

/// The quotient rounded down (//).
pub(crate) fn quotient_down(a: i128, b: i128) -> Option<i128>
    ensures { result ≡ large_result (model.divided model.quotient_down) a b }
{
    if b == 0 {
        return None;
    }
    if differ(a, b) {
        Some(turned((a.unsigned_abs() - 1) / b.unsigned_abs()))
    } else {
        natural(a.unsigned_abs() / b.unsigned_abs())
    }
}

/// The magnitude of what is left of the quotient rounded down, by a divisor other than 0.
fn rest(a: i128, b: i128) -> u128
    requires { b ≡ pos 0 → ⊥ }
    ensures rest { with_sign (is_below b) result ≡ a -ℤ (model.rounded_down a b *ℤ b) }
{
    if differ(a, b) {
        b.unsigned_abs() - 1 - (a.unsigned_abs() - 1) % b.unsigned_abs()
    } else {
        a.unsigned_abs() % b.unsigned_abs()
    }
}

/// What is left of the quotient rounded down: it has the sign of the divisor (\\).
pub(crate) fn remainder_down(a: i128, b: i128) -> Option<i128>
    ensures { result ≡ large_result (model.divided model.remainder_down) a b }
{
    if b == 0 {
        return None;
    }
    signed(is_below(b), rest(a, b))
}

/// The quotient rounded toward 0 (quo:).
pub(crate) fn quotient_to_zero(a: i128, b: i128) -> Option<i128>
    ensures { result ≡ large_result (model.divided model.quotient_to_zero) a b }
{
    a.checked_div(b)
}

pub(crate) fn bits_and(a: i128, b: i128) -> Option<i128>
    ensures { result ≡ large_result large_and a b }
{
    Some(a & b)
}

pub(crate) fn bits_or(a: i128, b: i128) -> Option<i128>
    ensures { result ≡ large_result large_or a b }
{
    Some(a | b)
}

pub(crate) fn bits_xor(a: i128, b: i128) -> Option<i128>
    ensures { result ≡ large_result large_xor a b }
{
    Some(a ^ b)
}

/// Times 2 to the power n. From 128 places on no number but 0 stays in range.
fn shifted_left(a: i128, n: u32) -> Option<i128>
    ensures { result ≡ in_range (a *ℤ pos (2 ^ n)) }
{
    if a == 0 {
        return Some(0);
    }
    if n > LARGE_BITS {
        return None;
    }
    let size = a.unsigned_abs().checked_mul(1 << n)?;
    signed(is_below(a), size)
}

/// Divided by 2 to the power n, rounded down. From 127 places on nothing is left but the sign.
fn shifted_right(a: i128, n: u32) -> i128
    ensures { result ≡ int_div_euclid a (pos (2 ^ n)) }
{
    a >> n.min(LARGE_BITS)
}

/// Times 2 to the power of the argument, rounded down (bitShift:).
pub(crate) fn shifted(a: i128, b: i16) -> Option<i128>
    ensures { result ≡ large_result model.shifted a b }
{
    let places = u32::from(b.unsigned_abs());
    if b < 0 {
        Some(shifted_right(a, places))
    } else {
        shifted_left(a, places)
    }
}
