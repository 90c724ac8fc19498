// The objects of methods.
ghost use Rattle.std.specs.Prelude.{◌≡◌, ◌+◌, ◌*◌, ◌%◌, ◌++◌, ◌<◌, ◌≤◌, pos, IfOk, IfErr, OnOk};
ghost use Rattle.st80_methods.specs.MethodObjects as rules;

use long_names::{Body, Octets, Value, Values};
use st80_compile::{Answers, Compiled};
use std::alloc::{AllocError, Global};

/// Why a method has no object.
#[derive(Clone, Copy, Debug, PartialEq, Eq)]
pub enum NoBody {
    NoMemory,
    /// The pool lacks one of its literals.
    UnknownLiteral,
}

impl From<AllocError> for NoBody {
    ghost use Rattle.std.specs.Prelude.{◌≡◌};
    ghost use Rattle.st80_methods.specs.declared.methods.NoBody.TheVariants.{NoMemory};

    ghost from_gives = { λ _ e. e ≡ NoMemory };

    fn from(_error: AllocError) -> NoBody {
        NoBody::NoMemory
    }
}

fn has_extension(made: &Compiled) -> bool
    ensures { result ≡ rules.has_extension made.now }
{
    made.arguments > 4 || made.primitive > 0
}

/// The flag: which form a method has.
fn flag_of(answers: Answers, made: &Compiled) -> u16
    ensures value { result ≡ rules.flag_of answers made.now }
    ensures few { result < 8 }
{
    match answers {
        Answers::Code => {
            if has_extension(made) {
                7
            } else {
                u16::from(made.arguments)
            }
        }
        Answers::Receiver => 5,
        Answers::Field(_) => 6,
    }
}

/// The five bits behind the flag.
fn five_of(answers: Answers, made: &Compiled) -> u16
    ensures value { result ≡ rules.five_of answers made.now }
    ensures few { result < 32 }
{
    match answers {
        Answers::Code => u16::from(made.temporaries % 32),
        Answers::Receiver => 0,
        Answers::Field(n) => u16::from(n % 32),
    }
}

fn large_of(made: &Compiled) -> u16
    ensures value { result ≡ rules.large_of made.now }
    ensures few { result ≤ 64 }
{
    if made.is_large { 64 } else { 0 }
}

/// A header's fifteen bits.
fn header_bits(made: &Compiled, literals: usize) -> u16
    ensures value { result ≡ rules.header_bits made.now literals }
    ensures few { result < 32768 }
{
    4096 * flag_of(made.answers, made)
        + 128 * five_of(made.answers, made)
        + large_of(made)
        + (literals % 64) as u16
}

/// Fifteen bits in two's complement.
fn signed(u: u16) -> i16
    requires { u < 32768 }
    ensures { result ≡ rules.signed u }
{
    if u < 16384 {
        return u as i16;
    }
    (i32::from(u) - 32768) as i16
}

/// Arguments and primitive in one number.
fn extension(arguments: u8, primitive: u8) -> i16
    ensures { result ≡ pos (256 * (arguments % 32) + primitive) }
{
    (256 * u16::from(arguments % 32) + u16::from(primitive)) as i16
}

fn extension_of(made: &Compiled) -> Value
    ensures { result ≡ rules.extension_of made.now }
{
    Value::Int(extension(made.arguments, made.primitive))
}

fn put_tail(literals: &mut Values, made: &Compiled, class: Value) -> Result<(), AllocError>
    ensures { OnOk result (literals.new ≡ literals.old ++ rules.tail_of made.now class) }
{
    if has_extension(made) {
        literals.push(extension_of(made))?;
        literals.push(class)?;
        return Ok(());
    }
    if made.sends_super {
        literals.push(class)?;
    }
    Ok(())
}

/// Whether a pool has all of these numbers.
fn has_all(pool: &[Value], numbers: &[u32]) -> bool
    ensures { result ≡ rules.has_all pool.now numbers.now }
{
    numbers.iter().all(|n| (*n as usize) < pool.len())
}

fn value_at(pool: &[Value], n: u32) -> Value
    ensures { result ≡ rules.value_at pool.now n }
{
    pool.get(n as usize).copied().unwrap_or(Value::Int(0))
}

/// The values of numbers of a pool.
fn values_of(alloc: Global, pool: &[Value], numbers: &[u32]) -> Result<Values, AllocError>
    ensures { IfOk result (λ values. values ≡ rules.values_of pool.now numbers.now) }
{
    let mut values = Values::new(alloc);
    for number in numbers {
        values.push(value_at(pool, *number))?;
    }
    Ok(values)
}

/// The body of a method's object.
pub fn method_body(
    alloc: Global,
    made: &Compiled,
    pool: &[Value],
    class: Value,
) -> Result<Body, NoBody>
    ensures body { IfOk result (rules.IsObjectOf made.now pool.now class) }
    ensures unknown { IfErr result (λ why. rules.IsWhy why (rules.has_all pool.now made.now.literals.items)) }
{
    if !has_all(pool, &made.literals) {
        return Err(NoBody::UnknownLiteral);
    }
    let mut literals = values_of(alloc, pool, &made.literals)?;
    put_tail(&mut literals, made, class)?;
    let code = Octets::from_slice(alloc, &made.code)?;
    let header = signed(header_bits(made, literals.len()));
    Ok(Body::Method {
        header,
        literals,
        code,
    })
}
