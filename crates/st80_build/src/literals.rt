// The literals of the pool as objects.
ghost use Rattle.std.specs.Prelude.{◌≤◌};

use crate::heap::{Heap, Stop};
use crate::plan::Plan;
use long_names::{Body, Name, Octets, Value};
use st80_pool::Entry;
use st80_program::Trees;

/// The bytes of an amount, the lowest first, without zeros behind the last.
fn large_bytes(heap: &Heap, amount: u128) -> Result<Octets, Stop> {
    let mut bytes = Octets::new(heap.alloc);
    let mut left = amount;
    for _ in 0..16 {
        if left == 0 {
            break;
        }
        bytes.push(u8::try_from(left % 256).unwrap_or(0))?;
        left /= 256;
    }
    Ok(bytes)
}

/// An amount with its sign, as a SmallInteger.
fn small(is_negative: bool, amount: u16) -> i16
    requires { amount ≤ 16384 }
{
    if is_negative {
        return (0 - i32::from(amount)) as i16;
    }
    amount as i16
}

/// An integer that is no SmallInteger.
fn large(heap: &mut Heap, is_negative: bool, amount: u128) -> Result<Value, Stop> {
    let class = if is_negative {
        Name::LARGE_NEGATIVE_INTEGER
    } else {
        Name::LARGE_POSITIVE_INTEGER
    };
    let bytes = large_bytes(heap, amount)?;
    let name = heap.name()?;
    heap.put(name, class, Body::Bytes(bytes))?;
    Ok(Value::Ref(name))
}

/// An integer: a SmallInteger where it is one.
fn integer(heap: &mut Heap, is_negative: bool, amount: u128) -> Result<Value, Stop> {
    match u16::try_from(amount) {
        Ok(few) if few < 16384 => Ok(Value::Int(small(is_negative, few))),
        Ok(few) if is_negative && few == 16384 => Ok(Value::Int(small(is_negative, few))),
        _ => large(heap, is_negative, amount),
    }
}

fn array(heap: &mut Heap, values: &[Value], numbers: &[u32]) -> Result<Value, Stop> {
    let mut fields = Vec::new(heap.alloc);
    for number in numbers {
        let value = match values.get(*number as usize) {
            Some(value) => *value,
            None => Value::Ref(Name::NIL),
        };
        fields.push(value)?;
    }
    Ok(Value::Ref(heap.made(Name::ARRAY, fields.as_slice())?))
}

/// A character of the table, of which the first name is that of code 0.
fn character(characters: &[Name], code: u8) -> Value {
    match characters.get(usize::from(code)) {
        Some(name) => Value::Ref(*name),
        None => Value::Ref(Name::NIL),
    }
}

/// The value of each number of the pool.
pub(crate) fn values_of(
    heap: &mut Heap,
    plan: &mut Plan,
    trees: &Trees,
    characters: &[Name],
) -> Result<Vec<Value>, Stop> {
    let mut values = Vec::new(heap.alloc);
    for entry in &trees.pool.entries {
        let value = match entry {
            Entry::Symbol(spelled) => Value::Ref(plan.symbol(heap, spelled.as_slice())?),
            Entry::Integer {
                is_negative,
                amount,
            } => integer(heap, *is_negative, *amount)?,
            Entry::Character(code) => character(characters, *code),
            Entry::Text(text) => {
                let name = heap.name()?;
                heap.put_bytes(name, Name::STRING, text.as_slice())?;
                Value::Ref(name)
            }
            Entry::Array(numbers) => array(heap, values.as_slice(), numbers.as_slice())?,
            Entry::Shared(number) => plan.shared_at(*number as usize),
        };
        values.push(value)?;
    }
    Ok(values)
}
