// Values and long words.
ghost use Rattle.std.specs.Prelude.{◌≡◌, IfSome, Some};
ghost use Rattle.long_names.specs.Words.{IsValue};
ghost use Rattle.long_names.specs.Words as words;

use crate::limits::SMALL_INTEGERS;
use crate::name::Name;

/// What a field holds: a SmallInteger from -16384 to 16383, or a name.
#[derive(Clone, Copy, Debug, PartialEq, Eq)]
pub enum Value {
    Int(i16),
    Ref(Name),
}

impl Value {
    ghost use Rattle.long_names.specs.Objects.{name_of, int_of};

    /// The name that it is, if it is one.
    #[inline(always)]
    pub fn name(&self) -> Option<Name>
        ensures { result ≡ name_of self.now }
    {
        match self {
            Value::Int(_) => None,
            Value::Ref(name) => Some(*name),
        }
    }

    /// The number that it is, if it is one.
    #[inline(always)]
    pub fn number(&self) -> Option<i16>
        ensures { result ≡ int_of self.now }
    {
        match self {
            Value::Int(number) => Some(*number),
            Value::Ref(_) => None,
        }
    }
}

impl From<Name> for Value {
    ghost use Rattle.std.specs.Prelude.{◌≡◌};
    ghost use Rattle.long_names.specs.Words.{IsValue};
    ghost use Rattle.long_names.specs.declared.value.Value.TheVariants.{Ref};

    ghost from_gives = { λ name v. (v ≡ Ref name) × IsValue v };

    #[inline(always)]
    fn from(name: Name) -> Value {
        let _word = name.get();
        Value::Ref(name)
    }
}

/// The long word of a value: of a SmallInteger twice the number and 1, in two's complement (chapter 30).
#[inline(always)]
pub fn long_word(v: Value) -> u32
    requires { IsValue v }
    ensures word { result ≡ words.long_word v }
    ensures read_back { words.value_of result ≡ Some v }
{
    match v {
        Value::Int(number) => {
            if number >= 0 {
                2 * (number as u32) + 1
            } else {
                u32::MAX - 2 * ((-1 - number) as u32)
            }
        }
        Value::Ref(name) => name.get(),
    }
}

/// The value of a long word. None exactly for 0 and for a SmallInteger out of range.
#[inline(always)]
pub fn value_of(word: u32) -> Option<Value>
    ensures value { result ≡ words.value_of word }
    ensures word { IfSome result (λ v. IsValue v × (words.long_word v ≡ word)) }
{
    if word % 2 == 0 {
        return match Name::new(word) {
            Some(name) => Some(Value::Ref(name)),
            None => None,
        };
    }
    let half = word / 2;
    if half < SMALL_INTEGERS {
        return Some(Value::Int(half as i16));
    }
    if half >= 0x8000_0000 - SMALL_INTEGERS {
        return Some(Value::Int(-1 - ((0x7FFF_FFFF - half) as i16)));
    }
    None
}
