// What the primitives do with two numbers.
ghost use Rattle.std.specs.Prelude.{◌≡◌, IfSome};
ghost use Rattle.std.specs.Option.{option_and_then};
ghost use Rattle.long_names.specs.Words.{IsSmallInteger};
ghost use Rattle.blue_model.specs.Contexts.{stated};
ghost use Rattle.blue_model.specs.Trials.{primitive_in};
ghost use Rattle.blue_model.specs.Arithmetic.{integer_primitives};
ghost use Rattle.prims_integer.specs.Operations.{result_of, truth_of, rule_at};

use crate::numbers;
use blue_model::primitives::{
    PRIMITIVE_ADD, PRIMITIVE_BIT_AND, PRIMITIVE_BIT_OR, PRIMITIVE_BIT_SHIFT, PRIMITIVE_BIT_XOR,
    PRIMITIVE_DIV, PRIMITIVE_DIVIDE, PRIMITIVE_EQUAL, PRIMITIVE_GREATER_OR_EQUAL,
    PRIMITIVE_GREATER_THAN, PRIMITIVE_LESS_OR_EQUAL, PRIMITIVE_LESS_THAN, PRIMITIVE_MAKE_POINT,
    PRIMITIVE_MOD, PRIMITIVE_MULTIPLY, PRIMITIVE_NOT_EQUAL, PRIMITIVE_QUO, PRIMITIVE_SUBTRACT,
};

/// A number out of two.
#[derive(Clone, Copy, Debug, PartialEq, Eq)]
pub enum Arithmetic {
    Sum,
    Difference,
    Product,
    /// The quotient where nothing is left.
    ExactQuotient,
    /// What is left of the quotient rounded down.
    RemainderDown,
    QuotientDown,
    QuotientToZero,
    And,
    Or,
    Xor,
    /// Times 2 to the power of the argument, rounded down.
    Shift,
}

impl Arithmetic {
    /// The result, where there is one and it is a SmallInteger.
    #[inline(always)]
    pub(crate) fn result(self, a: i16, b: i16) -> Option<i16>
        requires receiver { IsSmallInteger a }
        requires argument { IsSmallInteger b }
        ensures result { result ≡ option_and_then stated (result_of self a b) }
        ensures range { IfSome result IsSmallInteger }
    {
        match self {
            Arithmetic::Sum => numbers::sum(a, b),
            Arithmetic::Difference => numbers::difference(a, b),
            Arithmetic::Product => numbers::product(a, b),
            Arithmetic::ExactQuotient => numbers::exact_quotient(a, b),
            Arithmetic::RemainderDown => numbers::remainder_down(a, b),
            Arithmetic::QuotientDown => numbers::quotient_down(a, b),
            Arithmetic::QuotientToZero => numbers::quotient_to_zero(a, b),
            Arithmetic::And => numbers::bits_and(a, b),
            Arithmetic::Or => numbers::bits_or(a, b),
            Arithmetic::Xor => numbers::bits_xor(a, b),
            Arithmetic::Shift => numbers::shifted(a, b),
        }
    }
}

/// Whether two numbers stand in an order.
#[derive(Clone, Copy, Debug, PartialEq, Eq)]
pub enum Comparison {
    Less,
    Greater,
    AtMost,
    AtLeast,
    Equal,
    Unequal,
}

impl Comparison {
    /// Whether the first stands so to the second.
    pub(crate) fn holds(self, a: i16, b: i16) -> bool
        requires receiver { IsSmallInteger a }
        requires argument { IsSmallInteger b }
        ensures { result ≡ truth_of self a b }
    {
        match self {
            Comparison::Less => a < b,
            Comparison::Greater => a > b,
            Comparison::AtMost => a <= b,
            Comparison::AtLeast => a >= b,
            Comparison::Equal => a == b,
            Comparison::Unequal => a != b,
        }
    }
}

/// What a primitive does with receiver and argument.
#[derive(Clone, Copy, Debug, PartialEq, Eq)]
pub enum Operation {
    /// It answers a number.
    Number(Arithmetic),
    /// It answers true or false.
    Truth(Comparison),
    /// It answers a new point.
    Point,
}

impl Operation {
    /// The operation of the primitive of this index, if it is one of 1 to 18.
    #[tactic(auto, unfolding(blue_model::specs::Machine::pick, blue_model::specs::Arithmetic::integer_primitives))]
    #[inline(always)]
    pub(crate) fn numbered(index: u8) -> Option<Operation>
        ensures { rule_at index result ≡ primitive_in integer_primitives index }
    {
        let operation = match index {
            PRIMITIVE_ADD => Operation::Number(Arithmetic::Sum),
            PRIMITIVE_SUBTRACT => Operation::Number(Arithmetic::Difference),
            PRIMITIVE_LESS_THAN => Operation::Truth(Comparison::Less),
            PRIMITIVE_GREATER_THAN => Operation::Truth(Comparison::Greater),
            PRIMITIVE_LESS_OR_EQUAL => Operation::Truth(Comparison::AtMost),
            PRIMITIVE_GREATER_OR_EQUAL => Operation::Truth(Comparison::AtLeast),
            PRIMITIVE_EQUAL => Operation::Truth(Comparison::Equal),
            PRIMITIVE_NOT_EQUAL => Operation::Truth(Comparison::Unequal),
            PRIMITIVE_MULTIPLY => Operation::Number(Arithmetic::Product),
            PRIMITIVE_DIVIDE => Operation::Number(Arithmetic::ExactQuotient),
            PRIMITIVE_MOD => Operation::Number(Arithmetic::RemainderDown),
            PRIMITIVE_DIV => Operation::Number(Arithmetic::QuotientDown),
            PRIMITIVE_QUO => Operation::Number(Arithmetic::QuotientToZero),
            PRIMITIVE_BIT_AND => Operation::Number(Arithmetic::And),
            PRIMITIVE_BIT_OR => Operation::Number(Arithmetic::Or),
            PRIMITIVE_BIT_XOR => Operation::Number(Arithmetic::Xor),
            PRIMITIVE_BIT_SHIFT => Operation::Number(Arithmetic::Shift),
            PRIMITIVE_MAKE_POINT => Operation::Point,
            _ => return None,
        };
        Some(operation)
    }
}
