// What the primitives do with two numbers.
ghost use Rattle.std.specs.Prelude.{◌≡◌};
ghost use Rattle.blue_model.specs.Trials.{primitive_in};
ghost use Rattle.blue_model.specs.LargeInts.{large_primitives, large_result};
ghost use Rattle.large_ints.specs.Operations.{result_of, truth_of, rule_at};

use crate::values;
use blue_model::primitives::{
    PRIMITIVE_LARGE_ADD, PRIMITIVE_LARGE_BIT_AND, PRIMITIVE_LARGE_BIT_OR,
    PRIMITIVE_LARGE_BIT_SHIFT, PRIMITIVE_LARGE_BIT_XOR, PRIMITIVE_LARGE_DIV,
    PRIMITIVE_LARGE_DIVIDE, PRIMITIVE_LARGE_EQUAL, PRIMITIVE_LARGE_GREATER_OR_EQUAL,
    PRIMITIVE_LARGE_GREATER_THAN, PRIMITIVE_LARGE_LESS_OR_EQUAL, PRIMITIVE_LARGE_LESS_THAN,
    PRIMITIVE_LARGE_MOD, PRIMITIVE_LARGE_MULTIPLY, PRIMITIVE_LARGE_NOT_EQUAL, PRIMITIVE_LARGE_QUO,
    PRIMITIVE_LARGE_SUBTRACT,
};

/// A number out of two.
#[derive(Clone, Copy, Debug, PartialEq, Eq)]
pub enum Arithmetic {
    Sum,
    Difference,
    Product,
    /// The quotient where nothing is left.
    ExactQuotient,
    /// What is left of the quotient rounded down.
    RemainderDown,
    QuotientDown,
    QuotientToZero,
    And,
    Or,
    Xor,
}

impl Arithmetic {
    /// The result, where there is one and it is in range.
    pub(crate) fn result(self, a: i128, b: i128) -> Option<i128>
        ensures { result ≡ large_result (result_of self) a b }
    {
        match self {
            Arithmetic::Sum => values::sum(a, b),
            Arithmetic::Difference => values::difference(a, b),
            Arithmetic::Product => values::product(a, b),
            Arithmetic::ExactQuotient => values::exact_quotient(a, b),
            Arithmetic::RemainderDown => values::remainder_down(a, b),
            Arithmetic::QuotientDown => values::quotient_down(a, b),
            Arithmetic::QuotientToZero => values::quotient_to_zero(a, b),
            Arithmetic::And => values::bits_and(a, b),
            Arithmetic::Or => values::bits_or(a, b),
            Arithmetic::Xor => values::bits_xor(a, b),
        }
    }
}

/// Whether two numbers stand in an order.
#[derive(Clone, Copy, Debug, PartialEq, Eq)]
pub enum Comparison {
    Less,
    Greater,
    AtMost,
    AtLeast,
    Equal,
    Unequal,
}

impl Comparison {
    /// Whether the first stands so to the second.
    pub(crate) fn holds(self, a: i128, b: i128) -> bool
        ensures { result ≡ truth_of self a b }
    {
        match self {
            Comparison::Less => a < b,
            Comparison::Greater => a > b,
            Comparison::AtMost => a <= b,
            Comparison::AtLeast => a >= b,
            Comparison::Equal => a == b,
            Comparison::Unequal => a != b,
        }
    }
}

/// What a primitive does with receiver and argument.
#[derive(Clone, Copy, Debug, PartialEq, Eq)]
pub enum Operation {
    /// It answers a number.
    Number(Arithmetic),
    /// It answers true or false.
    Truth(Comparison),
    /// It answers the receiver times 2 to the power of the argument, rounded down.
    Shift,
}

impl Operation {
    /// The operation of the primitive of this index, if it is one of 21 to 37.
    #[tactic(auto, unfolding(blue_model::specs::Machine::pick, blue_model::specs::LargeInts::large_primitives))]
    pub(crate) fn numbered(index: u8) -> Option<Operation>
        ensures { rule_at index result ≡ primitive_in large_primitives index }
    {
        let operation = match index {
            PRIMITIVE_LARGE_ADD => Operation::Number(Arithmetic::Sum),
            PRIMITIVE_LARGE_SUBTRACT => Operation::Number(Arithmetic::Difference),
            PRIMITIVE_LARGE_LESS_THAN => Operation::Truth(Comparison::Less),
            PRIMITIVE_LARGE_GREATER_THAN => Operation::Truth(Comparison::Greater),
            PRIMITIVE_LARGE_LESS_OR_EQUAL => Operation::Truth(Comparison::AtMost),
            PRIMITIVE_LARGE_GREATER_OR_EQUAL => Operation::Truth(Comparison::AtLeast),
            PRIMITIVE_LARGE_EQUAL => Operation::Truth(Comparison::Equal),
            PRIMITIVE_LARGE_NOT_EQUAL => Operation::Truth(Comparison::Unequal),
            PRIMITIVE_LARGE_MULTIPLY => Operation::Number(Arithmetic::Product),
            PRIMITIVE_LARGE_DIVIDE => Operation::Number(Arithmetic::ExactQuotient),
            PRIMITIVE_LARGE_MOD => Operation::Number(Arithmetic::RemainderDown),
            PRIMITIVE_LARGE_DIV => Operation::Number(Arithmetic::QuotientDown),
            PRIMITIVE_LARGE_QUO => Operation::Number(Arithmetic::QuotientToZero),
            PRIMITIVE_LARGE_BIT_AND => Operation::Number(Arithmetic::And),
            PRIMITIVE_LARGE_BIT_OR => Operation::Number(Arithmetic::Or),
            PRIMITIVE_LARGE_BIT_XOR => Operation::Number(Arithmetic::Xor),
            PRIMITIVE_LARGE_BIT_SHIFT => Operation::Shift,
            _ => return None,
        };
        Some(operation)
    }
}
