//! The numbers by which listings name operators.

ghost use Rattle.std.specs.Prelude.{◌≡◌, Some, ok_or};
ghost use Rattle.rules.specs.Operators.{operator_number, operator_of};

use crate::Operator;

impl Operator {
    /// The number of this operator.
    pub fn number(self) -> u32
        ensures is { result ≡ operator_number self }
        ensures back { operator_of result ≡ Some self }
    {
        match self {
            Operator::Sum => 0,
            Operator::Difference => 1,
            Operator::Product => 2,
            Operator::And => 3,
            Operator::Or => 4,
            Operator::ExclusiveOr => 5,
            Operator::LeftShift => 6,
            Operator::RightShift => 7,
            Operator::Quotient => 8,
            Operator::Remainder => 9,
            Operator::Less => 10,
            Operator::Equal => 11,
        }
    }

    /// The operator with this number; none above 11.
    pub fn from_number(number: u32) -> Option<Operator>
        ensures is { result ≡ operator_of number }
        ensures back { (op : Operator) → result ≡ Some op → number ≡ operator_number op }
    {
        match number {
            0 => Some(Operator::Sum),
            1 => Some(Operator::Difference),
            2 => Some(Operator::Product),
            3 => Some(Operator::And),
            4 => Some(Operator::Or),
            5 => Some(Operator::ExclusiveOr),
            6 => Some(Operator::LeftShift),
            7 => Some(Operator::RightShift),
            8 => Some(Operator::Quotient),
            9 => Some(Operator::Remainder),
            10 => Some(Operator::Less),
            11 => Some(Operator::Equal),
            _ => None,
        }
    }
}

impl From<Operator> for u32 {
    ghost from_gives = { λ operator number. number ≡ operator_number operator };

    fn from(operator: Operator) -> u32 {
        operator.number()
    }
}

/// A number that no operator has.
#[derive(Clone, Copy, Debug, PartialEq, Eq)]
pub struct UnknownOperator(pub u32);

impl TryFrom<u32> for Operator {
    type Error = UnknownOperator;

    ghost try_from_gives = { λ number result. result ≡ ok_or (operator_of number) (record { 0 = number }) };

    fn try_from(number: u32) -> Result<Operator, UnknownOperator> {
        Operator::from_number(number).ok_or(UnknownOperator(number))
    }
}
