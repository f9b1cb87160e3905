//! Why a text of values is refused.

ghost use Rattle.std.specs.Prelude.{◌≡◌, Some};
ghost use Rattle.values.specs.Reasons.{reason_sentence};

use std::fmt;

/// What is wrong with a line of values.
#[derive(Clone, Copy, Debug, PartialEq, Eq)]
pub enum Reason {
    /// It begins with another word than `scalar` or `array`.
    UnknownWord,
    /// A word is missing.
    TooFewWords,
    /// A word follows the value.
    TooManyWords,
    /// A word is not a number.
    NoNumber,
    /// The routine has no such scalar.
    NoScalar,
    /// The routine has no such array.
    NoArray,
    /// The array has no such element.
    NoElement,
    /// A line above gives the same scalar or element.
    GivenTwice,
}

/// The first line that is refused, from 1 on, and what is wrong with it.
#[derive(Clone, Copy, Debug, PartialEq, Eq)]
pub struct ValuesFault {
    pub line: usize,
    pub reason: Reason,
}

impl Reason {
    /// The reason as a sentence.
    pub fn sentence(self) -> &'static str
        ensures { result.now ≡ reason_sentence self }
    {
        match self {
            Reason::UnknownWord =>
                "A line begins with scalar or with array, or is a comment after #.",
            Reason::TooFewWords => "A word is missing: scalar K V, or array J I V.",
            Reason::TooManyWords => "A word stands after the value: scalar K V, or array J I V.",
            Reason::NoNumber => "A number is decimal, at most 4294967295, without leading zeros.",
            Reason::NoScalar => "The routine has no such scalar.",
            Reason::NoArray => "The routine has no such array.",
            Reason::NoElement => "The array has no such element.",
            Reason::GivenTwice => "A line above gives this place a value already.",
        }
    }
}

impl fmt::Display for Reason {
    ghost output = { λ reason. Some (reason_sentence reason) };

    fn fmt<W: fmt::Write>(&self, f: &mut fmt::Formatter<W>) -> fmt::Result {
        f.write_str(self.sentence())
    }
}
