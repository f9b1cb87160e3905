//! Why a listing was refused, in one sentence for each rule and field.

ghost use Rattle.std.specs.Prelude.{◌≡◌, Some};
ghost use Rattle.texts.specs.Reasons.{column_reason, region_reason, name_reason, block_reason, count_reason, place_reason, reason_of, reason_sentence};

use listing::{Refusal, Rule};
use std::fmt;

/// What is wrong with a listing.
#[derive(Clone, Copy, Debug, PartialEq, Eq)]
pub enum Reason {
    NoWholeLines,
    NumberColumn,
    LetterColumn,
    FirstColumn,
    SecondColumn,
    ThirdColumn,
    FourthColumn,
    NoNewline,
    NumberNotDue,
    LetterNotDue,
    ManyScalars,
    ManyArrays,
    ManyNodes,
    OtherLines,
    RegionStart,
    RegionLength,
    NoFirst,
    NoSecond,
    NoThird,
    NoFourth,
    LeftOpen,
    WrongPart,
    WrongHead,
    TooDeep,
    Other,
}

// A field is the place of a column in its line, as an operand is of a node: a position, and no kind.

/// A column that breaks its rule.
fn column_reason(field: u32) -> Reason
    ensures { result ≡ column_reason field }
{
    match field {
        0 => Reason::NumberColumn,
        1 => Reason::LetterColumn,
        2 => Reason::FirstColumn,
        3 => Reason::SecondColumn,
        4 => Reason::ThirdColumn,
        5 => Reason::FourthColumn,
        _ => Reason::NoNewline,
    }
}

/// A line that is not due where it stands.
fn place_reason(field: u32) -> Reason
    ensures { result ≡ place_reason field }
{
    match field {
        0 => Reason::NumberNotDue,
        _ => Reason::LetterNotDue,
    }
}

/// A count above its limit.
fn count_reason(field: u32) -> Reason
    ensures { result ≡ count_reason field }
{
    match field {
        2 => Reason::ManyScalars,
        3 => Reason::ManyArrays,
        _ => Reason::ManyNodes,
    }
}

/// An array that does not lie where it may.
fn region_reason(field: u32) -> Reason
    ensures { result ≡ region_reason field }
{
    match field {
        2 => Reason::RegionStart,
        _ => Reason::RegionLength,
    }
}

/// A name of nothing.
fn name_reason(field: u32) -> Reason
    ensures { result ≡ name_reason field }
{
    match field {
        2 => Reason::NoFirst,
        3 => Reason::NoSecond,
        4 => Reason::NoThird,
        _ => Reason::NoFourth,
    }
}

/// A part that is not closed as it was opened.
fn block_reason(field: u32) -> Reason
    ensures { result ≡ block_reason field }
{
    match field {
        0 => Reason::LeftOpen,
        1 => Reason::WrongPart,
        _ => Reason::WrongHead,
    }
}

/// The reason for a refusal, by the rule that is broken and the field.
impl From<Refusal> for Reason {
    ghost from_gives = { λ refusal reason. reason ≡ reason_of refusal };

    fn from(refusal: Refusal) -> Reason {
        match refusal.rule {
            Rule::Shape => Reason::NoWholeLines,
            Rule::Column => column_reason(refusal.field),
            Rule::Place => place_reason(refusal.field),
            Rule::Count => count_reason(refusal.field),
            Rule::Length => Reason::OtherLines,
            Rule::Region => region_reason(refusal.field),
            Rule::Name => name_reason(refusal.field),
            Rule::Block => block_reason(refusal.field),
            Rule::Depth => Reason::TooDeep,
            _ => Reason::Other,
        }
    }
}

impl Reason {
    /// The reason for a refusal, by the rule that is broken and the field.
    pub fn of(refusal: Refusal) -> Reason
        ensures { result ≡ reason_of refusal }
    {
        Reason::from(refusal)
    }

    /// The reason as a sentence.
    pub fn sentence(self) -> &'static str
        ensures { result.now ≡ reason_sentence self }
    {
        match self {
            Reason::NoWholeLines =>
                "The listing is empty, or it is not made of whole lines of 51 bytes.",
            Reason::NumberColumn =>
                "The line number is not a decimal number that ends in column 4, after blanks and without leading zeros.",
            Reason::LetterColumn =>
                "Columns 5 and 6 are not a blank and one of the letters H A K M O Q R W I E F L J.",
            Reason::FirstColumn =>
                "Operand 1 is not a number up to 4294967295 that ends in its last column, after blanks and without leading zeros.",
            Reason::SecondColumn =>
                "Operand 2 is not a number up to 4294967295 that ends in its last column, after blanks and without leading zeros, or is not blank where the letter takes none.",
            Reason::ThirdColumn =>
                "Operand 3 is not a number up to 4294967295 that ends in its last column, after blanks and without leading zeros, or is not blank where the letter takes none.",
            Reason::FourthColumn =>
                "Operand 4 is not a number up to 4294967295 that ends in its last column, after blanks and without leading zeros, or is not blank where the letter takes none.",
            Reason::NoNewline => "Column 51 is not a newline.",
            Reason::NumberNotDue =>
                "The line number is not the one due here: the header is 0, and arrays and nodes are each numbered from 0.",
            Reason::LetterNotDue =>
                "The letter is not one due here: first H, then A for each array, then the nodes.",
            Reason::ManyScalars => "The header counts more than 24 scalars.",
            Reason::ManyArrays => "The header counts more than 8 arrays.",
            Reason::ManyNodes => "The header counts more than 128 nodes.",
            Reason::OtherLines =>
                "The listing has more or fewer lines than the header counts: one for the header, each array and each node.",
            Reason::RegionStart =>
                "The array starts before the end of the array above it, or past cell 511.",
            Reason::RegionLength =>
                "The array's length is 0 or above 256, or the array runs past cell 511.",
            Reason::NoFirst => "Operand 1 names a scalar or an array that does not exist.",
            Reason::NoSecond =>
                "Operand 2 names a scalar, an array or an operator that does not exist.",
            Reason::NoThird => "Operand 3 names a scalar that does not exist.",
            Reason::NoFourth => "Operand 4 names a scalar that does not exist.",
            Reason::LeftOpen => "A block is still open after the last line.",
            Reason::WrongPart =>
                "This else or end does not fit the innermost open part: none is open, it is of another kind, or it named another node.",
            Reason::WrongHead =>
                "This end names another node than the head of the part that it ends.",
            Reason::TooDeep =>
                "This if or while would be the 17th open at once; at most 16 may be.",
            Reason::Other => "The listing is refused.",
        }
    }
}

impl fmt::Display for Reason {
    ghost output = { λ reason. Some (reason_sentence reason) };

    fn fmt<W: fmt::Write>(&self, f: &mut fmt::Formatter<W>) -> fmt::Result {
        f.write_str(self.sentence())
    }
}
