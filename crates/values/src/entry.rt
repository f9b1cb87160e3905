//! What one line of values says.

ghost use Rattle.std.specs.Prelude.{◌≡◌, Ok, Err, MatchResult};
ghost use Rattle.values.specs.Entries.{number_in, ended, scalar_entry, element_entry, entry_of};
ghost use Rattle.values.specs.Words.{after_word};

use crate::faults::Reason;
use crate::words::split_word;
use columns::read_number;

// What a line gives a value to.
#[derive(Clone, Copy, Debug, PartialEq, Eq)]
pub enum Entry {
    Scalar { scalar: u32, value: u32 },
    Element { array: u32, index: u32, value: u32 },
}

// The number that is the first word, and what follows it.
fn number_in(text: &[u8]) -> Result<(u32, &[u8]), Reason>
    ensures { MatchResult result (λ parted. (number_in text.now ≡ Ok parted.0) × (parted.1.now ≡ after_word text.now)) (λ reason. number_in text.now ≡ Err reason) }
{
    let (word, rest) = split_word(text);
    if word.is_empty() {
        return Err(Reason::TooFewWords);
    }
    let number = read_number(word).ok_or(Reason::NoNumber)?;
    Ok((number, rest))
}

// The entry, if no word follows.
fn ended(text: &[u8], entry: Entry) -> Result<Option<Entry>, Reason>
    ensures { result ≡ ended text.now entry }
{
    let (word, _) = split_word(text);
    if word.is_empty() {
        Ok(Some(entry))
    } else {
        Err(Reason::TooManyWords)
    }
}

fn scalar_entry(text: &[u8]) -> Result<Option<Entry>, Reason>
    ensures { result ≡ scalar_entry text.now }
{
    let (scalar, text) = number_in(text)?;
    let (value, text) = number_in(text)?;
    ended(text, Entry::Scalar { scalar, value })
}

fn element_entry(text: &[u8]) -> Result<Option<Entry>, Reason>
    ensures { result ≡ element_entry text.now }
{
    let (array, text) = number_in(text)?;
    let (index, text) = number_in(text)?;
    let (value, text) = number_in(text)?;
    ended(
        text,
        Entry::Element {
            array,
            index,
            value,
        },
    )
}

// What the line says; `None`, if it has no word.
pub(crate) fn entry_of(line: &[u8]) -> Result<Option<Entry>, Reason>
    ensures { result ≡ entry_of line.now }
{
    let (word, text) = split_word(line);
    match word {
        b"" => Ok(None),
        b"scalar" => scalar_entry(text),
        b"array" => element_entry(text),
        _ => Err(Reason::UnknownWord),
    }
}
