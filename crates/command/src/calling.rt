//! A call, read from its words.

ghost use Rattle.std.specs.Prelude.{◌≡◌, Some};
ghost use Rattle.command.specs.Calls.{empty_draft, read_words, verb_call, call_of};

use crate::draft::Draft;
use crate::options::Options;
use crate::words::{OptionName, Verb, is_help, verb_of};

/// What is asked for.
#[derive(Clone, Copy, Debug, PartialEq, Eq)]
pub enum Call {
    /// The text that says how to call.
    Help,
    /// Something to be done on a listing, whose file is the word at that place.
    On {
        verb: Verb,
        file: usize,
        options: Options,
    },
}

/// What is wrong with a call. A place is that of the word that is wrong.
#[derive(Clone, Copy, Debug, PartialEq, Eq)]
pub enum CallFault {
    NoCommand,
    UnknownCommand,
    WordAfterHelp,
    UnknownOption { place: usize },
    Repeated { option: OptionName },
    NoValue { option: OptionName },
    NoFile,
    SecondFile { place: usize },
    Missing { option: OptionName },
}

// What stands before the first word after the verb.
fn empty_draft() -> Draft
    ensures { result ≡ empty_draft }
{
    Draft {
        file: None,
        options: Options {
            levels: None,
            order: None,
            listener: None,
            model: None,
            values: None,
            other: None,
            steps: None,
            lines: None,
        },
        pending: None,
    }
}

// Reads the words after the verb.
fn read_words(verb: Verb, rest: &[String]) -> Result<Draft, CallFault>
    ensures { result ≡ read_words verb 1 rest.now empty_draft }
{
    let mut draft = empty_draft();
    for (index, word) in rest.iter().enumerate() {
        draft = draft.take(verb, word.as_str(), index + 1)?;
    }
    Ok(draft)
}

// The call of a verb, by the words after it.
fn verb_call(verb: Verb, rest: &[String]) -> Result<Call, CallFault>
    ensures { result ≡ verb_call (Some verb) rest.now }
{
    read_words(verb, rest)?.finish(verb)
}

/// What the words, after the program's name, ask for.
pub fn call_of(words: &[String]) -> Result<Call, CallFault>
    ensures { result ≡ call_of words.now }
{
    let (first, rest) = words.split_first().ok_or(CallFault::NoCommand)?;
    if is_help(first.as_str()) {
        if !rest.is_empty() {
            return Err(CallFault::WordAfterHelp);
        }
        return Ok(Call::Help);
    }
    let verb = verb_of(first.as_str()).ok_or(CallFault::UnknownCommand)?;
    verb_call(verb, rest)
}
