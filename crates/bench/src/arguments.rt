//! The call: which command, on which file, with which options.

ghost use Rattle.std.specs.Prelude.{◌≡◌};
ghost use Rattle.bench.specs.Calls.{call_of, verb_of, option_of};

use std::alloc::{AllocError, Global};

pub const USAGE: &str =
    "usage: bench show FILE                                  show a listing node by node, or say why it is refused\n       bench clear FILE --levels TABLE [OPTION VALUE]..  say whether the routine is cleared, or where it leaks\n       bench help                                       show this text\n\nFILE is a listing of at most 65536 bytes; - is standard input.\n\nOptions of clear:\n  --levels TABLE     the level of each scalar, then of each array\n  --order ORDER      two (default): a table is a row of digits, 0 public and 1 secret\n                     owners: a table is a row of codes with commas, each the sum of 2 to the power of\n                     the number of each owner, 0 to 15, who may know\n  --listener LEVEL   the level of the listener; by default the least, public or nobody's\n  --model MODEL      what the listener hears: pc, baseline (default), line16 or line8;\n                     with tv+ in front also how long the operands of a division are\n\nexamples: bench show examples/lookup.lst\n          bench clear examples/lookup.lst --levels 100 --model line16\n          bench clear examples/lookup.lst --order owners --levels 9,1,1 --listener 1\n\nThe status is 0; it is 1 where the listing is refused or leaks, or something went wrong.\n";

// The crate `command` reads the words of a program that has two more commands, run and twin. Until bench has them, its words, faults and help are its own.

/// What the first word asks for.
#[derive(Clone, Copy, Debug, PartialEq, Eq)]
pub enum Verb {
    Help,
    Show,
    Clear,
}

/// An option, which takes the word after it.
#[derive(Clone, Copy, Debug, PartialEq, Eq)]
pub enum OptionName {
    Levels,
    Order,
    Listener,
    Model,
}

/// What is wrong with a call.
#[derive(Clone, Copy, Debug, PartialEq, Eq)]
pub enum Misuse {
    NoCommand,
    UnknownCommand,
    WordAfterHelp,
    NoFile,
    SecondFile,
}

// A call without options is told by how many words it has, one with options by the word that is wrong.

/// What is wrong with the options of a call, and the word where it is.
#[derive(Clone, Copy, Debug, PartialEq, Eq)]
pub enum OptionFault<'a> {
    Unknown { word: &'a str },
    Repeated { word: &'a str },
    NoValue { word: &'a str },
    NoFile,
    SecondFile { word: &'a str },
}

/// The verb that the word names.
pub fn verb_of(word: &str) -> Option<Verb>
    ensures { result ≡ verb_of word.now }
{
    match word {
        "show" => Some(Verb::Show),
        "clear" => Some(Verb::Clear),
        "help" | "--help" | "-h" => Some(Verb::Help),
        _ => None,
    }
}

/// The option that the word names.
pub fn option_of(word: &str) -> Option<OptionName>
    ensures { result ≡ option_of word.now }
{
    match word {
        "--levels" => Some(OptionName::Levels),
        "--order" => Some(OptionName::Order),
        "--listener" => Some(OptionName::Listener),
        "--model" => Some(OptionName::Model),
        _ => None,
    }
}

/// What a call of `count` words asks for, the first of which names the verb.
pub fn call_of(count: usize, verb: Option<Verb>) -> Result<Verb, Misuse>
    ensures { result ≡ call_of count verb }
{
    if count == 0 {
        return Err(Misuse::NoCommand);
    }
    match verb.ok_or(Misuse::UnknownCommand)? {
        Verb::Help if count > 1 => Err(Misuse::WordAfterHelp),
        Verb::Show if count < 2 => Err(Misuse::NoFile),
        Verb::Show if count > 2 => Err(Misuse::SecondFile),
        verb => Ok(verb),
    }
}

/// The word at that place, or nothing.
pub fn word_at(words: &[String], place: usize) -> &str {
    words.get(place).map_or("", String::as_str)
}

/// Whether the word begins as an option does.
fn is_dashed(word: &str) -> bool {
    word.starts_with("--")
}

/// The words of a call with options: the file, and the value of each option that is given.
#[derive(Clone, Copy, Debug, PartialEq, Eq)]
pub struct Options<'a> {
    pub file: &'a str,
    pub levels: Option<&'a str>,
    pub order: Option<&'a str>,
    pub listener: Option<&'a str>,
    pub model: Option<&'a str>,
}

impl<'a> Options<'a> {
    /// Reads the words after the verb.
    pub fn of(words: &'a [String]) -> Result<Options<'a>, OptionFault<'a>> {
        let mut options = Options {
            file: "",
            levels: None,
            order: None,
            listener: None,
            model: None,
        };
        let mut file = None;
        let mut rest = words.get(1..).unwrap_or(&[]);
        while let Some((word, after)) = rest.split_first() {
            let word = word.as_str();
            rest = after;
            if let Some(option) = option_of(word) {
                let (value, after) = rest.split_first().ok_or(OptionFault::NoValue { word })?;
                options.give(option, value.as_str(), word)?;
                rest = after;
            } else {
                take_file(&mut file, word)?;
            }
        }
        options.file = file.ok_or(OptionFault::NoFile)?;
        Ok(options)
    }

    /// Gives the option, which is this word, its value.
    fn give(
        &mut self,
        option: OptionName,
        value: &'a str,
        word: &'a str,
    ) -> Result<(), OptionFault<'a>> {
        let place = match option {
            OptionName::Levels => &mut self.levels,
            OptionName::Order => &mut self.order,
            OptionName::Listener => &mut self.listener,
            OptionName::Model => &mut self.model,
        };
        if place.is_some() {
            return Err(OptionFault::Repeated { word });
        }
        *place = Some(value);
        Ok(())
    }
}

/// Takes the word as the file, if there is none yet.
fn take_file<'a>(file: &mut Option<&'a str>, word: &'a str) -> Result<(), OptionFault<'a>> {
    if is_dashed(word) {
        return Err(OptionFault::Unknown { word });
    }
    if file.is_some() {
        return Err(OptionFault::SecondFile { word });
    }
    *file = Some(word);
    Ok(())
}

/// What is wrong with the call, in words.
pub fn misuse_text(heap: Global, misuse: Misuse, words: &[String]) -> Result<String, AllocError> {
    let first = word_at(words, 0);
    let second = word_at(words, 1);
    let third = word_at(words, 2);
    match misuse {
        Misuse::NoCommand => String::from_str(heap, "no command"),
        Misuse::UnknownCommand => format!(in heap; "there is no command '{first}'"),
        Misuse::WordAfterHelp => format!(in heap; "{first} stands alone, without '{second}'"),
        Misuse::NoFile => format!(in heap; "{first} wants a file"),
        Misuse::SecondFile => format!(in heap; "{first} takes one file, and not '{third}' too"),
    }
}

/// What is wrong with the options of the verb, in words.
pub fn option_fault_text(
    heap: Global,
    fault: OptionFault<'_>,
    verb: &str,
) -> Result<String, AllocError> {
    match fault {
        OptionFault::Unknown { word } => format!(in heap; "{verb} has no option '{word}'"),
        OptionFault::Repeated { word } => format!(in heap; "{word} is given twice"),
        OptionFault::NoValue { word } => format!(in heap; "{word} wants a value"),
        OptionFault::NoFile => format!(in heap; "{verb} wants a file"),
        OptionFault::SecondFile { word } => {
            format!(in heap; "{verb} takes one file, and not '{word}' too")
        }
    }
}
