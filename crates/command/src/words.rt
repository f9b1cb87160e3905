//! The words that a call knows.

ghost use Rattle.std.specs.Prelude.{◌≡◌, Some};
ghost use Rattle.command.specs.Words.{is_help, verb_of, option_of, option_word, takes, is_dashed};

use std::fmt;

/// What is done with a listing.
#[derive(Clone, Copy, Debug, PartialEq, Eq)]
pub enum Verb {
    Show,
    Clear,
    Run,
    Twin,
}

/// An option, which takes the word after it.
#[derive(Clone, Copy, Debug, PartialEq, Eq)]
pub enum OptionName {
    Levels,
    Order,
    Listener,
    Model,
    Values,
    Other,
    Steps,
    Lines,
}

// Whether the word asks for help.
pub(crate) fn is_help(word: &str) -> bool
    ensures { result ≡ is_help word.now }
{
    matches!(word, "help" | "--help" | "-h")
}

// A word that names no verb or no option is `None`, with no error of its own: the caller tells the fault with the word's place.

// The verb that the word names.
pub(crate) fn verb_of(word: &str) -> Option<Verb>
    ensures { result ≡ verb_of word.now }
{
    match word {
        "show" => Some(Verb::Show),
        "clear" => Some(Verb::Clear),
        "run" => Some(Verb::Run),
        "twin" => Some(Verb::Twin),
        _ => None,
    }
}

// The option that the word names.
pub(crate) fn option_of(word: &str) -> Option<OptionName>
    ensures { result ≡ option_of word.now }
{
    match word {
        "--levels" => Some(OptionName::Levels),
        "--order" => Some(OptionName::Order),
        "--listener" => Some(OptionName::Listener),
        "--model" => Some(OptionName::Model),
        "--values" => Some(OptionName::Values),
        "--other" => Some(OptionName::Other),
        "--steps" => Some(OptionName::Steps),
        "--lines" => Some(OptionName::Lines),
        _ => None,
    }
}

// Whether the word begins as an option does.
pub(crate) fn is_dashed(word: &str) -> bool
    ensures { result ≡ is_dashed word.now }
{
    word.starts_with("--")
}

impl OptionName {
    /// The option as it is written.
    pub fn word(self) -> &'static str
        ensures { result.now ≡ option_word self }
    {
        match self {
            OptionName::Levels => "--levels",
            OptionName::Order => "--order",
            OptionName::Listener => "--listener",
            OptionName::Model => "--model",
            OptionName::Values => "--values",
            OptionName::Other => "--other",
            OptionName::Steps => "--steps",
            OptionName::Lines => "--lines",
        }
    }
}

impl fmt::Display for OptionName {
    ghost output = { λ option. Some (option_word option) };

    fn fmt<W: fmt::Write>(&self, f: &mut fmt::Formatter<W>) -> fmt::Result {
        f.write_str(self.word())
    }
}

impl Verb {
    // Whether the verb has the option.
    pub(crate) fn takes(self, option: OptionName) -> bool
        ensures { result ≡ takes self option }
    {
        match (self, option) {
            (Verb::Show, _) => false,
            (_, OptionName::Levels)
            | (_, OptionName::Order)
            | (_, OptionName::Listener)
            | (_, OptionName::Model) => true,
            (Verb::Clear, _) => false,
            (_, OptionName::Values) | (_, OptionName::Steps) => true,
            (Verb::Run, OptionName::Lines) => true,
            (Verb::Twin, OptionName::Other) => true,
            _ => false,
        }
    }
}
