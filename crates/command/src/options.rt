//! The values of the options that a call gives.

ghost use Rattle.std.specs.Prelude.{◌≡◌};
ghost use Rattle.command.specs.Options.{given, with_option, missing};

use crate::words::{OptionName, Verb};

// Places, and not the words, so that a call holds nothing of what it was read from.

/// For each option that is given, the place of the word that is its value.
#[derive(Clone, Copy, Debug, PartialEq, Eq)]
pub struct Options {
    pub levels: Option<usize>,
    pub order: Option<usize>,
    pub listener: Option<usize>,
    pub model: Option<usize>,
    pub values: Option<usize>,
    pub other: Option<usize>,
    pub steps: Option<usize>,
    pub lines: Option<usize>,
}

impl Options {
    /// Where the value of the option stands, if it is given.
    pub fn place_of(self, option: OptionName) -> Option<usize>
        ensures { result ≡ given option self }
    {
        match option {
            OptionName::Levels => self.levels,
            OptionName::Order => self.order,
            OptionName::Listener => self.listener,
            OptionName::Model => self.model,
            OptionName::Values => self.values,
            OptionName::Other => self.other,
            OptionName::Steps => self.steps,
            OptionName::Lines => self.lines,
        }
    }

    // The options with one more value.
    pub(crate) fn with(mut self, option: OptionName, place: usize) -> Options
        ensures { result ≡ with_option option place self }
    {
        match option {
            OptionName::Levels => self.levels = Some(place),
            OptionName::Order => self.order = Some(place),
            OptionName::Listener => self.listener = Some(place),
            OptionName::Model => self.model = Some(place),
            OptionName::Values => self.values = Some(place),
            OptionName::Other => self.other = Some(place),
            OptionName::Steps => self.steps = Some(place),
            OptionName::Lines => self.lines = Some(place),
        }
        self
    }

    // The first option that the verb wants and that is not given.
    pub(crate) fn missing(self, verb: Verb) -> Option<OptionName>
        ensures { result ≡ missing verb self }
    {
        if verb == Verb::Show {
            return None;
        }
        if self.levels.is_none() {
            return Some(OptionName::Levels);
        }
        if verb == Verb::Clear {
            return None;
        }
        if self.values.is_none() {
            return Some(OptionName::Values);
        }
        if verb == Verb::Run {
            return None;
        }
        if self.other.is_none() {
            return Some(OptionName::Other);
        }
        None
    }
}
