//! What has been read of a call so far.

ghost use Rattle.std.specs.Prelude.{◌≡◌};
ghost use Rattle.command.specs.Calls.{take_option, take_plain, take_word, finished};

use crate::calling::{Call, CallFault};
use crate::options::Options;
use crate::words::{OptionName, Verb, is_dashed, option_of};

/// The file and the options so far, and the option whose value comes next.
#[derive(Clone, Copy, Debug, PartialEq, Eq)]
pub struct Draft {
    pub file: Option<usize>,
    pub options: Options,
    pub pending: Option<OptionName>,
}

impl Draft {
    // An option, whose value comes next.
    fn take_option(self, verb: Verb, option: OptionName, place: usize) -> Result<Draft, CallFault>
        ensures { result ≡ take_option verb option place self }
    {
        if !verb.takes(option) {
            return Err(CallFault::UnknownOption { place });
        }
        if self.options.place_of(option).is_some() {
            return Err(CallFault::Repeated { option });
        }
        Ok(Draft {
            pending: Some(option),
            ..self
        })
    }

    // A word that is no option: the file.
    fn take_plain(self, word: &str, place: usize) -> Result<Draft, CallFault>
        ensures { result ≡ take_plain word.now place self }
    {
        if is_dashed(word) {
            return Err(CallFault::UnknownOption { place });
        }
        if self.file.is_some() {
            return Err(CallFault::SecondFile { place });
        }
        Ok(Draft {
            file: Some(place),
            pending: None,
            ..self
        })
    }

    // The next word of the call.
    pub(crate) fn take(self, verb: Verb, word: &str, place: usize) -> Result<Draft, CallFault>
        ensures { result ≡ take_word verb word.now place self }
    {
        if let Some(option) = self.pending {
            return Ok(Draft {
                options: self.options.with(option, place),
                pending: None,
                ..self
            });
        }
        match option_of(word) {
            Some(option) => self.take_option(verb, option, place),
            None => self.take_plain(word, place),
        }
    }

    // The call, once all its words are read.
    pub(crate) fn finish(self, verb: Verb) -> Result<Call, CallFault>
        ensures { result ≡ finished verb self }
    {
        if let Some(option) = self.pending {
            return Err(CallFault::NoValue { option });
        }
        let file = self.file.ok_or(CallFault::NoFile)?;
        if let Some(option) = self.options.missing(verb) {
            return Err(CallFault::Missing { option });
        }
        Ok(Call::On {
            verb,
            file,
            options: self.options,
        })
    }
}
