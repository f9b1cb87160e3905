//! Levels whose tables stand in one word of a call.

ghost use Rattle.std.specs.Prelude.{◌≡◌, ℕ, List, IfOk, Option, vec_items};
ghost use Rattle.std.specs.Option.{option_map};
ghost use Rattle.settings.specs.Tables.{two_levels_of, owner_codes_of, codes_of, secrecy_wanted, owners_wanted};

use crate::named::NamedLevel;
use crate::reading::{owner_sets, two_levels};
use levels::{Owners, Secrecy};
use std::alloc::{AllocError, Global};

/// A level whose tables a word of the call can hold.
pub trait TableLevel: NamedLevel {
    /// Which levels the bytes of a word hold, if they hold a table.
    ghost holds: { List ℕ → Option (List Self) → Type 0 };

    /// What such a word has, in words.
    ghost wanted: { List ℕ };

    /// The table that the word holds; none where it holds none.
    fn table(heap: Global, word: &[u8]) -> Result<Option<Vec<Self>>, AllocError>
        ensures { IfOk result (λ o. holds word.now (option_map vec_items o)) };

    /// What such a word has, as a text.
    fn table_words() -> &'static str
        ensures { result.now ≡ wanted };
}

impl TableLevel for Secrecy {
    ghost holds = { λ word levels. levels ≡ two_levels_of word };

    ghost wanted = { secrecy_wanted };

    fn table(heap: Global, word: &[u8]) -> Result<Option<Vec<Secrecy>>, AllocError> {
        two_levels(heap, word)
    }

    fn table_words() -> &'static str {
        "digits 0 (public) and 1 (secret)"
    }
}

impl TableLevel for Owners {
    ghost holds = { λ word levels. option_map codes_of levels ≡ owner_codes_of word };

    ghost wanted = { owners_wanted };

    fn table(heap: Global, word: &[u8]) -> Result<Option<Vec<Owners>>, AllocError> {
        owner_sets(heap, word)
    }

    fn table_words() -> &'static str {
        "codes from 0 to 65535, with commas between them"
    }
}
