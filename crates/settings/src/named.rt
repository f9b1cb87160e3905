//! Levels that have a name.

ghost use Rattle.std.specs.Prelude.{◌≡◌, ℕ, List, IfOk, string_bytes};

use levels::Level;
use std::alloc::{AllocError, Global};

// The types of levels are of a crate that has no texts, so a level is named by a trait here, and not by Display.

/// A level with a name that a record shows.
pub trait NamedLevel: Level {
    /// The name.
    ghost named: { Self → List ℕ };

    /// The order that the level stands in, in words.
    ghost told: { List ℕ };

    /// The name, as a text.
    fn name(self, heap: Global) -> Result<String, AllocError>
        ensures { IfOk result (λ s. string_bytes s ≡ named self) };

    /// The order in words, as a text.
    fn order_words() -> &'static str
        ensures { result.now ≡ told };
}
