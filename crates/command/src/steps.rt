//! How many steps a run makes at the most.

ghost use Rattle.std.specs.Prelude.{◌≡◌};
ghost use Rattle.command.specs.Steps.{steps_of};

use columns::read_number;

/// The most steps that can be asked for.
pub const MOST_STEPS: u32 = 1000000;

/// The number of steps that the word says; none where it is no number or above the most.
pub fn steps_of(word: &[u8]) -> Option<u32>
    ensures { result ≡ steps_of word.now }
{
    read_number(word).filter(|steps| *steps <= MOST_STEPS)
}
