//! Level digits, read.

ghost use Rattle.std.specs.Prelude.{◌≡◌, map, length};
ghost use Rattle.verdict.specs.Digits.{first_wrong, level_of as level_by};

use levels::Secrecy;

/// The place of the first byte that is no level digit.
pub(crate) fn first_wrong(digits: &[u8]) -> Option<usize>
    ensures { result ≡ first_wrong 0 digits.now }
{
    digits
        .iter()
        .position(|digit| Secrecy::try_from(*digit).is_err())
}

/// The level of a digit.
fn level_of(digit: u8) -> Secrecy
    ensures { result ≡ level_by digit }
{
    Secrecy::try_from(digit).unwrap_or(Secrecy::Public)
}

/// The levels of the digits, into a table of as many places.
pub(crate) fn read_levels(digits: &[u8], table: &mut [Secrecy])
    requires { length table.old ≡ length digits.now }
    ensures { table.new ≡ map level_by digits.now }
{
    // By place: after a zip of the lent places with the digits, the proof knows nothing of what the table holds; with `array::from_fn` it was
    // tried, and did not close.
    for (place, digit) in digits.iter().enumerate() {
        table[place] = level_of(*digit);
    }
}
