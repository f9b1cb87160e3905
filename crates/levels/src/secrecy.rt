//! Public below secret.

ghost use Rattle.std.specs.Prelude.{◌≡◌, ok_or};
ghost use Rattle.levels.specs.Secrecy.{secrecy_order, secrecy_of};
ghost use Rattle.levels.specs.Laws.{secrecy_lawful};

use crate::level::Level;

/// Two levels: public is below secret.
#[derive(Clone, Copy, Debug, PartialEq, Eq, PartialOrd, Ord)]
pub enum Secrecy {
    Public,
    Secret,
}

impl Level for Secrecy {
    ghost order = { secrecy_order };

    ghost lawful = { secrecy_lawful };

    fn least() -> Secrecy {
        Secrecy::Public
    }

    fn join(self, other: Secrecy) -> Secrecy {
        self.max(other)
    }

    fn flows_to(self, other: Secrecy) -> bool {
        self <= other
    }
}

/// A byte that is no level digit.
#[derive(Clone, Copy, Debug, PartialEq, Eq)]
pub struct UnknownLevel(pub u8);

impl TryFrom<u8> for Secrecy {
    type Error = UnknownLevel;

    ghost try_from_gives = { λ digit result. result ≡ ok_or (secrecy_of digit) (record { 0 = digit }) };

    fn try_from(digit: u8) -> Result<Secrecy, UnknownLevel> {
        match digit {
            b'0' => Ok(Secrecy::Public),
            b'1' => Ok(Secrecy::Secret),
            _ => Err(UnknownLevel(digit)),
        }
    }
}
