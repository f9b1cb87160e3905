//! The sets of owners: joined by union, the empty set least.

ghost use Rattle.levels.specs.Owners.{owners_order};
ghost use Rattle.levels.specs.OwnersLaws.{owners_lawful};

use crate::level::Level;
use crate::owners::Owners;

impl Level for Owners {
    ghost order = { owners_order };

    ghost lawful = { owners_lawful };

    fn least() -> Owners {
        Owners { set: 0 }
    }

    fn join(self, other: Owners) -> Owners {
        Owners {
            set: self.set | other.set,
        }
    }

    fn flows_to(self, other: Owners) -> bool {
        self.set | other.set == other.set
    }
}
