//! The names of the two levels.

ghost use Rattle.settings.specs.Names.{secrecy_name, secrecy_told};

use crate::named::NamedLevel;
use levels::Secrecy;
use std::alloc::{AllocError, Global};

impl NamedLevel for Secrecy {
    ghost named = { secrecy_name };

    ghost told = { secrecy_told };

    fn name(self, heap: Global) -> Result<String, AllocError> {
        match self {
            Secrecy::Public => String::from_str(heap, "public"),
            Secrecy::Secret => String::from_str(heap, "secret"),
        }
    }

    fn order_words() -> &'static str {
        "two levels, public below secret"
    }
}
