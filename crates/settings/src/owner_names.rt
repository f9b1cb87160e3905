//! The names of the sets of owners: their numbers in braces.

ghost use Rattle.std.specs.Prelude.{◌≡◌, IfOk, string_bytes};
ghost use Rattle.settings.specs.Names.{owner_name, owners_told, all_numbers, separator};

use crate::named::NamedLevel;
use levels::Owners;
use std::alloc::{AllocError, Global};

/// What stands before a number: nothing before the first.
fn separator(first: bool) -> &'static str
    ensures { result.now ≡ separator first }
{
    if first { "" } else { ", " }
}

/// The numbers of the owners in the set.
fn owner_numbers(heap: Global, set: u16) -> Result<String, AllocError>
    ensures { IfOk result (λ s. string_bytes s ≡ all_numbers set) }
{
    let mut out = String::new(heap);
    let mut left = set;
    let mut first = true;
    // Each turn halves what is left of the set, so that its lowest bit is this owner's; only the first number has no comma before it.
    for owner in 0..16u64 {
        if left % 2 == 1 {
            let before = separator(first);
            let number = format!(in heap; "{before}{owner}")?;
            out.push_str(number.as_str())?;
            first = false;
        }
        left /= 2;
    }
    Ok(out)
}

impl NamedLevel for Owners {
    ghost named = { owner_name };

    ghost told = { owners_told };

    fn name(self, heap: Global) -> Result<String, AllocError> {
        let numbers = owner_numbers(heap, self.set)?;
        format!(in heap; "{{{numbers}}}")
    }

    fn order_words() -> &'static str {
        "sets of owners, each below the sets that contain it"
    }
}
