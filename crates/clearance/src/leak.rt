//! A leak, and the search for it at one operand.

ghost use Rattle.std.specs.Prelude.{◌≡◌};
ghost use Rattle.std.specs.Option.{option_or};
ghost use Rattle.clearance.specs.Bounds.{bound_number};
ghost use Rattle.clearance.specs.Stops.{OperandAnswer};

use crate::unnamed::UnnamedBound;
use levels::NameSet;

/// What an operand is held to.
#[derive(Debug, Clone, Copy, PartialEq, Eq)]
pub enum Bound {
    /// The listener's level.
    Listener,
    /// The level of the array that is written.
    Array,
    /// Neither, by its number. No leak that is found has it, since its number is 0 or 1.
    Unnamed(UnnamedBound),
}

impl From<Bound> for u32 {
    ghost from_gives = { λ bound number. number ≡ bound_number bound };

    fn from(bound: Bound) -> u32 {
        match bound {
            Bound::Listener => 0,
            Bound::Array => 1,
            Bound::Unnamed(bound) => bound.number,
        }
    }
}

/// The bound that has the number.
impl From<u32> for Bound {
    ghost from_gives = { λ number bound. bound_number bound ≡ number };

    fn from(number: u32) -> Bound {
        match number {
            0 => Bound::Listener,
            1 => Bound::Array,
            _ => Bound::Unnamed(UnnamedBound { number }),
        }
    }
}

/// Where a leak is: at which node, by which operand, past which bound, of which start name.
#[derive(Debug, Clone, Copy, PartialEq, Eq)]
pub struct LeakSite {
    pub node: u32,
    pub operand: u32,
    pub bound: Bound,
    pub name: u32,
}

// An operand that is held to a bound, if `held` says so: the lowest of the names that reach it and do not flow to the bound.
// The last three are fields of the answer; a struct for them would be a second LeakSite without its name.
pub(crate) fn operand_leak(
    names: NameSet,
    flow: NameSet,
    held: bool,
    point: u32,
    operand: u32,
    bound: Bound,
) -> Option<LeakSite>
    ensures { OperandAnswer names flow held point operand bound result }
{
    if !held {
        return None;
    }
    let name = names.difference(flow).lowest()?;
    Some(LeakSite {
        node: point,
        operand,
        bound,
        name,
    })
}

// Of two leaks the first that there is.
pub(crate) fn first_of(first: Option<LeakSite>, second: Option<LeakSite>) -> Option<LeakSite>
    ensures { result ≡ option_or first second }
{
    first.or(second)
}
