//! What a type of levels has to be.

ghost use Rattle.std.specs.Prelude.{◌≡◌};
ghost use Rattle.rules.specs.Order.{Order, Lawful};

/// A level of secrecy: who may know a value.
pub trait Level: Copy {
    /// What the type means: its least level, its join, and which level flows to which.
    ghost order: { Order Self };

    /// The level of what everyone may know.
    fn least() -> Self
        ensures { result ≡ order.least };

    /// The level of what is made of two values.
    fn join(self, other: Self) -> Self
        ensures { result ≡ order.join self other };

    /// Whether who may know a value of the other level may know one of this level.
    fn flows_to(self, other: Self) -> bool
        ensures { result ≡ order.flows self other };

    ghost lawful: { Lawful order };
}
