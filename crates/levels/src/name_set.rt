//! Sets of start names.

ghost use Rattle.std.specs.Prelude.{◌≡◌, ℕ, ◌<◌, ◌≤◌, true, ◌⊎◌, ◌↔◌};
ghost use Rattle.levels.specs.Names.{Has, has, no_names, Lowest};

/// A set of start names below 32: name k is in it where bit k stands.
#[derive(Clone, Copy, Debug, PartialEq, Eq)]
pub struct NameSet {
    bits: u32,
}

impl NameSet {
    /// No name.
    pub fn empty() -> NameSet
        ensures is { result ≡ no_names }
        ensures holds { (k : ℕ) → Has result k → ⊥ }
    {
        NameSet { bits: 0 }
    }

    /// One name; a name from 32 on gives no name.
    pub fn single(name: usize) -> NameSet
        ensures { (k : ℕ) → (Has result k ↔ ((k < 32) × (k ≡ name))) }
    {
        if name < 32 {
            NameSet { bits: 1 << name }
        } else {
            NameSet::empty()
        }
    }

    /// Whether the name is in the set; no name from 32 on is.
    pub fn contains(self, name: usize) -> bool
        ensures { result ≡ has self name }
    {
        name < 32 && (self.bits >> name) & 1 == 1
    }

    /// The names of either set.
    pub fn union(self, other: NameSet) -> NameSet
        ensures either { (k : ℕ) → (Has result k ↔ (Has self k ⊎ Has other k)) }
        ensures grows { self.bits ≤ result.bits }
    {
        NameSet {
            bits: self.bits | other.bits,
        }
    }

    /// The names of this set that the other lacks.
    pub fn difference(self, other: NameSet) -> NameSet
        ensures { (k : ℕ) → (Has result k ↔ (Has self k × (Has other k → ⊥))) }
    {
        NameSet {
            bits: self.bits & !other.bits,
        }
    }

    /// Whether every name of this set is in the other.
    pub fn is_subset(self, other: NameSet) -> bool
        ensures { (result ≡ true) ↔ ((k : ℕ) → Has self k → Has other k) }
    {
        self.difference(other).bits == 0
    }

    /// The lowest name of the set.
    pub fn lowest(self) -> Option<u32>
        ensures { Lowest self result }
    {
        (0..32).find(|name| self.contains(*name as usize))
    }
}
