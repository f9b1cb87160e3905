//! One row put into another.

ghost use Rattle.std.specs.Prelude.{◌≡◌, ℕ, ◌^◌, ◌<◌, true, false, ◌⊎◌, ◌↔◌};
ghost use Rattle.levels.specs.Names.{Has};
ghost use Rattle.reach.specs.Merging.{Joined};

use levels::NameSet;

// Puts the names of another set into a set, and tells whether that brought new ones.
fn join(into: &mut NameSet, from: NameSet) -> bool
    ensures either { (name : ℕ) → (Has into.new name ↔ (Has into.old name ⊎ Has from name)) }
    ensures same { result ≡ false → into.new.bits ≡ into.old.bits }
    ensures grows { result ≡ true → into.old.bits < into.new.bits }
    ensures fits { into.new.bits < 2 ^ 32 }
{
    let joined = into.union(from);
    let grew = joined != *into;
    *into = joined;
    grew
}

// Puts the names of `from` into `into`, and tells whether that brought new ones.
pub(crate) fn merge(into: &mut [NameSet; 24], from: &[NameSet; 24]) -> bool
    ensures { Joined into.old from.now into.new result }
{
    let mut grew = false;
    // `from` is read by index: a zip was tried, and nothing is known of sets that were written through it.
    for (k, set) in into.iter_mut().enumerate() {
        grew |= join(set, from[k]);
    }
    grew
}
