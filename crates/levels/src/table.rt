//! A table of start levels: the level at place k is that of start name k.

ghost use Rattle.std.specs.Prelude.{◌≡◌, length};
ghost use Rattle.rules.specs.Clearance.{joined};
ghost use Rattle.levels.specs.Names.{has};
ghost use Rattle.levels.specs.Tables.{start_level, FlowTo};

use crate::level::Level;
use crate::name_set::NameSet;

/// The join of the start levels of the names in the set.
pub fn join_of<L: Level>(levels: &[L], names: NameSet) -> L
    ensures { result ≡ joined L.order (start_level L.order levels.now) (has names) (length levels.now) }
{
    let mut all = L::least();
    for (name, level) in levels.iter().enumerate() {
        if names.contains(name) {
            all = all.join(*level);
        }
    }
    all
}

/// The names below 32 whose start levels flow to the bound.
pub fn flowing<L: Level>(levels: &[L], bound: L) -> NameSet
    ensures { FlowTo L.order levels.now bound result }
{
    let mut names = NameSet::empty();
    for (name, level) in levels.iter().enumerate() {
        if level.flows_to(bound) {
            names = names.union(NameSet::single(name));
        }
    }
    names
}
