//! The theorems, each on the contract of a small function that does nothing: its proof is the theorem's. `L` is the type of levels.

ghost use Rattle.std.specs.Prelude.{ℕ};
ghost use Rattle.rules.specs.Order.{Order, Lawful};
ghost use Rattle.rules.specs.Leakage.{Leakage, Honest};
ghost use Rattle.rules.specs.Standing.{two_levels, owner_sets, pairs, program_counter, baseline, cache_line, time_variable};
ghost use Rattle.rules.specs.Theorems.{PartialOrder, LeastUpperBound, ReachDecided, ReachExists, ClearsExactly, LeastOfTables, LeaksNamed, OpenTold, ClearsUpwards, WatchesNoMore, ClearsUnderLess, TwoRuns, Advances};
ghost use Rattle.rules.specs.Operators.{Numbered};
ghost use Rattle.rules.specs.Listings.{Listings as ListingsHold};

/// In every lawful order flowing is a partial order, and the join is the least upper bound.
pub fn flows_in_order<L>()
    ensures partial { (o : Order L) → Lawful o → PartialOrder o }
    ensures join { (o : Order L) → Lawful o → LeastUpperBound o }
{}

/// The orders that stand have the laws.
pub fn orders_lawful<First, Second>()
    ensures two { Lawful two_levels }
    ensures owners { Lawful owner_sets }
    ensures paired { (o : Order First) (q : Order Second) → Lawful o → Lawful q → Lawful (pairs o q) }
{}

/// The leakage models that stand show the promise.
pub fn models_honest()
    ensures counter { Honest program_counter }
    ensures base { Honest baseline }
    ensures lines { (cells : ℕ) → Honest (cache_line cells) }
    ensures layered { (l : Leakage) → Honest l → Honest (time_variable l) }
{}

/// Bits are the reach relation exactly when all can be derived by the rules of reach and they are closed under these rules.
pub fn reach_decided()
    ensures { ReachDecided }
{}

/// Every well-formed routine has bits that are its reach relation.
pub fn reach_exists()
    ensures { ReachExists }
{}

/// A typing table meets the rules exactly when no start name that reaches a held operand fails to flow to its bound.
pub fn clears_exactly<L>()
    ensures { ClearsExactly L }
{}

/// The least table meets the rules if any does, lies below every other, and tells what is open.
pub fn least_table<L>()
    ensures { LeastOfTables L }
{}

/// There is a leak exactly when no table meets the rules, and only one.
pub fn leaks_named<L>()
    ensures { LeaksNamed L }
{}

/// Some table tells what is open.
pub fn open_told<L>()
    ensures { OpenTold L }
{}

/// What is cleared for a listener is cleared for every listener above.
pub fn clears_upwards<L>()
    ensures { ClearsUpwards L }
{}

/// What is cleared under a model is cleared under every model that watches no more.
pub fn clears_under_less<L>()
    ensures { ClearsUnderLess L }
{}

/// The program counter watches no more than any model, cache lines no more than the baseline, and any model no more than time-variable over it.
pub fn models_compared()
    ensures counter { (l : Leakage) → WatchesNoMore program_counter l }
    ensures lines { (cells : ℕ) → WatchesNoMore (cache_line cells) baseline }
    ensures layered { (l : Leakage) → WatchesNoMore l (time_variable l) }
{}

/// Two runs of a cleared routine look the same to the listener.
pub fn two_runs<L>()
    ensures { TwoRuns L }
{}

/// The laws of advance and of its steps, over whole runs.
pub fn advances()
    ensures { Advances }
{}

/// The numbers of the operators, and the operators of the numbers, are each other's inverse.
pub fn operators_numbered()
    ensures { Numbered }
{}

/// What holds of the small listings to hand.
pub fn listings()
    ensures { ListingsHold }
{}
