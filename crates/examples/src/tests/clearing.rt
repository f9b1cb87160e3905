//! Clearing the small listings, under each model and in each order.

use crate::{
    copying_loop, indexed_store, lookup_after_constant, lookup_from_fourteen, quotient,
    table_lookup,
};
use clearance::{ClearFault, examine};
use leakage::{Baseline, CacheLine, LeakageModel, ProgramCounter, TimeVariable};
use levels::{Level, Owners, Pair, Secrecy};
use listing::load;
use std::process::Abort;

/// What came of clearing: a leak by its node, operand, bound and start name.
#[derive(Clone, Copy, PartialEq, Debug)]
enum Verdict {
    NotLoaded,
    WrongLength,
    Cleared,
    Leaks(u32, u32, u32, u32),
}

fn clearing<L: Level, M: LeakageModel>(
    text: &[u8],
    model: M,
    levels: &[L],
    listener: L,
) -> Verdict {
    let Ok(routine) = load(text) else {
        return Verdict::NotLoaded;
    };
    match examine(routine, model, levels, listener).outcome() {
        Ok(()) => Verdict::Cleared,
        Err(ClearFault::TableLength) => Verdict::WrongLength,
        Err(ClearFault::Leak(site)) => {
            Verdict::Leaks(site.node, site.operand, u32::from(site.bound), site.name)
        }
    }
}

/// The tables of an order that the listings are tried with.
#[derive(Clone, Copy)]
struct Tables<'a, L> {
    /// scalar 0 is secret, all else public
    first: &'a [L],
    /// scalar 1 is secret, all else public
    second: &'a [L],
    /// one level too few
    short: &'a [L],
    listener: L,
}

/// The models that do not look at operands.
fn accesses<L: Level>(rt: &impl Abort, tables: &Tables<'_, L>) {
    let first = tables.first;
    let listener = tables.listener;
    let leak = Verdict::Leaks(0, 3, 0, 0);
    let clear = Verdict::Cleared;
    assert_eq!(rt; clearing(table_lookup(), Baseline, first, listener), leak);
    assert_eq!(rt;
        clearing(table_lookup(), ProgramCounter, first, listener),
        clear
    );
    assert_eq!(rt;
        clearing(table_lookup(), CacheLine::Sixteen, first, listener),
        clear
    );
    assert_eq!(rt;
        clearing(lookup_from_fourteen(), CacheLine::Sixteen, first, listener),
        leak
    );
    assert_eq!(rt;
        clearing(lookup_after_constant(), Baseline, first, listener),
        clear
    );
    assert_eq!(rt;
        clearing(indexed_store(), ProgramCounter, first, listener),
        Verdict::Leaks(0, 2, 1, 0)
    );
}

/// The time-variable layer; a secret that a loop copies into its condition; a table of another length.
fn others<L: Level>(rt: &impl Abort, tables: &Tables<'_, L>) {
    let first = tables.first;
    let listener = tables.listener;
    let leak = Verdict::Leaks(0, 3, 0, 0);
    let timed = TimeVariable { below: Baseline };
    assert_eq!(rt;
        clearing(quotient(), Baseline, first, listener),
        Verdict::Cleared
    );
    assert_eq!(rt; clearing(quotient(), timed, first, listener), leak);
    assert_eq!(rt;
        clearing(quotient(), TimeVariable { below: timed }, first, listener),
        leak
    );
    assert_eq!(rt;
        clearing(copying_loop(), Baseline, tables.second, listener),
        Verdict::Leaks(0, 1, 0, 1)
    );
    assert_eq!(rt;
        clearing(quotient(), Baseline, tables.short, listener),
        Verdict::WrongLength
    );
}

#[test]
fn two_levels(rt: HostRuntime) {
    let tables = Tables {
        first: &[Secrecy::Secret, Secrecy::Public, Secrecy::Public],
        second: &[Secrecy::Public, Secrecy::Secret, Secrecy::Public],
        short: &[Secrecy::Secret, Secrecy::Public],
        listener: Secrecy::Public,
    };
    accesses(&rt, &tables);
    others(&rt, &tables);
}

#[test]
fn owner_sets(rt: HostRuntime) {
    let secret = Owners { set: 9 };
    let public = Owners { set: 1 };
    let tables = Tables {
        first: &[secret, public, public],
        second: &[public, secret, public],
        short: &[secret, public],
        listener: Owners { set: 5 },
    };
    accesses(&rt, &tables);
    others(&rt, &tables);
}

#[test]
fn pairs(rt: HostRuntime) {
    let secret = Pair {
        first: Secrecy::Public,
        second: Owners { set: 2 },
    };
    let public = Pair {
        first: Secrecy::Secret,
        second: Owners { set: 4 },
    };
    let tables = Tables {
        first: &[secret, public, public],
        second: &[public, secret, public],
        short: &[secret, public],
        listener: public,
    };
    accesses(&rt, &tables);
    others(&rt, &tables);
}
