//! That the tables of both orders are read.

use crate::tables::TableLevel;
use levels::{Owners, Secrecy};
use std::test::Fail;

#[test]
fn digits_are_levels(rt: HostRuntime) -> Result<(), Fail> {
    let levels = Secrecy::table(rt.alloc(), b"10")?.ok_or("no table")?;
    assert_eq!(rt;
        levels.as_slice(),
        [Secrecy::Secret, Secrecy::Public].as_slice()
    );
    let none = Secrecy::table(rt.alloc(), b"12")?;
    assert!(rt; none.is_none());
    Ok(())
}

#[test]
fn codes_are_sets(rt: HostRuntime) -> Result<(), Fail> {
    let sets = Owners::table(rt.alloc(), b"9,65535")?.ok_or("no table")?;
    assert_eq!(rt;
        sets.as_slice(),
        [Owners { set: 9 }, Owners { set: 65535 }].as_slice()
    );
    let none = Owners::table(rt.alloc(), b"9,65536")?;
    assert!(rt; none.is_none());
    Ok(())
}
