//! That the way is a shortest one.

use crate::leak_path;
use crate::place::{Origin, Path};
use clearance::examine;
use leakage::Baseline;
use levels::Secrecy;
use listing::load;
use std::test::Fail;

// Scalar 0 goes into scalar 1 by a long branch and by a short one, and then is an index.
const FORKED: &[u8] =
    b"   0 H          3          1          8           \n   0 A          0          4                      \n   0 I          2          4                      \n   1 K          2          0                      \n   2 K          2          0                      \n   3 M          1          0                      \n   4 E          6                                 \n   5 M          1          0                      \n   6 F          0                                 \n   7 R          2          0          1           \n";

// A secret array's element goes into scalar 1, which then is an index.
const LOOKED_UP: &[u8] =
    b"   0 H          2          1          3           \n   0 A          0          4                      \n   0 K          0          0                      \n   1 R          1          0          0           \n   2 R          0          0          1           \n";

fn stands(path: &Path, index: usize, point: u32, scalar: u32) -> bool {
    let place = path.place(index);
    place.point == point && place.scalar == scalar
}

#[test]
fn the_short_branch(rt: HostRuntime) -> Result<(), Fail> {
    let levels = [
        Secrecy::Secret,
        Secrecy::Public,
        Secrecy::Public,
        Secrecy::Public,
    ];
    let exam = examine(load(FORKED)?, Baseline, &levels, Secrecy::Public);
    let path = leak_path(&exam).ok_or("no leak")?;
    assert_eq!(rt; path.count(), 4);
    assert!(rt; stands(&path, 0, 0, 0));
    assert!(rt; stands(&path, 1, 5, 0));
    assert!(rt; stands(&path, 2, 6, 1));
    assert!(rt; stands(&path, 3, 7, 1));
    Ok(())
}

#[test]
fn from_an_array(rt: HostRuntime) -> Result<(), Fail> {
    let levels = [Secrecy::Public, Secrecy::Public, Secrecy::Secret];
    let exam = examine(load(LOOKED_UP)?, Baseline, &levels, Secrecy::Public);
    let path = leak_path(&exam).ok_or("no leak")?;
    let node = match path.origin() {
        Origin::Start => 9,
        Origin::Read { node } => node,
    };
    assert_eq!(rt; node, 1);
    assert_eq!(rt; path.count(), 1);
    assert!(rt; stands(&path, 0, 2, 1));
    Ok(())
}
