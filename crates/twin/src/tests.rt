//! A trial of a small routine.

use crate::call::{Call, Reply, Script};
use crate::pair::{Declined, Two};
use crate::trying::trial;
use leakage::Baseline;
use levels::Secrecy;
use listing::load;
use run::{LeakLine, Memory, Place};
use std::test::Fail;

/// Scalar 0 becomes 7, and scalar 1 the element of array 0 at the index in scalar 0.
const LOOKUP: &[u8] =
    b"   0 H          2          1          2           \n   0 A          0          4                      \n   0 K          0          7                      \n   1 R          1          0          0           \n";

fn memory(secret: u32) -> Memory {
    let mut scalars = [0; 24];
    scalars[0] = secret;
    Memory {
        scalars,
        cells: [9; 512],
    }
}

#[test]
fn the_secret_is_not_heard(rt: HostRuntime) -> Result<(), Fail> {
    let routine = load(LOOKUP)?;
    let levels = [Secrecy::Secret, Secrecy::Public, Secrecy::Public];
    let calls = [Call::Advance(3), Call::Ask(Place::Scalar(1))];
    let mut answers = [Ok(Reply::Fed); 2];
    let mut replies = [Ok(Reply::Fed); 2];
    let mut lines = [LeakLine { node: 5, mark: 5 }; 3];
    let mut traces = [LeakLine { node: 6, mark: 6 }; 3];
    let memories = Two {
        first: memory(1),
        second: memory(2),
    };
    let one = Script {
        calls: &calls,
        answers: &mut answers,
        lines: &mut lines,
    };
    let two = Script {
        calls: &calls,
        answers: &mut replies,
        lines: &mut traces,
    };
    match trial(
        routine,
        Baseline,
        &levels,
        Secrecy::Public,
        memories,
        one,
        two,
    ) {
        Ok(Two { first, second }) => {
            assert_eq!(rt; first.scalars[1], 0);
            assert_eq!(rt; second.cells[511], 0);
        }
        Err(
            Declined {
                reason: _,
                memories: Two {
                    first: _,
                    second: _,
                },
            },
        ) => return Err(Fail::new("declined")),
    }
    let (Ok(Reply::Asked(one)), Ok(Reply::Asked(two))) = (answers[1], replies[1]) else {
        return Err(Fail::new("not told"));
    };
    assert_eq!(rt; (one, two), (9, 9));
    assert_eq!(rt; (lines[1].node, lines[1].mark), (1, 0));
    assert_eq!(rt; (traces[1].node, traces[1].mark), (1, 0));
    assert_eq!(rt; (lines[2].node, traces[2].node), (5, 6));
    Ok(())
}
