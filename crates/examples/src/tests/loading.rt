//! Loading and writing, on examples.

use listing::{Refusal, load, write};
use std::alloc::Global;
use std::fmt::Write;
use std::test::Fail;

/// A listing that is refused, and the number, line and field of the refusal.
#[derive(Clone, Copy)]
struct Case {
    text: &'static [u8],
    refusal: (u32, u32, u32),
}

/// A listing for each rule, and for some rules one for each field.
const CASES: [Case; 25] = [
    Case {
        text: b"",
        refusal: (1, 0, 0),
    },
    Case {
        text: b"   0 H          2          1          2           \n   0 A          0          4                      \n   0 R          1          0          0           \n   1 K          0          7                      ",
        refusal: (1, 3, 0),
    },
    Case {
        text: b"   0 H         02          0          1           \n   0 K          0          7                      \n",
        refusal: (2, 0, 2),
    },
    Case {
        text: b"   0 H          1          0          1           \n   0KK          0          7                      \n",
        refusal: (2, 1, 1),
    },
    Case {
        text: b"   0 H          1          0          1           \n   0 X          0          7                      \n",
        refusal: (2, 1, 1),
    },
    Case {
        text: b"   0 H          1          0          1           \n   0 K          0 4294967296                      \n",
        refusal: (2, 1, 3),
    },
    Case {
        text: b"   0 H          1          0          1           \n   0 K          0          7                      \r",
        refusal: (2, 1, 6),
    },
    Case {
        text: b"   0 H          1          0          1           \n   1 K          0          7                      \n",
        refusal: (3, 1, 0),
    },
    Case {
        text: b"   0 H          1          0          1           \n   0 A          0          7                      \n",
        refusal: (3, 1, 1),
    },
    Case {
        text: b"   0 K          0          7                      \n",
        refusal: (3, 0, 1),
    },
    Case {
        text: b"   0 H         25          9        129           \n",
        refusal: (4, 0, 2),
    },
    Case {
        text: b"   0 H         24          9        129           \n",
        refusal: (4, 0, 3),
    },
    Case {
        text: b"   0 H         24          8        129           \n",
        refusal: (4, 0, 4),
    },
    Case {
        text: b"   0 H          1          0          2           \n   0 K          0          7                      \n",
        refusal: (5, 0, 0),
    },
    Case {
        text: b"   0 H          1          0          0           \n   0 K          0          7                      \n",
        refusal: (5, 0, 0),
    },
    Case {
        text: b"   0 H          0          2          0           \n   0 A          0          4                      \n   1 A          3          4                      \n",
        refusal: (6, 2, 2),
    },
    Case {
        text: b"   0 H          0          1          0           \n   0 A        512          1                      \n",
        refusal: (6, 1, 2),
    },
    Case {
        text: b"   0 H          0          1          0           \n   0 A          0        257                      \n",
        refusal: (6, 1, 3),
    },
    Case {
        text: b"   0 H          0          1          0           \n   0 A        511          2                      \n",
        refusal: (6, 1, 3),
    },
    Case {
        text: b"   0 H          2          0          1           \n   0 O          0         12          2          2\n",
        refusal: (7, 1, 3),
    },
    Case {
        text: b"   0 H          2          1          1           \n   0 A          0          4                      \n   0 W          1          2          2           \n",
        refusal: (7, 2, 2),
    },
    Case {
        text: b"   0 H          1          0          1           \n   0 E          0                                 \n",
        refusal: (8, 1, 1),
    },
    Case {
        text: b"   0 H          1          0          3           \n   0 I          0          1                      \n   1 E          2                                 \n   2 F          1                                 \n",
        refusal: (8, 3, 2),
    },
    Case {
        text: b"   0 H          1          0          2           \n   0 I          0          1                      \n   1 E          2                                 \n",
        refusal: (8, 3, 0),
    },
    Case {
        text: b"   0 H          1          0          2           \n   0 L          0          1                      \n   1 J          1                                 \n",
        refusal: (8, 2, 2),
    },
];

/// The number, line and field by which a listing is refused.
fn refused(text: &[u8]) -> Option<(u32, u32, u32)> {
    let refusal = Refusal::from(load(text).err()?);
    Some((u32::from(refusal.rule), refusal.line, refusal.field))
}

/// Appends one line.
fn put(text: &mut String, number: u32, letter: char, operands: &[u32]) -> Result<(), Fail> {
    write!(text, "{number:>4} {letter}")?;
    for place in 0..4 {
        match operands.get(place) {
            Some(value) => write!(text, "{value:>11}")?,
            None => text.push_str("           ")?,
        }
    }
    text.push('\n')?;
    Ok(())
}

/// So many whiles, one inside the other.
fn nested(heap: Global, depth: u32) -> Result<String, Fail> {
    let mut text = String::new(heap);
    let nodes = depth.saturating_mul(2);
    put(&mut text, 0, 'H', &[1, 0, nodes])?;
    let last = nodes.saturating_sub(1);
    for head in 0..depth {
        put(&mut text, head, 'L', &[0, last.saturating_sub(head)])?;
    }
    for end in depth..nodes {
        put(&mut text, end, 'J', &[last.saturating_sub(end)])?;
    }
    Ok(text)
}

/// So many constants.
fn constants(heap: Global, scalars: u32, nodes: u32) -> Result<String, Fail> {
    let mut text = String::new(heap);
    put(&mut text, 0, 'H', &[scalars, 0, nodes])?;
    for number in 0..nodes {
        put(&mut text, number, 'K', &[number % 24, 4294967295])?;
    }
    Ok(text)
}

#[test]
fn each_refusal(rt: HostRuntime) {
    for case in CASES {
        assert_eq!(rt; refused(case.text), Some(case.refusal));
    }
}

#[test]
fn limits(rt: HostRuntime) -> Result<(), Fail> {
    let heap = rt.alloc();
    assert_eq!(rt; refused(crate::empty_routine()), None);
    assert_eq!(rt; refused(nested(heap, 16)?.as_bytes()), None);
    assert_eq!(rt; refused(nested(heap, 17)?.as_bytes()), Some((9, 17, 1)));
    assert_eq!(rt; refused(constants(heap, 24, 1)?.as_bytes()), None);
    assert_eq!(rt;
        refused(constants(heap, 25, 1)?.as_bytes()),
        Some((4, 0, 2))
    );
    Ok(())
}

#[test]
fn longest_is_written_back(rt: HostRuntime) -> Result<(), Fail> {
    let text = constants(rt.alloc(), 24, 128)?;
    let Ok(routine) = load(text.as_bytes()) else {
        return Err(Fail::new("refused"));
    };
    let mut room = [7u8; 7000];
    let Ok(count) = write(&routine, &mut room) else {
        return Err(Fail::new("no room"));
    };
    assert_eq!(rt; count, 6579);
    assert!(rt; &room[0..6579] == text.as_bytes());
    assert_eq!(rt; room[6579], 7);
    assert!(rt; write(&routine, &mut room[0..6578]).is_err());
    Ok(())
}
