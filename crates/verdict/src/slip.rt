//! The verdict slip, and its text.

ghost use Rattle.std.specs.Prelude.{◌≡◌, length};
ghost use Rattle.verdict.specs.Slips.{slip_word, slip_numbers, slip_text};

use clearance::LeakSite;
use columns::write_number;
use listing::Refusal;

/// What the marker sees: cleared, the leak, or why there is no answer.
#[derive(Clone, Copy, Debug, PartialEq, Eq)]
pub enum Slip {
    Clear,
    Leak(LeakSite),
    Refused(Refusal),
}

/// The word of the slip, in 8 columns.
fn word_of(slip: Slip) -> [u8; 8]
    ensures { result ≡ slip_word slip }
{
    match slip {
        Slip::Clear => *b"CLEAR   ",
        Slip::Leak(_) => *b"LEAK    ",
        Slip::Refused(_) => *b"REFUSED ",
    }
}

/// The four numbers of the slip.
fn numbers_of(slip: Slip) -> [u32; 4]
    ensures { result ≡ slip_numbers slip }
{
    match slip {
        Slip::Clear => [0; 4],
        Slip::Leak(site) => [site.node, site.operand, u32::from(site.bound), site.name],
        Slip::Refused(refusal) => [u32::from(refusal.rule), refusal.line, refusal.field, 0],
    }
}

/// Writes a slip over the whole room.
fn put_slip(slip: Slip, room: &mut [u8])
    requires { length room.old ≡ 53 }
    ensures { room.new ≡ slip_text slip }
{
    let word = word_of(slip);
    let numbers = numbers_of(slip);
    room[0..8].copy_from_slice(&word);
    // By place: after columns that are lent by `chunks_mut`, the proof knows the length of the room and not what it holds.
    for (i, number) in numbers.iter().enumerate() {
        let start = 8 + 11 * i;
        write_number(*number, &mut room[start..start + 11]);
    }
    room[52] = b'\n';
}

/// The 53 bytes of a slip.
pub fn slip_text(slip: Slip) -> [u8; 53]
    ensures { result ≡ slip_text slip }
{
    let mut bytes = [b' '; 53];
    put_slip(slip, &mut bytes);
    bytes
}
