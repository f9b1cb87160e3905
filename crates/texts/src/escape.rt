//! Bytes of a listing, shown so that each can be seen.

ghost use Rattle.std.specs.Prelude.{◌≡◌, ◌<◌, ◌++◌, IfOk, string_bytes, OnOk};
ghost use Rattle.texts.specs.Escapes.{hex, by_digits, escaped, escaped_text};

use std::alloc::{AllocError, Global};

/// The digit of a half byte.
fn hex_digit(half: u8) -> char
    requires { half < 16 }
    ensures is { result ≡ hex half }
    ensures ascii { result < 128 }
{
    if half < 10 {
        (b'0' + half) as char
    } else {
        (b'a' - 10 + half) as char
    }
}

/// Adds the two digits of the byte, after their sign.
fn put_hex(out: &mut String, byte: u8) -> Result<(), AllocError>
    ensures { OnOk result (string_bytes out.new ≡ string_bytes out.old ++ by_digits byte) }
{
    out.push_str("\\x")?;
    out.push(hex_digit(byte / 16))?;
    out.push(hex_digit(byte % 16))?;
    Ok(())
}

/// Adds the byte itself where it can be seen, else its escape.
fn put_byte(out: &mut String, byte: u8) -> Result<(), AllocError>
    ensures { OnOk result (string_bytes out.new ≡ string_bytes out.old ++ escaped byte) }
{
    match byte {
        b'\t' => out.push_str("\\t"),
        b'\n' => out.push_str("\\n"),
        b'\r' => out.push_str("\\r"),
        b'\\' => out.push_str("\\\\"),
        32..=126 => out.push(byte as char),
        _ => put_hex(out, byte),
    }
}

/// The bytes, each shown.
pub fn escape(heap: Global, bytes: &[u8]) -> Result<String, AllocError>
    ensures { IfOk result (λ s. string_bytes s ≡ escaped_text bytes.now) }
{
    let mut out = String::new(heap);
    for byte in bytes {
        put_byte(&mut out, *byte)?;
    }
    Ok(out)
}
