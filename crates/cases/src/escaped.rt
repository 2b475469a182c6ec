// Bytes as the table writes them: `\n` for byte 10, a backslash twice, `\xNN` for what is not printable.
ghost use Rattle.std.specs.Prelude.{◌<◌, length, IfSome};

use std::alloc::{AllocError, Global};

// The value of a digit of base sixteen, of which the letters are small; 0 for what is none.
fn digit(byte: u8) -> u8 {
    match byte {
        b'0'..=b'9' => byte - b'0',
        b'a'..=b'f' => byte - b'a' + 10,
        _ => 0,
    }
}

// The byte that a text begins with, and what is written after it. A text that ends inside an escape has no more.
fn first_byte(text: &[u8]) -> Option<(u8, &[u8])>
    ensures { IfSome result (λ p. length p.1.now < length text.now) }
{
    match text {
        [b'\\', b'x', high, low, rest @ ..] => Some(((digit(*high) << 4) | digit(*low), rest)),
        [b'\\', b'x', ..] => None,
        [b'\\', b'n', rest @ ..] => Some((b'\n', rest)),
        [b'\\', byte, rest @ ..] => Some((*byte, rest)),
        [b'\\'] => None,
        [byte, rest @ ..] => Some((*byte, rest)),
        [] => None,
    }
}

pub(crate) fn unescaped(alloc: Global, text: &[u8]) -> Result<Vec<u8>, AllocError> {
    let mut bytes = Vec::new(alloc);
    let mut left = text;
    while let Some((byte, rest)) = first_byte(left) {
        bytes.push(byte)?;
        left = rest;
    }
    Ok(bytes)
}
