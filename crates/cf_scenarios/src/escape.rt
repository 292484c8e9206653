//! Texts of one line that stand for any bytes.
use cf_rows::Memory;

/// The bytes that a text stands for: `\n` is a line feed, `\s` a space, and `\xHH` the byte with this hexadecimal number.
pub fn unescaped(memory: &mut Memory, text: &str) -> Vec<u8> {
    let mut bytes = Vec::new(memory.alloc);
    for (at, piece) in text.split('\\').enumerate() {
        let (first, rest) = if at == 0 {
            (None, piece.as_bytes())
        } else {
            meant(piece.as_bytes())
        };
        if let Some(first) = first {
            memory.note(bytes.push(first).is_err());
        }
        memory.note(bytes.extend_from_slice(rest).is_err());
    }
    bytes
}

/// The byte that stands behind a backslash, where one does, and what follows it.
fn meant(piece: &[u8]) -> (Option<u8>, &[u8]) {
    match piece {
        [b'n', rest @ ..] => (Some(b'\n'), rest),
        [b's', rest @ ..] => (Some(b' '), rest),
        [b'x', high, low, rest @ ..] => (Some((digit_of(*high) << 4) | digit_of(*low)), rest),
        _ => (None, piece),
    }
}

/// What a hexadecimal digit counts.
fn digit_of(digit: u8) -> u8 {
    match digit {
        b'0'..=b'9' => digit - b'0',
        b'a'..=b'f' => digit - b'a' + 10,
        _ => 0,
    }
}

/// The text that a text of one line stands for, or none where its bytes are no text.
pub fn unescaped_text(memory: &mut Memory, text: &str) -> String {
    let bytes = unescaped(memory, text);
    memory.copy(str::from_utf8(bytes.as_slice()).unwrap_or(""))
}
