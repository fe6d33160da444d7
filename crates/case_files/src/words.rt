//! Words of a line, and bytes as cases write them: two hexadecimal digits each, with blanks between.

use anyhow::Context;
use std::alloc::Global;

/// The first word of a line, and the words behind it.
pub fn first_word(line: &str) -> (&str, &str) {
    line.split_once(" ").unwrap_or((line, ""))
}

fn digit(byte: u8) -> Option<u8> {
    match byte {
        b'0'..=b'9' => Some(byte - b'0'),
        b'a'..=b'f' => Some(byte - b'a' + 10),
        _ => None,
    }
}

fn byte_of(word: &str) -> Option<u8> {
    match word.as_bytes() {
        [high, low] => Some(digit(*high)? << 4 | digit(*low)?),
        _ => None,
    }
}

/// The bytes that words write. Fails at the first word that is none.
pub fn bytes_of(alloc: Global, words: &str) -> anyhow::Result<Vec<u8>> {
    let mut bytes = Vec::new(alloc);
    for word in words.split(" ").filter(|word| !word.is_empty()) {
        bytes.push(byte_of(word).context(format_args!("no byte: {word}"))?)?;
    }
    Ok(bytes)
}

/// Adds bytes, with a blank in front of each.
pub fn tell_bytes(bytes: &[u8], told: &mut String) -> anyhow::Result<()> {
    for byte in bytes {
        write!(told, " {byte:02x}")?;
    }
    Ok(())
}
