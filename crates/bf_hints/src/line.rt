//! A line of a text, with a mark under one of its characters.

use bf_base::Memory;
use std::alloc::Global;

/// How many characters of a line are shown.
const MOST_SHOWN: usize = 72;

/// How many of them stand in front of the mark, where enough stand behind it.
const MOST_BEFORE: usize = 48;

/// What is shown where a part of the line is left out.
const DOTS: &str = "...";

/// What is shown for bytes that are no character, and for characters that are not seen.
const UNSEEN: char = '\u{FFFD}';

/// A place of a text, by the line that it stands in. A line ends at a line feed, with or without a carriage return
/// before it, or with the text.
#[derive(Clone, Copy)]
struct LinePlace<'a> {
    /// Which line it is, counted from 1.
    number: usize,
    /// The bytes of the line in front of the place.
    before: &'a [u8],
    /// The bytes of the line from the place on.
    behind: &'a [u8],
}

impl<'a> LinePlace<'a> {
    /// The place of a byte, counted from 0; of one behind the text it is the text's end.
    fn of(text: &'a [u8], at: usize) -> LinePlace<'a> {
        let (front, rest) = text.split_at(at.min(text.len()));
        let breaks = front.iter().filter(|byte| **byte == b'\n').count();
        let before = front.rsplit(|byte| *byte == b'\n').next().unwrap_or(front);
        let behind = rest.split(|byte| *byte == b'\n').next().unwrap_or(rest);
        LinePlace {
            number: breaks.saturating_add(1),
            before,
            behind: behind.strip_suffix(b"\r").unwrap_or(behind),
        }
    }
}

/// What is shown of a character: most are shown as they are. A mark stays in its place, since each is shown as one.
fn shown(character: char) -> char {
    match character {
        '\t' => '\t',
        '\r' => ' ',
        '\u{A0}' | '\u{AD}' | '\u{FEFF}' => UNSEEN,
        '\u{200B}'..='\u{200F}' | '\u{2028}'..='\u{202E}' | '\u{2060}'..='\u{206F}' => UNSEEN,
        _ if character.is_control() => UNSEEN,
        _ => character,
    }
}

/// What stands under a character: a tab under a tab, which is as wide.
fn under(character: char) -> char {
    if character == '\t' { '\t' } else { ' ' }
}

/// Adds the number of the line in which a byte of a text stands, counted from 0, and of its column; and the line with a
/// mark under that column. A column is one character of UTF-8, or bytes that are none. Of a long line what is near the
/// mark is shown. In time and memory linear in the text.
///
/// # Errors
/// Want of memory.
pub fn put_marked(alloc: Global, text: &[u8], at: usize, told: &mut String) -> Result<(), Memory> {
    let place = LinePlace::of(text, at);
    let before = String::from_utf8_lossy(alloc, place.before)?;
    let behind = String::from_utf8_lossy(alloc, place.behind)?;
    let column = before.as_str().chars().count();
    writeln!(
        told,
        "line {}, column {}:",
        place.number,
        column.saturating_add(1)
    )?;
    put_window(before.as_str(), behind.as_str(), column, told)
}

/// Adds what is shown of a line, of which `column` characters stand in front of the mark, and the mark.
fn put_window(before: &str, behind: &str, column: usize, told: &mut String) -> Result<(), Memory> {
    let length = column.saturating_add(behind.chars().count());
    let start = column
        .saturating_sub(MOST_BEFORE)
        .min(length.saturating_sub(MOST_SHOWN));
    let end = start.saturating_add(MOST_SHOWN);
    let dots = if start > 0 { DOTS } else { "" };
    told.push_str(dots)?;
    for character in before.chars().skip(start) {
        told.push(shown(character))?;
    }
    for character in behind.chars().take(end.saturating_sub(column)) {
        told.push(shown(character))?;
    }
    told.push_str(if end < length { DOTS } else { "" })?;
    told.push('\n')?;
    for character in dots.chars() {
        told.push(under(character))?;
    }
    for character in before.chars().skip(start) {
        told.push(under(character))?;
    }
    told.push_str("^\n")?;
    Ok(())
}
