//! Texts whose tabs are told.

/// Adds a text, with `\x09` for each tab.
pub fn tell_text(text: &str, told: &mut String) -> anyhow::Result<()> {
    for character in text.chars() {
        if character == '\t' {
            told.push_str("\\x09")?;
        } else {
            told.push(character)?;
        }
    }
    Ok(())
}
