//! Settings that a text begins with, each on a line of its own, `NAME VALUE`.

/// The value of a setting, or another one where the text does not begin with it, and what stands behind it.
pub fn setting<'a>(text: &'a str, name: &str, otherwise: &'a str) -> (&'a str, &'a str) {
    match text.strip_prefix(name) {
        Some(behind) => behind.split_once("\n").unwrap_or((behind, "")),
        None => (otherwise, text),
    }
}

/// Adds the numbers of a value.
pub fn put_numbers(value: &str, numbers: &mut Vec<u32>) -> anyhow::Result<()> {
    for word in value.split_whitespace() {
        numbers.push(word.parse::<u32>()?)?;
    }
    Ok(())
}
