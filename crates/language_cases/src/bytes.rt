//! Bytes that are told.

/// Adds bytes that are a text.
pub fn tell_bytes(bytes: &[u8], told: &mut String) -> anyhow::Result<()> {
    told.push_str(str::from_utf8(bytes)?)?;
    Ok(())
}
