//! What the two bits of a granule say.

/// The state of a granule.
#[derive(Clone, Copy, Debug, PartialEq, Eq)]
pub enum Look {
    /// Nobody holds it, and it isn't done.
    Free,
    /// A seat holds it.
    Held,
    /// It is done, and stays so.
    Done,
}
