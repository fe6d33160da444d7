//! Claims of either tracker.

use bf_bits::BitClaim;
use bf_hash::HashClaim;

/// A claim of a granule: one that a bitmap granted, or one that a stripe did.
#[derive(Drop)]
pub enum Claim {
    /// Of a row, by its position.
    Row(BitClaim),
    /// Of a granule that is named by a key. A row's key is the one number of its position.
    Group(HashClaim),
}
