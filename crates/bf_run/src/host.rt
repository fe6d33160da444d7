//! What a call runs by.

use bf_bench::Gate;
use std::alloc::Global;
use std::sync::Wait;

/// Memory, threads and a gate, which are the caller's.
#[derive(Clone, Copy)]
pub(crate) struct Host<'r, R: Wait, G: Gate> {
    pub alloc: Global,
    pub rt: &'r R,
    pub gate: &'r G,
}
