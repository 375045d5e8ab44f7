//! The gate that each worker passes before it decodes anything.

/// What each worker passes before it decodes anything.
pub trait Gate: Sync {
    /// A worker comes; workers are numbered from 0. It begins once this returns. Each worker calls it once, also one for which
    /// no segment is left.
    fn enter(&self, worker: u32);
}

/// A gate that holds nobody up.
#[derive(Clone, Copy)]
pub struct NoGate;

impl Gate for NoGate {
    fn enter(&self, _worker: u32) {}
}
